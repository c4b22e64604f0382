// The lines after the header, all of them: whether they are in the subset, and their times.
ghost use Rattle.std.specs.Prelude.{◌≡◌};
ghost use Rattle.vcd_read.specs.Scan.{not_later, times_said, in_table, checked_by, checked_of, unchecked};

use vcd_lines::{Reading, Said, say, start, take};

// The last time, where there is one, and whether one was "not later than the one before".
#[derive(Clone, Copy)]
pub struct Times {
    pub last: Option<u32>,
    pub late: bool,
}

#[derive(Clone, Copy)]
pub struct Checked {
    pub reading: Reading,
    pub times: Times,
}

fn not_later(time: u32, last: Option<u32>) -> bool
    ensures { result ≡ not_later time last }
{
    last.is_some_and(|last| time <= last)
}

fn add_said(times: Times, said: Said) -> Times
    ensures { result ≡ times_said times said }
{
    match said {
        Said::TimeLine(time) => Times {
            last: Some(time),
            late: times.late | not_later(time, times.last),
        },
        Said::NoLine | Said::ValueLine(_, _) => times,
    }
}

fn check_byte(checked: Checked, byte: u8, known: bool) -> Checked
    ensures { result ≡ checked_by checked byte known }
{
    let times = add_said(checked.times, say(checked.reading, byte));
    let reading = take(checked.reading, byte, known);
    Checked { reading, times }
}

// A code is known where the table has it.
pub fn check(text: &[u8], codes: &[bool; 256]) -> Checked
    ensures { result ≡ checked_of (in_table codes.now) unchecked text.now }
{
    let mut checked = Checked {
        reading: start(),
        times: Times {
            last: None,
            late: false,
        },
    };
    for byte in text {
        checked = check_byte(checked, *byte, codes[*byte as usize]);
    }
    checked
}
