// Order 7: "Read a capture from the mill."
ghost use Rattle.std.specs.Prelude.{◌^◌, ◌<◌, ◌≡◌, length};
ghost use Rattle.vcd_capture.specs.Capture.{setting_of, end_of, CaptureMet, handed_of};

use crate::ear::{Wire, hear_wire};
use dividers::period_of;
use feed::Setting;
use format::{format_of, mr1_not_modelled};
use refusal::Refusal;
use vcd_read::{Times, scan};

// "for a given MR1, ACR bit 7 and CSR code 0 to 12"
#[derive(Clone, Copy)]
pub struct Asked {
    pub mr1: u8,
    pub acr7: bool,
    pub code: u8,
}

// How much of each log is filled.
// Kept: lengths beside the logs, for a slice handed back would leave no clause on `log_a.new` and `log_b.new`.
#[derive(Clone, Copy)]
pub struct Captured {
    pub length_a: usize,
    pub length_b: usize,
}

// Kept: `front_side_clocks` has one by the code: shared, it would be a public function for one struct written out.
fn setting_of(mr1: u8) -> Setting
    ensures { result ≡ setting_of mr1 }
{
    Setting {
        format: format_of(mr1),
        sixteen: true,
    }
}

fn end_of(times: Times) -> u64
    ensures { (result ≡ end_of times) × (result < 2 ^ 33) }
{
    match times.last {
        Some(last) => u64::from(last) + 1,
        None => 0,
    }
}

// "There are two lent logs, one per channel": both are filled, or neither. The characters are heard into no log first, which
// counts them.
// Kept: six parameters, for docs/ list it and `capture` so, and C hands them over one by one.
pub fn read_capture(
    asked: Asked,
    text: &[u8],
    name_a: &[u8],
    name_b: &[u8],
    log_a: &mut [u8],
    log_b: &mut [u8],
) -> Result<Captured, Refusal>
    ensures { CaptureMet asked text.now name_a.now name_b.now
        log_a.old log_b.old log_a.new log_b.new result }
{
    if mr1_not_modelled(asked.mr1) | (12 < asked.code) {
        return Err(Refusal::SettingNotModelled);
    }
    let found = scan(text, name_a, name_b)?;
    let lines = &text[found.body..];
    let period = period_of(asked.acr7, asked.code).0;
    let setting = setting_of(asked.mr1);
    let wire_a = Wire {
        code: found.code_a,
        period,
        setting,
    };
    let wire_b = Wire {
        code: found.code_b,
        period,
        setting,
    };
    let end = end_of(found.times);
    let mut none = [0u8; 0];
    let length_a = hear_wire(lines, wire_a, end, &mut none);
    let length_b = hear_wire(lines, wire_b, end, &mut none);
    if (log_a.len() < length_a) | (log_b.len() < length_b) {
        return Err(Refusal::SpaceShort);
    }
    hear_wire(lines, wire_a, end, log_a);
    hear_wire(lines, wire_b, end, log_b);
    Ok(Captured { length_a, length_b })
}

// "the part is then empty", where the call is refused
const UNFILLED: Captured = Captured {
    length_a: 0,
    length_b: 0,
};

// "Two lent log slices; the returned part comes from the one that the channel names."
pub fn capture<'a>(
    asked: Asked,
    text: &[u8],
    name_a: &[u8],
    name_b: &[u8],
    log_a: &'a mut [u8],
    log_b: &'a mut [u8],
    channel_b: bool,
) -> &'a mut [u8]
    ensures { result.now ≡ handed_of asked text.now name_a.now name_b.now
        (length log_a.old) (length log_b.old) channel_b }
{
    let captured = read_capture(asked, text, name_a, name_b, log_a, log_b);
    let filled = captured.unwrap_or(UNFILLED);
    if channel_b {
        return &mut log_b[..filled.length_b];
    }
    &mut log_a[..filled.length_a]
}
