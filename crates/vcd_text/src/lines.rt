// The lines of the text, put on a page.
ghost use Rattle.std.specs.Prelude.{◌≡◌, [], ◌+◌, ◌^◌, ◌<◌};
ghost use Rattle.format.specs.Pick.{pick};
ghost use Rattle.format.specs.Digits.{bits_of};
ghost use Rattle.text.specs.Puts.{Puts, Writes};
ghost use Rattle.vcd_text.specs.Header.{header_of, chip_wires};
ghost use Rattle.vcd_text.specs.Changes.{time_line, value_line, value_lines};
ghost use Rattle.vcd_text.specs.Words.{written_before, changes_text};

use crate::time::tick_time;
use text::{Page, level_digit};

// "`$timescale 1 ns $end`, .. `$enddefinitions $end`": all lines before the first time.
pub fn put_header<'a>(space: &'a mut [u8]) -> Page<'a>
    ensures same { result.space.ghost_name ≡ space.entry.ghost_name }
    ensures puts { Puts 0 (header_of chip_wires) space.old result.space.now result.at }
{
    let mut page = Page { space, at: 0 };
    page.put_bytes(
        b"\
        $timescale 1 ns $end\n\
        $scope module duart $end\n\
        $var wire 1 ! TxDA $end\n\
        $var wire 1 \" TxDB $end\n\
        $var wire 1 # IRQ $end\n\
        $var wire 1 $ OP0 $end\n\
        $var wire 1 % OP1 $end\n\
        $var wire 1 & OP2 $end\n\
        $var wire 1 ' OP3 $end\n\
        $var wire 1 ( OP4 $end\n\
        $var wire 1 ) OP5 $end\n\
        $var wire 1 * OP6 $end\n\
        $var wire 1 + OP7 $end\n\
        $upscope $end\n\
        $enddefinitions $end\n",
    );
    page
}

// "`#` with the time"
fn put_time(tick: u32, page: &mut Page<'_>)
    requires { page.old.at + 22 < 2 ^ 64 }
    ensures { Writes (time_line tick) page.old page.new }
{
    page.put(b'#');
    page.put_decimal(tick_time(tick), 20);
    page.put(b'\n');
}

// "lines such as `1!`", one where there is something to write
fn put_value(changed: bool, level: bool, code: u8, page: &mut Page<'_>)
    requires { page.old.at + 3 < 2 ^ 64 }
    ensures { Writes (pick changed (value_line code level) []) page.old page.new }
{
    if changed {
        page.put(level_digit(level));
        page.put(code);
        page.put(b'\n');
    }
}

// The values of a time, a bit for each wire, "written where they differ from those written before"; all, where none
// was.
// Kept: a flag beside the word, for the clause's `written_before` takes both.
fn put_values(none: bool, before: u16, values: u16, page: &mut Page<'_>)
    requires { page.old.at + 33 < 2 ^ 64 }
    ensures { Writes (value_lines 33 (written_before none 11 before) (bits_of 11 values)) page.old page.new }
{
    let mut old = before;
    let mut new = values;
    for code in b'!'..=b'+' {
        let changed = none || old % 2 != new % 2;
        put_value(changed, new % 2 == 1, code, page);
        old /= 2;
        new /= 2;
    }
}

// "all values at time 0, then only times with changes": what is written at a tick's time.
// Kept: three parameters of a wave, for docs/ list it so.
pub fn put_changes(tick: u32, before: u16, values: u16, page: &mut Page<'_>)
    requires { (page.old.at + 55 < 2 ^ 64) × (before < 2 ^ 11) × (values < 2 ^ 11) }
    ensures { Writes (changes_text tick before values) page.old page.new }
{
    if tick == 0 {
        put_time(tick, page);
        put_values(true, before, values, page);
        return;
    }
    if before == values {
        return;
    }
    put_time(tick, page);
    put_values(false, before, values, page);
}
