// "two bytes a character (data, marks as SR 7-5)"
ghost use Rattle.std.specs.Prelude.{◌+◌, ◌^◌, ◌<◌, ◌≡◌};
ghost use Rattle.text.specs.Puts.{Writes};
ghost use Rattle.vcd_capture.specs.Logs.{marks_byte, character_bytes};

use character::{Character, Marks};
use text::Page;

// "break, framing, parity" where SR has them: bits 7, 6 and 5.
fn marks_byte(marks: Marks) -> u8
    ensures { result ≡ marks_byte marks }
{
    128 * u8::from(marks.broken) + 64 * u8::from(marks.framing) + 32 * u8::from(marks.parity)
}

pub fn put_character(character: Character, log: &mut Page<'_>)
    requires { log.old.at + 2 < 2 ^ 64 }
    ensures { Writes (character_bytes character) log.old log.new }
{
    log.put(character.byte);
    log.put(marks_byte(character.marks));
}
