// For each character a line `A DATA MARKS`, both in decimal.
ghost use Rattle.std.specs.Prelude.{◌+◌, ◌*◌, ◌^◌, ◌<◌, length};
ghost use Rattle.text.specs.Puts.{Writes};
ghost use Rattle.capture.specs.Lines.{character_line, character_lines};

use replay_text::put_byte;
use text::Page;

// Kept: `letter` is a letter that is printed, and no kind.
fn put_line(letter: u8, data: u8, marks: u8, page: &mut Page<'_>)
    requires { page.old.at + 10 < 2 ^ 64 }
    ensures { Writes (character_line letter «data» marks) page.old page.new }
{
    page.put(letter);
    page.put(b' ');
    put_byte(data, b' ', page);
    put_byte(marks, b'\n', page);
}

// The lines of a channel, one for each two bytes of its log.
pub fn put_lines(letter: u8, log: &[u8], page: &mut Page<'_>)
    requires { page.old.at + 5 * length log.now < 2 ^ 64 }
    ensures { Writes (character_lines letter log.now) page.old page.new }
{
    let (characters, _) = log.as_chunks::<2>();
    for &[data, marks] in characters {
        put_line(letter, data, marks, page);
    }
}
