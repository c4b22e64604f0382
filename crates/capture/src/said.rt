// What is printed of a text that is not too long.
ghost use Rattle.std.specs.Prelude.{◌≡◌, ◌+◌, ◌^◌, ◌<◌, length, take};
ghost use Rattle.text.specs.Puts.{Writes};
ghost use Rattle.replay_text.specs.Lines.{Within};
ghost use Rattle.capture.specs.Said.{refused_text, printed_of, Lent};

use crate::lines::put_lines;
use replay_text::put_byte;
use text::Page;
use vcd_capture::{Asked, read_capture};

// A refused call is one line, `refused N`.
// Kept: the number, for it is printed.
fn put_refused(number: u8, page: &mut Page<'_>)
    requires { page.old.at + 12 < 2 ^ 64 }
    ensures { Writes (refused_text number) page.old page.new }
{
    page.put_bytes(b"refused ");
    put_byte(number, b'\n', page);
}

// All lines of A first, in order, then all of B.
// Kept: a length, for the clause `text` says what `space.new` holds; the parameters are `read_capture`'s.
pub fn put_said(
    asked: Asked,
    text: &[u8],
    name_a: &[u8],
    name_b: &[u8],
    log_a: &mut [u8],
    log_b: &mut [u8],
    space: &mut [u8],
) -> usize
    requires { Lent log_a.old log_b.old space.old }
    ensures within { Within result space.new }
    ensures text { take result space.new ≡ printed_of asked text.now name_a.now
        name_b.now (length log_a.old) (length log_b.old) }
{
    let mut page = Page { space, at: 0 };
    match read_capture(asked, text, name_a, name_b, log_a, log_b) {
        Ok(captured) => {
            put_lines(b'A', &log_a[..captured.length_a], &mut page);
            put_lines(b'B', &log_b[..captured.length_b], &mut page);
        }
        Err(refusal) => put_refused(refusal.number(), &mut page),
    }
    page.at
}
