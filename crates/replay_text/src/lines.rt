// The text of what is answered to a line.
ghost use Rattle.std.specs.Prelude.{◌≡◌, [], ◌∷◌, ◌++◌, ◌+◌, ◌^◌, ◌≤◌, ◌<◌, take};
ghost use Rattle.text.specs.Decimal.{decimal_of};
ghost use Rattle.text.specs.Puts.{Writes};
ghost use Rattle.replay_text.specs.Lines.{flag_text, seen_text, error_text, Within};

use records::Seen;
use text::{Page, level_digit};

// Puts a byte in decimal, and then a separator.
pub fn put_byte(byte: u8, separator: u8, page: &mut Page<'_>)
    requires { page.old.at + 4 < 2 ^ 64 }
    ensures within { page.new.at ≤ page.old.at + 4 }
    ensures text { Writes (decimal_of 3 byte ++ separator ∷ []) page.old page.new }
{
    page.put_decimal(u64::from(byte), 3);
    page.put(separator);
}

// Puts 1 or 0, and then a separator.
fn put_flag(flag: bool, separator: u8, page: &mut Page<'_>)
    requires { page.old.at + 2 < 2 ^ 64 }
    ensures within { page.new.at ≡ page.old.at + 2 }
    ensures text { Writes (flag_text flag ++ separator ∷ []) page.old page.new }
{
    page.put(level_digit(flag));
    page.put(separator);
}

// The line of an answer: number, data byte, IRQ, TxDA, TxDB and OP, in decimal, and whether the byte is fresh.
// Kept: a length, for the clause `text` is of `space.new`, which has no value while a part of it is handed back.
pub fn write_seen(seen: Seen, space: &mut [u8; 32]) -> usize
    ensures within { Within result space.new }
    ensures text { take result space.new ≡ seen_text seen.number seen.data seen.irq seen.txda seen.txdb seen.op
        seen.fresh }
{
    let mut page = Page { space, at: 0 };
    put_byte(seen.number, b' ', &mut page);
    put_byte(seen.data, b' ', &mut page);
    put_flag(seen.irq, b' ', &mut page);
    put_flag(seen.txda, b' ', &mut page);
    put_flag(seen.txdb, b' ', &mut page);
    put_byte(seen.op, b' ', &mut page);
    put_flag(seen.fresh, b'\n', &mut page);
    page.at
}

// What is printed for a line that cannot be read: `error line N`.
// Kept: a length, as `write_seen`'s.
pub fn write_error(line: u64, space: &mut [u8; 32]) -> usize
    ensures within { Within result space.new }
    ensures text { take result space.new ≡ error_text line }
{
    let mut page = Page { space, at: 0 };
    page.put_bytes(b"error line ");
    page.put_decimal(line, 20);
    page.put(b'\n');
    page.at
}
