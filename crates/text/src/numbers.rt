// Numbers that are read in decimal, byte by byte, up to 4,000,000,000: a script's counts, a capture's times, a program's
// arguments.
ghost use Rattle.std.specs.Prelude.{◌-◌, ◌≡◌};
ghost use Rattle.text.specs.Numbers.{digit, value_after, number_after};

pub const MOST: u64 = 4000000000;

// 0 to 9
pub fn is_digit(byte: u8) -> bool
    ensures { result ≡ digit byte }
{
    byte.is_ascii_digit()
}

// The value of a digit.
pub fn digit_value(byte: u8) -> u8
    ensures { result ≡ byte - 48 }
{
    byte.saturating_sub(b'0')
}

// A number, with one byte more that is a digit: none above the most.
fn value_after(number: u64, byte: u8) -> Option<u64>
    ensures { result ≡ value_after number byte }
{
    let longer = number
        .checked_mul(10)?
        .checked_add(u64::from(digit_value(byte)))?;
    if longer <= MOST { Some(longer) } else { None }
}

// A number, with one byte more: none above the most, and none where a byte is no digit.
pub fn number_after(number: Option<u64>, byte: u8) -> Option<u64>
    ensures { result ≡ number_after number byte }
{
    let number = number?;
    if is_digit(byte) {
        value_after(number, byte)
    } else {
        None
    }
}
