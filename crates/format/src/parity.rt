// The parity bit of a character.
ghost use Rattle.std.specs.Prelude.{◌≡◌};
ghost use Rattle.format.specs.Digits.{cut_of, bits_of, odd_ones};
ghost use Rattle.format.specs.Parity.{data_bits, has_parity_of, parity_bit_of};

use crate::counts::Bits;
use crate::format::Format;

// "parity 00 with, 01 forced, 10 none"
// Kept: the kinds are numbers: `Format`, which has one, stands inside `Device` and crosses to C.
const WITH: u8 = 0;

const NONE: u8 = 2;

// The character that a byte is with so many data bits: "255 with 5 bits: data 31".
pub fn cut(byte: u8, width: Bits) -> u8
    ensures { result ≡ cut_of width.0 byte }
{
    let w = width.0;
    if w < 8 {
        return byte % (1 << w);
    }
    byte
}

// Whether an odd number of a byte's bits are 1.
fn odd_ones(byte: u8) -> bool
    ensures { result ≡ odd_ones (bits_of 8 byte) }
{
    byte.count_ones() % 2 == 1
}

// "parity if any"
pub fn has_parity(format: Format) -> bool
    ensures { result ≡ has_parity_of format }
{
    format.parity < NONE
}

// Whether an odd number of the data bits in use are 1.
fn odd_data(format: Format, byte: u8) -> bool
    ensures { result ≡ odd_ones (data_bits format byte) }
{
    odd_ones(cut(byte, format.width))
}

// The parity bit of a byte in a format: over the data bits in use, or forced. With none there is no
// such bit, as `has_parity` tells, and the answer is that of forced.
pub fn parity_bit(format: Format, byte: u8) -> bool
    ensures { result ≡ parity_bit_of format byte }
{
    if format.parity == WITH {
        if format.odd {
            return !odd_data(format, byte);
        }
        return odd_data(format, byte);
    }
    format.odd
}
