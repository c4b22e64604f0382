// The stop length, in sixteenths of a bit with a 16X clock and in whole bits with a 1X clock.
ghost use Rattle.std.specs.Prelude.{◌≡◌};
ghost use Rattle.format.specs.Stop.{stop_length_of, stop_bits_of};

use crate::counts::{Bits, Pulses};

// "Stop length in sixteenths: for 5 data bits 17+c; for 6 to 8, 9+c for c up to 7, else 17+c." Order 3: "work it out
// from the two formulas instead".
pub fn stop_length(width: Bits, code: u8) -> Pulses
    ensures { result ≡ stop_length_of width code }
{
    let c = code % 16;
    if width.0 == 5 {
        return Pulses(c + 17);
    }
    if c < 8 {
        return Pulses(c + 9);
    }
    Pulses(c + 17)
}

// "With a 1X clock: one bit, two if bit 3 is set."
pub fn stop_bits(code: u8) -> Bits
    ensures { result ≡ stop_bits_of code }
{
    if code / 8 % 2 == 1 {
        return Bits(2);
    }
    Bits(1)
}
