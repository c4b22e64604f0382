// What MR1 and MR2 choose.
ghost use Rattle.std.specs.Prelude.{◌≡◌};
ghost use Rattle.format.specs.Format.{mr1_not_modelled, mr2_not_modelled, format_of, stop_code_of};

use crate::counts::Bits;

// What MR1 says of a character: transmitter and receiver both go by it. The stop code stands in MR2
// and is the transmitter's alone.
#[repr(C)]
#[derive(Clone, Copy)]
pub struct Format {
    // data bits
    pub width: Bits,
    // 0 with parity, 1 forced, 2 none; 3 is not modelled, and has no parity bit
    // Kept: a number, for `Format` stands inside `Device` and crosses to C.
    pub parity: u8,
    // odd, or forced high
    pub odd: bool,
}

// "Not modelled (5): MR1 bit 7 set or bits 4-3 = 11"
pub fn mr1_not_modelled(mr1: u8) -> bool
    ensures { result ≡ mr1_not_modelled mr1 }
{
    (mr1 / 128 % 2 == 1) | (mr1 / 8 % 4 == 3)
}

// "MR2 .. bit 5 set"; order 2: "5 no longer covers MR2 bits 7-6".
pub fn mr2_not_modelled(mr2: u8) -> bool
    ensures { result ≡ mr2_not_modelled mr2 }
{
    mr2 / 32 % 2 == 1
}

// "MR1: .. 4-3 parity 00 with, 01 forced, 10 none; 2 odd, or forced high; 1-0 data bits less 5."
pub fn format_of(mr1: u8) -> Format
    ensures { result ≡ format_of mr1 }
{
    Format {
        width: Bits(mr1 % 4 + 5),
        parity: mr1 / 8 % 4,
        odd: mr1 / 4 % 2 == 1,
    }
}

// "MR2: .. 3-0 stop code c."
pub fn stop_code_of(mr2: u8) -> u8
    ensures { result ≡ stop_code_of mr2 }
{
    mr2 % 16
}
