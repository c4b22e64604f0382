// A frame's bits, its levels and its length.
ghost use Rattle.std.specs.Prelude.{◌≡◌, ◌<◌, ◌/◌, ◌%◌, ◌^◌, eqb};
ghost use Rattle.format.specs.Format.{format_of, stop_code_of};
ghost use Rattle.frame.specs.Levels.{frame_bits_of, level_of, bits_before_stop_of, frame_length_of};

use format::{
    Bits, Pulses, cut, format_of, has_parity, parity_bit, stop_bits, stop_code_of, stop_length,
};

// The bits before the stop as a shift register holds them, the lowest first on the line, and high
// past them.
#[repr(C)]
#[derive(Clone, Copy)]
pub struct FrameBits(pub u16);

// "Start bit 0, data lowest bit first, parity if any"
pub fn frame_bits(mr1: u8, byte: u8) -> FrameBits
    ensures { result ≡ frame_bits_of (format_of mr1) byte }
{
    let format = format_of(mr1);
    let data = cut(byte, format.width) as u32;
    let w = format.width.0;
    // the weight of the first place past the start bit and the data: high, as all above it are,
    // unless it is a low parity bit
    let past: u32 = 2 << w;
    let register = 65536 - past + 2 * data;
    let parity_low = has_parity(format) & !parity_bit(format, byte);
    if parity_low {
        return FrameBits((register - past) as u16);
    }
    FrameBits(register as u16)
}

// Bit n of a register, the lowest first: n lies within it.
fn bit_of(register: u16, n: u8) -> bool
    requires { n < 16 }
    ensures { result ≡ eqb (register / 2 ^ n % 2) 1 }
{
    (register >> n) % 2 == 1
}

// The level of a frame's bit, counted from the start bit, and of the line past it.
pub fn level_of(frame: FrameBits, at: Bits) -> bool
    ensures { result ≡ level_of frame at }
{
    let n = at.0;
    if n < 16 {
        return bit_of(frame.0, n);
    }
    true
}

// The start bit, the data bits and the parity bit, if any.
fn bits_before_stop(mr1: u8) -> Bits
    ensures { result ≡ bits_before_stop_of (format_of mr1) }
{
    let format = format_of(mr1);
    if has_parity(format) {
        return Bits(format.width.0 + 2);
    }
    Bits(format.width.0 + 1)
}

// "frame length is the format's sum": the pulses from the start bit's first to the stop's last.
pub fn frame_length(mr1: u8, mr2: u8, sixteen: bool) -> Pulses
    ensures { result ≡ frame_length_of sixteen (format_of mr1) (stop_code_of mr2) }
{
    let bits = bits_before_stop(mr1);
    let code = stop_code_of(mr2);
    if sixteen {
        let format = format_of(mr1);
        return Pulses(16 * bits.0 + stop_length(format.width, code).0);
    }
    Pulses(bits.0 + stop_bits(code).0)
}
