// The frame request.
ghost use Rattle.std.specs.Prelude.{◌≡◌, ◌≤◌, length};
ghost use Rattle.request.specs.Request.{granted_answer, request_of, open_levels, over_front, space_after};

use format::{Bits, Pulses, mr1_not_modelled, mr2_not_modelled};
use frame::{frame_bits, frame_length, level_of};
use refusal::Refusal;

// What a frame request answers: the number of document 01's table, and the pulses written.
// Kept: a number, and a struct of its own beside `DumpAnswer` and `CaptureAnswer`, for C names it and reads it.
#[repr(C)]
#[derive(Clone, Copy)]
pub struct FrameAnswer {
    pub number: u8,
    pub length: Pulses,
}

// "Checked in this order": the frame's length, where neither row refuses it a space so long.
fn grant(mr1: u8, mr2: u8, space: usize) -> Result<Pulses, Refusal>
    ensures { granted_answer result ≡ request_of mr1 mr2 space }
{
    if mr1_not_modelled(mr1) | mr2_not_modelled(mr2) {
        return Err(Refusal::SettingNotModelled);
    }
    let pulses = frame_length(mr1, mr2, true);
    if space < pulses.0 as usize {
        return Err(Refusal::SpaceShort);
    }
    Ok(pulses)
}

// Writes the levels of so many pulses, a byte each, over the front of the space: the bits of a frame, and high past
// them.
fn write_levels(mr1: u8, byte: u8, pulses: Pulses, space: &mut [u8])
    requires { pulses.0 ≤ length space.old }
    ensures { space.new ≡ over_front (open_levels mr1 byte pulses.0) pulses.0 space.old }
{
    let bits = frame_bits(mr1, byte);
    for i in 0..pulses.0 {
        space[i as usize] = u8::from(level_of(bits, Bits(i / 16)));
    }
}

// "A separate request writes a frame's levels, one byte 0 or 1 per 16X pulse, at most 192, from
// MR1, MR2 and a byte; space past it stays. It answers the number and the length, 0 if refused."
pub fn request_frame(mr1: u8, mr2: u8, byte: u8, space: &mut [u8]) -> FrameAnswer
    ensures answer { result ≡ request_of mr1 mr2 (length space.old) }
    ensures space { space.new ≡ space_after mr1 mr2 byte space.old }
{
    match grant(mr1, mr2, space.len()) {
        Ok(length) => {
            write_levels(mr1, byte, length, space);
            FrameAnswer { number: 0, length }
        }
        Err(refusal) => FrameAnswer {
            number: refusal.number(),
            length: Pulses(0),
        },
    }
}
