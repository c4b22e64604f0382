// Order 6: "From a sound state and a list of up to 1,000,000 events, write a value change dump (IEEE 1364) into lent
// space".
ghost use Rattle.std.specs.Prelude.{◌≡◌, length};
ghost use Rattle.refusal.specs.Refusal.{number_of};
ghost use Rattle.vcd_dump.specs.Dump.{dumped_of, space_after};

use crate::waves::write_waves;
use chip_device::{Device, is_sound};
use refusal::Refusal;

// The number, and "the length (0 if refused)".
// Kept: a number and a length, and a struct of its own beside `FrameAnswer` and `CaptureAnswer`, for C names it.
#[repr(C)]
#[derive(Clone, Copy)]
pub struct DumpAnswer {
    pub number: u8,
    pub length: usize,
}

const MOST_EVENTS: usize = 1000000;

fn refuse(refusal: Refusal) -> DumpAnswer
    ensures { result ≡ record { number = number_of refusal; length = 0 } }
{
    DumpAnswer {
        number: refusal.number(),
        length: 0,
    }
}

// "Refusals, in this order: 1, 9 for a longer list, 8 for short space, which then stays": the text is written into no
// space first, which measures it.
pub fn dump(device: Device, events: &[u8], space: &mut [u8]) -> DumpAnswer
    ensures answer { result ≡ dumped_of device events.now (length space.old) }
    ensures space { space.new ≡ space_after device events.now space.old }
{
    if !is_sound(device) {
        return refuse(Refusal::StateUnsound);
    }
    if events.len() / 3 > MOST_EVENTS {
        return refuse(Refusal::OverLimit);
    }
    let mut none = [0u8; 0];
    let needed = write_waves(device, events, &mut none);
    if space.len() < needed {
        return refuse(Refusal::SpaceShort);
    }
    let length = write_waves(device, events, space);
    DumpAnswer {
        number: 0,
        length: length,
    }
}
