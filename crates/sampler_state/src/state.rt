// What a sampler is doing, and the pulses it lets pass before it looks again.
ghost use Rattle.std.specs.Prelude.{◌≡◌, false};
ghost use Rattle.sampler_state.specs.State.{no_setting, empty_at, hunting, starting, assembling, gap_of, after_stop};

use feed::Setting;
use format::{Bits, Pulses};

// What the sampler is doing, its `phase`. Any other number hunts.
// Kept: numbers, for `Sampler`, which has one, stands inside `Device` and crosses to C.
pub const HUNTING: u8 = 0;

// a low was seen at p and is looked at again at p+8
pub const STARTING: u8 = 1;

// a start was confirmed: the character is being put together
pub const ASSEMBLING: u8 = 2;

// the 8 pulses, or the one, after a low stop
pub const AFTER_LOW_STOP: u8 = 3;

// the wait for a break's end
pub const IN_BREAK: u8 = 4;

#[repr(C)]
#[derive(Clone, Copy)]
pub struct Sampler {
    pub phase: u8,
    // hunting: the last sample was high
    pub high: bool,
    // the pulses still to come before the one that decides, so 0 means the next one does
    pub left: Pulses,
    // taken at the low pulse p
    pub setting: Setting,
    // samples taken since the confirmed start
    pub taken: Bits,
    // those samples as a number, the first one lowest
    pub value: u16,
}

// What stands for a setting while none is taken: that of a chip reset's registers.
pub fn no_setting() -> Setting
    ensures { result ≡ no_setting }
{
    Setting {
        format: format::format_of(0),
        sixteen: true,
    }
}

// A sampler that has nothing of a character yet.
pub fn empty_at(phase: u8, high: bool, left: Pulses) -> Sampler
    ensures { result ≡ empty_at phase high left }
{
    Sampler {
        phase: phase,
        high: high,
        left: left,
        setting: no_setting(),
        taken: Bits(0),
        value: 0,
    }
}

pub fn hunting_after(high: bool) -> Sampler
    ensures { result ≡ hunting high }
{
    empty_at(HUNTING, high, Pulses(0))
}

// "Disable drops the character being put together and ends the wait for a break's end, no more." "A
// receiver just enabled must sample a high before a low counts": both leave a sampler that hunts and
// has seen no high.
pub fn drop_assembly() -> Sampler
    ensures { result ≡ hunting false }
{
    hunting_after(false)
}

// A sampler between the low at p and the pulse p+8.
pub fn starting_at(setting: Setting, left: Pulses) -> Sampler
    ensures { result ≡ starting setting left }
{
    Sampler {
        phase: STARTING,
        high: false,
        left: left,
        setting: setting,
        taken: Bits(0),
        value: 0,
    }
}

// A sampler in which a character is being put together.
pub fn assembling_at(setting: Setting, left: Pulses, taken: Bits, value: u16) -> Sampler
    ensures { result ≡ assembling setting left taken value }
{
    Sampler {
        phase: ASSEMBLING,
        high: false,
        left: left,
        setting: setting,
        taken: taken,
        value: value,
    }
}

// "Then one sample each 16 pulses"; "At 1X each pulse is a sample": the pulses passed over.
pub fn gap(sixteen: bool) -> Pulses
    ensures { result ≡ gap_of sixteen }
{
    if sixteen {
        return Pulses(15);
    }
    Pulses(0)
}

// What a character leaves behind: after a high stop the hunt; after a low one the 8 pulses next to
// it at 16X, and at 1X just the next, "What follows a low stop goes by that character's 16X or 1X".
pub fn after_stop(sixteen: bool, stop: bool) -> Sampler
    ensures { result ≡ after_stop sixteen stop }
{
    if stop {
        return hunting_after(true);
    }
    if sixteen {
        return empty_at(AFTER_LOW_STOP, false, Pulses(7));
    }
    empty_at(AFTER_LOW_STOP, false, Pulses(0))
}
