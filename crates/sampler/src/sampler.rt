// The sampler: characters put together from the levels of a line, pulse by pulse. It never looks at
// the queue. A disabled receiver is given no pulses, so there is no state for it here.
ghost use Rattle.std.specs.Prelude.{◌≡◌};
ghost use Rattle.sampler.specs.Sampler.{arrived, finished, sampled, assembled, sample_of};

use character::break_character;
use feed::Setting;
use format::{Bits, Pulses};
use sampler_hunting::{Sampled, follow_low_stop, hunt, look_again, quiet, wait_for_end};
use sampler_state::{
    AFTER_LOW_STOP, ASSEMBLING, IN_BREAK, STARTING, Sampler, after_stop, assembling_at,
    character_of, empty_at, gap, samples_before_stop,
};

// "the character arrives at the first stop sample"
fn arrive(setting: Setting, value: u16, stop: bool) -> Sampled
    ensures { result ≡ arrived setting value stop }
{
    Sampled {
        next: after_stop(setting.sixteen, stop),
        started: false,
        came: Some(character_of(setting.format, value, stop)),
        change: false,
    }
}

// The stop sample. "All bits, parity and stop low: a zero with the break mark alone, break change
// set; hunting waits for 8 high pulses in a row".
fn finish(setting: Setting, value: u16, stop: bool) -> Sampled
    ensures { result ≡ finished setting value stop }
{
    if stop {
        return arrive(setting, value, true);
    }
    if value == 0 {
        return Sampled {
            next: empty_at(IN_BREAK, false, Pulses(7)),
            started: false,
            came: Some(break_character()),
            change: true,
        };
    }
    arrive(setting, value, false)
}

// A sample: one bit more above those taken, or the stop.
pub fn take_sample(sampler: Sampler, level: bool) -> Sampled
    ensures { result ≡ sampled sampler level }
{
    let setting = sampler.setting;
    let taken = sampler.taken.0;
    if taken < samples_before_stop(setting.format).0 {
        let weight = 1u16 << taken;
        let below = sampler.value % weight;
        let next = gap(setting.sixteen);
        if level {
            return quiet(assembling_at(setting, next, Bits(taken + 1), below + weight));
        }
        return quiet(assembling_at(setting, next, Bits(taken + 1), below));
    }
    finish(setting, sampler.value, level)
}

// "Then one sample each 16 pulses"
fn assemble(sampler: Sampler, level: bool) -> Sampled
    ensures { result ≡ assembled sampler level }
{
    if sampler.left.0 == 0 {
        return take_sample(sampler, level);
    }
    quiet(assembling_at(
        sampler.setting,
        Pulses(sampler.left.0 - 1),
        sampler.taken,
        sampler.value,
    ))
}

// One pulse of the receiver's clock: the level of the line, and the setting as it stands.
// Kept: a switch by number, for `phase` stands inside `Device`, where no closure and no enum can.
pub fn sample(sampler: Sampler, level: bool, setting: Setting) -> Sampled
    ensures { result ≡ sample_of sampler level setting }
{
    match sampler.phase {
        STARTING => look_again(sampler, level),
        ASSEMBLING => assemble(sampler, level),
        AFTER_LOW_STOP => follow_low_stop(sampler, level, setting),
        IN_BREAK => wait_for_end(sampler, level, setting),
        _ => hunt(sampler, level, setting),
    }
}
