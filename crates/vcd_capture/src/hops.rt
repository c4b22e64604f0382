// Pulses that find one level, as many at a time as only pass: a receiver looks at its line once in a while, so that a line
// where nothing happens takes no step for each of its pulses.
ghost use Rattle.std.specs.Prelude.{◌≤◌, ◌<◌, ◌≡◌};
ghost use Rattle.vcd_capture.specs.Hops.{fewer, fewer_left, one_pulse, staying, Hops};

use character::Character;
use feed::Setting;
use format::Pulses;
use sampler::take_sample;
use sampler_hunting::{Sampled, follow_low_stop, hunt, look_again, wait_for_end};
use sampler_state::{
    AFTER_LOW_STOP, ASSEMBLING, IN_BREAK, STARTING, Sampler, assembling_at, empty_at,
    hunting_after, starting_at,
};

// Some pulses: the receiver after them, and the character that they brought, if any.
#[derive(Clone, Copy)]
pub struct Hopped {
    pub sampler: Sampler,
    pub came: Option<Character>,
    pub pulses: u64,
}

// Kept: a function, for its name says how many pulses it was, as `Hopped::from(sampled)` would not.
fn one_pulse(sampled: Sampled) -> Hopped
    ensures { result ≡ one_pulse sampled }
{
    Hopped {
        sampler: sampled.next,
        came: sampled.came,
        pulses: 1,
    }
}

fn stay(sampler: Sampler, pulses: u64) -> Hopped
    ensures { result ≡ staying sampler pulses }
{
    Hopped {
        sampler,
        came: None,
        pulses,
    }
}

// The pulses before the one that decides, at most so many.
fn pass(left: Pulses, most: u64) -> u64
    ensures { result ≡ fewer left most }
{
    most.min(u64::from(left.0))
}

fn left_after(left: Pulses, most: u64) -> Pulses
    ensures { result ≡ fewer_left left most }
{
    Pulses(left.0 - pass(left, most) as u8)
}

// Passed over: in a start and in a character the pulses before the one that decides, in a break the lows, and where a
// receiver hunts all but a low after a high.
// Kept: a switch by number, as `sample`'s; level and setting apart, as `sample`, which docs/ list, takes them.
pub fn hop(sampler: Sampler, level: bool, setting: Setting, most: u64) -> Hopped
    requires { 0 < most }
    ensures { Hops sampler level setting most result }
{
    let left = sampler.left;
    if sampler.phase == STARTING {
        if left.0 == 0 {
            return one_pulse(look_again(sampler, level));
        }
        return stay(
            starting_at(sampler.setting, left_after(left, most)),
            pass(left, most),
        );
    }
    if sampler.phase == ASSEMBLING {
        if left.0 == 0 {
            return one_pulse(take_sample(sampler, level));
        }
        let next = assembling_at(
            sampler.setting,
            left_after(left, most),
            sampler.taken,
            sampler.value,
        );
        return stay(next, pass(left, most));
    }
    if sampler.phase == AFTER_LOW_STOP {
        return one_pulse(follow_low_stop(sampler, level, setting));
    }
    if sampler.phase == IN_BREAK {
        if level {
            return one_pulse(wait_for_end(sampler, level, setting));
        }
        return stay(empty_at(IN_BREAK, false, Pulses(7)), most);
    }
    if level | !sampler.high {
        return stay(hunting_after(level), most);
    }
    one_pulse(hunt(sampler, level, setting))
}
