// What a sampler does with a pulse outside a character: it hunts for a start, looks at it again, follows
// a low stop, waits for a break's end.
ghost use Rattle.std.specs.Prelude.{◌≡◌};
ghost use Rattle.sampler_hunting.specs.Hunting.{still, confirmed, low_at, hunted, looked_again, followed, ended};
ghost use Rattle.sampler_hunting.specs.Hunting.{waited};

use character::Character;
use feed::Setting;
use format::{Bits, Pulses};
use sampler_state::{
    AFTER_LOW_STOP, IN_BREAK, Sampler, assembling_at, empty_at, gap, hunting_after, starting_at,
};

// The answer to a pulse.
#[derive(Clone, Copy)]
pub struct Sampled {
    pub next: Sampler,
    // a start was confirmed
    pub started: bool,
    // a character that arrived, if any
    pub came: Option<Character>,
    // break change is set
    pub change: bool,
}

// No start, no character, no break change.
pub fn quiet(next: Sampler) -> Sampled
    ensures { result ≡ still next }
{
    Sampled {
        next: next,
        started: false,
        came: None,
        change: false,
    }
}

// A confirmed start.
fn confirm_start(setting: Setting) -> Sampled
    ensures { result ≡ confirmed setting }
{
    Sampled {
        next: assembling_at(setting, gap(setting.sixteen), Bits(0), 0),
        started: true,
        came: None,
        change: false,
    }
}

// The low pulse p: at 16X "at p+8 it must still be low", at 1X "a start, confirmed at once".
fn low_at(setting: Setting) -> Sampled
    ensures { result ≡ low_at setting }
{
    if setting.sixteen {
        return quiet(starting_at(setting, Pulses(7)));
    }
    confirm_start(setting)
}

// "after a high, a low at pulse p"
pub fn hunt(sampler: Sampler, level: bool, setting: Setting) -> Sampled
    ensures { result ≡ hunted sampler level setting }
{
    if level {
        return quiet(hunting_after(true));
    }
    if sampler.high {
        return low_at(setting);
    }
    quiet(hunting_after(false))
}

// "at p+8 it must still be low, else hunt again"
pub fn look_again(sampler: Sampler, level: bool) -> Sampled
    ensures { result ≡ looked_again sampler level }
{
    if sampler.left.0 == 0 {
        if level {
            let again = hunting_after(true);
            return quiet(again);
        }
        return confirm_start(sampler.setting);
    }
    quiet(starting_at(sampler.setting, Pulses(sampler.left.0 - 1)))
}

// "if low at the 8 next pulses, the last of them counts as a new low at p"
pub fn follow_low_stop(sampler: Sampler, level: bool, setting: Setting) -> Sampled
    ensures { result ≡ followed sampler level setting }
{
    if level {
        return quiet(hunting_after(true));
    }
    if sampler.left.0 == 0 {
        return low_at(setting);
    }
    quiet(empty_at(AFTER_LOW_STOP, false, Pulses(sampler.left.0 - 1)))
}

// A break's end: "then break change is set again".
fn end_break() -> Sampled
    ensures { result ≡ ended }
{
    Sampled {
        next: hunting_after(true),
        started: false,
        came: None,
        change: true,
    }
}

// "hunting waits for 8 high pulses in a row"; at 1X "one high ends a break".
pub fn wait_for_end(sampler: Sampler, level: bool, setting: Setting) -> Sampled
    ensures { result ≡ waited sampler level setting }
{
    if level {
        if setting.sixteen {
            if sampler.left.0 == 0 {
                return end_break();
            }
            return quiet(empty_at(IN_BREAK, false, Pulses(sampler.left.0 - 1)));
        }
        return end_break();
    }
    quiet(empty_at(IN_BREAK, false, Pulses(7)))
}
