// The counter/timer while ticks pass that do not bring it to its end.
ghost use Rattle.std.specs.Prelude.{◌≡◌};
ghost use Rattle.timer.specs.Passing.{runs_in, sixteenths_room, running_room, timer_room, counted_by, pulses_in};
ghost use Rattle.timer.specs.Passing.{timer_passed};

use dividers::FAR_OFF;
use format::Ticks;
use timer_state::{Timer, is_timer, tick_pulses};

// Kept: `mode` is a number, for `timer_room` and `pass_timer`, which docs/ list, take those above 7 too.
// A counter takes a pulse only while it runs; "Timer: always runs".
fn runs(timer: Timer, mode: u8) -> bool
    ensures { result ≡ runs_in timer mode }
{
    is_timer(mode) | timer.running
}

// "Each pulse takes 1 from the count, modulo 65,536": so many pulses.
fn count_on(count: u16, pulses: u64) -> u16
    ensures { result ≡ counted_by count pulses }
{
    count.wrapping_sub((pulses % 65536) as u16)
}

// The ticks that pass before the 16th that is one pulse too many.
fn sixteenths_room(phase: Ticks, pulses: u16) -> Ticks
    ensures { result ≡ sixteenths_room phase pulses }
{
    if phase.0 < 16 {
        return Ticks(15 - phase.0 + 16 * (pulses as u64));
    }
    Ticks(0)
}

// Where it runs: every tick is a pulse, or every 16th, or none.
fn running_room(timer: Timer, mode: u8) -> Ticks
    ensures { result ≡ running_room timer mode }
{
    let pulses = count_on(timer.count, 1);
    if tick_pulses(mode, false) {
        return Ticks(pulses as u64);
    }
    if tick_pulses(mode, true) {
        return sixteenths_room(timer.ticks, pulses);
    }
    Ticks(FAR_OFF)
}

// The room before the end: the ticks that pass before the one that is terminal.
pub fn timer_room(timer: Timer, mode: u8) -> Ticks
    ensures { result ≡ timer_room timer mode }
{
    if runs(timer, mode) {
        return running_room(timer, mode);
    }
    Ticks(FAR_OFF)
}

// The pulses in so many ticks: every tick, or every 16th, or none.
fn pulses_in(timer: Timer, mode: u8, ticks: Ticks) -> u64
    ensures { result ≡ pulses_in timer mode ticks }
{
    if tick_pulses(mode, false) {
        return ticks.0;
    }
    if tick_pulses(mode, true) {
        return timer.ticks.0.wrapping_add(ticks.0) / 16;
    }
    0
}

// So many ticks within its room. "Both /16 phases always run": in every mode.
pub fn pass_timer(timer: Timer, mode: u8, ticks: Ticks) -> Timer
    ensures { result ≡ timer_passed timer mode ticks }
{
    let phase = timer.ticks.0.wrapping_add(ticks.0) % 16;
    let mut t = timer;
    t.ticks.0 = phase;
    if runs(timer, mode) {
        let count = count_on(timer.count, pulses_in(timer, mode, ticks));
        t.count = count;
        return t;
    }
    t
}
