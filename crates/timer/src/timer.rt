// What happens to the counter/timer: a tick, an edge, a 1X transmitter clock; a start, a stop, another
// mode.
ghost use Rattle.std.specs.Prelude.{◌≡◌};
ghost use Rattle.timer.specs.Timer.{ticked_by, edged_by, transmitted_by, started_of, stopped_of, mode_changed};

use dividers::{divide, divide_by_16};
use format::Ticks;
use timer_state::{
    Counted, Timer, edge_pulses, is_timer, mode_of, pulse_by, tick_pulses, transmitter_pulses,
};

// Kept: `mode` is a number here and below, for these routines, which docs/ list, take those above 7 too.
// A tick of the crystal. "Both /16 phases always run": in every mode.
pub fn step_by_tick(timer: Timer, mode: u8) -> Counted
    ensures { result ≡ ticked_by timer mode }
{
    let divided = divide(timer.ticks, Ticks(16));
    let phase = divided.phase;
    let mut t = timer;
    t.ticks = phase;
    pulse_by(t, mode, tick_pulses(mode, divided.pulse))
}

// A rising edge of IP2: its phase always runs too.
pub fn step_by_edge(timer: Timer, mode: u8) -> Counted
    ensures { result ≡ edged_by timer mode }
{
    let divided = divide_by_16(timer.edges);
    let phase = divided.phase;
    let mut t = timer;
    t.edges = phase;
    pulse_by(t, mode, edge_pulses(mode, divided.pulse))
}

// "counter from a 1X transmitter clock": which of A and B had a pulse.
pub fn step_by_transmitter(timer: Timer, mode: u8, a: bool, b: bool) -> Timer
    ensures { result ≡ transmitted_by timer mode a b }
{
    let counted = pulse_by(timer, mode, transmitter_pulses(mode, a, b));
    counted.timer
}

// "Counter: start loads the preload and runs"; "Timer: .. start reloads and drives the output high"; order 4: one "that
// takes the output from low to high does set ISR bit 3".
pub fn start_counter(timer: Timer, mode: u8) -> Timer
    ensures { result ≡ started_of timer mode }
{
    let mut t = timer;
    t.count = timer.preload;
    if is_timer(mode) {
        t.ready = timer.ready | !timer.output;
        t.output = true;
        return t;
    }
    t.running = true;
    t
}

// "Counter: .. stop halts and clears the bit"; "Timer: .. stop clears the bit only".
pub fn stop_counter(timer: Timer, mode: u8) -> Timer
    ensures { result ≡ stopped_of timer mode }
{
    let mut t = timer;
    t.ready = false;
    if is_timer(mode) {
        return t;
    }
    t.running = false;
    t
}

// "A change of ACR 6-4 reloads, drives the output high, setting no bit, and runs exactly in timer
// modes.": ACR before and after.
pub fn change_mode(timer: Timer, before: u8, after: u8) -> Timer
    ensures { result ≡ mode_changed timer before after }
{
    let mode = mode_of(after);
    let mut t = timer;
    if mode_of(before) == mode {
        return t;
    }
    t.count = timer.preload;
    t.output = true;
    t.running = is_timer(mode);
    t
}
