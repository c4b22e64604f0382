// The counter/timer: its modes, which clock pulses it in each, and what a pulse does to it.
ghost use Rattle.std.specs.Prelude.{◌≡◌};
ghost use Rattle.timer_state.specs.Counting.{fresh_timer, mode_of, is_timer, counter_pulsed};
ghost use Rattle.timer_state.specs.Counting.{timer_pulsed, pulsed_by, tick_pulses, edge_pulses, transmitter_pulses};

use format::{Pulses, Ticks};

// "ACR 6-4: 0-3 counter on rising IP2, TxCA 1X, TxCB 1X, ticks/16; 4-7 timer on rising IP2, IP2/16,
// ticks, ticks/16."
// Kept: numbers, for `mode` is a parameter of routines that docs/ list, and takes those above 7 too.
const COUNTER_ON_IP2: u8 = 0;

const COUNTER_ON_TXCA: u8 = 1;

const COUNTER_ON_TXCB: u8 = 2;

const COUNTER_ON_TICKS_16: u8 = 3;

const TIMER_ON_IP2: u8 = 4;

const TIMER_ON_IP2_16: u8 = 5;

const TIMER_ON_TICKS: u8 = 6;

const TIMER_ON_TICKS_16: u8 = 7;

#[repr(C)]
#[derive(Clone, Copy)]
pub struct Timer {
    pub preload: u16,
    pub count: u16,
    // a counter that was started and not stopped; a timer "always runs"
    pub running: bool,
    // the level of the timer output
    pub output: bool,
    // ISR bit 3
    pub ready: bool,
    // "Both /16 phases always run": of the crystal's ticks
    pub ticks: Ticks,
    // and of IP2's rising edges
    pub edges: Pulses,
}

// The counter/timer after what may have pulsed it.
#[derive(Clone, Copy)]
pub struct Counted {
    pub timer: Timer,
    // the timer's toggle to high
    pub toggled: bool,
}

// "preload, count, phase, flag .. 0, counter stopped, timer output high"
pub fn fresh_timer() -> Timer
    ensures { result ≡ fresh_timer }
{
    Timer {
        preload: 0,
        count: 0,
        running: false,
        output: true,
        ready: false,
        ticks: Ticks(0),
        edges: Pulses(0),
    }
}

// ACR bits 6-4.
pub fn mode_of(acr: u8) -> u8
    ensures { result ≡ mode_of acr }
{
    acr / 16 % 8
}

// "0-3 counter .. 4-7 timer"
pub fn is_timer(mode: u8) -> bool
    ensures { result ≡ is_timer mode }
{
    TIMER_ON_IP2 <= mode
}

// "Each pulse takes 1 from the count, modulo 65,536; .. terminal sets ISR bit 3, counting goes on"
fn pulse_counter(timer: Timer) -> Timer
    ensures { result ≡ counter_pulsed timer }
{
    let mut t = timer;
    if timer.running {
        let count = timer.count.wrapping_sub(1);
        t.count = count;
        t.ready = timer.ready | (count == 0);
        return t;
    }
    t
}

// "Each pulse takes 1 from the count, modulo 65,536; .. terminal toggles and reloads; a toggle to high sets ISR bit 3"
fn pulse_timer(timer: Timer) -> Counted
    ensures { result ≡ timer_pulsed timer }
{
    let mut t = timer;
    let count = timer.count.wrapping_sub(1);
    if count == 0 {
        let high = !timer.output;
        t.count = timer.preload;
        t.output = high;
        t.ready = timer.ready | high;
        return Counted {
            timer: t,
            toggled: high,
        };
    }
    t.count = count;
    Counted {
        timer: t,
        toggled: false,
    }
}

// A counter takes a pulse only while it runs; "Timer: always runs".
pub fn pulse_by(timer: Timer, mode: u8, pulse: bool) -> Counted
    ensures { result ≡ pulsed_by timer mode pulse }
{
    if pulse {
        if is_timer(mode) {
            return pulse_timer(timer);
        }
        return Counted {
            timer: pulse_counter(timer),
            toggled: false,
        };
    }
    Counted {
        timer: timer,
        toggled: false,
    }
}

// Whether a tick is a pulse in a mode: every tick, or every 16th.
pub fn tick_pulses(mode: u8, sixteenth: bool) -> bool
    ensures { result ≡ tick_pulses mode sixteenth }
{
    (mode == TIMER_ON_TICKS)
        | (((mode == COUNTER_ON_TICKS_16) | (mode == TIMER_ON_TICKS_16)) & sixteenth)
}

// Whether a rising edge of IP2 is: every one, or every 16th.
pub fn edge_pulses(mode: u8, sixteenth: bool) -> bool
    ensures { result ≡ edge_pulses mode sixteenth }
{
    (mode == COUNTER_ON_IP2) | (mode == TIMER_ON_IP2) | ((mode == TIMER_ON_IP2_16) & sixteenth)
}

// Whether the 1X transmitter clocks are, of A and of B.
pub fn transmitter_pulses(mode: u8, a: bool, b: bool) -> bool
    ensures { result ≡ transmitter_pulses mode a b }
{
    ((mode == COUNTER_ON_TXCA) & a) | ((mode == COUNTER_ON_TXCB) & b)
}
