// What gives each side of a channel its pulses.
ghost use Rattle.std.specs.Prelude.{◌≡◌};
ghost use Rattle.clocks.specs.Channel.{restarted, restarted_on_change, is_sixteen, ticked_of, side_of, transmitter1x};
ghost use Rattle.clocks.specs.Channel.{clocked_of, side_room, side_passed};

use dividers::{Divided, FAR_OFF, divide, divide_by_16, period_of, room};
use format::{Pulses, Ticks};

// "13: the timer's toggle to high"
// Kept: codes are numbers, for `is_sixteen`, `side_room` and `pass_side`, which docs/ list, take them.
const TIMER_TOGGLE: u8 = 13;

// "14 (16X), 15 (1X)": a pin
const PIN_1X: u8 = 15;

// A channel's phases.
#[repr(C)]
#[derive(Clone, Copy)]
pub struct Phases {
    // of the receiver's divider
    pub receiver: Ticks,
    // of the transmitter's divider
    pub transmitter: Ticks,
    // of the transmitter's 16X pulses, which make its 1X clock
    pub sixteenths: Pulses,
}

// What an event brings to a channel's clocks.
#[derive(Clone, Copy)]
pub struct ClockEvent {
    // a tick of the crystal
    pub tick: bool,
    // the timer toggled to high
    pub toggled: bool,
    // the receiver's clock pin rose
    pub rising: bool,
    // the transmitter's clock pin fell
    pub falling: bool,
}

// A channel's clocks after an event, and what it pulsed.
#[derive(Clone, Copy)]
pub struct Clocked {
    pub phases: Phases,
    pub receiver: bool,
    pub transmitter: bool,
    // the 1X transmitter clock
    pub one: bool,
}

// "A CSR write restarts that channel's phases, the next pulse coming a full period later"; and after a
// chip reset every phase is 0.
pub fn restart() -> Phases
    ensures { result ≡ restarted }
{
    Phases {
        receiver: Ticks(0),
        transmitter: Ticks(0),
        sixteenths: Pulses(0),
    }
}

// "a change of ACR bit 7 restarts all four": ACR before and after.
pub fn restart_on_change(phases: Phases, before: u8, after: u8) -> Phases
    ensures { result ≡ restarted_on_change phases before after }
{
    if before / 128 == after / 128 {
        return phases;
    }
    restart()
}

// "14 (16X), 15 (1X)": every code but 15 gives 16X pulses.
pub fn is_sixteen(code: u8) -> bool
    ensures { result ≡ is_sixteen code }
{
    code != PIN_1X
}

// A side's divider in an event: only a tick moves it.
fn tick_side(phase: Ticks, period: Ticks, tick: bool) -> Divided<Ticks>
    ensures { result ≡ ticked_of phase period tick }
{
    if tick {
        return divide(phase, period);
    }
    Divided {
        phase: phase,
        pulse: false,
    }
}

// One side in an event: its divider for codes 0 to 12, the timer for 13, its pin's edge for 14 and 15.
fn side(phase: Ticks, second: bool, code: u8, event: ClockEvent, edge: bool) -> Divided<Ticks>
    ensures { result ≡ side_of phase second code event edge }
{
    if code < TIMER_TOGGLE {
        return tick_side(phase, period_of(second, code), event.tick);
    }
    if code == TIMER_TOGGLE {
        return Divided {
            phase: phase,
            pulse: event.toggled,
        };
    }
    Divided {
        phase: phase,
        pulse: edge,
    }
}

// The 1X transmitter clock: "every 16th 16X pulse since that phase restarted, or each 1X pulse".
fn transmitter_1x(phase: Pulses, code: u8, pulse: bool) -> Divided<Pulses>
    ensures { result ≡ transmitter1x phase code pulse }
{
    if pulse {
        if is_sixteen(code) {
            return divide_by_16(phase);
        }
        return Divided {
            phase: phase,
            pulse: true,
        };
    }
    Divided {
        phase: phase,
        pulse: false,
    }
}

// A channel's clocks in an event. "CSR bits 7-4 receiver, 3-0 transmitter."; the set is ACR bit 7's.
pub fn clock_channel(phases: Phases, second: bool, csr: u8, event: ClockEvent) -> Clocked
    ensures { result ≡ clocked_of phases second csr event }
{
    let receiver = side(phases.receiver, second, csr / 16, event, event.rising);
    let transmitter = side(phases.transmitter, second, csr % 16, event, event.falling);
    let bit = transmitter_1x(phases.sixteenths, csr % 16, transmitter.pulse);
    let receiver_phase = receiver.phase;
    let transmitter_phase = transmitter.phase;
    let sixteenths = bit.phase;
    Clocked {
        phases: Phases {
            receiver: receiver_phase,
            transmitter: transmitter_phase,
            sixteenths,
        },
        receiver: receiver.pulse,
        transmitter: transmitter.pulse,
        one: bit.pulse,
    }
}

// The room before a side's pulse: its divider's; no tick is a pin's edge, and the timer's toggle is the counter/timer's end.
pub fn side_room(phase: Ticks, second: bool, code: u8) -> Ticks
    ensures { result ≡ side_room phase second code }
{
    if code < TIMER_TOGGLE {
        return room(phase, period_of(second, code));
    }
    Ticks(FAR_OFF)
}

// A side's phase when so many ticks have passed without a pulse of it.
pub fn pass_side(phase: Ticks, code: u8, ticks: Ticks) -> Ticks
    ensures { result ≡ side_passed phase code ticks }
{
    if code < TIMER_TOGGLE {
        return Ticks(phase.0.wrapping_add(ticks.0));
    }
    phase
}
