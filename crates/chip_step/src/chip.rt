// One event, one answer.
ghost use Rattle.std.specs.Prelude.{◌≡◌};
ghost use Rattle.refusal.specs.Refusal.{number_of};
ghost use Rattle.chip_step.specs.Chip.{taken_of, refusal_lines, refused_of, accepted_of, step_of};

use chip_answers::{Lines, event_data, event_fresh, no_lines};
use chip_device::{Device, device_lines, is_sound};
use chip_refusals::first_refusal;
use chip_shown::show_channel;
use events::Event;
use front_events::step_front;
use receiver::feed_receiver;
use refusal::Refusal;

// "The answer has the number, the data byte (0 where none is read), IRQ (1 when asserted), TxDA, TxDB, the OP0-OP7
// levels and the new state."; order 1: "The receive buffer read shall also say fresh or stale".
// Kept: a number, for document 01 says that the answer has one, and `demands` names it; `fresh`, as in `Fed`.
#[repr(C)]
#[derive(Clone, Copy)]
pub struct Answer {
    pub state: Device,
    pub number: u8,
    pub byte: u8,
    pub fresh: bool,
    pub lines: Lines,
}

// The new state, before it is looked at, the data byte, and whether it is fresh.
// Kept: a flag beside the byte, as in `Fed`.
#[derive(Clone, Copy)]
pub struct Taken {
    pub state: Device,
    pub byte: u8,
    pub fresh: bool,
}

// What an event does where no row refuses it: the front is stepped, and each receiver takes what it is handed.
fn take_event(device: Device, event: Event) -> Taken
    ensures { result ≡ taken_of device event }
{
    let handed = step_front(device.front, event);
    let front = handed.front;
    let feed_a = handed.a;
    let feed_b = handed.b;
    let a = feed_receiver(device.a, feed_a);
    let b = feed_receiver(device.b, feed_b);
    let receiver_a = a.receiver;
    let receiver_b = b.receiver;
    let shown_a = show_channel(device.front.a, device.a);
    let shown_b = show_channel(device.front.b, device.b);
    let byte = event_data(device.front, shown_a, shown_b, a.byte, b.byte, event);
    let fresh = event_fresh(a.fresh, b.fresh, event);
    Taken {
        state: Device {
            front: front,
            a: receiver_a,
            b: receiver_b,
        },
        byte: byte,
        fresh: fresh,
    }
}

// "lines as that state drives them (for 1, all lines 0)"
fn refusal_lines(device: Device, refusal: Refusal) -> Lines
    ensures { result ≡ refusal_lines device (number_of refusal) }
{
    match refusal {
        Refusal::StateUnsound => no_lines(),
        _ => device_lines(device),
    }
}

// "Refused: data 0, the state as given"; order 1: "a refused read .. is stale".
fn refuse(device: Device, refusal: Refusal) -> Answer
    ensures { result ≡ refused_of device (number_of refusal) }
{
    let lines = refusal_lines(device, refusal);
    Answer {
        number: refusal.number(),
        byte: 0,
        fresh: false,
        lines: lines,
        state: device,
    }
}

fn accept(taken: Taken) -> Answer
    ensures { result ≡ accepted_of taken }
{
    let state = taken.state;
    Answer {
        number: 0,
        byte: taken.byte,
        fresh: taken.fresh,
        lines: device_lines(state),
        state: state,
    }
}

// The first row that applies answers; 7, "the new state would be unsound", is looked at last.
pub fn step(device: Device, event: Event) -> Answer
    ensures { result ≡ step_of device event }
{
    if let Some(refusal) = first_refusal(device, event) {
        return refuse(device, refusal);
    }
    let taken = take_event(device, event);
    if is_sound(taken.state) {
        return accept(taken);
    }
    refuse(device, Refusal::NewStateUnsound)
}
