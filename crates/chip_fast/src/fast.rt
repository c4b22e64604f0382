// The step, with short ways for a tick: rows 2 to 6 refuse none, and row 7 none of a sound device, so that soundness is asked
// once and the new state not looked at.
ghost use Rattle.std.specs.Prelude.{◌≡◌};
ghost use Rattle.events.specs.declared.events.Event.TheVariants.{Acknowledge};
ghost use Rattle.chip_step.specs.Chip.{refused_of, step_of};
ghost use Rattle.chip_fast.specs.Fast.{is_tick, at_rest, full_of, sound_tick, sound_answer, hop_of};

use crate::passing::{front_room, has_room, pass_counts, pass_device};
use chip_answers::no_lines;
use chip_device::{Device, device_lines, is_sound};
use chip_step::{Answer, step};
use events::Event;
use format::Ticks;
use front_clocks::tick_front;
use receiver::feed_receiver;
use refusal::Refusal;

#[tactic(auto, unfolding(crate::specs::Fast::is_tick))]
fn is_tick(event: Event) -> bool
    ensures { result ≡ is_tick event }
{
    matches!(event, Event::Tick)
}

// Accepted, no data, "lines as that state drives them": the answer to a tick that left this state, and what a program knows
// of a device before it has done anything to it.
pub fn at_rest(state: Device) -> Answer
    ensures { result ≡ at_rest state }
{
    Answer {
        state: state,
        number: 0,
        byte: 0,
        fresh: false,
        lines: device_lines(state),
    }
}

// Any tick: the front is stepped, and each receiver takes what it is handed.
fn tick_fully(device: Device) -> Device
    ensures { result ≡ full_of device }
{
    let handed = tick_front(device.front);
    let front = handed.front;
    let feed_a = handed.a;
    let feed_b = handed.b;
    let a = feed_receiver(device.a, feed_a);
    let b = feed_receiver(device.b, feed_b);
    let receiver_a = a.receiver;
    let receiver_b = b.receiver;
    Device {
        front: front,
        a: receiver_a,
        b: receiver_b,
    }
}

// 1: "the state given is unsound"; "data 0, the state as given, .. (for 1, all lines 0)".
fn refuse_unsound(device: Device) -> Answer
    ensures { result ≡ refused_of device 1 }
{
    Answer {
        number: Refusal::StateUnsound.number(),
        byte: 0,
        fresh: false,
        lines: no_lines(),
        state: device,
    }
}

// "acknowledge then reads IVR and changes nothing": the lines of the state given are those of the new one, and row 6, "acknowledge
// while IRQ is not asserted", is told by them.
fn acknowledge(device: Device) -> Answer
    ensures { result ≡ step_of device Acknowledge }
{
    let mut answer = refuse_unsound(device);
    if is_sound(device) {
        let lines = device_lines(device);
        answer.lines = lines;
        if lines.irq {
            answer.number = 0;
            answer.byte = device.front.ivr;
        } else {
            answer.number = Refusal::AcknowledgeUnasserted.number();
        }
    }
    answer
}

// Every event but a tick. It and `tick_sound` are called at two places, so that they are compiled apart: within them they
// would cut the device up into its fields.
fn answer_other(device: Device, event: Event) -> Answer
    ensures { result ≡ step_of device event }
{
    match event {
        Event::Acknowledge => acknowledge(device),
        other => step(device, event),
    }
}

// A tick of a device that is known to be sound. A still one is answered in place: no line changes, and six fields move.
// `look` is what is read and lent, so that of the device itself only these fields are taken out; the answer begins as a
// refusal, which is the device as it is.
fn tick_sound(device: Device) -> Answer
    ensures { result ≡ sound_tick device }
{
    let look = device;
    let mut answer = refuse_unsound(device);
    if has_room(look.front) {
        // Kept: six fields, as in `pass_device`: a method for both would be lent the answer, which is then copied.
        let counts = pass_counts(look.front, Ticks(1));
        answer.state.front.a.phases.receiver.0 = counts.rxca.0;
        answer.state.front.a.phases.transmitter.0 = counts.txca.0;
        answer.state.front.b.phases.receiver.0 = counts.rxcb.0;
        answer.state.front.b.phases.transmitter.0 = counts.txcb.0;
        answer.state.front.timer.count = counts.count;
        answer.state.front.timer.ticks.0 = counts.ticks.0;
        let lines = device_lines(look);
        answer.number = 0;
        answer.lines = lines;
    } else {
        let full = at_rest(tick_fully(look));
        answer = full;
    }
    answer
}

// One event of a device that is known to be sound: who has asked once need not ask again, for every event leaves a sound
// one.
pub fn sound_step(sound: Device, event: Event) -> Answer
    ensures { result ≡ sound_answer sound event }
{
    if is_tick(event) {
        return tick_sound(sound);
    }
    answer_other(sound, event)
}

// One event, one answer: `step`'s.
pub fn swift_step(device: Device, event: Event) -> Answer
    ensures { result ≡ step_of device event }
{
    if is_tick(event) {
        if is_sound(device) {
            return tick_sound(device);
        }
        return refuse_unsound(device);
    }
    answer_other(device, event)
}

// So many still ticks, and the device after them and one tick more, of any kind.
#[derive(Clone, Copy)]
pub struct Hopped {
    pub still: Ticks,
    pub state: Device,
}

// At most so many still ticks, as many as there is room for, and then one of any kind.
pub fn hop(device: Device, most: Ticks) -> Hopped
    ensures { result ≡ hop_of device most }
{
    let still = Ticks(front_room(device.front).0.min(most.0));
    let state = tick_fully(pass_device(device, still));
    Hopped {
        still: still,
        state: state,
    }
}
