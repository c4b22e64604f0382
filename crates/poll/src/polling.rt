// "one call over a lent list of event records, up to 4,096, with the answers, less the states, written to a second
// lent list, equal to the same events one by one; the last state is returned"
ghost use Rattle.std.specs.Prelude.{◌≡◌};
ghost use Rattle.poll.specs.Step.{turn_of};
ghost use Rattle.poll.specs.Poll.{seen_in, is_refused, poll_refusal, polled_of, answers_after};
ghost use Rattle.refusal.specs.Refusal.{answer_number};

use chip_device::{Device, is_sound};
use chip_fast::sound_step;
use chip_step::Answer;
use records::{EventRecord, Seen, event_of, seen_of};
use refusal::Refusal;

// "the call itself answers 0", or why it is refused; "the count says how many were written"; "the last state"
// Kept: a number, for order 5 has a poll answer one, and `PolledSeen`, which C reads, shows it.
#[repr(C)]
#[derive(Clone, Copy)]
pub struct Polled {
    pub number: u8,
    pub count: usize,
    pub state: Device,
}

const MOST_EVENTS: usize = 4096;

// "Refusals, in this order and before any event: 1, 8 for answer space shorter than the list, 9 for a list .. over its
// limit"
fn poll_refusal(device: Device, length: usize, space: usize) -> Option<Refusal>
    ensures { answer_number result ≡ poll_refusal device length space }
{
    if !is_sound(device) {
        return Some(Refusal::StateUnsound);
    }
    if space < length {
        return Some(Refusal::SpaceShort);
    }
    if length > MOST_EVENTS {
        return Some(Refusal::OverLimit);
    }
    None
}

// The parts of an answer, and the poll's put together.
pub fn state_in(answer: Answer) -> Device
    ensures { result ≡ answer.state }
{
    answer.state
}

// Kept: no From<Answer> for Seen: neither type is this crate's, so that Rust's orphan rule leaves it no place here.
pub fn seen_in(answer: Answer) -> Seen
    ensures { result ≡ seen_in answer }
{
    let lines = answer.lines;
    seen_of(answer.number, answer.byte, answer.fresh, lines)
}

fn is_refused(answer: Answer) -> bool
    ensures { result ≡ is_refused answer }
{
    answer.number != 0
}

fn end_poll(number: u8, count: usize, state: Device) -> Polled
    ensures { result ≡ record { number = number; count = count; state = state } }
{
    Polled {
        number: number,
        count: count,
        state: state,
    }
}

// What a device that is known to be sound answers to a record.
fn turn(device: Device, event: EventRecord) -> Answer
    ensures { result ≡ turn_of device event }
{
    sound_step(device, event_of(event))
}

// "It ends at the first refused event; answers up to and including that one are written, later ones stay"
pub fn poll(device: Device, events: &[EventRecord], answers: &mut [Seen]) -> Polled
    ensures { (result ≡ polled_of device events.now answers.old)
        × (answers.new ≡ answers_after device events.now answers.old) }
{
    if let Some(refusal) = poll_refusal(device, events.len(), answers.len()) {
        return end_poll(refusal.number(), 0, device);
    }
    let mut state = device;
    for (i, event) in events.iter().enumerate() {
        let answer = turn(state, *event);
        let seen = seen_in(answer);
        // Kept: a place by its index, for the edit `one_event_too_many` goes past the end of both lists.
        answers[i] = seen;
        let next = state_in(answer);
        state = next;
        if is_refused(answer) {
            return end_poll(0, i + 1, state);
        }
    }
    end_poll(0, events.len(), state)
}
