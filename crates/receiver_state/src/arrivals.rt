// One receiver: sampler and queue side by side, and what a pulse does to it.
ghost use Rattle.std.specs.Prelude.{◌≡◌};
ghost use Rattle.receiver_state.specs.Arrivals.{fresh_receiver, oldest_marks, heard_of, started_of, entered_of};
ghost use Rattle.receiver_state.specs.Arrivals.{arrived_of, pulsed_of};

use character::{Character, Marks, no_marks, or_marks};
use feed::Setting;
use queue::{Queue, empty_queue, is_empty, oldest, one_waits, put, remove_waiting};
use sampler::sample;
use sampler_state::{Sampler, drop_assembly};

#[repr(C)]
#[derive(Clone, Copy)]
pub struct Receiver {
    pub sampler: Sampler,
    pub queue: Queue,
    // the overrun mark
    pub overrun: bool,
    // the marks of all that became oldest, for block errors
    pub sums: Marks,
    // break change
    pub change: bool,
    // the last byte read
    pub last: u8,
}

pub fn fresh_receiver() -> Receiver
    ensures { result ≡ fresh_receiver }
{
    Receiver {
        sampler: drop_assembly(),
        queue: empty_queue(),
        overrun: false,
        sums: no_marks(),
        change: false,
        last: 0,
    }
}

// "Character errors: SR 7-5 show the oldest's marks, 0 if none."
pub fn oldest_marks(queue: Queue) -> Marks
    ensures { result ≡ oldest_marks queue }
{
    if is_empty(queue) {
        return no_marks();
    }
    let c = oldest(queue);
    c.marks
}

// The sampler goes on, and break change may be set.
fn hear(receiver: Receiver, next: Sampler, change: bool) -> Receiver
    ensures { result ≡ heard_of receiver next change }
{
    let mut r = receiver;
    r.sampler = next;
    r.change = receiver.change | change;
    r
}

// "A confirmed start while one waits removes the waiting one and sets overrun."
fn start(receiver: Receiver, started: bool) -> Receiver
    ensures { result ≡ started_of receiver started }
{
    let mut r = receiver;
    if started {
        let rest = remove_waiting(receiver.queue);
        r.queue = rest;
        r.overrun = receiver.overrun | one_waits(receiver.queue);
        return r;
    }
    r
}

// A character arrives. Into an empty queue it becomes oldest, and its marks join the sums.
fn enter(receiver: Receiver, character: Character) -> Receiver
    ensures { result ≡ entered_of receiver character }
{
    let mut r = receiver;
    let q = put(receiver.queue, character);
    r.queue = q;
    if is_empty(receiver.queue) {
        let sums = or_marks(receiver.sums, character.marks);
        r.sums = sums;
        return r;
    }
    r
}

fn arrive(receiver: Receiver, came: Option<Character>) -> Receiver
    ensures { result ≡ arrived_of receiver came }
{
    match came {
        None => receiver,
        Some(character) => enter(receiver, character),
    }
}

// One pulse: what the sampler answers to it, the confirmed start first.
pub fn pulse(receiver: Receiver, level: bool, setting: Setting) -> Receiver
    ensures { result ≡ pulsed_of receiver level setting }
{
    let answer = sample(receiver.sampler, level, setting);
    let heard = hear(receiver, answer.next, answer.change);
    let begun = start(heard, answer.started);
    let came = answer.came;
    arrive(begun, came)
}
