// The queue of three and the waiting place. It moves characters whole: it never looks into one, and
// never at the sampler.
ghost use Rattle.std.specs.Prelude.{◌≡◌};
ghost use Rattle.queue.specs.Queue.{empty_queue, is_empty_of, is_full_of, oldest_of, waits_of, put_of, without_waiting_of};
ghost use Rattle.queue.specs.Queue.{took_of, replaced_of};

use character::{Character, no_character};

// Those held, the oldest first: `count` of them, from 0 to 4. The fourth is the one that waits.
// Kept: a count beside four places, for `Queue` stands inside `Device` and crosses to C.
#[repr(C)]
#[derive(Clone, Copy)]
pub struct Queue {
    pub count: u8,
    pub first: Character,
    pub second: Character,
    pub third: Character,
    pub waiting: Character,
}

pub fn empty_queue() -> Queue
    ensures { result ≡ empty_queue }
{
    Queue {
        count: 0,
        first: no_character(),
        second: no_character(),
        third: no_character(),
        waiting: no_character(),
    }
}

// RxRDY is its contrary: "queue not empty".
pub fn is_empty(queue: Queue) -> bool
    ensures { result ≡ is_empty_of queue }
{
    queue.count == 0
}

// "FFULL: three in the queue."
// Kept: this and `one_waits` are two names that docs/ list; one with a const parameter would say less.
pub fn is_full(queue: Queue) -> bool
    ensures { result ≡ is_full_of queue }
{
    queue.count >= 3
}

// The oldest, where one is held.
pub fn oldest(queue: Queue) -> Character
    ensures { result ≡ oldest_of queue }
{
    queue.first
}

// Whether a character waits.
// Kept: as `is_full`.
pub fn one_waits(queue: Queue) -> bool
    ensures { result ≡ waits_of queue }
{
    queue.count >= 4
}

// "An arrival goes to the queue of three, or waits when that is full."
pub fn put(queue: Queue, character: Character) -> Queue
    ensures { result ≡ put_of queue character }
{
    let mut q = queue;
    match queue.count {
        0 => q.first = character,
        1 => q.second = character,
        2 => q.third = character,
        _ => q.waiting = character,
    }
    q.count = queue.count.min(3) + 1;
    q
}

// "A confirmed start while one waits removes the waiting one".
pub fn remove_waiting(queue: Queue) -> Queue
    ensures { result ≡ without_waiting_of queue }
{
    let mut rest = queue;
    if one_waits(queue) {
        rest.count = 3;
    }
    rest
}

// "A read takes the oldest and moves the waiting one up".
pub fn take_oldest(queue: Queue) -> Queue
    ensures { result ≡ took_of queue }
{
    let mut q = queue;
    if queue.count == 0 {
        return q;
    }
    let second = queue.second;
    let third = queue.third;
    let waiting = queue.waiting;
    q.count = queue.count - 1;
    q.first = second;
    q.second = third;
    q.third = waiting;
    q
}

// The oldest, if there is one, becomes this one.
pub fn replace_oldest(queue: Queue, character: Character) -> Queue
    ensures { result ≡ replaced_of queue character }
{
    let mut replaced = queue;
    replaced.first = character;
    replaced
}
