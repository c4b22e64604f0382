// What a feed does to a receiver: a pulse, a command, a read, a chip reset.
ghost use Rattle.std.specs.Prelude.{◌≡◌};
ghost use Rattle.receiver.specs.Receiver.{oldest_read, read_of, unread, fed_of};

use character::or_marks;
use feed::Feed;
use queue::{is_empty, oldest, take_oldest};
use receiver_commands::{take_effect, take_enabling};
use receiver_state::{Receiver, fresh_receiver, oldest_marks, pulse};

// The receiver after a feed, and what a read answers: the byte, 0 where none is read, and whether it is fresh.
// Kept: a flag beside the byte and no Option, for a stale read has a byte too: "repeats the last byte read".
#[derive(Clone, Copy)]
pub struct Fed {
    pub receiver: Receiver,
    pub byte: u8,
    pub fresh: bool,
}

// The oldest is taken: its byte is the last byte read, and the next one, if any, becomes oldest.
fn read_oldest(receiver: Receiver) -> Receiver
    ensures { result ≡ oldest_read receiver }
{
    let mut r = receiver;
    let top = oldest(receiver.queue);
    let queue = take_oldest(receiver.queue);
    let sums = or_marks(receiver.sums, oldest_marks(queue));
    r.queue = queue;
    r.sums = sums;
    r.last = top.byte;
    r
}

// "reading an empty queue repeats the last byte read (0 after a chip reset) and takes nothing"; order 1: "fresh
// exactly when RxRDY was set before it".
fn read(receiver: Receiver) -> Fed
    ensures { result ≡ read_of receiver }
{
    if is_empty(receiver.queue) {
        return Fed {
            receiver: receiver,
            byte: receiver.last,
            fresh: false,
        };
    }
    let top = oldest(receiver.queue);
    Fed {
        receiver: read_oldest(receiver),
        byte: top.byte,
        fresh: true,
    }
}

// A feed that reads nothing answers 0; order 1: "any other event is stale".
fn no_read(receiver: Receiver) -> Fed
    ensures { result ≡ unread receiver }
{
    Fed {
        receiver: receiver,
        byte: 0,
        fresh: false,
    }
}

// One feed: "bits 6-4 first", then bits 1-0.
pub fn feed_receiver(receiver: Receiver, feed: Feed) -> Fed
    ensures { result ≡ fed_of receiver feed }
{
    match feed {
        Feed::Nothing => no_read(receiver),
        Feed::Pulse(level, setting) => no_read(pulse(receiver, level, setting)),
        Feed::Command(effect, enabling) => no_read(take_enabling(
            take_effect(receiver, effect),
            enabling,
        )),
        Feed::Read => read(receiver),
        Feed::ChipReset => no_read(fresh_receiver()),
    }
}
