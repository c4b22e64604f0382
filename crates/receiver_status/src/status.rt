// What a receiver shows of itself in the status register.
ghost use Rattle.std.specs.Prelude.{◌≡◌};
ghost use Rattle.receiver_status.specs.Status.{shown_marks, status_of};

use character::Marks;
use queue::{is_empty, is_full};
use receiver_state::{Receiver, oldest_marks};

// "SR bits 7-0: break, framing, parity, overrun, TxEMT, TxRDY, FFULL, RxRDY": the receiver's six.
#[derive(Clone, Copy)]
pub struct Status {
    // bits 7 to 5
    pub marks: Marks,
    // bit 4
    pub overrun: bool,
    // bit 1, FFULL
    pub full: bool,
    // bit 0, RxRDY
    pub ready: bool,
}

// MR1 bit 5 chooses block errors.
fn shown_marks(receiver: Receiver, block: bool) -> Marks
    ensures { result ≡ shown_marks receiver block }
{
    if block {
        return receiver.sums;
    }
    oldest_marks(receiver.queue)
}

pub fn show_status(receiver: Receiver, block: bool) -> Status
    ensures { result ≡ status_of receiver block }
{
    Status {
        marks: shown_marks(receiver, block),
        overrun: receiver.overrun,
        full: is_full(receiver.queue),
        ready: !is_empty(receiver.queue),
    }
}
