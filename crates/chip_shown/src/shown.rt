// The status register, and the interrupt status register.
ghost use Rattle.std.specs.Prelude.{◌≡◌};
ghost use Rattle.chip_shown.specs.Shown.{status_register, received_of, channel_shown, interrupt_status};

use byte_bits::byte_of;
use front_modes::show_sender;
use front_side::Side;
use receiver_state::Receiver;
use receiver_status::{Status, show_status};
use transmitter::TransmitterStatus;

// What a channel shows in SR and ISR.
#[derive(Clone, Copy)]
pub struct Shown {
    // SR
    pub status: u8,
    // break change
    pub change: bool,
    // "Rx A", "Rx B"
    pub received: bool,
    // TxRDY
    pub ready: bool,
}

// "SR bits 7-0: break, framing, parity, overrun, TxEMT, TxRDY, FFULL, RxRDY."
fn status_register(status: Status, transmitter: TransmitterStatus) -> u8
    ensures { result ≡ status_register status transmitter }
{
    let marks = status.marks;
    byte_of(
        marks.broken,
        marks.framing,
        marks.parity,
        status.overrun,
        transmitter.empty,
        transmitter.ready,
        status.full,
        status.ready,
    )
}

// "MR1: bit 6 FFULL instead of RxRDY for ISR"
fn received_of(mr1: u8, status: Status) -> bool
    ensures { result ≡ received_of mr1 status }
{
    if mr1 / 64 % 2 == 1 {
        return status.full;
    }
    status.ready
}

// "MR1: .. 5 block errors"
pub fn show_channel(side: Side, receiver: Receiver) -> Shown
    ensures { result ≡ channel_shown side receiver }
{
    let status = show_status(receiver, side.mr1 / 32 % 2 == 1);
    let sender = show_sender(side);
    Shown {
        status: status_register(status, sender),
        change: receiver.change,
        received: received_of(side.mr1, status),
        ready: sender.ready,
    }
}

// "ISR bits 7-0: input change, break change B, Rx B, TxRDYB, counter, break change A, Rx A, TxRDYA."
pub fn interrupt_status(input: bool, counter: bool, a: Shown, b: Shown) -> u8
    ensures { result ≡ interrupt_status input counter a b }
{
    byte_of(
        input, b.change, b.received, b.ready, counter, a.change, a.received, a.ready,
    )
}
