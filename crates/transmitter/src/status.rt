// TxRDY and TxEMT.
ghost use Rattle.std.specs.Prelude.{◌≡◌};
ghost use Rattle.transmitter.specs.Status.{shifter_empty, status_of};

use transmitter_state::{SENDING, Transmitter};

#[derive(Clone, Copy)]
pub struct TransmitterStatus {
    // TxRDY
    pub ready: bool,
    // TxEMT
    pub empty: bool,
}

// Whether the shifter holds no character. Source 004 sets TxEMT after the last stop bit: a frame's last
// pulse lasts its time, and on the one after it the shifter is empty, or holds the next character.
fn shifter_empty(transmitter: Transmitter) -> bool
    ensures { result ≡ shifter_empty transmitter }
{
    transmitter.phase != SENDING
}

// "TxRDY: enabled and holding place empty. TxEMT: enabled, holding place and shifter empty."
pub fn transmitter_status(transmitter: Transmitter) -> TransmitterStatus
    ensures { result ≡ status_of transmitter }
{
    let ready = transmitter.enabled & !transmitter.full;
    TransmitterStatus {
        ready: ready,
        empty: ready & shifter_empty(transmitter),
    }
}
