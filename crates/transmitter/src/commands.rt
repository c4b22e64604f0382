// What the program does to a transmitter: a write, the commands, and a change of mode.
ghost use Rattle.std.specs.Prelude.{◌≡◌};
ghost use Rattle.transmitter.specs.Commands.{written_of, enabled_of, high_after, break_ended, disabled_of, dropped_of};
ghost use Rattle.transmitter.specs.Commands.{reset_of, break_asked, sending_dropped};

use format::Pulses;
use transmitter_state::{AFTER_BREAK, IDLE, IN_BREAK, Transmitter, empty_shifter};

// "A write while disabled is ignored; a second write replaces the first."
pub fn write(transmitter: Transmitter, byte: u8) -> Transmitter
    ensures { result ≡ written_of transmitter byte }
{
    let mut t = transmitter;
    if transmitter.enabled {
        t.full = true;
        t.holding = byte;
        return t;
    }
    t
}

// "01 enable": what is held may start on the next pulse.
pub fn enable(transmitter: Transmitter) -> Transmitter
    ensures { result ≡ enabled_of transmitter }
{
    let mut t = transmitter;
    t.enabled = true;
    t
}

// "TxD is high at once, and for one bit": at 16X the 16th pulse completes it, after 15 more.
fn high_after(transmitter: Transmitter) -> Transmitter
    ensures { result ≡ high_after transmitter }
{
    let left = Pulses(15);
    let mut t = transmitter;
    t.phase = AFTER_BREAK;
    t.left = left;
    t.txd = true;
    t
}

// A break's end: "one not yet begun is just dropped".
pub fn end_break(transmitter: Transmitter) -> Transmitter
    ensures { result ≡ break_ended transmitter }
{
    let mut t = transmitter;
    t.asked = false;
    if transmitter.phase == IN_BREAK {
        return high_after(t);
    }
    t
}

// "Disable lets the shifter finish and keeps the holding place."
pub fn disable(transmitter: Transmitter) -> Transmitter
    ensures { result ≡ disabled_of transmitter }
{
    let mut t = end_break(transmitter);
    t.enabled = false;
    t
}

// "disabled, all dropped, TxD high": what is held is dropped. The high bit after a break is not held but
// owed, and reset is among the three that owe it: "stop, disable or reset ends it".
fn drop_all(transmitter: Transmitter) -> Transmitter
    ensures { result ≡ dropped_of transmitter }
{
    let shifter = empty_shifter();
    let mut t = transmitter;
    t.enabled = false;
    t.full = false;
    t.holding = 0;
    t.shifter = shifter;
    t.txd = true;
    if transmitter.phase == AFTER_BREAK {
        return t;
    }
    t.phase = IDLE;
    t
}

// "3 reset transmitter"
pub fn reset(transmitter: Transmitter) -> Transmitter
    ensures { result ≡ reset_of transmitter }
{
    drop_all(end_break(transmitter))
}

// "start break while disabled is ignored"; while one is being sent there is nothing to ask for.
pub fn ask_break(transmitter: Transmitter) -> Transmitter
    ensures { result ≡ break_asked transmitter }
{
    let mut t = transmitter;
    if transmitter.phase == IN_BREAK {
        return t;
    }
    t.asked = transmitter.asked | transmitter.enabled;
    t
}

// Order 2: "A mode change drops what is being sent (a break too; the holding place stays) .., and holds TxD high
// until the next pulse." No high bit is owed after a break that is dropped, and one that is owed is dropped too;
// a break that is asked stays asked.
pub fn drop_sending(transmitter: Transmitter) -> Transmitter
    ensures { result ≡ sending_dropped transmitter }
{
    let shifter = empty_shifter();
    let mut t = transmitter;
    t.phase = IDLE;
    t.shifter = shifter;
    t.txd = true;
    t
}
