// A pulse of the transmitter's clock: a start, the next level of a frame, a break, the high after it.
ghost use Rattle.std.specs.Prelude.{◌≡◌, false, ◌&&◌, eqb, ltb};
ghost use Rattle.transmitter_state.specs.State.{sending};
ghost use Rattle.transmitter_state.specs.Sending.{clear_to_send, can_start, taken_of, started_of, break_begun, idle_of};
ghost use Rattle.transmitter_state.specs.Sending.{begun_of, bit_of_pulse, held_high, pulsed_of};

use crate::state::{AFTER_BREAK, IDLE, IN_BREAK, SENDING, Shifter, Transmitter};
use format::{Bits, Pulses};

// What a pulse finds: the mode registers, 16X or 1X, and the level of CTS, as they stand.
#[derive(Clone, Copy)]
pub struct Standing {
    pub mr1: u8,
    pub mr2: u8,
    // 16X rather than 1X
    pub sixteen: bool,
    // the level of the channel's CTS pin
    pub cts: bool,
}

// "CTS (if chosen; IP0 for A, IP1 for B) is low": "MR2: bit 4 CTS".
fn clear_to_send(standing: Standing) -> bool
    ensures { result ≡ clear_to_send standing }
{
    (standing.mr2 / 16 % 2 != 1) | !standing.cts
}

// "if enabled, idle, the holding place is full and CTS .. is low": what is asked of a transmitter that
// is idle.
fn can_start(transmitter: Transmitter, standing: Standing) -> bool
    ensures { result ≡ can_start transmitter standing }
{
    transmitter.enabled & transmitter.full & clear_to_send(standing)
}

// "Format and 16X or 1X are taken when a character starts": on the start bit's first pulse.
fn take_frame(byte: u8, standing: Standing) -> Shifter
    ensures { result ≡ taken_of byte standing }
{
    Shifter {
        frame: frame::frame_bits(standing.mr1, byte),
        sixteen: standing.sixteen,
        length: frame::frame_length(standing.mr1, standing.mr2, standing.sixteen),
        sent: Pulses(1),
    }
}

// The character leaves the holding place: "Start bit 0".
fn start(transmitter: Transmitter, standing: Standing) -> Transmitter
    ensures { result ≡ started_of transmitter standing }
{
    let shifter = take_frame(transmitter.holding, standing);
    let mut t = transmitter;
    t.full = false;
    t.phase = SENDING;
    t.shifter = shifter;
    t.txd = false;
    t
}

// "A break begins on a pulse".
fn begin_break(transmitter: Transmitter) -> Transmitter
    ensures { result ≡ break_begun transmitter }
{
    let mut t = transmitter;
    t.phase = IN_BREAK;
    t.asked = false;
    t.txd = false;
    t
}

// Idle: TxD is high, as it is in a stop.
fn go_idle(transmitter: Transmitter) -> Transmitter
    ensures { result ≡ idle_of transmitter }
{
    let mut t = transmitter;
    t.phase = IDLE;
    t.txd = true;
    t
}

// A pulse that finds the transmitter idle. "A break begins on a pulse, when idle and no character can
// start".
fn begin(transmitter: Transmitter, standing: Standing) -> Transmitter
    ensures { result ≡ begun_of transmitter standing }
{
    if can_start(transmitter, standing) {
        return start(transmitter, standing);
    }
    if transmitter.asked {
        return begin_break(transmitter);
    }
    go_idle(transmitter)
}

// The bit of a frame that a pulse falls into, both counted from 0: 16 pulses a bit, or 1.
fn bit_of_pulse(sixteen: bool, pulse: Pulses) -> Bits
    ensures { result ≡ bit_of_pulse sixteen pulse }
{
    if sixteen {
        return Bits(pulse.0 / 16);
    }
    Bits(pulse.0)
}

// "and for one bit (16 pulses, or 1) before a start or a new break", by CSR as it stands.
fn hold_high(transmitter: Transmitter, standing: Standing) -> Transmitter
    ensures { result ≡ held_high transmitter standing }
{
    if standing.sixteen {
        if transmitter.left.0 == 0 {
            return go_idle(transmitter);
        }
        let left = Pulses(transmitter.left.0 - 1);
        let mut t = transmitter;
        t.left = left;
        return t;
    }
    go_idle(transmitter)
}

// A pulse that finds no frame under way. In a break it does nothing: "stop, disable or reset ends it,
// nothing else".
fn pulse_between(transmitter: Transmitter, standing: Standing) -> Transmitter
    requires { (eqb transmitter.phase sending
        && ltb transmitter.shifter.sent.0 transmitter.shifter.length.0) ≡ false }
    ensures { result ≡ pulsed_of transmitter standing }
{
    if transmitter.phase == IN_BREAK {
        return transmitter;
    }
    if transmitter.phase == AFTER_BREAK {
        return hold_high(transmitter, standing);
    }
    begin(transmitter, standing)
}

// One pulse of the transmitter's clock. Most find a frame under way: the next level of it; and "at the
// earliest on the pulse after a frame's last" another start. The rest is called at two places: called at
// one it would be compiled into this routine, and this one, then large, no longer into its callers.
pub fn pulse(transmitter: Transmitter, standing: Standing) -> Transmitter
    ensures { result ≡ pulsed_of transmitter standing }
{
    if transmitter.phase == SENDING {
        if transmitter.shifter.sent.0 < transmitter.shifter.length.0 {
            let bit = bit_of_pulse(transmitter.shifter.sixteen, transmitter.shifter.sent);
            let level = frame::level_of(transmitter.shifter.frame, bit);
            let next = transmitter.shifter.sent.0 + 1;
            let mut t = transmitter;
            t.shifter.sent.0 = next;
            t.txd = level;
            return t;
        }
        return pulse_between(transmitter, standing);
    }
    pulse_between(transmitter, standing)
}
