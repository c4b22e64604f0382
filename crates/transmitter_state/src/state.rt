// What a transmitter holds.
ghost use Rattle.std.specs.Prelude.{◌≡◌};
ghost use Rattle.transmitter_state.specs.State.{empty_shifter, fresh_transmitter};

use format::Pulses;
use frame::FrameBits;

// What the start of a character takes, "Format and 16X or 1X", and how much of its frame has been sent.
#[repr(C)]
#[derive(Clone, Copy)]
pub struct Shifter {
    // the bits before the stop, and high past them
    pub frame: FrameBits,
    // 16X rather than 1X
    pub sixteen: bool,
    // all the frame's pulses, the stop's among them
    pub length: Pulses,
    // those that have come: TxD has the level of the last of them
    pub sent: Pulses,
}

// What the transmitter is doing, its `phase`. Any other number is idle.
// Kept: numbers, for `Transmitter`, which has one, stands inside `Device` and crosses to C.
pub const IDLE: u8 = 0;

// the shifter holds a character
pub const SENDING: u8 = 1;

// a break is being sent
pub const IN_BREAK: u8 = 2;

// the one bit of high after a break
pub const AFTER_BREAK: u8 = 3;

#[repr(C)]
#[derive(Clone, Copy)]
pub struct Transmitter {
    pub enabled: bool,
    // the holding place is full
    // Kept: a flag beside the byte, for `Transmitter` stands inside `Device` and crosses to C.
    pub full: bool,
    // what it holds
    pub holding: u8,
    pub phase: u8,
    pub shifter: Shifter,
    // after a break: the pulses still to come before the one that completes the bit, so 0 means the
    // next one does
    pub left: Pulses,
    // a break is asked and has not begun
    pub asked: bool,
    // its level, which TxD shows in normal mode
    pub txd: bool,
}

// A shifter that nothing has been put into.
pub fn empty_shifter() -> Shifter
    ensures { result ≡ empty_shifter }
{
    Shifter {
        frame: FrameBits(0),
        sixteen: false,
        length: Pulses(0),
        sent: Pulses(0),
    }
}

// "Chip reset: .. both sides disabled, .. holding places, shifters .. empty, TxD high"
pub fn fresh_transmitter() -> Transmitter
    ensures { result ≡ fresh_transmitter }
{
    Transmitter {
        enabled: false,
        full: false,
        holding: 0,
        phase: IDLE,
        shifter: empty_shifter(),
        left: Pulses(0),
        asked: false,
        txd: true,
    }
}
