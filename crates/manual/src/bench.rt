// The bench: the chip, the levels on its pins, and whether a wire joins each TxD to the RxD beside it.
use byte_bits::has_bit;
use chip_answers::Lines;
use chip_device::fresh;
use chip_step::{Answer, step};
use events::Event;

#[derive(Clone, Copy)]
pub struct Bench {
    pub answer: Answer,
    pub pins: u8,
    pub wired: bool,
}

// A chip just reset, all pins high and no wire.
pub fn start() -> Bench {
    Bench {
        answer: step(fresh(), Event::ChipReset),
        pins: 255,
        wired: false,
    }
}

fn take(bench: Bench, event: Event) -> Bench {
    let pins = match event {
        Event::Pins(levels) => levels,
        _ => bench.pins,
    };
    Bench {
        answer: step(bench.answer.state, event),
        pins,
        ..bench
    }
}

fn weight(level: bool, weight: u8) -> u8 {
    u8::from(level) * weight
}

// RxDA and RxDB, bits 6 and 7, as the wires have them.
fn wired_levels(pins: u8, lines: Lines) -> u8 {
    pins % 64 | weight(lines.txda, 64) | weight(lines.txdb, 128)
}

// The event, and the pins after it: a wire passes on, with the tick, what the tick did.
pub fn act(bench: Bench, event: Event) -> Bench {
    let next = take(bench, event);
    let levels = wired_levels(next.pins, next.answer.lines);
    if next.wired && matches!(event, Event::Tick) && levels != next.pins {
        return take(next, Event::Pins(levels));
    }
    next
}

pub fn tick(bench: Bench) -> Bench {
    act(bench, Event::Tick)
}

// A falling edge on IP3, channel A's external transmitter clock.
pub fn edge(bench: Bench) -> Bench {
    act(act(bench, Event::Pins(255)), Event::Pins(247))
}

// The turns that a bit of a character takes: at 9600 bits a second it is 384 ticks.
const BIT_TURNS: u64 = 384;

// The turns of a character's ten bits.
pub const CHARACTER_TURNS: u64 = 10 * BIT_TURNS;

// Bit n of the frame of a byte: start bit, eight data bits, the lowest first, and a high bit.
fn frame_level(byte: u8, n: u64) -> bool {
    match n {
        0 => false,
        1..=8 => has_bit(byte, (n - 1) as u8),
        _ => true,
    }
}

// A tick, while a byte comes in on RxDA (mask 64) or RxDB (mask 128).
pub fn character_turn(bench: Bench, mask: u8, byte: u8, turns: u64) -> Bench {
    if turns % BIT_TURNS != 0 {
        return tick(bench);
    }
    let level = frame_level(byte, turns / BIT_TURNS);
    let levels = bench.pins & !mask | weight(level, mask);
    tick(act(bench, Event::Pins(levels)))
}

// A read of a register, after the first one with a tick before it.
pub fn read_turn(bench: Bench, register: u8, turns: u64) -> Bench {
    let next = if turns == 0 { bench } else { tick(bench) };
    act(next, Event::Read(register))
}

// The turns that a byte takes in the start-up test.
pub const LOOPED_TURNS: u64 = 28;

fn looped_byte(turns: u64) -> u8 {
    (turns / LOOPED_TURNS % 256) as u8
}

// The start-up test, both channels clocked at 1X by the falling edges of IP3 and IP5: byte n to channel A and 255 - n
// to B, the eleven bits of their frames, both read back, and one bit more.
pub fn looped_event(turns: u64) -> Event {
    let byte = looped_byte(turns);
    let at = turns % LOOPED_TURNS;
    match at {
        0 => Event::Write(3, byte),
        1 => Event::Write(11, 255 - byte),
        24 => Event::Read(3),
        25 => Event::Read(11),
        _ => Event::Pins(if at % 2 == 0 { 215 } else { 255 }),
    }
}

// Whether what was read in the turn before is not the byte that went out, or was no new one, or a TxD is low.
pub fn is_lost(answer: Answer, turns: u64) -> bool {
    let sent = looped_byte(turns);
    let lost = match turns % LOOPED_TURNS {
        25 => !answer.fresh || answer.byte != sent,
        26 => !answer.fresh || answer.byte != 255 - sent,
        _ => false,
    };
    lost || !answer.lines.txda || !answer.lines.txdb
}

// Where it stopped, and after how many turns.
#[derive(Clone, Copy)]
pub struct Stopped {
    pub bench: Bench,
    pub turns: u64,
}

// Turn after turn, each told how many were before it, until it is over after the answer to the turn before.
pub fn go<T: Fn(Bench, u64) -> Bench, O: Fn(Answer, u64) -> bool>(
    bench: Bench,
    most: u64,
    turn: T,
    is_over: O,
) -> Stopped
    requires turn { T.IsAlwaysCallable turn }
    requires is_over { O.IsAlwaysCallable is_over }
{
    let mut next = bench;
    for turns in 0..most {
        if is_over(next.answer, turns) {
            return Stopped { bench: next, turns };
        }
        next = turn(next, turns);
    }
    Stopped {
        bench: next,
        turns: most,
    }
}

// How many ticks TxDA stays at this level, at most 100,000.
pub fn hold(bench: Bench, level: bool) -> Stopped {
    go(
        bench,
        100000,
        |bench, _| tick(bench),
        |answer, _| answer.lines.txda != level,
    )
}
