// The words of a script, with spaces between: a letter, then one number or two with a comma between.
//
//   w register,byte    a write, accepted
//   r register,byte    a read, accepted, and this byte comes
//   x register,number  a read, refused with this number
//   n register,byte    a write, refused with 5: not modelled
//   f register,byte    a command, refused with 4: forbidden
//   k number,byte      an interrupt acknowledge, answered with this number and this byte
//   z                  a chip reset
//   t ticks            so many ticks
//   p levels           the pins are set
//   a byte, b byte     a character comes in on RxDA, RxDB
//   c times            so many falling edges of IP3
//   j                  a wire joins TxDA to RxDA, and another TxDB to RxDB
//   q register,mask    the register is read until one of these bits is set
//   l bytes            the start-up test: so many bytes looped in both channels, each TxD high (order 2)
//   i, d, e level      IRQ, TxDA, TxDB has this level
//   o levels           OP0-OP7 have these levels
//   g level            what was answered last said fresh, 1, or stale, 0 (order 1)
use crate::bench::{LOOPED_TURNS, Stopped};
use chip_step::Answer;
use events::Event;

#[derive(Clone, Copy)]
pub enum Word {
    // an event of the processor, and what it should be answered with: the byte is 0 where none is read
    // Kept: the number, for a script's word gives it.
    Access { event: Event, number: u8, byte: u8 },
    Pins(u8),
    Ticks(u64),
    // falling edges of IP3
    Edges(u8),
    Character(Channel, u8),
    Wired,
    Until { register: u8, mask: u8 },
    // the bytes
    Looped(u16),
    Level(Signal, bool),
    Outputs(u8),
}

#[derive(Clone, Copy)]
pub enum Channel {
    A,
    B,
}

impl Channel {
    // RxD's bit among the pins.
    pub fn mask(self) -> u8 {
        match self {
            Channel::A => 64,
            Channel::B => 128,
        }
    }
}

#[derive(Clone, Copy)]
pub enum Signal {
    Irq,
    TxdA,
    TxdB,
    Fresh,
}

impl Signal {
    pub fn name(self) -> &'static str {
        match self {
            Signal::Irq => "IRQ",
            Signal::TxdA => "TxDA",
            Signal::TxdB => "TxDB",
            Signal::Fresh => "fresh",
        }
    }

    pub fn level(self, answer: Answer) -> bool {
        match self {
            Signal::Irq => answer.lines.irq,
            Signal::TxdA => answer.lines.txda,
            Signal::TxdB => answer.lines.txdb,
            Signal::Fresh => answer.fresh,
        }
    }
}

fn access(event: Event, number: u8, byte: u8) -> Option<Word> {
    Some(Word::Access {
        event,
        number,
        byte,
    })
}

// The word of a letter and its numbers, if it is one.
fn word_of(letter: char, first: u8, last: u16) -> Option<Word> {
    let byte = (last % 256) as u8;
    match letter {
        'w' => access(Event::Write(first, byte), 0, 0),
        'r' => access(Event::Read(first), 0, byte),
        'x' => access(Event::Read(first), byte, 0),
        'n' => access(Event::Write(first, byte), 5, 0),
        'f' => access(Event::Write(first, byte), 4, 0),
        'k' => access(Event::Acknowledge, first, byte),
        'z' => access(Event::ChipReset, 0, 0),
        't' => Some(Word::Ticks(u64::from(last))),
        'p' => Some(Word::Pins(byte)),
        'a' => Some(Word::Character(Channel::A, byte)),
        'b' => Some(Word::Character(Channel::B, byte)),
        'c' => Some(Word::Edges(byte)),
        'j' => Some(Word::Wired),
        'q' => Some(Word::Until {
            register: first,
            mask: byte,
        }),
        'l' => Some(Word::Looped(last)),
        'i' => Some(Word::Level(Signal::Irq, last == 1)),
        'd' => Some(Word::Level(Signal::TxdA, last == 1)),
        'e' => Some(Word::Level(Signal::TxdB, last == 1)),
        'g' => Some(Word::Level(Signal::Fresh, last == 1)),
        'o' => Some(Word::Outputs(byte)),
        _ => None,
    }
}

// Where no number stands it is 0.
pub fn read_word(text: &str) -> Option<Word> {
    let mut letters = text.chars();
    let letter = letters.next()?;
    let numbers = letters.as_str();
    let (first, last) = numbers.split_once(',').unwrap_or(("", numbers));
    let first = first.parse().unwrap_or(0);
    let last = last.parse().unwrap_or(0);
    word_of(letter, first, last)
}

// The turns of a start-up test in which no byte is lost.
pub fn looped_turns(bytes: u16) -> u64 {
    u64::from(bytes) * LOOPED_TURNS
}

// Whether what came is what the word says. Time and pins are accepted.
pub fn agrees(word: Word, came: Stopped) -> bool {
    let answer = came.bench.answer;
    match word {
        Word::Access { number, byte, .. } => answer.number == number && answer.byte == byte,
        Word::Until { mask, .. } => answer.number == 0 && answer.byte & mask != 0,
        Word::Looped(bytes) => answer.number == 0 && came.turns == looped_turns(bytes),
        Word::Level(signal, level) => signal.level(answer) == level,
        Word::Outputs(levels) => answer.lines.op == levels,
        _ => answer.number == 0,
    }
}
