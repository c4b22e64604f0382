// What a line of a script says.
ghost use Rattle.std.specs.Prelude.{◌≡◌};
ghost use Rattle.replay_script.specs.Lines.{told_alone, told_with_byte, told_with_one, byte_of, told_with_two, silent, told_of};

use crate::reading::Reading;
use events::Event;
use format::Ticks;
use text::MOST;

// What a line says: an event; so many ticks; nothing, a blank line or a comment; or that it cannot be read.
#[derive(Clone, Copy)]
pub enum Line {
    Skipped,
    Wrong,
    Ticks(Ticks),
    One(Event),
}

// Each name is its letters in base 256 after a 1.
// Kept: numbers, as `Reading` has the name.
const RESET: u64 = 0x1_72_65_73_65_74;

const READ: u64 = 0x1_72_65_61_64;

const WRITE: u64 = 0x1_77_72_69_74_65;

const ACK: u64 = 0x1_61_63_6b;

const PINS: u64 = 0x1_70_69_6e_73;

const TICK: u64 = 0x1_74_69_63_6b;

// `reset`, `ack` or `tick`
fn tell_alone(name: u64) -> Line
    ensures { result ≡ told_alone name }
{
    if name == RESET {
        return Line::One(Event::ChipReset);
    }
    if name == ACK {
        return Line::One(Event::Acknowledge);
    }
    if name == TICK {
        return Line::Ticks(Ticks(1));
    }
    Line::Wrong
}

// `read N` or `pins B`
fn tell_with_byte(name: u64, byte: u8) -> Line
    ensures { result ≡ told_with_byte name byte }
{
    if name == READ {
        return Line::One(Event::Read(byte));
    }
    if name == PINS {
        return Line::One(Event::Pins(byte));
    }
    Line::Wrong
}

// `read N`, `pins B` or `tick COUNT`
fn tell_with_one(name: u64, first: Option<u64>) -> Line
    ensures { result ≡ told_with_one name first }
{
    let Some(number) = first else {
        return Line::Wrong;
    };
    if name == TICK {
        if number <= MOST {
            return Line::Ticks(Ticks(number));
        }
        return Line::Wrong;
    }
    match u8::try_from(number) {
        Ok(byte) => tell_with_byte(name, byte),
        Err(_) => Line::Wrong,
    }
}

// A number up to 255.
fn byte_of(number: Option<u64>) -> Option<u8>
    ensures { result ≡ byte_of number }
{
    u8::try_from(number?).ok()
}

// `write N B`
fn tell_with_two(name: u64, first: Option<u64>, second: Option<u64>) -> Line
    ensures { result ≡ told_with_two name first second }
{
    match (byte_of(first), byte_of(second)) {
        (Some(register), Some(byte)) if name == WRITE => Line::One(Event::Write(register, byte)),
        _ => Line::Wrong,
    }
}

// A blank line says nothing, and a line that begins with # does not.
pub fn is_silent(reading: Reading) -> bool
    ensures { result ≡ silent reading }
{
    (reading.words == 0) | reading.comment
}

// What a line says of which all bytes are read.
pub fn tell(reading: Reading) -> Line
    ensures { result ≡ told_of reading }
{
    if is_silent(reading) {
        return Line::Skipped;
    }
    if reading.words == 1 {
        return tell_alone(reading.name);
    }
    if reading.words == 2 {
        return tell_with_one(reading.name, reading.first);
    }
    if reading.words == 3 {
        return tell_with_two(reading.name, reading.first, reading.second);
    }
    Line::Wrong
}
