// The lines after the header, byte by byte: "then times up to 4,000,000,000 ns, no leading zeros, each with any value lines of
// those codes".
ghost use Rattle.std.specs.Prelude.{◌≡◌};
ghost use Rattle.vcd_lines.specs.Body.{started, at_start, begun, first_digit, next_digit, must_end};
ghost use Rattle.vcd_lines.specs.Body.{coded, in_time, taken_of, said_of};

use text::{digit_value, is_digit};

// Where in a line the last byte stands, and what is known of the line there.
#[derive(Clone, Copy)]
pub enum Place {
    LineStart,
    // after `#`
    Hash,
    // in a time that more digits may follow: the time so far
    Digits(u32),
    // after a time that no digit may follow, as after `0`
    Whole(u32),
    // after a level
    Level(bool),
    // after a level and a code
    Code(bool, u8),
    // the text is outside the subset
    Outside,
}

#[derive(Clone, Copy)]
pub struct Reading {
    pub place: Place,
    // a time has come
    pub timed: bool,
}

impl Reading {
    // No line has begun that has not ended.
    pub fn is_at_line_start(self) -> bool
        ensures { result ≡ at_start self.place }
    {
        matches!(self.place, Place::LineStart)
    }
}

// The line that a byte ends.
#[derive(Clone, Copy)]
pub enum Said {
    NoLine,
    TimeLine(u32),
    ValueLine(u8, bool),
}

// No line has begun, and no time has come.
pub fn start() -> Reading
    ensures { result ≡ started }
{
    Reading {
        place: Place::LineStart,
        timed: false,
    }
}

// A line begins. A value line belongs to a time: "each with any value lines".
fn begin(byte: u8, timed: bool) -> Place
    ensures { result ≡ begun byte timed }
{
    if byte == b'#' {
        Place::Hash
    } else if timed & ((byte == b'0') | (byte == b'1')) {
        Place::Level(byte == b'1')
    } else {
        Place::Outside
    }
}

// "no leading zeros"
fn first_digit(byte: u8) -> Place
    ensures { result ≡ first_digit byte }
{
    if byte == b'0' {
        Place::Whole(0)
    } else if is_digit(byte) {
        Place::Digits(digit_value(byte) as u32)
    } else {
        Place::Outside
    }
}

// "times up to 4,000,000,000 ns": a time that is more already takes no digit, so that twenty of them stay in 32 bits.
// Kept: its own digits, in 32 bits, as the time that it is handed: `text::number_after` is of 64.
fn next_digit(time: u32, byte: u8) -> Place
    ensures { result ≡ next_digit time byte }
{
    if !is_digit(byte) {
        return must_end(byte);
    }
    if time > 400000000 {
        return Place::Outside;
    }
    let longer = time * 10 + digit_value(byte) as u32;
    if longer > 4000000000 {
        return Place::Outside;
    }
    Place::Digits(longer)
}

fn must_end(byte: u8) -> Place
    ensures { result ≡ must_end byte }
{
    if byte == b'\n' {
        Place::LineStart
    } else {
        Place::Outside
    }
}

fn take_code(level: bool, byte: u8, known: bool) -> Place
    ensures { result ≡ coded level byte known }
{
    if known {
        Place::Code(level, byte)
    } else {
        Place::Outside
    }
}

fn is_in_time(place: Place) -> bool
    ensures { result ≡ in_time place }
{
    matches!(place, Place::Digits(_) | Place::Whole(_))
}

// One byte more. Whether it is a code of the header is for the caller to say.
pub fn take(reading: Reading, byte: u8, known: bool) -> Reading
    ensures { result ≡ taken_of reading byte known }
{
    let timed = reading.timed;
    let place = match reading.place {
        Place::LineStart => begin(byte, timed),
        Place::Hash => first_digit(byte),
        Place::Digits(time) => next_digit(time, byte),
        Place::Whole(_) | Place::Code(_, _) => must_end(byte),
        Place::Level(level) => take_code(level, byte, known),
        Place::Outside => Place::Outside,
    };
    Reading {
        place,
        timed: timed | (is_in_time(reading.place) & (byte == b'\n')),
    }
}

pub fn say(reading: Reading, byte: u8) -> Said
    ensures { result ≡ said_of reading byte }
{
    if byte != b'\n' {
        return Said::NoLine;
    }
    match reading.place {
        Place::Digits(time) => Said::TimeLine(time),
        Place::Whole(time) => Said::TimeLine(time),
        Place::Code(level, code) => Said::ValueLine(code, level),
        _ => Said::NoLine,
    }
}
