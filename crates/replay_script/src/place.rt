// Where the reading of a script stands: in which line, and what is known of it.
ghost use Rattle.std.specs.Prelude.{◌≡◌};
ghost use Rattle.replay_script.specs.Place.{first_place, line_after, next_line, next_place};

use crate::reading::{Reading, start, take};

#[derive(Clone, Copy)]
pub struct Place {
    // the number of this line; the first is 1
    pub line: u64,
    // whether a byte of it is read yet
    pub begun: bool,
    pub reading: Reading,
}

// Before the first byte of a script.
pub fn first_place() -> Place
    ensures { result ≡ first_place }
{
    let reading = start();
    Place {
        line: 1,
        begun: false,
        reading: reading,
    }
}

fn line_after(line: u64) -> u64
    ensures { result ≡ line_after line }
{
    line.saturating_add(1)
}

// After a line's end.
pub fn next_line(place: Place) -> Place
    ensures { result ≡ next_line place }
{
    let line = line_after(place.line);
    let reading = start();
    Place {
        line: line,
        begun: false,
        reading: reading,
    }
}

// After a byte of the line.
pub fn next_place(place: Place, byte: u8) -> Place
    ensures { result ≡ next_place place byte }
{
    let reading = take(place.reading, byte);
    Place {
        line: place.line,
        begun: true,
        reading: reading,
    }
}
