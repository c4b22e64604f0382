// Dumps the lines of a fresh device over a script from standard input. What a line says and which line it is are the
// crate `replay_script`'s; the text is `vcd_dump`'s.
#![tactic(auto)]

use chip_device::fresh;
use events::Event;
use input_bytes::InputBytes;
use records::EventRecord;
use replay_script::{Line, Place, first_place, is_silent, next_line, next_place, tell};
use replay_text::write_error;
use std::io::Read;
use text::put;
use vcd_dump::dump;

// One more than the 1,000,000 that a list may have, so that it can be refused: how many there are past it makes no
// difference.
const TOO_MANY: usize = 1000001;

// Room for as many events.
const ROOM: usize = 3000003;

// Room for the most text that is dumped.
const SPACE: usize = 2097152;

// Kept: `replay` has it too. A library's public routine has a clause, and none can say what is printed.
fn print_error(errors: &impl Print, line: u64) {
    let mut space = [0u8; 32];
    let length = write_error(line, &mut space);
    let _ = errors.write_all(&space[..length]);
}

// The list of events, three bytes each, filled from the front of the room for it.
// Kept: bytes, three an event, and a count: `vcd_dump::dump` takes the list as bytes, and no heap holds a Vec.
#[derive(Drop)]
struct Events<'a> {
    room: &'a mut [u8; ROOM],
    count: usize,
}

impl<'a> Events<'a> {
    fn push(&mut self, record: EventRecord) {
        if self.count < TOO_MANY {
            let at = 3 * self.count;
            put(record.kind, at, self.room);
            put(record.reg, at + 1, self.room);
            put(record.byte, at + 2, self.room);
            self.count += 1;
        }
    }

    // `tick COUNT` is COUNT events.
    fn push_ticks(&mut self, times: u64) {
        let tick = EventRecord::from(Event::Tick);
        for _ in 0..times {
            if self.count >= TOO_MANY {
                return;
            }
            self.push(tick);
        }
    }

    fn filled(&self) -> &[u8] {
        let end = self.count.saturating_mul(3).min(self.room.len());
        &self.room[..end]
    }
}

// Kept: `replay` has the like, which does another thing with a line: shared, it would say nothing in its clause.
fn end_line(errors: &impl Print, place: Place, events: &mut Events<'_>) {
    match tell(place.reading) {
        Line::Skipped => {}
        Line::Wrong => print_error(errors, place.line),
        Line::Ticks(times) => events.push_ticks(times.0),
        Line::One(event) => events.push(EventRecord::from(event)),
    }
}

// A last line with no line end counts, unless it is empty. What is handed on is a copy of the place, and only where the line
// says something: handed on itself, the place would have to be written to memory on every byte.
fn read_events(errors: &impl Print, input: impl Read + Drop, events: &mut Events<'_>) {
    let mut place = first_place();
    for byte in InputBytes::new(input) {
        if byte != b'\n' {
            place = next_place(place, byte);
            continue;
        }
        if !is_silent(place.reading) {
            let ended = place;
            end_line(errors, ended, events);
        }
        place = next_line(place);
    }
    let last = place;
    if last.begun {
        end_line(errors, last, events);
    }
}

// A refusal is told on standard error, `refused 9` or `refused 8`; nothing is written to standard output then.
// Kept: the number, for it is printed.
fn refuse(errors: &impl Print, number: u8) {
    let _ = errors.print(format_args!("refused {number}\n"));
}

fn write_dump(output: &impl Print, errors: &impl Print, events: &[u8], space: &mut [u8]) {
    let answer = dump(fresh(), events, space);
    let length = answer.length;
    if answer.number == 0 {
        let _ = output.write_all(&space[..length]);
        return;
    }
    refuse(errors, answer.number);
}

// Kept: arrays, not slices: tried, the check of `main` runs out of stack where it lends 3,000,003 bytes as a slice.
fn show(
    output: &impl Print,
    errors: &impl Print,
    input: impl Read + Drop,
    room: &mut [u8; ROOM],
    space: &mut [u8; SPACE],
) {
    let mut events = Events { room, count: 0 };
    read_events(errors, input, &mut events);
    write_dump(output, errors, events.filled(), space);
}

fn main(rt: HostRuntime) {
    let mut room = [0u8; ROOM];
    let mut space = [0u8; SPACE];
    show(&rt, &rt.stderr(), rt.stdin(), &mut room, &mut space);
}
