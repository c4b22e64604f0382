// Replays a script from standard input on a fresh device. What a line says and which line it is are the crate `replay_script`'s,
// the text of what is printed `replay_text`'s; the answers are the chip's.
#![tactic(auto)]

use chip_device::{Device, fresh};
use chip_fast::at_rest;
use chip_step::{Answer, step};
use chip_ticks::tick_times;
use input_bytes::InputBytes;
use records::seen_of;
use replay_script::{Line, Place, first_place, is_silent, next_line, next_place, tell};
use replay_text::{write_error, write_seen};

fn print_answer(rt: &impl Print, answer: Answer) -> Device {
    let seen = seen_of(answer.number, answer.byte, answer.fresh, answer.lines);
    let mut space = [0u8; 32];
    let length = write_seen(seen, &mut space);
    let _ = rt.write_all(&space[..length]);
    answer.state
}

// Kept: `dump` has it too. A library's public routine has a clause, and none can say what is printed.
fn print_error(rt: &impl Print, line: u64) {
    let mut space = [0u8; 32];
    let length = write_error(line, &mut space);
    let _ = rt.write_all(&space[..length]);
}

// Does what a line says, and prints the answer: of many ticks the last one's.
fn act(rt: &impl Print, device: Device, said: Line, line: u64) -> Device {
    match said {
        Line::Skipped => device,
        Line::Wrong => {
            print_error(rt, line);
            device
        }
        Line::Ticks(times) => print_answer(rt, tick_times(at_rest(device), times)),
        Line::One(event) => print_answer(rt, step(device, event)),
    }
}

// Kept: `dump` has the like, which does another thing with a line: shared, it would say nothing in its clause.
fn end_line(rt: &impl Print, device: Device, place: Place) -> Device {
    act(rt, device, tell(place.reading), place.line)
}

// A last line with no line end counts, unless it is empty. What is handed on is a copy of the place, and only where the line
// says something: handed on itself, the place would have to be written to memory on every byte.
fn main(rt: HostRuntime) {
    let mut device = fresh();
    let mut place = first_place();
    for byte in InputBytes::new(rt.stdin()) {
        if byte != b'\n' {
            place = next_place(place, byte);
            continue;
        }
        if !is_silent(place.reading) {
            let ended = place;
            device = end_line(&rt, device, ended);
        }
        place = next_line(place);
    }
    let last = place;
    if last.begun {
        end_line(&rt, device, last);
    }
}
