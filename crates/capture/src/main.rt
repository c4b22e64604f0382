// "Read a capture from the mill": `capture MR1 ACR7 CODE NAMEA NAMEB`, with the text on standard input. The characters
// are `vcd_capture`'s.
#![tactic(auto)]

mod arguments;
mod lines;
mod said;

ghost use Rattle.replay_text.specs.Lines.{Within};

use arguments::{argument, read_numbers};
use said::put_said;
use std::env::Env;
use std::io::Read;
use vcd_capture::Asked;

// The most of a text that is read from standard input.
const MOST_TEXT: usize = 4194304;

// One byte more, so that a longer text is noticed.
const TEXT: usize = 4194305;

// 23,405 characters are the most any accepted text can give on a line: a log of this length is never too short. Proved:
// `enough` of `capture_laws`.
const LOG: usize = 46810;

// A line of at most ten bytes for each two of both logs.
const SPACE: usize = 468100;

// Longer than any argument that Linux hands to a program.
const ARGUMENT: usize = 131072;

// What the program has room for: the text, the two names, a log of each channel, and what is printed.
#[derive(Drop)]
struct Room {
    text: [u8; TEXT],
    name_a: [u8; ARGUMENT],
    name_b: [u8; ARGUMENT],
    log_a: [u8; LOG],
    log_b: [u8; LOG],
    space: [u8; SPACE],
}

// How many bytes are read, until the text is full, the input ends or a read fails: they stand at its start.
// Kept: a `while`, for a turn takes as many bytes as a read brings; std's `read_to_end` fills a Vec: there is no heap.
fn read_full(input: &mut impl Read, text: &mut [u8]) -> usize
    ensures { Within result text.new }
{
    let mut length = 0usize;
    while length < text.len() {
        match input.read(&mut text[length..]) {
            Ok(0) | Err(_) => break,
            Ok(more) => length += more,
        }
    }
    length
}

fn show(rt: &(impl Print + Env), input: &mut impl Read, asked: Asked, room: &mut Room) {
    let length_a = argument(rt, 4, &mut room.name_a);
    let length_b = argument(rt, 5, &mut room.name_b);
    let length = read_full(input, &mut room.text);
    if length > MOST_TEXT {
        let _ = rt.write_all(b"too long\n");
        return;
    }
    let end = put_said(
        asked,
        &room.text[..length],
        &room.name_a[..length_a],
        &room.name_b[..length_b],
        &mut room.log_a,
        &mut room.log_b,
        &mut room.space,
    );
    let _ = rt.write_all(&room.space[..end]);
}

// Arguments are looked at first: where they cannot be read, the text is not.
fn run(rt: &(impl Print + Env), input: &mut impl Read, room: &mut Room) {
    let Some(asked) = read_numbers(rt, &mut room.name_a) else {
        let _ = rt.write_all(b"usage\n");
        return;
    };
    show(rt, input, asked, room);
}

fn main(rt: HostRuntime) {
    let mut input = rt.stdin();
    let mut room = Room {
        text: [0; TEXT],
        name_a: [0; ARGUMENT],
        name_b: [0; ARGUMENT],
        log_a: [0; LOG],
        log_b: [0; LOG],
        space: [0; SPACE],
    };
    run(&rt, &mut input, &mut room);
}
