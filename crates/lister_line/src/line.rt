// The line of one byte.
ghost use Rattle.std.specs.Prelude.{◌≡◌, length};
ghost use Rattle.lister_line.specs.Line.{written, prepared_device, listed_of};

use chip_device::{Device, fresh};
use chip_step::step;
use chip_ticks::tick_times;
use events::Event;
use format::Ticks;
use text::level_digit;

// What a byte brings: "one line of ten mid-bit levels per byte", and the state that the next byte finds.
#[derive(Clone, Copy)]
pub struct Listed {
    pub line: [u8; 11],
    pub state: Device,
}

fn write(device: Device, register: u8, byte: u8) -> Device
    ensures { result ≡ written register byte device }
{
    step(device, Event::Write(register, byte)).state
}

// Case 4 before its byte: "MR1 19, MR2 7", "at code 11"; and the transmitter enabled.
pub fn prepared() -> Device
    ensures { result ≡ prepared_device }
{
    let first = write(fresh(), 0, 19);
    let second = write(first, 0, 7);
    let third = write(second, 1, 187);
    write(third, 2, 4)
}

// The byte is written, and 3,840 ticks follow, 384 a bit. With the 24th the start bit begins, so that the 216th of each
// 384 is the middle of a bit.
pub fn list_byte(device: Device, byte: u8) -> Listed
    ensures value { result ≡ listed_of device byte }
    ensures value_2 { 11 ≡ length result.line }
{
    let mut last = step(device, Event::Write(3, byte));
    let mut line = [b'\n'; 11];
    for level in &mut line[..10] {
        let middle = tick_times(last, Ticks(216));
        *level = level_digit(middle.lines.txda);
        last = tick_times(middle, Ticks(168));
    }
    Listed {
        line,
        state: last.state,
    }
}
