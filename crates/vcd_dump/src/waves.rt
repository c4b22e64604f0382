// The values of each time, written when the time ends.
ghost use Rattle.std.specs.Prelude.{◌+◌, ◌/◌, ◌^◌, ◌≤◌, ◌<◌, ◌≡◌, true, length};
ghost use Rattle.format.specs.Digits.{value_of};
ghost use Rattle.chip_device.specs.Device.{is_sound_of};
ghost use Rattle.text.specs.Puts.{Puts};
ghost use Rattle.vcd_dump.specs.Waves.{values_of};
ghost use Rattle.vcd_dump.specs.Wave.{Adds};
ghost use Rattle.vcd_dump.specs.Dump.{text_of};

use chip_answers::Lines;
use chip_device::{Device, device_lines};
use chip_fast::sound_step;
use records::{EventRecord, event_of};
use text::Page;
use vcd_text::{put_changes, put_header};

// Where the writing stands: at the time of which tick, the values written before it and those it has now, a bit for
// each wire.
#[derive(Clone, Copy)]
pub struct Wave {
    pub tick: u32,
    pub before: u16,
    pub values: u16,
}

// "TxDA, TxDB, IRQ as line level (asserted is 0) and OP0 to OP7", the first the lowest bit
fn values_of(lines: Lines) -> u16
    ensures { result ≡ value_of (values_of lines) }
{
    let txda = u16::from(lines.txda);
    let txdb = u16::from(lines.txdb);
    let irq = u16::from(!lines.irq);
    txda + 2 * txdb + 4 * irq + 8 * u16::from(lines.op)
}

// After an accepted event. "Events without a tick share the time of the last one; at each time only the last values
// count": a tick ends the time before it.
fn add_event(wave: Wave, tick: bool, lines: Lines, page: &mut Page<'_>) -> Wave
    requires { (page.old.at + 55 < 2 ^ 64) × (wave.before < 2 ^ 11) × (wave.values < 2 ^ 11)
        × (wave.tick + 1 < 2 ^ 32) }
    ensures { Adds wave tick lines page.old page.new result }
{
    let values = values_of(lines);
    if tick {
        put_changes(wave.tick, wave.before, wave.values, page);
        return Wave {
            tick: wave.tick + 1,
            before: wave.values,
            values,
        };
    }
    Wave { values, ..wave }
}

// The whole text. "It stops before a refused event".
// Kept: a length, for `dump` answers it, and C reads it.
pub fn write_waves(device: Device, events: &[u8], space: &mut [u8]) -> usize
    requires { (is_sound_of device ≡ true) × (length events.now / 3 ≤ 1000000) }
    ensures { Puts 0 (text_of device events.now) space.old space.new result }
{
    let mut page = put_header(space);
    let mut wave = Wave {
        tick: 0,
        before: 0,
        values: values_of(device_lines(device)),
    };
    let mut state = device;
    let (records, _) = events.as_chunks::<3>();
    for &[kind, reg, byte] in records {
        let event = EventRecord { kind, reg, byte };
        let answer = sound_step(state, event_of(event));
        if answer.number != 0 {
            put_changes(wave.tick, wave.before, wave.values, &mut page);
            return page.at;
        }
        // Kept: the kind of a record, 5, which is a number for C writes it.
        wave = add_event(wave, kind == 5, answer.lines, &mut page);
        state = answer.state;
    }
    put_changes(wave.tick, wave.before, wave.values, &mut page);
    page.at
}
