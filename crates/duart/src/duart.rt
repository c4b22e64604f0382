// "the board keeps one device and lends it to a thin step that alters it by one event"
ghost use Rattle.std.specs.Prelude.{◌≡◌, length};
ghost use Rattle.chip_device.specs.Device.{fresh_device, is_sound_of};
ghost use Rattle.chip_step.specs.Chip.{step_of};
ghost use Rattle.chip_ticks.specs.Run.{run_of};
ghost use Rattle.records.specs.Records.{event_of};
ghost use Rattle.request.specs.Request.{request_of, space_after};
ghost use Rattle.poll.specs.Poll.{seen_in, polled_of, answers_after};
ghost use Rattle.vcd_dump.specs.Dump as Dump;
ghost use Rattle.duart.specs.Duart.{abi_number, polled_seen, ran_seen, capture_seen, CaptureShown};

use chip_device::{Device, fresh, is_sound};
use chip_fast::swift_step;
use chip_step::Answer;
use chip_ticks::{Ran, run};
use poll::{Polled, poll, seen_in, state_in};
use records::{EventRecord, Seen, event_of};
use refusal::Refusal;
use request::{FrameAnswer, request_frame};
use vcd_capture::{Asked, Captured, read_capture};
use vcd_dump::{DumpAnswer, dump};

// order 5: "the count says how many were written, and the call itself answers 0", or why it is refused.
// Kept: a number, for C reads it.
#[repr(C)]
#[derive(Clone, Copy)]
pub struct PolledSeen {
    pub number: u8,
    pub count: usize,
}

// order 5: "reports how many ticks it took"; "state and lines equal the single ticks".
// Kept: a number, for C reads it.
#[repr(C)]
#[derive(Clone, Copy)]
pub struct RanSeen {
    pub number: u8,
    pub ticks: u32,
    pub irq: bool,
    pub txda: bool,
    pub txdb: bool,
    // bit n is OPn
    pub op: u8,
}

// order 7: the number, and the length of "the filled part of that channel's log".
// Kept: a number and a length, and a struct of its own beside `FrameAnswer` and `DumpAnswer`, for C names it.
#[repr(C)]
#[derive(Clone, Copy)]
pub struct CaptureAnswer {
    pub number: u8,
    pub length: usize,
}

// What the step by value answers to a record.
fn step_record(device: Device, event: EventRecord) -> Answer
    ensures { result ≡ step_of device (event_of event) }
{
    swift_step(device, event_of(event))
}

// All of a poll's and of a run's answer but the state, which is stored in the device lent.
impl From<Polled> for PolledSeen {
    ghost from_gives = { λ polled seen. seen ≡ polled_seen polled };

    fn from(polled: Polled) -> Self {
        PolledSeen {
            number: polled.number,
            count: polled.count,
        }
    }
}

impl From<Ran> for RanSeen {
    ghost from_gives = { λ ran seen. seen ≡ ran_seen ran };

    fn from(ran: Ran) -> Self {
        RanSeen {
            number: ran.number,
            ticks: ran.ticks,
            irq: ran.lines.irq,
            txda: ran.lines.txda,
            txdb: ran.lines.txdb,
            op: ran.lines.op,
        }
    }
}

// The number of the layout of what crosses to C: every landing that changes a struct of it raises it.
const ABI: u32 = 1;

// So that a program that was compiled against another layout sees it at its start.
#[unsafe(no_mangle)]
pub extern "C" fn duart_abi() -> u32
    ensures { result ≡ abi_number }
{
    ABI
}

// "A fresh device is the state after a chip reset with all pins high."
#[unsafe(no_mangle)]
pub extern "C" fn duart_fresh() -> Device
    ensures { result ≡ fresh_device }
{
    fresh()
}

// "Device lent by &mut to one thin step: takes it apart, calls the by-value step, stores the new state back."
#[unsafe(no_mangle)]
pub extern "C" fn duart_step(device: &mut Device, event: EventRecord) -> Seen
    ensures { (result ≡ seen_in (step_of device.old (event_of event)))
        × (device.new ≡ (step_of device.old (event_of event)).state) }
{
    let given = *device;
    let answer = step_record(given, event);
    let state = state_in(answer);
    *device = state;
    seen_in(answer)
}

// order 5: "one call over a lent list of event records, up to 4,096, with the answers, less the states, written to a
// second lent list, equal to the same events one by one"
#[unsafe(no_mangle)]
pub extern "C" fn duart_poll(
    device: &mut Device,
    events: &[EventRecord],
    answers: &mut [Seen],
) -> PolledSeen
    ensures { (result ≡ polled_seen (polled_of device.old events.now answers.old))
        × (device.new ≡ (polled_of device.old events.now answers.old).state)
        × (answers.new ≡ answers_after device.old events.now answers.old) }
{
    let given = *device;
    let polled = poll(given, events, answers);
    *device = polled.state;
    PolledSeen::from(polled)
}

// order 5: "A companion runs ticks until IRQ is asserted or a budget of up to 1,000,000 is spent"
#[unsafe(no_mangle)]
pub extern "C" fn duart_run(device: &mut Device, budget: u32) -> RanSeen
    ensures { (result ≡ ran_seen (run_of device.old budget))
        × (device.new ≡ (run_of device.old budget).state) }
{
    let given = *device;
    let ran = run(given, budget);
    *device = ran.state;
    RanSeen::from(ran)
}

// "A separate request writes a frame's levels, one byte 0 or 1 per 16X pulse, at most 192, from MR1, MR2 and a byte;
// space past it stays. It answers the number and the length, 0 if refused."
#[unsafe(no_mangle)]
pub extern "C" fn duart_frame(mr1: u8, mr2: u8, byte: u8, space: &mut [u8]) -> FrameAnswer
    ensures answer { result ≡ request_of mr1 mr2 (length space.old) }
    ensures space { space.new ≡ space_after mr1 mr2 byte space.old }
{
    request_frame(mr1, mr2, byte, space)
}

// order 6: "From a sound state and a list of up to 1,000,000 events, write a value change dump (IEEE 1364) into lent
// space". The list lies as bytes, three to an event record; include/duart.h has `duart_dump` over it, for a list of
// records.
#[unsafe(no_mangle)]
pub extern "C" fn duart_dump_bytes(device: Device, events: &[u8], space: &mut [u8]) -> DumpAnswer
    ensures answer { result ≡ Dump.dumped_of device events.now (length space.old) }
    ensures space { space.new ≡ Dump.space_after device events.now space.old }
{
    dump(device, events, space)
}

// Kept: a function, for it takes the channel too, as no From does.
fn capture_seen(captured: Result<Captured, Refusal>, channel_b: bool) -> CaptureAnswer
    ensures { result ≡ capture_seen captured channel_b }
{
    match captured {
        Ok(filled) => CaptureAnswer {
            number: 0,
            length: if channel_b {
                filled.length_b
            } else {
                filled.length_a
            },
        },
        Err(refusal) => CaptureAnswer {
            number: refusal.number(),
            length: 0,
        },
    }
}

// order 7: "There are two lent logs, one per channel, two bytes a character (data, marks as SR 7-5); the caller names a
// channel and is handed the filled part of that channel's log." No reference crosses to C, so it is handed its length.
#[unsafe(no_mangle)]
pub extern "C" fn duart_capture(
    mr1: u8,
    acr7: bool,
    code: u8,
    text: &[u8],
    name_a: &[u8],
    name_b: &[u8],
    log_a: &mut [u8],
    log_b: &mut [u8],
    channel_b: bool,
) -> CaptureAnswer
    ensures { CaptureShown (record { mr1 = mr1; acr7 = acr7; code = code }) text.now
        name_a.now name_b.now log_a.old log_b.old
        log_a.new log_b.new channel_b result }
{
    let asked = Asked {
        mr1: mr1,
        acr7: acr7,
        code: code,
    };
    let captured = read_capture(asked, text, name_a, name_b, log_a, log_b);
    capture_seen(captured, channel_b)
}

// docs/SOUND.md lists the ranges.
#[unsafe(no_mangle)]
pub extern "C" fn duart_sound(device: Device) -> bool
    ensures { result ≡ is_sound_of device }
{
    is_sound(device)
}
