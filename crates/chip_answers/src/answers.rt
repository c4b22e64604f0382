// The lines and the data byte.
ghost use Rattle.std.specs.Prelude.{◌≡◌};
ghost use Rattle.chip_answers.specs.Answers.{isr_of, share_a_bit, asserted_of, timer_level, lines_of, no_lines};
ghost use Rattle.chip_answers.specs.Answers.{register_data, event_data, register_fresh, event_fresh};

use byte_bits::has_bit;
use chip_shown::{Shown, interrupt_status};
use events::Event;
use front::Front;
use front_modes::show_txd;
use front_reads::front_data;
use inputs::has_chosen_change;
use outputs::op_levels;
use timer_state::{is_timer, mode_of};

// "IRQ (1 when asserted), TxDA, TxDB, the OP0-OP7 levels"
#[repr(C)]
#[derive(Clone, Copy)]
pub struct Lines {
    pub irq: bool,
    pub txda: bool,
    pub txdb: bool,
    // bit n is OPn
    pub op: u8,
}

// ISR: its bit 3 is the counter's.
// Kept: three parameters, for `is_asserted`, `lines_of` and `event_data`, which docs/ list, take them so.
fn isr_of(front: Front, a: Shown, b: Shown) -> u8
    ensures { result ≡ isr_of front a b }
{
    interrupt_status(
        has_chosen_change(front.inputs, front.acr),
        front.timer.ready,
        a,
        b,
    )
}

// "IRQ is asserted when ISR and IMR share a set bit"
fn share_a_bit(isr: u8, imr: u8) -> bool
    ensures { result ≡ share_a_bit isr imr }
{
    isr & imr != 0
}

pub fn is_asserted(front: Front, a: Shown, b: Shown) -> bool
    ensures { result ≡ asserted_of front a b }
{
    share_a_bit(isr_of(front, a, b), front.imr)
}

// "the timer output on OP3, or in counter mode the complement of ISR bit 3"
fn timer_level(front: Front, isr: u8) -> bool
    ensures { result ≡ timer_level front isr }
{
    if is_timer(mode_of(front.acr)) {
        return front.timer.output;
    }
    !has_bit(isr, 3)
}

pub fn lines_of(front: Front, a: Shown, b: Shown) -> Lines
    ensures { result ≡ lines_of front a b }
{
    let isr = isr_of(front, a, b);
    Lines {
        irq: share_a_bit(isr, front.imr),
        txda: show_txd(
            front.a.mr2,
            front.a.enabled,
            front.a.echo,
            front.a.transmitter.txd,
        ),
        txdb: show_txd(
            front.b.mr2,
            front.b.enabled,
            front.b.echo,
            front.b.transmitter.txd,
        ),
        op: op_levels(front.outputs, isr, timer_level(front, isr)),
    }
}

// "for 1, all lines 0"
pub fn no_lines() -> Lines
    ensures { result ≡ no_lines }
{
    Lines {
        irq: false,
        txda: false,
        txdb: false,
        op: 0,
    }
}

// What a read answers: SR, ISR, the byte that a receiver gave to a read of its buffer, and else the front's.
fn register_data(front: Front, a: Shown, b: Shown, first: u8, second: u8, register: u8) -> u8
    ensures { result ≡ register_data front a b first second register }
{
    match register {
        1 => a.status,
        3 => first,
        5 => isr_of(front, a, b),
        9 => b.status,
        11 => second,
        _ => front_data(front, register),
    }
}

// "the data byte (0 where none is read)"; "acknowledge then reads IVR"
// Kept: bytes here and flags in `event_fresh`: two routines, for each has an edit that is refused at its own clause.
pub fn event_data(front: Front, a: Shown, b: Shown, first: u8, second: u8, event: Event) -> u8
    ensures { result ≡ event_data front a b first second event }
{
    match event {
        Event::ChipReset => 0,
        Event::Read(register) => register_data(front, a, b, first, second, register),
        Event::Write(register, byte) => 0,
        Event::Acknowledge => front.ivr,
        Event::Pins(levels) => 0,
        Event::Tick => 0,
    }
}

// Order 1: "The receive buffer read shall also say fresh or stale".
fn register_fresh(first: bool, second: bool, register: u8) -> bool
    ensures { result ≡ register_fresh first second register }
{
    match register {
        3 => first,
        11 => second,
        _ => false,
    }
}

// "any other event is stale"
pub fn event_fresh(first: bool, second: bool, event: Event) -> bool
    ensures { result ≡ event_fresh first second event }
{
    match event {
        Event::ChipReset => false,
        Event::Read(register) => register_fresh(first, second, register),
        Event::Write(register, byte) => false,
        Event::Acknowledge => false,
        Event::Pins(levels) => false,
        Event::Tick => false,
    }
}
