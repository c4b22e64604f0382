// A side and what a program writes into it.
ghost use Rattle.std.specs.Prelude.{◌≡◌};
ghost use Rattle.front_side.specs.Side.{fresh_side, mode_register, mode_not_modelled, pointed_at, mode_written};
ghost use Rattle.front_side.specs.Side.{csr_written, buffer_written, set_changed};

use clocks::{Phases, restart, restart_on_change};
use format::{mr1_not_modelled, mr2_not_modelled};
use transmitter::{Input, step_transmitter};
use transmitter_state::{Transmitter, fresh_transmitter};

#[repr(C)]
#[derive(Clone, Copy)]
pub struct Side {
    pub mr1: u8,
    pub mr2: u8,
    // the pointer has moved from MR1 to MR2
    pub moved: bool,
    pub csr: u8,
    // the receiver's enable
    pub enabled: bool,
    // order 2: the level that the echo modes put on TxD; high where nothing has been echoed
    pub echo: bool,
    pub transmitter: Transmitter,
    pub phases: Phases,
}

// "every other register, .. phase, flag .. 0, .. both sides disabled, .. TxD high, .. pointer at MR1"
pub fn fresh_side() -> Side
    ensures { result ≡ fresh_side }
{
    Side {
        mr1: 0,
        mr2: 0,
        moved: false,
        csr: 0,
        enabled: false,
        echo: true,
        transmitter: fresh_transmitter(),
        phases: restart(),
    }
}

// "0 MR1 then MR2 (both)": the one that the pointer is at.
pub fn mode_register(side: Side) -> u8
    ensures { result ≡ mode_register side }
{
    if side.moved {
        return side.mr2;
    }
    side.mr1
}

// Whether a write at the pointer chooses "a setting not modelled".
pub fn mode_not_modelled(side: Side, byte: u8) -> bool
    ensures { result ≡ mode_not_modelled side byte }
{
    if side.moved {
        return mr2_not_modelled(byte);
    }
    mr1_not_modelled(byte)
}

// The pointer: "Any access at MR1 moves the pointer to MR2, where it stays."; "1 pointer to MR1".
pub fn point(side: Side, moved: bool) -> Side
    ensures { result ≡ pointed_at side moved }
{
    let mut s = side;
    s.moved = moved;
    s
}

pub fn write_mode(side: Side, byte: u8) -> Side
    ensures { result ≡ mode_written side byte }
{
    let mut s = side;
    if side.moved {
        s.mr2 = byte;
        return s;
    }
    s.mr1 = byte;
    s.moved = true;
    s
}

// "A CSR write restarts that channel's phases"
pub fn write_csr(side: Side, byte: u8) -> Side
    ensures { result ≡ csr_written side byte }
{
    let restarted = restart();
    let mut s = side;
    s.csr = byte;
    s.phases = restarted;
    s
}

// The transmit buffer.
pub fn write_buffer(side: Side, byte: u8) -> Side
    ensures { result ≡ buffer_written side byte }
{
    let transmitter = step_transmitter(side.transmitter, Input::Write(byte));
    let mut s = side;
    s.transmitter = transmitter;
    s
}

// "a change of ACR bit 7 restarts all four": ACR before and after.
pub fn change_set(side: Side, before: u8, after: u8) -> Side
    ensures { result ≡ set_changed side before after }
{
    let phases = restart_on_change(side.phases, before, after);
    let mut s = side;
    s.phases = phases;
    s
}
