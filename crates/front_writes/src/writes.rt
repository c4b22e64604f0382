// "Read / write: 0 MR1 then MR2 (both); 1 SR / CSR; 2 none / command; 3 receive / transmit buffer; 4 IPCR / ACR;
// 5 ISR / IMR; 6, 7 count high, low / preload high, low; 8-11 as 0-3 for channel B; 12 IVR (both); 13 input
// port / OPCR; 14 start counter / set OP bits; 15 stop counter / reset OP bits."
ghost use Rattle.std.specs.Prelude.{◌≡◌};
ghost use Rattle.front_writes.specs.Writes.{commanded, side_written, acr_written, preload_written, preload_high};
ghost use Rattle.front_writes.specs.Writes.{preload_low, outputs_written, imr_written, ivr_written, shared_written};
ghost use Rattle.front_writes.specs.Writes.{register_written};

use feed::Feed;
use front::{Front, Handed, SideHanded, hand_a, hand_b, hand_nothing, hand_side};
use front_commands::{command_feed, command_side};
use front_modes::{mode_feed, set_mode};
use front_side::{Side, change_set, write_buffer, write_csr};
use outputs::{Outputs, choose_outputs, reset_bits, set_bits};
use timer::change_mode;

fn command(side: Side, byte: u8) -> SideHanded
    ensures { result ≡ commanded side byte }
{
    hand_side(command_side(side, byte), command_feed(side, byte))
}

// A channel's registers 0 to 3.
// Kept: a number from 0 to 3, the remainder by 4 of the register that `write_register`, listed in docs/, takes.
fn write_side(side: Side, register: u8, byte: u8) -> SideHanded
    ensures { result ≡ side_written side register byte }
{
    match register {
        0 => hand_side(set_mode(side, byte), mode_feed(side, byte)),
        1 => hand_side(write_csr(side, byte), Feed::Nothing),
        2 => command(side, byte),
        _ => hand_side(write_buffer(side, byte), Feed::Nothing),
    }
}

// "a change of ACR bit 7 restarts all four"; "A change of ACR 6-4 reloads"
fn write_acr(front: Front, byte: u8) -> Front
    ensures { result ≡ acr_written front byte }
{
    let a = change_set(front.a, front.acr, byte);
    let b = change_set(front.b, front.acr, byte);
    let timer = change_mode(front.timer, front.acr, byte);
    let mut f = front;
    f.a = a;
    f.b = b;
    f.timer = timer;
    f.acr = byte;
    f
}

fn write_imr(front: Front, byte: u8) -> Front
    ensures { result ≡ imr_written front byte }
{
    let mut f = front;
    f.imr = byte;
    f
}

fn write_ivr(front: Front, byte: u8) -> Front
    ensures { result ≡ ivr_written front byte }
{
    let mut f = front;
    f.ivr = byte;
    f
}

// "preload high, low": the count stays.
fn write_preload(front: Front, preload: u16) -> Front
    ensures { result ≡ preload_written front preload }
{
    let mut f = front;
    f.timer.preload = preload;
    f
}

fn preload_high(preload: u16, byte: u8) -> u16
    ensures { result ≡ preload_high preload byte }
{
    (byte as u16) * 256 + preload % 256
}

fn preload_low(preload: u16, byte: u8) -> u16
    ensures { result ≡ preload_low preload byte }
{
    preload / 256 * 256 + byte as u16
}

fn write_outputs(front: Front, outputs: Outputs) -> Front
    ensures { result ≡ outputs_written front outputs }
{
    let mut f = front;
    f.outputs = outputs;
    f
}

// The registers that both channels share; any other number writes nothing.
fn write_shared(front: Front, register: u8, byte: u8) -> Front
    ensures { result ≡ shared_written front register byte }
{
    match register {
        4 => write_acr(front, byte),
        5 => write_imr(front, byte),
        6 => write_preload(front, preload_high(front.timer.preload, byte)),
        7 => write_preload(front, preload_low(front.timer.preload, byte)),
        12 => write_ivr(front, byte),
        13 => write_outputs(front, choose_outputs(front.outputs, byte)),
        14 => write_outputs(front, set_bits(front.outputs, byte)),
        15 => write_outputs(front, reset_bits(front.outputs, byte)),
        _ => front,
    }
}

// "8-11 as 0-3 for channel B"
pub fn write_register(front: Front, register: u8, byte: u8) -> Handed
    ensures { result ≡ register_written front register byte }
{
    if register / 4 == 0 {
        return hand_a(front, write_side(front.a, register % 4, byte));
    }
    if register / 4 == 2 {
        return hand_b(front, write_side(front.b, register % 4, byte));
    }
    hand_nothing(write_shared(front, register, byte))
}
