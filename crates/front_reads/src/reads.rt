// "Read / write: 0 MR1 then MR2 (both); 1 SR / CSR; 2 none / command; 3 receive / transmit buffer; 4 IPCR / ACR;
// 5 ISR / IMR; 6, 7 count high, low / preload high, low; 8-11 as 0-3 for channel B; 12 IVR (both); 13 input
// port / OPCR; 14 start counter / set OP bits; 15 stop counter / reset OP bits."
ghost use Rattle.std.specs.Prelude.{◌≡◌};
ghost use Rattle.front_reads.specs.Reads.{mode_read, side_read, flags_read, counter_started, counter_stopped};
ghost use Rattle.front_reads.specs.Reads.{shared_read, register_read, front_data};

use feed::Feed;
use front::{Front, Handed, SideHanded, hand_a, hand_b, hand_nothing, hand_side};
use front_side::{Side, mode_register, point};
use inputs::{change_register, clear_changes, input_port};
use timer::{start_counter, stop_counter};
use timer_state::mode_of;

// "Any access at MR1 moves the pointer to MR2, where it stays."
fn read_mode(side: Side) -> SideHanded
    ensures { result ≡ mode_read side }
{
    hand_side(point(side, true), Feed::Nothing)
}

// A channel's registers 0 to 3: but for the mode registers and the receive buffer a read does nothing.
// Kept: a number from 0 to 3, the remainder by 4 of the register that `read_register`, listed in docs/, takes.
fn read_side(side: Side, register: u8) -> SideHanded
    ensures { result ≡ side_read side register }
{
    match register {
        0 => read_mode(side),
        3 => hand_side(side, Feed::Read),
        _ => hand_side(side, Feed::Nothing),
    }
}

// "IPCR: .. a read clears the flags"
fn read_flags(front: Front) -> Front
    ensures { result ≡ flags_read front }
{
    let inputs = clear_changes(front.inputs);
    let mut f = front;
    f.inputs = inputs;
    f
}

fn start(front: Front) -> Front
    ensures { result ≡ counter_started front }
{
    let timer = start_counter(front.timer, mode_of(front.acr));
    let mut f = front;
    f.timer = timer;
    f
}

fn stop(front: Front) -> Front
    ensures { result ≡ counter_stopped front }
{
    let timer = stop_counter(front.timer, mode_of(front.acr));
    let mut f = front;
    f.timer = timer;
    f
}

// The registers that both channels share; the others do nothing when they are read.
fn read_shared(front: Front, register: u8) -> Front
    ensures { result ≡ shared_read front register }
{
    match register {
        4 => read_flags(front),
        14 => start(front),
        15 => stop(front),
        _ => front,
    }
}

// "8-11 as 0-3 for channel B"
pub fn read_register(front: Front, register: u8) -> Handed
    ensures { result ≡ register_read front register }
{
    if register / 4 == 0 {
        return hand_a(front, read_side(front.a, register % 4));
    }
    if register / 4 == 2 {
        return hand_b(front, read_side(front.b, register % 4));
    }
    hand_nothing(read_shared(front, register))
}

// The byte that the front answers; "Start and stop read 0", and the registers that a receiver answers are not
// the front's.
pub fn front_data(front: Front, register: u8) -> u8
    ensures { result ≡ front_data front register }
{
    match register {
        0 => mode_register(front.a),
        4 => change_register(front.inputs),
        6 => (front.timer.count / 256) as u8,
        7 => (front.timer.count % 256) as u8,
        8 => mode_register(front.b),
        12 => front.ivr,
        13 => input_port(front.inputs),
        _ => 0,
    }
}
