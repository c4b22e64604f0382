// Ticks are still while no clock of a channel has a pulse in them and the counter/timer does not come to its end, so that
// phases and the count move, and nothing else: how many there are room for, and the device when they have passed.
ghost use Rattle.std.specs.Prelude.{◌≡◌, ltb};
ghost use Rattle.chip_fast.specs.Passing.{channel_room, front_room, counts_passed, passed_of};

use chip_device::Device;
use clocks::{pass_side, side_room};
use format::Ticks;
use front::Front;
use front_side::Side;
use timer::{pass_timer, timer_room};
use timer_state::mode_of;

// One after the other, so that nothing is worked out past the first that has none.
pub fn has_room(front: Front) -> bool
    ensures { result ≡ ltb 0 (front_room front) }
{
    let second = front.acr / 128 == 1;
    let timer = timer_room(front.timer, mode_of(front.acr));
    if timer.0 == 0 {
        return false;
    }
    let receiver_a = side_room(front.a.phases.receiver, second, front.a.csr / 16);
    if receiver_a.0 == 0 {
        return false;
    }
    let transmitter_a = side_room(front.a.phases.transmitter, second, front.a.csr % 16);
    if transmitter_a.0 == 0 {
        return false;
    }
    let receiver_b = side_room(front.b.phases.receiver, second, front.b.csr / 16);
    if receiver_b.0 == 0 {
        return false;
    }
    let transmitter_b = side_room(front.b.phases.transmitter, second, front.b.csr % 16);
    transmitter_b.0 != 0
}

fn channel_room(side: Side, acr: u8) -> Ticks
    ensures { result ≡ record { 0 = channel_room side acr } }
{
    let second = acr / 128 == 1;
    let receiver = side_room(side.phases.receiver, second, side.csr / 16);
    let transmitter = side_room(side.phases.transmitter, second, side.csr % 16);
    Ticks(receiver.0.min(transmitter.0))
}

// How many ticks there are room for.
pub fn front_room(front: Front) -> Ticks
    ensures { result ≡ record { 0 = front_room front } }
{
    let timer = timer_room(front.timer, mode_of(front.acr));
    let a = channel_room(front.a, front.acr);
    let b = channel_room(front.b, front.acr);
    Ticks(timer.0.min(a.0.min(b.0)))
}

// What moves in still ticks, and nothing else: the phases of the four clocks, the count and the phase of ticks/16.
#[derive(Clone, Copy)]
pub struct Counts {
    pub rxca: Ticks,
    pub txca: Ticks,
    pub rxcb: Ticks,
    pub txcb: Ticks,
    pub count: u16,
    pub ticks: Ticks,
}

// These, so many ticks later.
pub fn pass_counts(front: Front, ticks: Ticks) -> Counts
    ensures { result ≡ counts_passed front ticks }
{
    let timer = pass_timer(front.timer, mode_of(front.acr), ticks);
    let phase = timer.ticks;
    Counts {
        rxca: pass_side(front.a.phases.receiver, front.a.csr / 16, ticks),
        txca: pass_side(front.a.phases.transmitter, front.a.csr % 16, ticks),
        rxcb: pass_side(front.b.phases.receiver, front.b.csr / 16, ticks),
        txcb: pass_side(front.b.phases.transmitter, front.b.csr % 16, ticks),
        count: timer.count,
        ticks: phase,
    }
}

// So many ticks later. `look` is what is lent, so that of the device itself only six fields are taken out.
pub fn pass_device(device: Device, ticks: Ticks) -> Device
    ensures { result ≡ passed_of device ticks }
{
    let look = device;
    let mut next = device;
    let counts = pass_counts(look.front, ticks);
    next.front.a.phases.receiver.0 = counts.rxca.0;
    next.front.a.phases.transmitter.0 = counts.txca.0;
    next.front.b.phases.receiver.0 = counts.rxcb.0;
    next.front.b.phases.transmitter.0 = counts.txcb.0;
    next.front.timer.count = counts.count;
    next.front.timer.ticks.0 = counts.ticks.0;
    next
}
