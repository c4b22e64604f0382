// What an event makes of the front, and hands to each receiver.
ghost use Rattle.std.specs.Prelude.{◌≡◌};
ghost use Rattle.front_events.specs.FrontEvents.{front_reset, acknowledged, front_stepped};

use events::Event;
use feed::Feed;
use front::{Front, Handed, front_at, hand_nothing};
use front_clocks::{move_levels, tick_front};
use front_reads::read_register;
use front_writes::write_register;

// "Chip reset: .. Pin levels stay."
fn reset_front(front: Front) -> Handed
    ensures { result ≡ front_reset front }
{
    Handed {
        front: front_at(front.inputs.levels),
        a: Feed::ChipReset,
        b: Feed::ChipReset,
    }
}

// "acknowledge .. changes nothing"
fn acknowledge(front: Front) -> Handed
    ensures { result ≡ acknowledged front }
{
    hand_nothing(front)
}

// What an event makes of the front, and hands to each receiver.
pub fn step_front(front: Front, event: Event) -> Handed
    ensures { result ≡ front_stepped front event }
{
    match event {
        Event::ChipReset => reset_front(front),
        Event::Read(register) => read_register(front, register),
        Event::Write(register, byte) => write_register(front, register, byte),
        Event::Acknowledge => acknowledge(front),
        Event::Pins(levels) => move_levels(front, levels),
        Event::Tick => tick_front(front),
    }
}
