// "Order in a tick or pin event: levels and flags; counter/timer from ticks or IP2; transmitter then receiver
// of A; the same of B; counter from a 1X transmitter clock".
ghost use Rattle.std.specs.Prelude.{◌≡◌};
ghost use Rattle.front_clocks.specs.Clocking.{counted_of, clocked_with, clocked_of, ticked_of, levels_moved};

use front::{Front, Handed};
use front_side_clocks::{Clocking, clock_side};
use inputs::{move_pins, pins_of_a, pins_of_b, rises};
use timer::{step_by_edge, step_by_tick, step_by_transmitter};
use timer_state::{Counted, Timer, mode_of};

const IP2: u8 = 2;

// The levels before the event, and whether it is a tick; those after it stand in the front.
// Kept: the levels before beside whether it is a tick, for the clause's `counted_of` takes both.
fn count(front: Front, before: u8, tick: bool) -> Counted
    ensures { result ≡ counted_of front before tick }
{
    if tick {
        return step_by_tick(front.timer, mode_of(front.acr));
    }
    if rises(before, front.inputs.levels, IP2) {
        return step_by_edge(front.timer, mode_of(front.acr));
    }
    let timer = front.timer;
    Counted {
        timer: timer,
        toggled: false,
    }
}

// Both sides after it, and the counter from their 1X transmitter clocks.
fn clock_with(front: Front, timer: Timer, a: Clocking, b: Clocking) -> Handed
    ensures { result ≡ clocked_with front timer a b }
{
    let counter = step_by_transmitter(timer, mode_of(front.acr), a.one, b.one);
    let side_a = a.side;
    let side_b = b.side;
    let feed_a = a.feed;
    let feed_b = b.feed;
    let mut f = front;
    f.a = side_a;
    f.b = side_b;
    f.timer = counter;
    Handed {
        front: f,
        a: feed_a,
        b: feed_b,
    }
}

// "ACR bit 7" chooses the set of rates.
fn clock(front: Front, before: u8, tick: bool) -> Handed
    ensures { result ≡ clocked_of front before tick }
{
    let after = front.inputs.levels;
    let second = front.acr / 128 == 1;
    let counted = count(front, before, tick);
    let toggled = counted.toggled;
    let a = clock_side(front.a, second, pins_of_a(before, after), tick, toggled);
    let b = clock_side(front.b, second, pins_of_b(before, after), tick, toggled);
    clock_with(front, counted.timer, a, b)
}

// A tick of the crystal: no pin moves.
pub fn tick_front(front: Front) -> Handed
    ensures { result ≡ ticked_of front }
{
    clock(front, front.inputs.levels, true)
}

// A pin event: the new levels are in force before everything else.
pub fn move_levels(front: Front, levels: u8) -> Handed
    ensures { result ≡ levels_moved front levels }
{
    let inputs = move_pins(front.inputs, levels);
    let mut f = front;
    f.inputs = inputs;
    clock(f, front.inputs.levels, false)
}
