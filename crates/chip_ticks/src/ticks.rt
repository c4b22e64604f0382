// Many ticks in a row. Where no clock has a pulse and the counter/timer does not come to its end, ticks pass at once.
ghost use Rattle.std.specs.Prelude.{◌≡◌, true};
ghost use Rattle.chip_device.specs.Device.{is_sound_of};
ghost use Rattle.chip_ticks.specs.Ticks.{is_over, spent_of, ticked};

use chip_device::{Device, device_lines, is_sound};
use chip_fast::{at_rest, hop, swift_step};
use chip_step::Answer;
use events::Event;
use format::Ticks;

// How many ticks were spent, and the state after them.
#[derive(Clone, Copy)]
pub struct Spent {
    pub ticks: u64,
    pub state: Device,
}

// No tick is left, or IRQ is asserted and it is looked at.
// Kept: a flag, as `spend` takes it.
fn is_over(device: Device, left: u64, watch: bool) -> bool
    ensures { result ≡ is_over watch left device }
{
    if left == 0 {
        return true;
    }
    if watch {
        let lines = device_lines(device);
        return lines.irq;
    }
    false
}

// Single ticks, at most so many, until IRQ is asserted where it is looked at.
// Kept: a flag and no closure, for the clause is `spent_of watch`: of a closure the same would have to be required.
pub fn spend(device: Device, ticks: u64, watch: bool) -> Spent
    requires { is_sound_of device ≡ true }
    ensures { result ≡ spent_of watch ticks device }
{
    let mut state = device;
    let mut left = ticks;
    let mut over = is_over(state, left, watch);
    while !over {
        let hopped = hop(state, Ticks(left - 1));
        let next = hopped.state;
        state = next;
        left -= hopped.still.0 + 1;
        over = is_over(state, left, watch);
    }
    Spent {
        ticks: ticks - left,
        state: state,
    }
}

// The last answer, after so many ticks more.
pub fn tick_times(answer: Answer, times: Ticks) -> Answer
    ensures { result ≡ ticked times.0 answer }
{
    if times.0 == 0 {
        return answer;
    }
    let state = answer.state;
    if is_sound(state) {
        let spent = spend(state, times.0, false);
        let last = spent.state;
        return at_rest(last);
    }
    swift_step(state, Event::Tick)
}
