// Order 5: "A companion runs ticks until IRQ is asserted or a budget of up to 1,000,000 is spent".
ghost use Rattle.std.specs.Prelude.{◌≡◌};
ghost use Rattle.chip_ticks.specs.Run.{run_of};

use crate::ticks::spend;
use chip_answers::{Lines, no_lines};
use chip_device::{Device, device_lines, is_sound};
use refusal::Refusal;

// "reports how many ticks it took"; the lines are those of the state.
// Kept: a number, for order 5 has a run answer one, and `RanSeen`, which C reads, shows it.
#[derive(Clone, Copy)]
pub struct Ran {
    pub number: u8,
    pub ticks: u32,
    pub lines: Lines,
    pub state: Device,
}

const MOST_TICKS: u32 = 1000000;

// "Refusals, in this order and before any event: 1, .. 9 for a list or budget over its limit".
pub fn run(device: Device, budget: u32) -> Ran
    ensures { result ≡ run_of device budget }
{
    if !is_sound(device) {
        return Ran {
            number: Refusal::StateUnsound.number(),
            ticks: 0,
            lines: no_lines(),
            state: device,
        };
    }
    if budget > MOST_TICKS {
        return Ran {
            number: Refusal::OverLimit.number(),
            ticks: 0,
            lines: device_lines(device),
            state: device,
        };
    }
    let spent = spend(device, budget as u64, true);
    let state = spent.state;
    Ran {
        number: 0,
        ticks: spent.ticks as u32,
        lines: device_lines(state),
        state: state,
    }
}
