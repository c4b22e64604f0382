// Many ticks of the crystal in a row, each an event of its own: so many, or until IRQ is asserted.
#![tactic(auto)]

mod ticks;
mod until_irq;

pub use ticks::tick_times;
pub use until_irq::{Ran, run};
