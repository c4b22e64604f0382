// A side in a tick or a pin event: its clocks, its transmitter, and what its receiver is handed.
#![tactic(auto)]

mod clocking;

pub use clocking::{Clocking, clock_side};
