// The front in a tick or a pin event, in document 01's order.
#![tactic(auto)]

mod clocking;

pub use clocking::{move_levels, tick_front};
