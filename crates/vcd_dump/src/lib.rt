// A value change dump of the chip's lines, from a state and a list of events, written into lent space.
#![tactic(auto)]

mod dumping;
mod waves;

pub use dumping::{DumpAnswer, dump};
