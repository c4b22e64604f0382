// A byte sent on A as in case 4, seen at the middle of each bit: what the frame lister prints.
#![tactic(auto)]

mod line;

pub use line::{Listed, list_byte, prepared};
