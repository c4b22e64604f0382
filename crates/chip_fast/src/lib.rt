// The step by value, faster: a still tick is answered in place, every other event by the chip's own rules. What it
// answers is what the chip answers.
#![tactic(auto)]

mod fast;
mod passing;

pub use fast::{Hopped, at_rest, hop, sound_step, swift_step};
