// The sampler of one receiver of the MC68681: characters put together from the levels of a line, pulse
// by pulse.
//
// It stands in a crate of its own because it never looks at the queue: here there is none. specs/ has
// its definitions under the same name.
#![tactic(auto)]

mod sampler;

pub use sampler::{sample, take_sample};
