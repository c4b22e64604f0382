// The sampler of one receiver of the MC68681 outside a character: starts and breaks. specs/ has its
// definitions under the same name.
#![tactic(auto)]

mod hunting;

pub use hunting::{Sampled, follow_low_stop, hunt, look_again, quiet, wait_for_end};
