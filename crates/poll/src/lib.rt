// A whole poll at once: one call over a lent list of event records.
#![tactic(auto)]

mod polling;

pub use polling::{Polled, poll, seen_in, state_in};
