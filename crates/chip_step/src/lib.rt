// The MC68681 by value: one event, one answer, which holds the new state. What is owed of the whole is stated in the
// crate `chip_laws`.
#![tactic(auto)]

mod chip;

pub use chip::{Answer, step};
