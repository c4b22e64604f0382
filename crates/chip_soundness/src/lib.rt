// Which fronts and which receivers are sound: the code of the ranges that docs/SOUND.md lists, and of the rule on
// the waiting place.
#![tactic(auto)]

mod soundness;

pub use soundness::{front_in_range, receiver_is_sound};
