// A received character of the MC68681 and its error marks.
//
// It stands below the sampler, which puts characters together, and the queue, which moves them whole,
// so that neither of the two sees the other.
#![tactic(auto)]

mod character;

pub use character::{
    Character, Marks, break_character, no_character, no_marks, or_marks, unmarked,
};
