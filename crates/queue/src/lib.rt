// The queue of three of one receiver of the MC68681, and the waiting place.
//
// It stands in a crate of its own because it never looks at the sampler, nor into a character: it
// moves them whole. specs/ has the definitions, first over a list of those held, then over this layout.
#![tactic(auto)]

mod queue;

pub use queue::{
    Queue, empty_queue, is_empty, is_full, oldest, one_waits, put, remove_waiting, replace_oldest,
    take_oldest,
};
