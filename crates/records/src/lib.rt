// An event and its answer as records of bytes, for C and for lists.
#![tactic(auto)]

mod records;

pub use records::{EventRecord, Seen, event_of, seen_of};
