// The lines of a value change dump after its header, byte by byte: what they say, and whether they are such as order 7 reads.
#![tactic(auto)]

mod body;

pub use body::{Place, Reading, Said, say, start, take};
