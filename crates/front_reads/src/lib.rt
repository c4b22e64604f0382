// The reads of the registers 0 to 15, as document 01's table has them: what each does to the front and hands to
// a receiver, and the byte that the front answers.
#![tactic(auto)]

mod reads;

pub use reads::{front_data, read_register};
