// The text of what the program `replay` prints of an answer, and what it and `dump` print where a line cannot be read.
// `capture` puts its bytes by `put_byte` too.
#![tactic(auto)]

mod lines;

pub use lines::{put_byte, write_error, write_seen};
