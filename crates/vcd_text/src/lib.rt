// The text of a value change dump: the time of a tick, the header, and what is written at a time.
#![tactic(auto)]

mod lines;
mod time;

pub use lines::{put_changes, put_header};
pub use time::tick_time;
