// The script of the program `replay`: what a line of it says, read byte by byte, and which line it is.
//
// One file a topic; specs/ has the definitions of each under the same name, and in `Script` what a line says by its words.
#![tactic(auto)]

mod lines;
mod place;
mod reading;

pub use lines::{Line, is_silent, tell};
pub use place::{Place, first_place, next_line, next_place};
pub use reading::{Reading, start, take};
