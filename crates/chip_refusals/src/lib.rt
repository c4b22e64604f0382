// The table of answers: rows 2 to 6, and the first of rows 1 to 6 that applies.
//
// One file a topic; specs/ has the definitions of each under the same name.
#![tactic(auto)]

mod refusals;
mod rows;

pub use refusals::first_refusal;
