// Why an answer is a refusal: the rows of the table of answers, each with its number.
#![tactic(auto)]

mod refusal;

pub use refusal::{Refusal, answer_number};
