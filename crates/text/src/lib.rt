// Text that is put into lent space, byte by byte: what does not fit is not put, and counts all the same. So text that
// goes into an empty space is measured. And numbers that are read.
#![tactic(auto)]

mod numbers;
mod putting;

pub use numbers::{MOST, digit_value, is_digit, number_after};
pub use putting::{Page, level_digit, put};
