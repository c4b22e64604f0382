// What the chip answers from its front and from what its channels show: ISR, IRQ, the lines and the data byte.
#![tactic(auto)]

mod answers;

pub use answers::{Lines, event_data, event_fresh, is_asserted, lines_of, no_lines};
