// What a channel shows of itself: its status register and its three bits of ISR; and ISR.
#![tactic(auto)]

mod shown;

pub use shown::{Shown, interrupt_status, show_channel};
