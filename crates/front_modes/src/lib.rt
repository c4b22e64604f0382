// A channel's mode, MR2 bits 7-6 (order 2): which modes loop and which echo, what TxD and the transmitter's status
// bits show in each, and what a change of mode does.
#![tactic(auto)]

mod modes;

pub use modes::{echoes, is_local, is_remote, mode_feed, set_mode, show_sender, show_txd};
