// A command: what it does to a channel's side, and what it hands to the receiver.
#![tactic(auto)]

mod commands;

pub use commands::{command_feed, command_side};
