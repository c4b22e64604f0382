// The transmitter of one channel of the MC68681: what an input does to it, and what it shows.
//
// One file a topic; specs/ has the definitions of each under the same name.
#![tactic(auto)]

mod commands;
mod status;
mod transmitter;

pub use status::{TransmitterStatus, transmitter_status};
pub use transmitter::{Input, step_transmitter};
