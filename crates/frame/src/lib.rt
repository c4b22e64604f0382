// A frame of the MC68681's serial channels: its bits, its levels on the line and its length.
#![tactic(auto)]

pub mod levels;

pub use levels::{FrameBits, frame_bits, frame_length, level_of};
