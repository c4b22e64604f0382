// The frame request: a frame's levels written into lent space.
#![tactic(auto)]

pub mod request;

pub use request::{FrameAnswer, request_frame};
