// The bits of a register: one of them read, and eight of them put together.
#![tactic(auto)]

mod bytes;

pub use bytes::{byte_of, has_bit};
