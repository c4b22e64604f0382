// What a board maker links: the device lent to one thin step, and the names for C. include/duart.h declares them.
#![tactic(auto)]

mod duart;

pub use duart::{
    CaptureAnswer, PolledSeen, RanSeen, duart_abi, duart_capture, duart_dump_bytes, duart_frame,
    duart_fresh, duart_poll, duart_run, duart_sound, duart_step,
};
