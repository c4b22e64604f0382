// The device: a front and two receivers; when it is sound, and the lines that it drives.
#![tactic(auto)]

mod device;

pub use device::{Device, device_lines, fresh, is_sound};
