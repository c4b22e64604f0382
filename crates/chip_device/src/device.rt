// The device: a front and two receivers.
ghost use Rattle.std.specs.Prelude.{◌≡◌};
ghost use Rattle.chip_device.specs.Device.{fresh_device, is_sound_of, device_lines};

use chip_answers::{Lines, lines_of};
use chip_shown::show_channel;
use chip_soundness::{front_in_range, receiver_is_sound};
use front::{Front, front_at};
use receiver_state::{Receiver, fresh_receiver};

#[repr(C)]
#[derive(Clone, Copy)]
pub struct Device {
    pub front: Front,
    pub a: Receiver,
    pub b: Receiver,
}

// "A fresh device is the state after a chip reset with all pins high."
pub fn fresh() -> Device
    ensures { result ≡ fresh_device }
{
    Device {
        front: front_at(255),
        a: fresh_receiver(),
        b: fresh_receiver(),
    }
}

// docs/SOUND.md lists the ranges.
pub fn is_sound(device: Device) -> bool
    ensures { result ≡ is_sound_of device }
{
    front_in_range(device.front) && receiver_is_sound(device.a) && receiver_is_sound(device.b)
}

// The lines as this state drives them.
pub fn device_lines(device: Device) -> Lines
    ensures { result ≡ device_lines device }
{
    let a = show_channel(device.front.a, device.a);
    let b = show_channel(device.front.b, device.b);
    lines_of(device.front, a, b)
}
