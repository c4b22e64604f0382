// The rows of the table of answers, each by itself: rows 2 to 6. Row 1 is the device's `is_sound`.
ghost use Rattle.std.specs.Prelude.{◌≡◌};
ghost use Rattle.chip_refusals.specs.Rows.{register_above15, forbidden_read, forbidden_command, write_not_modelled};
ghost use Rattle.chip_refusals.specs.Rows.{setting_not_modelled, device_asserted, acknowledged_unasserted};

use chip_answers::is_asserted;
use chip_device::Device;
use chip_shown::show_channel;
use events::{Event, command_forbidden};
use front::Front;
use front_side::mode_not_modelled;
use outputs::opcr_not_modelled;

// 2: "register above 15"
#[tactic(auto, unfolding(crate::specs::Rows::register_above15, format::specs::Pick::pick))]
pub fn is_register_above_15(event: Event) -> bool
    ensures { result ≡ register_above15 event }
{
    match event {
        Event::Read(register) => 15 < register,
        Event::Write(register, _) => 15 < register,
        _ => false,
    }
}

// 3: "read of register 2 or 10"
#[tactic(auto, unfolding(crate::specs::Rows::forbidden_read, format::specs::Pick::pick))]
pub fn is_forbidden_read(event: Event) -> bool
    ensures { result ≡ forbidden_read event }
{
    matches!(event, Event::Read(2 | 10))
}

// 4: "command whose bits 3-2 or 1-0 are 11": a write of register 2 or 10 is a command.
#[tactic(auto, unfolding(crate::specs::Rows::forbidden_command, format::specs::Pick::pick))]
pub fn is_forbidden_command(event: Event) -> bool
    ensures { result ≡ forbidden_command event }
{
    match event {
        Event::Write(2 | 10, byte) => command_forbidden(byte),
        _ => false,
    }
}

// MR1 or MR2, where that channel's pointer is, and OPCR: no other register has a setting not modelled.
#[tactic(auto, unfolding(crate::specs::Rows::write_not_modelled, format::specs::Pick::pick))]
fn write_not_modelled(front: Front, register: u8, byte: u8) -> bool
    ensures { result ≡ write_not_modelled front register byte }
{
    match register {
        0 => mode_not_modelled(front.a, byte),
        8 => mode_not_modelled(front.b, byte),
        13 => opcr_not_modelled(byte),
        _ => false,
    }
}

// 5: "a write .. choosing a setting not modelled"
pub fn chooses_not_modelled(front: Front, event: Event) -> bool
    ensures { result ≡ setting_not_modelled front event }
{
    match event {
        Event::Write(register, byte) => write_not_modelled(front, register, byte),
        _ => false,
    }
}

fn is_device_asserted(device: Device) -> bool
    ensures { result ≡ device_asserted device }
{
    let a = show_channel(device.front.a, device.a);
    let b = show_channel(device.front.b, device.b);
    is_asserted(device.front, a, b)
}

// 6: "acknowledge while IRQ is not asserted"
#[tactic(auto, unfolding(crate::specs::Rows::acknowledged_unasserted, format::specs::Pick::pick))]
pub fn is_unasserted_acknowledge(device: Device, event: Event) -> bool
    ensures { result ≡ acknowledged_unasserted device event }
{
    match event {
        Event::Acknowledge => !is_device_asserted(device),
        _ => false,
    }
}
