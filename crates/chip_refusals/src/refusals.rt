// The table of answers: the first of its rows that applies.
ghost use Rattle.std.specs.Prelude.{◌≡◌};
ghost use Rattle.refusal.specs.Refusal.{answer_number};
ghost use Rattle.chip_refusals.specs.Refusals.{first_of};

use crate::rows::{
    chooses_not_modelled, is_forbidden_command, is_forbidden_read, is_register_above_15,
    is_unasserted_acknowledge,
};
use chip_device::{Device, is_sound};
use events::Event;
use refusal::Refusal;

// "Checked in this order.": the first of rows 1 to 6 that applies.
#[tactic(auto, unfolding(crate::specs::Refusals::first_of, format::specs::Pick::pick))]
pub fn first_refusal(device: Device, event: Event) -> Option<Refusal>
    ensures { answer_number result ≡ first_of device event 0 }
{
    if !is_sound(device) {
        return Some(Refusal::StateUnsound);
    }
    if is_register_above_15(event) {
        return Some(Refusal::RegisterAbove15);
    }
    if is_forbidden_read(event) {
        return Some(Refusal::ReadForbidden);
    }
    if is_forbidden_command(event) {
        return Some(Refusal::CommandForbidden);
    }
    if chooses_not_modelled(device.front, event) {
        return Some(Refusal::SettingNotModelled);
    }
    if is_unasserted_acknowledge(device, event) {
        return Some(Refusal::AcknowledgeUnasserted);
    }
    None
}
