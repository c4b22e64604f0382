// "Sound means no more than this: fields in ranges listed in docs/ that hold every value a rule here can put
// there, registers holding only values that writes accept, and the waiting place used only with three
// characters held and no confirmed start under way."
ghost use Rattle.std.specs.Prelude.{◌≡◌};
ghost use Rattle.clocks.specs.Sound.{phases_in_range};
ghost use Rattle.front.specs.Sound.{front_in_range};
ghost use Rattle.sampler.specs.Sound.{sampler_in_range};
ghost use Rattle.feed.specs.Ranges.{setting_in_range};
ghost use Rattle.front_side.specs.Sound.{side_in_range};
ghost use Rattle.timer.specs.Sound.{timer_in_range};
ghost use Rattle.transmitter.specs.Sound.{transmitter_in_range};
ghost use Rattle.chip_soundness.specs.Soundness.{receiver_sound};

use clocks::Phases;
use feed::Setting;
use format::{mr1_not_modelled, mr2_not_modelled};
use front::Front;
use front_side::Side;
use outputs::opcr_not_modelled;
use queue::one_waits;
use receiver_state::Receiver;
use sampler_state::{ASSEMBLING, Sampler};
use timer_state::Timer;
use transmitter_state::Transmitter;

fn setting_in_range(setting: Setting) -> bool
    ensures { result ≡ setting_in_range setting }
{
    let width = setting.format.width.0;
    (5..=8).contains(&width) && setting.format.parity <= 2
}

fn sampler_in_range(sampler: Sampler) -> bool
    ensures { result ≡ sampler_in_range sampler }
{
    sampler.phase <= 4
        && sampler.left.0 <= 15
        && setting_in_range(sampler.setting)
        && sampler.taken.0 <= 9
        && sampler.value <= 511
}

// "the waiting place used only with three characters held and no confirmed start under way"
pub fn receiver_is_sound(receiver: Receiver) -> bool
    ensures { result ≡ receiver_sound receiver }
{
    sampler_in_range(receiver.sampler)
        && receiver.queue.count <= 4
        && (!one_waits(receiver.queue) | (receiver.sampler.phase != ASSEMBLING))
}

fn transmitter_in_range(transmitter: Transmitter) -> bool
    ensures { result ≡ transmitter_in_range transmitter }
{
    transmitter.phase <= 3
        && transmitter.shifter.length.0 <= 192
        && transmitter.shifter.sent.0 <= 192
        && transmitter.left.0 <= 15
}

fn phases_in_range(phases: Phases) -> bool
    ensures { result ≡ phases_in_range phases }
{
    phases.receiver.0 <= 4607 && phases.transmitter.0 <= 4607 && phases.sixteenths.0 <= 15
}

fn timer_in_range(timer: Timer) -> bool
    ensures { result ≡ timer_in_range timer }
{
    timer.ticks.0 <= 15 && timer.edges.0 <= 15
}

fn side_in_range(side: Side) -> bool
    ensures { result ≡ side_in_range side }
{
    !mr1_not_modelled(side.mr1)
        && !mr2_not_modelled(side.mr2)
        && transmitter_in_range(side.transmitter)
        && phases_in_range(side.phases)
}

pub fn front_in_range(front: Front) -> bool
    ensures { result ≡ front_in_range front }
{
    side_in_range(front.a)
        && side_in_range(front.b)
        && timer_in_range(front.timer)
        && front.inputs.changes <= 15
        && !opcr_not_modelled(front.outputs.opcr)
}
