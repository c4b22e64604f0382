// One transmitter, and what an input does to it.
ghost use Rattle.std.specs.Prelude.{◌≡◌};
ghost use Rattle.transmitter.specs.Transmitter.{after_input};

use crate::commands::{ask_break, disable, drop_sending, enable, end_break, reset, write};
use transmitter_state::{Standing, Transmitter, fresh_transmitter, pulse};

// What reaches a transmitter. A command is two of these: "bits 6-4 first, then 3-2".
#[derive(Clone, Copy)]
pub enum Input {
    Nothing,
    // a pulse of its clock
    Pulse(Standing),
    // a write of the transmit buffer
    Write(u8),
    Enable,
    Disable,
    StartBreak,
    StopBreak,
    // reset transmitter
    Reset,
    ChipReset,
    // order 2: a change of the channel's mode
    ModeChange,
}

// One input: each is a rule of its own, in every state.
pub fn step_transmitter(transmitter: Transmitter, input: Input) -> Transmitter
    ensures { result ≡ after_input transmitter input }
{
    match input {
        Input::Nothing => transmitter,
        Input::Pulse(standing) => pulse(transmitter, standing),
        Input::Write(byte) => write(transmitter, byte),
        Input::Enable => enable(transmitter),
        Input::Disable => disable(transmitter),
        Input::StartBreak => ask_break(transmitter),
        Input::StopBreak => end_break(transmitter),
        Input::Reset => reset(transmitter),
        Input::ChipReset => fresh_transmitter(),
        Input::ModeChange => drop_sending(transmitter),
    }
}
