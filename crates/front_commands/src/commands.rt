// "Command: bit 7 ignored; bits 6-4 first, then 3-2 (01 enable, 10 disable transmitter), then 1-0
// (receiver)."
ghost use Rattle.std.specs.Prelude.{◌≡◌, ◌&&◌, not, eqb};
ghost use Rattle.front_commands.specs.Commands.{bits_of, effect_bits, transmitter_effect, transmitter_enabling};
ghost use Rattle.front_commands.specs.Commands.{receiver_effect, receiver_enabling, enabled_then, enabled_after};
ghost use Rattle.front_commands.specs.Commands.{echo_after, side_commanded, command_feed};

use feed::{Effect, Enabling, Feed};
use front_side::Side;
use transmitter::{Input, step_transmitter};

// What bits 6-4 ask for, by their numbers.
#[derive(Clone, Copy, PartialEq, Eq)]
enum Action {
    Nothing,
    PointAtMr1,
    ResetReceiver,
    ResetTransmitter,
    ClearErrors,
    ClearBreakChange,
    StartBreak,
    StopBreak,
}

fn action_of(byte: u8) -> Action
    ensures { bits_of result ≡ effect_bits byte }
{
    match byte / 16 % 8 {
        0 => Action::Nothing,
        1 => Action::PointAtMr1,
        2 => Action::ResetReceiver,
        3 => Action::ResetTransmitter,
        4 => Action::ClearErrors,
        5 => Action::ClearBreakChange,
        6 => Action::StartBreak,
        _ => Action::StopBreak,
    }
}

// "3 reset transmitter"; "6, 7 start, stop break"
fn transmitter_effect(action: Action) -> Input
    ensures { result ≡ transmitter_effect (bits_of action) }
{
    match action {
        Action::ResetTransmitter => Input::Reset,
        Action::StartBreak => Input::StartBreak,
        Action::StopBreak => Input::StopBreak,
        _ => Input::Nothing,
    }
}

// Kept: bits 3-2 here, 1-0 below, as numbers: each value is asked about once, beside the words that name it.
// "then 3-2 (01 enable, 10 disable transmitter)"
fn transmitter_enabling(bits: u8) -> Input
    ensures { result ≡ transmitter_enabling bits }
{
    match bits {
        1 => Input::Enable,
        2 => Input::Disable,
        _ => Input::Nothing,
    }
}

// "2 reset receiver"; "4 clear overrun, block sums and the top character's marks"; "5 clear break change"
fn receiver_effect(action: Action) -> Effect
    ensures { result ≡ receiver_effect (bits_of action) }
{
    match action {
        Action::ResetReceiver => Effect::Reset,
        Action::ClearErrors => Effect::ClearErrors,
        Action::ClearBreakChange => Effect::ClearBreakChange,
        _ => Effect::NoEffect,
    }
}

// "then 1-0 (receiver)", of one that is enabled or not: "Enabling it again changes nothing."
fn receiver_enabling(enabled: bool, bits: u8) -> Enabling
    ensures { result ≡ receiver_enabling enabled bits }
{
    match bits {
        1 if enabled => Enabling::Stays,
        1 => Enabling::Enables,
        2 => Enabling::Disables,
        _ => Enabling::Stays,
    }
}

// The pointer after bits 6-4: "1 pointer to MR1".
fn moved_then(moved: bool, action: Action) -> bool
    ensures { result ≡ (moved && not (eqb (bits_of action) 1)) }
{
    moved & (action != Action::PointAtMr1)
}

// The receiver's enable after bits 6-4: "2 reset receiver (disabled; .. overrun mark stays)".
fn enabled_then(enabled: bool, action: Action) -> bool
    ensures { result ≡ enabled_then enabled (bits_of action) }
{
    enabled & (action != Action::ResetReceiver)
}

// The receiver's enable after bits 1-0.
fn enabled_after(enabled: bool, bits: u8) -> bool
    ensures { result ≡ enabled_after enabled bits }
{
    (bits == 1) | (enabled & (bits != 2))
}

// Order 2: the echoed level after a command to a receiver that is enabled or not, bits 6-4 and 1-0 of it. "(high while
// disabled)": of one that is off it is high, and a reset or a disable raises it; and "3 reset transmitter (.. TxD
// high)".
fn echo_after(enabled: bool, echo: bool, action: Action, bits: u8) -> bool
    ensures { result ≡ echo_after enabled echo (bits_of action) bits }
{
    let reset = matches!(action, Action::ResetReceiver | Action::ResetTransmitter);
    !enabled | echo | reset | (bits == 2)
}

// The side.
pub fn command_side(side: Side, byte: u8) -> Side
    ensures { result ≡ side_commanded side byte }
{
    let action = action_of(byte);
    let effect_input = transmitter_effect(action);
    let enabling_input = transmitter_enabling(byte / 4 % 4);
    let first = step_transmitter(side.transmitter, effect_input);
    let transmitter = step_transmitter(first, enabling_input);
    let enabled = enabled_after(enabled_then(side.enabled, action), byte % 4);
    let echo = echo_after(side.enabled, side.echo, action, byte % 4);
    let mut s = side;
    s.moved = moved_then(side.moved, action);
    s.enabled = enabled;
    s.echo = echo;
    s.transmitter = transmitter;
    s
}

// What the receiver is handed: a reset one is off when bits 1-0 come.
pub fn command_feed(side: Side, byte: u8) -> Feed
    ensures { result ≡ command_feed side byte }
{
    let action = action_of(byte);
    let enabling = receiver_enabling(enabled_then(side.enabled, action), byte % 4);
    Feed::Command(receiver_effect(action), enabling)
}
