// What a command does to a receiver: bits 6-4 of it, then bits 1-0.
ghost use Rattle.std.specs.Prelude.{◌≡◌};
ghost use Rattle.receiver_commands.specs.Commands.{assembly_dropped, reset_of, errors_cleared, break_change_cleared};
ghost use Rattle.receiver_commands.specs.Commands.{effect_of, enabling_of};

use character::{no_marks, unmarked};
use feed::{Effect, Enabling};
use queue::{empty_queue, oldest, replace_oldest};
use receiver_state::Receiver;
use sampler_state::drop_assembly;

// "Disable drops the character being put together and ends the wait for a break's end, no more."
fn drop_character(receiver: Receiver) -> Receiver
    ensures { result ≡ assembly_dropped receiver }
{
    let mut r = receiver;
    let sampler = drop_assembly();
    r.sampler = sampler;
    r
}

// "2 reset receiver (disabled; queue, waiting place and assembly cleared; overrun mark stays)"
fn reset(receiver: Receiver) -> Receiver
    ensures { result ≡ reset_of receiver }
{
    let mut emptied = drop_character(receiver);
    let queue = empty_queue();
    emptied.queue = queue;
    emptied
}

// "4 clear overrun, block sums and the top character's marks"
fn clear_errors(receiver: Receiver) -> Receiver
    ensures { result ≡ errors_cleared receiver }
{
    let mut r = receiver;
    let top = unmarked(oldest(receiver.queue));
    let queue = replace_oldest(receiver.queue, top);
    let sums = no_marks();
    r.queue = queue;
    r.overrun = false;
    r.sums = sums;
    r
}

// "5 clear break change"
fn clear_break_change(receiver: Receiver) -> Receiver
    ensures { result ≡ break_change_cleared receiver }
{
    let mut r = receiver;
    r.change = false;
    r
}

pub fn take_effect(receiver: Receiver, effect: Effect) -> Receiver
    ensures { result ≡ effect_of receiver effect }
{
    match effect {
        Effect::NoEffect => receiver,
        Effect::Reset => reset(receiver),
        Effect::ClearErrors => clear_errors(receiver),
        Effect::ClearBreakChange => clear_break_change(receiver),
    }
}

pub fn take_enabling(receiver: Receiver, enabling: Enabling) -> Receiver
    ensures { result ≡ enabling_of receiver enabling }
{
    match enabling {
        Enabling::Stays => receiver,
        Enabling::Enables => drop_character(receiver),
        Enabling::Disables => drop_character(receiver),
    }
}
