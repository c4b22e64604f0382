// "MR2 bits 7-6": 00 normal, 01 automatic echo, 10 local loopback, 11 remote loopback (source 004, MR2).
ghost use Rattle.std.specs.Prelude.{◌≡◌};
ghost use Rattle.front_modes.specs.Modes.{bits_of, channel_mode, local_mode, remote_mode, echo_mode, txd_shown};
ghost use Rattle.front_modes.specs.Modes.{sender_shown, changes_mode, mode_set, mode_feed};

use feed::{Effect, Enabling, Feed};
use front_side::{Side, write_mode};
use transmitter::{Input, TransmitterStatus, step_transmitter, transmitter_status};

#[derive(Clone, Copy, PartialEq, Eq)]
enum ChannelMode {
    Normal,
    Echo,
    Local,
    Remote,
}

fn channel_mode(mr2: u8) -> ChannelMode
    ensures { bits_of result ≡ channel_mode mr2 }
{
    match mr2 / 64 % 4 {
        0 => ChannelMode::Normal,
        1 => ChannelMode::Echo,
        2 => ChannelMode::Local,
        _ => ChannelMode::Remote,
    }
}

// "Local loopback: the receiver takes the transmitter's level and its clock, TxD stays high, RxD is ignored"
pub fn is_local(mr2: u8) -> bool
    ensures { result ≡ local_mode mr2 }
{
    channel_mode(mr2) == ChannelMode::Local
}

// "Remote loopback: the same echo, and no character is put together."
pub fn is_remote(mr2: u8) -> bool
    ensures { result ≡ remote_mode mr2 }
{
    channel_mode(mr2) == ChannelMode::Remote
}

// "Automatic echo: no character or break starts": 01, and 11 has "the same echo".
pub fn echoes(mr2: u8) -> bool
    ensures { result ≡ echo_mode mr2 }
{
    matches!(channel_mode(mr2), ChannelMode::Echo | ChannelMode::Remote)
}

// What the pin TxD shows, and here alone, of MR2, the receiver's enable, the echoed level and the transmitter's:
// "TxD stays high"; "at each pulse of an enabled receiver TxD takes the sampled level (high while disabled)"; in
// normal mode the transmitter's level.
// Kept: four parameters, for docs/ list it so, and a side that is passed whole is copied on every tick.
pub fn show_txd(mr2: u8, enabled: bool, echo: bool, level: bool) -> bool
    ensures { result ≡ txd_shown mr2 enabled echo level }
{
    if is_local(mr2) {
        return true;
    }
    if echoes(mr2) {
        return !enabled | echo;
    }
    level
}

// "TxRDY and TxEMT read 0" in the echo modes.
pub fn show_sender(side: Side) -> TransmitterStatus
    ensures { result ≡ sender_shown side }
{
    if echoes(side.mr2) {
        return TransmitterStatus {
            ready: false,
            empty: false,
        };
    }
    transmitter_status(side.transmitter)
}

// Whether a write at the pointer is "A mode change": one to MR2, with other bits 7-6 than those in force.
fn changes_mode(side: Side, byte: u8) -> bool
    ensures { result ≡ changes_mode side byte }
{
    side.moved & (channel_mode(byte) != channel_mode(side.mr2))
}

// A write of the mode registers: "A mode change drops what is being sent (a break too; the holding place stays) ..,
// and holds TxD high until the next pulse."
pub fn set_mode(side: Side, byte: u8) -> Side
    ensures { result ≡ mode_set side byte }
{
    let mut s = write_mode(side, byte);
    if changes_mode(side, byte) {
        let transmitter = step_transmitter(side.transmitter, Input::ModeChange);
        s.echo = true;
        s.transmitter = transmitter;
        return s;
    }
    s
}

// What the receiver is handed then: "drops what is being .. put together, leaves an enabled receiver as just
// enabled". A disabled one is handed it too, and it shows in no answer: enabling drops what it drops.
pub fn mode_feed(side: Side, byte: u8) -> Feed
    ensures { result ≡ mode_feed side byte }
{
    if changes_mode(side, byte) {
        return Feed::Command(Effect::NoEffect, Enabling::Enables);
    }
    Feed::Nothing
}
