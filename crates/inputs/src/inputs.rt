// The input pins.
ghost use Rattle.std.specs.Prelude.{◌≡◌};
ghost use Rattle.inputs.specs.Inputs.{rises_of, falls_of, moved_of, input_port, change_register, changes_cleared};
ghost use Rattle.inputs.specs.Inputs.{has_chosen_change, channel_pins, pins_of_a, pins_of_b};

use byte_bits::has_bit;

#[repr(C)]
#[derive(Clone, Copy)]
pub struct Inputs {
    // "bits 0-5 IP0-IP5, 6 RxDA, 7 RxDB": 1 is high
    pub levels: u8,
    // the change flags of IP3 to IP0
    pub changes: u8,
}

// A channel's pins in an event.
#[derive(Clone, Copy)]
pub struct ChannelPins {
    // the levels of CTS and of RxD
    pub cts: bool,
    pub rxd: bool,
    // its receiver's clock pin rose
    pub rising: bool,
    // its transmitter's clock pin fell
    pub falling: bool,
}

// An edge of a pin, from the levels before an event and after it.
// Kept: two bytes, and no struct of both: `rises`, `pins_of_a` and `pins_of_b`, which docs/ list, take them so.
pub fn rises(before: u8, after: u8, pin: u8) -> bool
    ensures { result ≡ rises_of before after pin }
{
    !has_bit(before, pin) & has_bit(after, pin)
}

fn falls(before: u8, after: u8, pin: u8) -> bool
    ensures { result ≡ falls_of before after pin }
{
    has_bit(before, pin) & !has_bit(after, pin)
}

// "levels and flags": a flag of IP3 to IP0 is set where the level differs from that before the event.
pub fn move_pins(inputs: Inputs, levels: u8) -> Inputs
    ensures { result ≡ moved_of inputs levels }
{
    Inputs {
        levels: levels,
        changes: inputs.changes | ((inputs.levels ^ levels) % 16),
    }
}

// "Input port bits 7, 6 read 1."
pub fn input_port(inputs: Inputs) -> u8
    ensures { result ≡ input_port inputs }
{
    inputs.levels % 64 + 192
}

// "IPCR: change flags IP3-IP0, then levels"
pub fn change_register(inputs: Inputs) -> u8
    ensures { result ≡ change_register inputs }
{
    inputs.changes % 16 * 16 + inputs.levels % 16
}

// "a read clears the flags"
pub fn clear_changes(inputs: Inputs) -> Inputs
    ensures { result ≡ changes_cleared inputs }
{
    Inputs {
        levels: inputs.levels,
        changes: 0,
    }
}

// "ISR bit 7: some flag is set whose ACR bit (3-0) is set."
pub fn has_chosen_change(inputs: Inputs, acr: u8) -> bool
    ensures { result ≡ has_chosen_change inputs acr }
{
    inputs.changes & (acr % 16) != 0
}

// A channel's pins, by their numbers.
fn channel_pins(
    before: u8,
    after: u8,
    cts: u8,
    rxd: u8,
    receiver: u8,
    transmitter: u8,
) -> ChannelPins
    ensures { result ≡ channel_pins before after cts rxd receiver transmitter }
{
    ChannelPins {
        cts: has_bit(after, cts),
        rxd: has_bit(after, rxd),
        rising: rises(before, after, receiver),
        falling: falls(before, after, transmitter),
    }
}

// "CTS (if chosen; IP0 for A, IP1 for B)"; "6 RxDA, 7 RxDB"; "receiver on a rising edge (A IP4, B IP2),
// transmitter on a falling edge (A IP3, B IP5)".
// Kept: two names of one function, `channel_pins`, with each channel's numbers: `docs/` list both.
pub fn pins_of_a(before: u8, after: u8) -> ChannelPins
    ensures { result ≡ pins_of_a before after }
{
    channel_pins(before, after, 0, 6, 4, 3)
}

// Kept: as `pins_of_a`.
pub fn pins_of_b(before: u8, after: u8) -> ChannelPins
    ensures { result ≡ pins_of_b before after }
{
    channel_pins(before, after, 1, 7, 2, 5)
}
