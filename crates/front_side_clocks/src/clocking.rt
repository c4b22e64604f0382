// A side in a tick or a pin event: "transmitter then receiver".
ghost use Rattle.std.specs.Prelude.{◌≡◌};
ghost use Rattle.front_side_clocks.specs.Clocking.{transmitter_pulsed, echo_taken, setting_of, pulse_of, line_of};
ghost use Rattle.front_side_clocks.specs.Clocking.{side_clocked};

use clocks::{ClockEvent, clock_channel, is_sixteen};
use feed::{Feed, Setting};
use format::format_of;
use front_modes::{echoes, is_local, is_remote};
use front_side::Side;
use inputs::ChannelPins;
use transmitter_state::{Standing, Transmitter};

// A side after a tick or a pin event.
#[derive(Clone, Copy)]
pub struct Clocking {
    pub side: Side,
    // what its receiver is handed
    pub feed: Feed,
    // its 1X transmitter clock had a pulse
    pub one: bool,
}

// The transmitter where its clock has a pulse: it finds the registers and CTS as they stand. In the echo modes a
// pulse does nothing: "no character or break starts".
fn pulse_transmitter(side: Side, pulse: bool, cts: bool) -> Transmitter
    ensures { result ≡ transmitter_pulsed side pulse cts }
{
    if pulse & !echoes(side.mr2) {
        let standing = Standing {
            mr1: side.mr1,
            mr2: side.mr2,
            sixteen: is_sixteen(side.csr % 16),
            cts: cts,
        };
        return transmitter_state::pulse(side.transmitter, standing);
    }
    side.transmitter
}

// The echoed level where the receiver's clock has a pulse: "at each pulse of an enabled receiver TxD takes the
// sampled level".
fn take_echo(side: Side, pulse: bool, rxd: bool) -> bool
    ensures { result ≡ echo_taken side pulse rxd }
{
    if pulse & side.enabled & echoes(side.mr2) {
        return rxd;
    }
    side.echo
}

// "Format and 16X or 1X", as MR1 and the code of a clock stand.
// Kept: `vcd_capture` has one that is always 16X: shared, it would be a public function for one struct written out.
fn setting_of(mr1: u8, code: u8) -> Setting
    ensures { result ≡ setting_of mr1 code }
{
    Setting {
        format: format_of(mr1),
        sixteen: is_sixteen(code),
    }
}

// A pulse of a clock with this code, and the level that it finds.
fn pulse_of(mr1: u8, code: u8, pulse: bool, level: bool) -> Feed
    ensures { result ≡ pulse_of mr1 code pulse level }
{
    if pulse {
        return Feed::Pulse(level, setting_of(mr1, code));
    }
    Feed::Nothing
}

// What an enabled receiver hears, and here alone: RxD, at the pulses of its own clock, "CSR bits 7-4"; in local
// loopback "the transmitter's level and its clock", bits 3-0, after the transmitter's pulse; in remote loopback
// nothing.
fn line_of(side: Side, receiver: bool, transmitter: bool, rxd: bool) -> Feed
    ensures { result ≡ line_of side receiver transmitter rxd }
{
    if !side.enabled | is_remote(side.mr2) {
        return Feed::Nothing;
    }
    if is_local(side.mr2) {
        return pulse_of(side.mr1, side.csr % 16, transmitter, side.transmitter.txd);
    }
    pulse_of(side.mr1, side.csr / 16, receiver, rxd)
}

// The channel's clocks, its transmitter, then what its receiver is handed. `second` is ACR bit 7.
pub fn clock_side(
    side: Side,
    second: bool,
    pins: ChannelPins,
    tick: bool,
    toggled: bool,
) -> Clocking
    ensures { result ≡ side_clocked side second pins tick toggled }
{
    let event = ClockEvent {
        tick: tick,
        toggled: toggled,
        rising: pins.rising,
        falling: pins.falling,
    };
    let clocked = clock_channel(side.phases, second, side.csr, event);
    let phases = clocked.phases;
    let transmitter = pulse_transmitter(side, clocked.transmitter, pins.cts);
    let echo = take_echo(side, clocked.receiver, pins.rxd);
    // each field by its name: a copy of the whole copies the gaps between the fields too
    let s = Side {
        mr1: side.mr1,
        mr2: side.mr2,
        moved: side.moved,
        csr: side.csr,
        enabled: side.enabled,
        echo: echo,
        transmitter: transmitter,
        phases: phases,
    };
    let feed = line_of(s, clocked.receiver, clocked.transmitter, pins.rxd);
    Clocking {
        side: s,
        feed: feed,
        one: clocked.one,
    }
}
