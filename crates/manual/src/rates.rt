// The 18 rates of 004, table 4-5, each measured on TxDA.
use crate::bench::{Bench, act, hold, start};
use crate::text::{Tenths, Thousandths, print, print_verdict};
use events::Event;
use std::fmt;
use std::fmt::Display;

// Which sets of the clock-select table have a rate.
#[derive(Clone, Copy, PartialEq, Eq)]
enum Sets {
    First,
    Second,
    Both,
}

impl Display for Sets {
    fn fmt<W: fmt::Write>(&self, f: &mut fmt::Formatter<W>) -> fmt::Result {
        f.write_str(match *self {
            Sets::First => "set 1",
            Sets::Second => "set 2",
            Sets::Both => "both sets",
        })
    }
}

// By how many thousandths of a percent a rate is off, and whether it is below.
#[derive(Clone, Copy, PartialEq, Eq)]
struct Error {
    below: bool,
    thousandths: u64,
}

impl Display for Error {
    fn fmt<W: fmt::Write>(&self, f: &mut fmt::Formatter<W>) -> fmt::Result {
        let sign = if self.below { "-" } else { "" };
        write!(f, "error {sign}{} percent", Thousandths(self.thousandths))
    }
}

// A row of table 4-5, with the code and the sets of the clock-select table (004, 4.2): the rate in tenths
// of a bit a second, the 16X clock in hertz, and the error.
#[derive(Clone, Copy)]
struct Rate {
    tenths: u64,
    code: u8,
    sets: Sets,
    hertz: u64,
    error: Error,
    verdict: &'static str,
}

impl Rate {
    // One that the crystal divides exactly.
    fn exact(tenths: u64, code: u8, sets: Sets, hertz: u64) -> Rate {
        Rate {
            tenths,
            code,
            sets,
            hertz,
            error: Error {
                below: false,
                thousandths: 0,
            },
            verdict: "as the manual says",
        }
    }

    // One that it divides nearly, with the manual's error.
    fn off(self, below: bool, thousandths: u64) -> Rate {
        Rate {
            error: Error { below, thousandths },
            ..self
        }
    }

    fn with_verdict(self, verdict: &'static str) -> Rate {
        Rate { verdict, ..self }
    }
}

// Channel A's transmitter with this clock and format, and a byte to send.
pub fn sending(acr: u8, csr: u8, mr1: u8, mr2: u8, byte: u8) -> Bench {
    let mut bench = start();
    for (register, written) in [(4, acr), (1, csr), (0, mr1), (0, mr2), (2, 4), (3, byte)] {
        bench = act(bench, Event::Write(register, written));
    }
    bench
}

// The ticks of one bit of 85, whose ten bits differ each from the one before: from the start bit on, the nine that an
// edge ends, if all are as long.
fn measure(acr: u8, code: u8) -> Option<u64> {
    let idle = hold(sending(acr, code, 19, 7, 85), true);
    let first = hold(idle.bench, false);
    let mut bench = first.bench;
    for bit in 0..8u8 {
        let held = hold(bench, bit % 2 == 0);
        if held.turns != first.turns {
            return None;
        }
        bench = held.bench;
    }
    Some(first.turns)
}

// The ticks of a bit in the sets that have the rate, if they agree.
fn bit_ticks(code: u8, sets: Sets) -> Option<u64> {
    let first = measure(0, code);
    let second = measure(128, code);
    match sets {
        Sets::First => first,
        Sets::Second => second,
        Sets::Both if first == second => first,
        Sets::Both => None,
    }
}

// Rounded to the nearest.
pub fn quotient(a: u64, b: u64) -> Option<u64> {
    let twice = a.checked_mul(2)?.checked_add(b)?;
    twice.checked_div(b.checked_mul(2)?)
}

// What comes of the ticks of a bit: the rate in thousandths of a bit a second, the 16X clock in hertz, and the error.
#[derive(Clone, Copy)]
struct Measured {
    ticks: u64,
    thousandths: u64,
    hertz: u64,
    error: Error,
}

// By how much of the nominal rate the measured one is off, both in tenths of a billionth of a bit a second.
fn error_of(nominal: u64, measured: u64) -> Option<Error> {
    let off = nominal.abs_diff(measured);
    Some(Error {
        below: measured < nominal,
        thousandths: quotient(off, nominal / 100000)?,
    })
}

// The crystal has 3,686,400 ticks a second.
fn measure_rate(rate: Rate) -> Option<Measured> {
    let ticks = bit_ticks(rate.code, rate.sets)?;
    let nominal = rate.tenths.checked_mul(1000000000)?;
    Some(Measured {
        ticks,
        thousandths: quotient(3686400000, ticks)?,
        hertz: quotient(58982400, ticks)?,
        error: error_of(nominal, quotient(36864000000000000, ticks)?)?,
    })
}

// The 16X clock is the manual's to the hertz, and the error to a thousandth of a percent.
fn print_measured(rt: &impl Print, rate: Rate, measured: Measured) -> bool {
    let ticks = measured.ticks;
    let bits = Thousandths(measured.thousandths);
    print(
        rt,
        format_args!(
            "{ticks} ticks a bit, {} a pulse, {bits} bits a second, ",
            ticks / 16
        ),
    );
    print(
        rt,
        format_args!("16X clock {} Hz, {},", measured.hertz, measured.error),
    );
    let agrees = measured.hertz == rate.hertz && measured.error == rate.error;
    if !agrees {
        print(
            rt,
            format_args!(" DIFFERS from {} Hz and {},", rate.hertz, rate.error),
        );
    }
    agrees
}

fn check(rt: &impl Print, rate: Rate) {
    print(
        rt,
        format_args!(
            "rate {}, code {} of {}",
            Tenths(rate.tenths),
            rate.code,
            rate.sets
        ),
    );
    print(rt, " (004, table 4-5; the codes 4.2): ");
    let agrees = match measure_rate(rate) {
        Some(measured) => print_measured(rt, rate, measured),
        None => {
            print(rt, "its bits are not all as long,");
            false
        }
    };
    print_verdict(rt, agrees, rate.verdict);
}

// The crystal divides twelve exactly and four nearly; the manual's 0.175 is what its clock rounded to 32,056 Hz
// gives. The last two 16X clocks the table prints otherwise than 16 times their rates, which their error of 0 asks
// for.
pub fn examples(rt: &impl Print) {
    let rates = [
        Rate::exact(500, 0, Sets::First, 800),
        Rate::exact(750, 0, Sets::Second, 1200),
        Rate::exact(1500, 3, Sets::Second, 2400),
        Rate::exact(2000, 3, Sets::First, 3200),
        Rate::exact(6000, 5, Sets::Both, 9600),
        Rate::exact(12000, 6, Sets::Both, 19200),
        Rate::exact(18000, 10, Sets::Second, 28800),
        Rate::exact(24000, 8, Sets::Both, 38400),
        Rate::exact(48000, 9, Sets::Both, 76800),
        Rate::exact(96000, 11, Sets::Both, 153600),
        Rate::exact(192000, 12, Sets::Second, 307200),
        Rate::exact(384000, 12, Sets::First, 614400),
        Rate::exact(1100, 1, Sets::Both, 1759)
            .off(true, 69)
            .with_verdict("as the manual says, its \"100\" read as 110, which 4.2 has"),
        Rate::exact(1345, 2, Sets::Both, 2153).off(false, 59),
        Rate::exact(10500, 7, Sets::First, 16756).off(true, 260),
        Rate::exact(20000, 7, Sets::Second, 32056)
            .off(false, 174)
            .with_verdict(
                "the clock as the manual says, the error 0.175 in the manual: 01 decides by 115 ticks a pulse",
            ),
        Rate::exact(3000, 4, Sets::Both, 4800).with_verdict(
            "as the manual says, its \"48\" read as 4.8 kHz",
        ),
        Rate::exact(72000, 10, Sets::First, 115200).with_verdict(
            "as the manual says, its \"1115.2\" read as 115.2 kHz",
        ),
    ];
    for rate in rates {
        check(rt, rate);
    }
}
