// The stop bit lengths of 000, table 6, MR2: measured on TxDA between two characters, and by the frame
// request.
use crate::bench::{act, hold};
use crate::rates::{quotient, sending};
use crate::script::{Example, run_examples};
use crate::text::{Thousandths, print, print_verdict};
use events::Event;
use request::request_frame;

// The pulses of the start bit and the data bits, with no parity.
fn pulses_before(mr1: u8) -> u64 {
    u64::from(mr1 % 4 + 6) * 16
}

// Two zeros at 38,400 bits a second: start and data are low, the stop is high up to the next start. In
// thousandths of a bit.
fn measured(mr1: u8, code: u8) -> Option<u64> {
    let idle = hold(sending(0, 12, mr1, code, 0), true);
    let low = hold(act(idle.bench, Event::Write(3, 0)), false);
    let high = hold(low.bench, true);
    let bit = quotient(low.turns, pulses_before(mr1) / 16)?;
    quotient(high.turns.checked_mul(1000)?, bit)
}

// What the frame request's length leaves after start and data, in thousandths of 16 pulses.
fn requested(mr1: u8, code: u8) -> Option<u64> {
    let mut space = [0u8; 192];
    let answer = request_frame(mr1, code, 0, &mut space);
    let pulses = u64::from(answer.length.0).checked_sub(pulses_before(mr1))?;
    quotient(pulses.checked_mul(1000)?, 16)
}

// One width of a code: both lengths, and the manual's where one of them differs.
fn width(rt: &impl Print, mr1: u8, code: u8, wanted: u64) -> bool {
    let sent = measured(mr1, code);
    let asked = requested(mr1, code);
    let length = Thousandths(sent.unwrap_or(0));
    print(rt, format_args!(" {} bits {length}", mr1 % 4 + 5));
    let agrees = sent == Some(wanted) && asked == Some(wanted);
    if !agrees {
        let length = Thousandths(asked.unwrap_or(0));
        print(
            rt,
            format_args!(
                " and by request {length} DIFFERS from {}",
                Thousandths(wanted)
            ),
        );
    }
    print(rt, ",");
    agrees
}

// A row of the table: its thousandths for 6 to 8 bits, and for 5.
fn stop(rt: &impl Print, code: u8, longer: u64, five: u64) {
    print(
        rt,
        format_args!("stop length, code {code} (000, table 6, MR2), "),
    );
    print(rt, "on TxDA and by the frame request:");
    let mut agrees = true;
    for (mr1, wanted) in [(16, five), (17, longer), (18, longer), (19, longer)] {
        agrees &= width(rt, mr1, code, wanted);
    }
    print_verdict(rt, agrees, "as the manual says");
}

// 004, 4.2, has a field of two bits: 00 and 01 are one stop bit, 10 one and a half, 11 two.
fn two_bit_field(rt: &impl Print, code: u8, other: u64, longer: u64) {
    print(
        rt,
        format_args!("stop length, bits 3-2 of code {code} alone "),
    );
    print(
        rt,
        format_args!("(004, 4.2 and 4.3.2.4: {}):", Thousandths(other)),
    );
    let agrees = width(rt, 19, code, longer);
    print_verdict(
        rt,
        agrees,
        "01 decides: 000 beats 004, and the code has four bits",
    );
}

// With an external 1X clock MR2 bit 3 clear is one stop bit, and set two (000, table 6, note). Five zeros and a start:
// six low bits.
const EXTERNAL_CLOCK: [Example; 2] = [
    Example {
        name: "stop length at 1X, MR2 bit 3 clear (000, table 6, MR2, note): one bit",
        script: "w0,16 w0,7 w1,255 w2,4 w3,0 c1 d0 w3,0 c5 d0 c1 d1 c1 d0",
        verdict: "as the manual says",
    },
    Example {
        name: "stop length at 1X, MR2 bit 3 set (000, table 6, MR2, note): two bits",
        script: "w0,16 w0,8 w1,255 w2,4 w3,0 c1 d0 w3,0 c5 d0 c1 d1 c1 d1 c1 d0",
        verdict: "as the manual says",
    },
];

// The table's sixteen codes: the thousandths for 6 to 8 bits, and for 5.
const STOPS: [(u8, u64, u64); 16] = [
    (0, 563, 1063),
    (1, 625, 1125),
    (2, 688, 1188),
    (3, 750, 1250),
    (4, 813, 1313),
    (5, 875, 1375),
    (6, 938, 1438),
    (7, 1000, 1500),
    (8, 1563, 1563),
    (9, 1625, 1625),
    (10, 1688, 1688),
    (11, 1750, 1750),
    (12, 1813, 1813),
    (13, 1875, 1875),
    (14, 1938, 1938),
    (15, 2000, 2000),
];

pub fn examples(rt: &impl Print) {
    for (code, longer, five) in STOPS {
        stop(rt, code, longer, five);
    }
    for (code, other, longer) in [
        (0, 1000, 563),
        (4, 1000, 813),
        (8, 1500, 1563),
        (12, 2000, 1813),
    ] {
        two_bit_field(rt, code, other, longer);
    }
    run_examples(rt, &EXTERNAL_CLOCK);
}
