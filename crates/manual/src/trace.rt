// A word printed with what came of it: `:=` a write, `=` a read or a level, `<-` a character coming in.
use crate::bench::{LOOPED_TURNS, Stopped};
use crate::text::{print, read_name, write_name};
use crate::word::{Channel, Word, agrees};
use chip_step::Answer;
use events::Event;

// Kept: the number, for it is printed.
fn print_refusal(rt: &impl Print, number: u8) {
    if number != 0 {
        print(rt, format_args!(" refused with {number}"));
    }
}

fn print_access(rt: &impl Print, event: Event, answer: Answer) {
    let byte = answer.byte;
    match event {
        Event::Write(register, written) => {
            print(rt, format_args!("{}:={written}", write_name(register)));
        }
        Event::Read(register) => print(rt, format_args!("{}={byte}", read_name(register))),
        Event::Acknowledge => print(rt, format_args!("acknowledge={byte}")),
        Event::ChipReset => print(rt, "chip reset"),
        Event::Pins(levels) => print(rt, format_args!("pins:={levels}")),
        Event::Tick => print(rt, "ticks 1"),
    }
    print_refusal(rt, answer.number);
}

fn print_came(rt: &impl Print, word: Word, came: Stopped) {
    let answer = came.bench.answer;
    match word {
        Word::Access { event, .. } => print_access(rt, event, answer),
        Word::Pins(levels) => print(rt, format_args!("pins:={levels}")),
        Word::Ticks(times) => print(rt, format_args!("ticks {times}")),
        Word::Edges(times) => print(rt, format_args!("IP3 falls, times {times}")),
        Word::Character(Channel::A, byte) => print(rt, format_args!("RxDA<-{byte}")),
        Word::Character(Channel::B, byte) => print(rt, format_args!("RxDB<-{byte}")),
        Word::Wired => print(rt, "TxD wired to RxD"),
        Word::Until { register, mask } => {
            let is_set = u8::from(answer.byte & mask != 0);
            print(
                rt,
                format_args!("until {}&{mask}={is_set}", read_name(register)),
            );
        }
        Word::Looped(_) => print(
            rt,
            format_args!("{} bytes looped", came.turns / LOOPED_TURNS),
        ),
        Word::Level(signal, _) => {
            let level = u8::from(signal.level(answer));
            print(rt, format_args!("{}={level}", signal.name()));
        }
        Word::Outputs(_) => print(rt, format_args!("OP={}", answer.lines.op)),
    }
}

fn print_wanted(rt: &impl Print, word: Word) {
    print(rt, " DIFFERS from ");
    match word {
        Word::Access { number, byte, .. } => {
            print(rt, byte);
            print_refusal(rt, number);
        }
        Word::Level(_, level) => print(rt, u8::from(level)),
        Word::Pins(number) | Word::Outputs(number) => print(rt, number),
        Word::Edges(number) | Word::Character(_, number) => print(rt, number),
        Word::Ticks(times) => print(rt, times),
        Word::Looped(bytes) => print(rt, bytes),
        Word::Wired => print(rt, 0u8),
        Word::Until { .. } => print(rt, 1u8),
    }
}

// Prints the word with what came, and what should have come where that is not it.
pub fn judge(rt: &impl Print, word: Word, came: Stopped) -> bool {
    print(rt, " ");
    print_came(rt, word, came);
    let same = agrees(word, came);
    if !same {
        print_wanted(rt, word);
    }
    print(rt, ",");
    same
}
