// An example as a script, run on a fresh chip, each of its words printed and compared.
use crate::bench::{
    Bench, CHARACTER_TURNS, Stopped, act, character_turn, edge, go, is_lost, looped_event,
    read_turn, start, tick,
};
use crate::text::{print, print_verdict};
use crate::trace::judge;
use crate::word::{Word, looped_turns, read_word};
use events::Event;

// The most reads until a bit is set.
const MOST_READS: u64 = 20001;

fn stop(bench: Bench, turns: u64) -> Stopped {
    Stopped { bench, turns }
}

// A word that looks at a line takes no time.
fn drive(bench: Bench, word: Word) -> Stopped {
    match word {
        Word::Access { event, .. } => stop(act(bench, event), 1),
        Word::Pins(levels) => stop(act(bench, Event::Pins(levels)), 1),
        Word::Ticks(times) => go(bench, times, |bench, _| tick(bench), |_, _| false),
        Word::Edges(times) => go(
            bench,
            u64::from(times),
            |bench, _| edge(bench),
            |_, _| false,
        ),
        Word::Character(channel, byte) => go(
            bench,
            CHARACTER_TURNS,
            |bench, turns| character_turn(bench, channel.mask(), byte, turns),
            |_, _| false,
        ),
        Word::Wired => {
            let wired = Bench {
                wired: true,
                ..bench
            };
            stop(wired, 0)
        }
        Word::Until { register, mask } => go(
            bench,
            MOST_READS,
            |bench, turns| read_turn(bench, register, turns),
            |answer, turns| turns != 0 && answer.byte & mask != 0,
        ),
        Word::Looped(bytes) => go(
            bench,
            looped_turns(bytes),
            |bench, turns| act(bench, looped_event(turns)),
            |answer, turns| is_lost(answer, turns),
        ),
        Word::Level(..) | Word::Outputs(_) => stop(bench, 0),
    }
}

// Whether every word agrees. What is no word does not.
fn run(rt: &impl Print, script: &str) -> bool {
    let mut bench = start();
    let mut same = true;
    for text in script.split_ascii_whitespace() {
        match read_word(text) {
            Some(word) => {
                let came = drive(bench, word);
                bench = came.bench;
                same &= judge(rt, word, came);
            }
            None => {
                print(rt, format_args!(" {text} is no word,"));
                same = false;
            }
        }
    }
    same
}

// An example: its name and source, its script, and the verdict where every word agrees.
#[derive(Clone, Copy)]
pub struct Example {
    pub name: &'static str,
    pub script: &'static str,
    pub verdict: &'static str,
}

pub fn run_examples(rt: &impl Print, examples: &[Example]) {
    for example in examples {
        print(rt, format_args!("{}:", example.name));
        let same = run(rt, example.script);
        print_verdict(rt, same, example.verdict);
    }
}
