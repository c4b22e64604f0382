// What a wire's receiver hears: "Turn each line, up to the last time, into characters by document 01's receiver, just enabled,
// phase 0".
ghost use Rattle.std.specs.Prelude.{◌+◌, ◌*◌, ◌^◌, ◌≤◌, ◌<◌, ◌≡◌, option_to_list};
ghost use Rattle.text.specs.Puts.{Puts, Writes};
ghost use Rattle.vcd_capture.specs.Ear.{ticks_before, pulses_before, Hears, ear_until, heard_until, ear_value, ear_said, heard_said, heard_from, just_enabled, Moves};
ghost use Rattle.vcd_lines.specs.Body.{started};
ghost use Rattle.vcd_capture.specs.Logs.{log_bytes};

use crate::hops::hop;
use crate::logs::put_character;
use character::Character;
use feed::Setting;
use sampler_state::{Sampler, drop_assembly};
use text::Page;
use vcd_lines::{Said, say, start, take};

// The whole part: "Tick n samples the level at order 6's time", so that these are the ticks before a time.
// Kept: a bound in each routine: a type with it must be made of each time read, where now `u64::from` suffices.
fn ticks_before(time: u64) -> u64
    requires { time < 2 ^ 33 }
    ensures { result ≡ ticks_before time }
{
    (time * 2304).saturating_sub(1) / 625000
}

fn pulses_before(time: u64, period: u64) -> u64
    requires { time < 2 ^ 33 }
    ensures { result ≡ pulses_before period time }
{
    if period == 0 {
        return 0;
    }
    ticks_before(time) / period
}

fn take_came(came: Option<Character>, log: &mut Page<'_>)
    requires { log.old.at + 2 < 2 ^ 64 }
    ensures { Writes (log_bytes (option_to_list came)) log.old log.new }
{
    match came {
        None => (),
        Some(character) => put_character(character, log),
    }
}

// So many pulses at one level.
pub fn hear_pulses(
    sampler: Sampler,
    level: bool,
    setting: Setting,
    times: u64,
    log: &mut Page<'_>,
) -> Sampler
    requires { log.old.at + 2 * times + 2 < 2 ^ 64 }
    ensures { Hears sampler level setting times log.old log.new result }
{
    let mut now_sampler = sampler;
    let mut left = times;
    // Kept: a `while`, for a turn takes a varying number of pulses, and no range counts them.
    while left > 0 {
        let hopped = hop(now_sampler, level, setting, left);
        take_came(hopped.came, log);
        now_sampler = hopped.sampler;
        left -= hopped.pulses;
    }
    now_sampler
}

// What is heard of a wire by: its code in the text, how many ticks a pulse takes, and the setting.
#[derive(Clone, Copy)]
pub struct Wire {
    pub code: u8,
    pub period: u64,
    pub setting: Setting,
}

// A receiver, the level of its wire, and the pulses that have come.
#[derive(Clone, Copy)]
pub struct Ear {
    pub sampler: Sampler,
    pub level: bool,
    pub done: u64,
}

fn hear_until(ear: Ear, time: u64, wire: Wire, log: &mut Page<'_>) -> Ear
    requires { (time < 2 ^ 33) × (ear.done < 2 ^ 32) × (log.old.at ≤ 2 * ear.done) }
    ensures { Moves ear (ear_until wire.period wire.setting time ear) (heard_until wire.period wire.setting time ear)
        log.old log.new result }
{
    let times = pulses_before(time, wire.period).saturating_sub(ear.done);
    let sampler = hear_pulses(ear.sampler, ear.level, wire.setting, times, log);
    Ear {
        sampler,
        level: ear.level,
        done: ear.done + times,
    }
}

fn hear_value(ear: Ear, code: u8, level: bool, own: u8) -> Ear
    ensures { result ≡ ear_value ear code level own }
{
    let mut next = ear;
    if code == own {
        next.level = level;
    }
    next
}

fn hear_said(ear: Ear, said: Said, wire: Wire, log: &mut Page<'_>) -> Ear
    requires { (ear.done < 2 ^ 32) × (log.old.at ≤ 2 * ear.done) }
    ensures { Moves ear (ear_said wire.period wire.setting wire.code ear said)
        (heard_said wire.period wire.setting ear said) log.old log.new result }
{
    match said {
        Said::NoLine => ear,
        Said::TimeLine(time) => hear_until(ear, u64::from(time), wire, log),
        Said::ValueLine(code, level) => hear_value(ear, code, level, wire.code),
    }
}

// The whole text after its header, and then the pulses up to the end.
// Kept: a length, for `read_capture` answers it of either log.
pub fn hear_wire(lines: &[u8], wire: Wire, end: u64, log: &mut [u8]) -> usize
    requires { end < 2 ^ 33 }
    ensures { Puts 0 (log_bytes (heard_from wire.period wire.setting wire.code end started just_enabled lines.now))
        log.old log.new result }
{
    let mut reading = start();
    let mut ear = Ear {
        sampler: drop_assembly(),
        level: true,
        done: 0,
    };
    let mut page = Page { space: log, at: 0 };
    for byte in lines {
        let said = say(reading, *byte);
        ear = hear_said(ear, said, wire, &mut page);
        reading = take(reading, *byte, true);
    }
    hear_until(ear, end, wire, &mut page);
    page.at
}
