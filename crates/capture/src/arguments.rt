// `capture MR1 ACR7 CODE NAMEA NAMEB`: the numbers, in decimal and up to 255, ACR7 0 or 1.
ghost use Rattle.std.specs.Prelude.{◌≡◌};
ghost use Rattle.replay_text.specs.Lines.{Within};
ghost use Rattle.capture.specs.Arguments.{spelled, asked_of};

use std::env::{Env, FillError};
use text::number_after;
use vcd_capture::Asked;

// Digits alone, and at least one; zeros may stand before others.
fn spell(word: &[u8]) -> Option<u64>
    ensures { result ≡ spelled word.now }
{
    if word.is_empty() {
        return None;
    }
    let mut number = Some(0);
    for byte in word {
        number = number_after(number, *byte);
    }
    number
}

// Kept: tests and casts and no TryFrom, for the clause's `asked_of` has the three tests in one.
fn ask(mr1: u64, acr7: u64, code: u64) -> Option<Asked>
    ensures { result ≡ asked_of mr1 acr7 code }
{
    if (mr1 > 255) | ((acr7 > 1) | (code > 255)) {
        return None;
    }
    Some(Asked {
        mr1: mr1 as u8,
        acr7: acr7 == 1,
        code: code as u8,
    })
}

// The length of the argument that is put at the start of `space`: 0 where there is none, or `space` is too short for it.
// Kept: 0 for none, for the clause `Within result space.new` is of a number; and no wire has an empty name.
pub fn argument(env: &impl Env, place: usize, space: &mut [u8]) -> usize
    ensures { Within result space.new }
{
    env.arg(place, space).unwrap_or(0)
}

fn number_argument(env: &impl Env, place: usize, space: &mut [u8]) -> Option<u64> {
    let length = argument(env, place, space);
    spell(&space[..length])
}

// An argument that is too long for `space` is one, too.
fn is_argument(env: &impl Env, place: usize, space: &mut [u8]) -> bool {
    !matches!(env.arg(place, space), Err(FillError::NotPresent))
}

// The program's own name is an argument too, so five are those up to place 5.
pub fn read_numbers(env: &impl Env, space: &mut [u8]) -> Option<Asked> {
    if !is_argument(env, 5, space) {
        return None;
    }
    if is_argument(env, 6, space) {
        return None;
    }
    let mr1 = number_argument(env, 1, space)?;
    let acr7 = number_argument(env, 2, space)?;
    let code = number_argument(env, 3, space)?;
    ask(mr1, acr7, code)
}
