// What MR1 and MR2 of the MC68681 choose of a character: the three counts, the format, the parity bit
// and the stop length.
//
// One file a topic. specs/ has the definitions of each under the same name, and beside them two that
// all of them use: Digits, a number's bits, and Pick, a choice by a test.
#![tactic(auto)]

pub mod counts;
pub mod format;
pub mod parity;
pub mod stop;

pub use counts::{Bits, Pulses, Ticks};
pub use format::{Format, format_of, mr1_not_modelled, mr2_not_modelled, stop_code_of};
pub use parity::{cut, has_parity, parity_bit};
pub use stop::{stop_bits, stop_length};
