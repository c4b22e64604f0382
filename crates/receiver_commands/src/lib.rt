// What a command does to one receiver of the MC68681. specs/ has its definitions under the same name.
#![tactic(auto)]

mod commands;

pub use commands::{take_effect, take_enabling};
