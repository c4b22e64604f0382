// The counter/timer of the MC68681 as it counts: what it holds, its modes, and what a pulse of its clock
// does to it. specs/ has its definitions under the same name.
#![tactic(auto)]

mod counting;

pub use counting::{
    Counted, Timer, edge_pulses, fresh_timer, is_timer, mode_of, pulse_by, tick_pulses,
    transmitter_pulses,
};
