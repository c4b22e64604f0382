// What happens to the counter/timer of the MC68681.
//
// It stands in a crate of its own, above the dividers that it uses: of a channel's clocks it knows no more
// than the pulses of their 1X transmitter clocks. One file a topic; specs/ has the definitions of each under the same
// name.
#![tactic(auto)]

mod passing;
mod timer;

pub use passing::{pass_timer, timer_room};
pub use timer::{
    change_mode, start_counter, step_by_edge, step_by_tick, step_by_transmitter, stop_counter,
};
