// The clocks of a channel of the MC68681: what gives each side its pulses. specs/ has its definitions
// under the same name.
#![tactic(auto)]

mod channel;

pub use channel::{
    ClockEvent, Clocked, Phases, clock_channel, is_sixteen, pass_side, restart, restart_on_change,
    side_room,
};
