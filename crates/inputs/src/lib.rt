// The input pins of the MC68681: their levels, their edges, the change flags, and which pin is whose.
#![tactic(auto)]

mod inputs;

pub use inputs::{
    ChannelPins, Inputs, change_register, clear_changes, has_chosen_change, input_port, move_pins,
    pins_of_a, pins_of_b, rises,
};
