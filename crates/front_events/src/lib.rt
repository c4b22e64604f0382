// What an event makes of the front and hands to each receiver. specs/ has the definitions under the same name.
#![tactic(auto)]

mod front_events;

pub use front_events::step_front;
