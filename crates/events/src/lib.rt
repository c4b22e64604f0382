// The events, and the commands that the chip does not take.
//
// One file a topic; specs/ has the definition of the second under the same name.
#![tactic(auto)]

mod command;
mod events;

pub use command::command_forbidden;
pub use events::Event;
