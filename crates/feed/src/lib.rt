// What the front hands to a receiver: all that the two know of each other. specs/ has the range of what a feed carries.
#![tactic(auto)]

mod feed;

pub use feed::{Effect, Enabling, Feed, Setting};
