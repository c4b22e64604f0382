// One receiver of the MC68681: what a feed does to it. specs/ has the definitions under the same name,
// and what is owed of a receiver.
#![tactic(auto)]

mod receiver;

pub use receiver::{Fed, feed_receiver};
