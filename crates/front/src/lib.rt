// The front of the MC68681: the two sides, the counter/timer, the ports and the registers that both channels
// share. It holds no receiver, so nothing a receiver does can reach it.
#![tactic(auto)]

mod front;

pub use front::{Front, Handed, SideHanded, front_at, hand_a, hand_b, hand_nothing, hand_side};
