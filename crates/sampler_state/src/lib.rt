// What a sampler of one receiver of the MC68681 holds and what it can be doing; and a character put
// together from samples. One file a topic; specs/ has the definitions of each under the same name.
#![tactic(auto)]

mod assembly;
mod state;

pub use assembly::{character_of, samples_before_stop};
pub use state::{
    AFTER_LOW_STOP, ASSEMBLING, IN_BREAK, STARTING, Sampler, after_stop, assembling_at,
    drop_assembly, empty_at, gap, hunting_after, starting_at,
};
