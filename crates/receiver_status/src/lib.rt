// What one receiver of the MC68681 shows of itself. specs/ has its definitions under the same name.
#![tactic(auto)]

mod status;

pub use status::{Status, show_status};
