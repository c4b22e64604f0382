// The writes of the registers 0 to 15, as document 01's table has them.
#![tactic(auto)]

mod writes;

pub use writes::write_register;
