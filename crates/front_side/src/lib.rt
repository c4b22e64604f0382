// One channel's side of the front: its mode registers and their pointer, CSR, the receiver's enable, the
// echoed level, the transmitter and the phases of its clocks. A and B are two of these.
//
// Of the receiver the side knows its enable alone.
#![tactic(auto)]

mod side;

pub use side::{
    Side, change_set, fresh_side, mode_not_modelled, mode_register, point, write_buffer, write_csr,
    write_mode,
};
