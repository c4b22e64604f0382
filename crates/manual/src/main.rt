// The manuals' worked examples, run on the chip and compared with what they should be. One line an
// example: its name and source, what came, and what the comparison says: that it is as the manual says, or that 01 or
// document 02 decides and what it fixes, where the manual is open or says another thing, or DIFFERS. Quotations here
// are the manuals', or marked as 01's or an order's.
#![tactic(auto)]

mod bench;
mod break_change;
mod command_table;
mod counter_ready;
mod inch_outch;
mod initialization;
mod loopback;
mod rates;
mod register_table;
mod script;
mod stops;
mod text;
mod trace;
mod word;

use script::run_examples;

fn main(rt: HostRuntime) {
    rates::examples(&rt);
    run_examples(&rt, &register_table::EXAMPLES);
    run_examples(&rt, &command_table::EXAMPLES);
    run_examples(&rt, &initialization::EXAMPLES);
    run_examples(&rt, &inch_outch::EXAMPLES);
    run_examples(&rt, &loopback::EXAMPLES);
    run_examples(&rt, &break_change::EXAMPLES);
    run_examples(&rt, &counter_ready::EXAMPLES);
    stops::examples(&rt);
}
