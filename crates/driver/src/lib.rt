// The driver of the chips: the writes of a command, and a machine that performs one program, sector, block or chip erase.
#![tactic(auto)]

mod machine;
mod refusals;
mod writes;

pub use machine::{CONFIRM_AFTER, Driver, Phase, Started, Step, start, start_writing};
pub use writes::{Writes, command_writes, kth_write};
