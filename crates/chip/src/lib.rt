// The model of the chips: one bus cycle on lent cells and a device state by value, as crate device defines it.
#![tactic(auto)]

mod cycle;
mod operation;
mod sequence;
mod state;

pub use cycle::bus_cycle;
