// What the documents say of a chip: the state of a device, what a bus cycle does to it and to the cells, by definition in specs/, and the
// laws of that in proofs/. Crate chip has the code that does so.
#![tactic(auto)]

mod cycle;
mod state;

pub use cycle::{Action, Cycle, Reply, Shown};
pub use state::{Core, Device, Operation, fresh, no_operation};
