// The table of commands: what follows from a write, by the stage of the sequence.
#![tactic(auto)]

mod effect;
mod write;

pub use effect::{Effect, Mode, effect_of};
pub use write::Write;
