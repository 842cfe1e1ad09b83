// What a slice of values says: whether a bit must rise, how many at its front are the same, their sum, whether all fit.
#![tactic(auto)]

mod fit;
mod search;
mod total;

pub use fit::all_fit;
pub use search::{Decision, decision_of, leading};
pub use total::sum;
