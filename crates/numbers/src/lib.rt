// The states of a driver and of a job as plain numbers, and the calls on them: each takes any numbers.
#![tactic(auto)]

mod loading;
mod machine;

pub use loading::{BeginNumbers, LoadingNumbers, TurnNumbers, begin_numbers, turned};
pub use machine::{CycleNumbers, DriverNumbers, StartNumbers, StepNumbers, start_numbers, stepped};
