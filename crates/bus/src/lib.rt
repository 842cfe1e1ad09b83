// The bus cycle on a device as plain numbers: each call takes any numbers.
#![tactic(auto)]

mod cycle;

pub use cycle::{DeviceNumbers, OperationNumbers, READ_MODE, ReplyNumbers, cycled};
