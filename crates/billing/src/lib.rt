// From a job file to the bill: the job that a file asks for, on a blank bench part.
#![tactic(auto)]

mod file;

pub use file::bill_file;
