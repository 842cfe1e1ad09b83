// The job: loads an image over whole sectors, erasing and programming only what is needed, and writes the bill.
#![tactic(auto)]

mod bill;
mod loader;
mod loading;
mod run;

pub use bill::{Bill, Report, load, load_first};
pub use loader::{Job, Loader, Purpose, Stage, Task, Turn};
pub use loading::{Begun, LoadTurn, Loading, Progress, begin_load, is_ending};
pub use run::{Held, Last, Tally};
