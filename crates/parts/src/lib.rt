// The parts of document 01: what the part table holds of a part, the numbers of commands and refusals by name, a cell's value and blank by the width, the ranges of an address, and times.
#![tactic(auto)]

pub mod names;
mod refusal;
mod span;
mod table;
mod time;
mod width;

pub use refusal::Refusal;
pub use span::Span;
pub use table::{End, Line, Row};
pub use time::{is_interval, rounded_up};
pub use width::{blank, fits, value};
