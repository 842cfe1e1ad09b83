// The part table of document 01, and its figures.
#![tactic(auto)]

mod figure;
mod rows;

pub use figure::part_figure;
pub use rows::part_row;
