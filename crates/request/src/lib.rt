// The refusals of a job: on lent cells, at the begin of one with none lent, and of one under way.
#![tactic(auto)]

mod refusal;

pub use refusal::{check_begin, check_job, check_standing, check_standing_on};
