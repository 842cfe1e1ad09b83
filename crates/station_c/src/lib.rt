// What C links: the exports of the library station. Each is a call of its function there, under the same clause.
// kept: the C interface: an exported function is a function of its own, and a static library is no library of another crate
#![tactic(auto)]

mod cycle;
mod figures;
mod file;
mod load;
mod loading;
mod machine;
