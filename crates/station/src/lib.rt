// What the station's C controller links: every entry point takes and hands back plain numbers, and takes any.
#![tactic(auto)]

mod cycle;
mod figures;
mod file;
mod load;
mod loading;
mod machine;

pub use cycle::{station_cut, station_fresh, station_idle, station_read, station_write};
pub use figures::{
    station_figure, station_figure_answer, station_write_address, station_write_answer,
    station_write_data,
};
pub use file::{station_bill, station_image, station_job};
pub use load::{station_load, station_load_first};
pub use loading::{station_begin, station_turn};
pub use machine::{station_start, station_step};
