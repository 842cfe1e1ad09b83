// The job file of document 01: what its trailer asks, and the image it points back to.
#![tactic(auto)]

mod bytes;
mod image;
mod trailer;

pub use image::read_image;
pub use trailer::{JobFile, read_job};
