//! Image files: the banks, areas and bytes of a flash in one file, and the word on the command line
//! that describes a blank image.
#![tactic(auto)]

mod fields;
mod image;
mod lawful;
mod laws;
mod numbers;
mod parts;
mod reading;
mod spec;
mod writing;

pub use image::{Image, ImageFault, ImageWhy, SpecFault};
pub use lawful::is_label;
pub use laws::{lawful_use, one_reading, one_spec_reading};
pub use reading::read_image;
pub use spec::read_spec;
pub use writing::write_image;
