//! The jobs of `image_tool` on settings. A job takes an image, carries out the lines of a script on
//! it, power losses included, and keeps the answers and the image that is left.
#![tactic(auto)]

mod building;
mod carrying;
mod counting;
mod inputs;
mod jobs;
mod laws;
mod loading;
mod outcome;
mod reading;
mod refusing;
mod report;
mod running;
mod stops;

pub use building::build;
pub use carrying::label_at;
pub use jobs::{Job, Output, Report, Source, Start};
pub use laws::{blank_maps, lawful_maps, limits, lines_fit};
pub use loading::{file_left, longest_value};
pub use outcome::{OutFile, Outcome};
pub use reading::{read_image_file, read_script_text};
pub use refusing::{USAGE, refusal_line};
pub use running::run_job;
pub use stops::{Refusal, Stop};
