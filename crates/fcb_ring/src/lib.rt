//! A flash circular buffer on one area: a ring of sectors, each with a header and an id, and the
//! records in them. One sector stays free, so that garbage collection has somewhere to copy live
//! records.
#![tactic(auto)]

mod collecting;
mod erasing;
mod image;
mod mounting;
mod reading;
mod record;
mod ring;
mod sector;
mod sequence;
mod tearing;
mod writing;

pub use image::record_cost;
pub use record::{Record, RecordAt};
pub use ring::{Ring, Stage};
pub use sector::SectorState;
pub use tearing::{chance, chance_of_a_record};
pub use writing::AppendFault;
