//! Settings in an NVS area: an item with the count of names, an item for each name, and its value
//! at a fixed distance above it.
#![tactic(auto)]

mod backend;
mod kept;
mod lookup;
mod numbering;
mod putting;

pub use backend::NvsBackend;
pub use numbering::NvsIdLayout;
