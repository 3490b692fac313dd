//! The older versions of an item that an area still holds, and how the area's space is used.
#![tactic(auto)]

mod history;
mod laws;
mod searches;
mod stores;
mod usage;

pub use history::{Older, store_older};
pub use laws::items_fit;
pub use stores::{nvs_older, nvs_space, zms_older, zms_space};
pub use usage::{Space, store_space};
