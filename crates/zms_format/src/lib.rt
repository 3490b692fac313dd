//! The sector format of ZMS for `item_store`: how entries and marks read, what damage is, how a
//! mount scans an area, and what each step spends.
#![tactic(auto)]

mod laws;
mod mounting;
mod places;
mod sector;

pub use laws::{first_entry_is_known, open_sector_is_one, parts_of_list};
pub use mounting::scan;
pub use sector::{Found, Marks, find_in, is_clean};
