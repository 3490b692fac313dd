//! Settings kept as pairs of items, a name and its value, in a store of numbered items over NVS or
//! ZMS: look-up, listing, set, delete, and the removal of orphans at mount.
#![tactic(auto)]

mod candidates;
mod keeping;
pub mod laws;
mod listing;
mod lookup;
mod mounting;
mod numbering;
mod nvs;
mod orphans;
mod putting;
mod seen;
mod store;
mod walking;
mod writing;
mod zms;

pub use item_store::IdRange;
pub use listing::all_settings;
pub use lookup::{is_at, is_named, is_value, setting_of, standing_value, value_of};
pub use mounting::mount_store;
pub use numbering::IdLayout;
pub use orphans::remove_orphans;
pub use putting::{NewNames, price_of_pair, put_new, refused, set_value};
pub use store::ItemStore;
pub use walking::{name_in, next_name};
pub use writing::delete_name;
