//! Several settings stores, a selector that records which one is active, and the migration of all
//! settings to the next one.
#![tactic(auto)]

mod areas;
mod copying;
mod migrating;
mod selecting;

pub use areas::{area_at, first_store, is_store_at, target};
pub use copying::put_in_order;
pub use migrating::{MigrateFault, fill, migrate};
pub use selecting::Selector;
