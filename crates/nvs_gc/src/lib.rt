//! The NVS store: items with ids of 16 bits, mounted, written and garbage collected by `item_store`
//! over NVS sectors. A call cut by a power loss leaves the items from before it or those after it.
#![tactic(auto)]

mod entries;
mod nvs;
#[tactic(auto, using(flash_map::proofs::Touches::then))]
mod sectors;
mod units;

pub use nvs::Nvs;
pub use sectors::NvsOpen;
pub use units::units_by_row;
