//! The ZMS store: items with ids of 32 bits, mounted, written and garbage collected by `item_store`
//! over ZMS sectors. A call cut by a power loss leaves the items from before it or those after it.
#![tactic(auto)]

mod entries;
mod reading;
#[tactic(auto, using(flash_map::proofs::Touches::then))]
mod sectors;
mod store;
mod writing;

pub use item_store::LastSlots;
pub use sectors::ZmsOpen;
pub use store::Zms;
pub use zms_format::Found;
