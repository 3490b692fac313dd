//! A store of numbered items over sectors of entries: it mounts, writes, reads, deletes and
//! collects garbage, whatever the format of a sector (`SlotSectors`).
#![tactic(auto)]

mod asking;
mod bits;
mod cached;
#[tactic(auto, using(flash_map::proofs::Touches::then))]
mod collecting;
mod costs;
mod entry;
mod free;
#[tactic(auto, using(flash_map::proofs::Touches::then))]
mod gc_pass;
mod holding;
mod indexed;
mod lasts;
mod latest;
pub mod laws;
mod live;
mod lookup;
mod notes;
mod noting;
mod open_area;
mod reading;
#[tactic(auto, using(flash_map::proofs::Touches::then))]
mod room;
mod searching;
mod sectors;
mod seen;
mod store;
mod walking;
#[tactic(auto, using(flash_map::proofs::Touches::then))]
mod writing;

pub use entry::{Entry, IdPair, IdRange, ListStart, LookBack, MayHave, Placed, Redo};
pub use free::MOST_CANDIDATES;
pub use holding::Holder;
pub use lasts::MOST_IDS;
pub use latest::LastSlots;
pub use notes::Notes;
pub use sectors::SlotSectors;
pub use store::Store;
