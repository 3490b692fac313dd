//! One NVS sector, and the scan of its area: calls that append and copy entries, end a garbage
//! collection, close the sector and look entries up. The store itself is `nvs_gc`.
#![tactic(auto)]

mod calls;
mod entry;
mod geometry;
mod holding;
mod lookup;
mod mounting;
mod places;
mod scan;
mod sector;
mod slots;

pub use calls::{append, copy_entry, put_close, put_done};
pub use entry::{Entry, SPECIAL_ID, decode_entry, encode_entry};
pub use geometry::{capacity, cost, fits, slot_size};
pub use holding::{are_named, find_holder};
pub use lookup::{find, walk};
pub use mounting::mount_scan;
pub use places::{is_blank, is_closed};
pub use scan::{Found, Redo, Scan, SlotEntry};
pub use sector::{find_in, scan_sector};
pub use slots::{counting_entry, used_count};
