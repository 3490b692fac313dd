//! Areas of flash (partitions): runs of whole sectors, and calls that change one area and nothing
//! else.
#![tactic(auto)]

mod area;
mod calls;
mod copies;
mod faults;
mod formatting;
mod map;
mod pieces;
mod units;

pub use area::{Area, Geometry, LONG_VALUE_LIMIT, MOST_SECTORS, Role, VALUE_LIMIT};
pub use calls::{area_erase, area_program, area_view, geometry, sector_view};
pub use copies::{COPY_PIECE, Source, copy_padded};
pub use faults::{Damaged, MountFault, Why, WriteFault};
pub use formatting::{area_format, erase_if};
pub use map::{AddFault, FlashMap};
pub use pieces::{PIECE, program_all, program_padded};
pub use units::{is_erased, padded, trimmed_len};
