//! One ZMS sector: entries of sixteen bytes that are valid only under the sector's cycle, and the
//! writes that change them.
#![tactic(auto)]

#[tactic(auto, using(flash_map::proofs::Touches::then))]
mod appending;
#[tactic(auto, using(flash_map::proofs::Touches::then))]
mod copying;
mod entry;
#[tactic(auto, using(flash_map::proofs::Touches::then))]
mod guarding;
mod holding;
mod laws;
#[tactic(auto, using(flash_map::proofs::Touches::then))]
mod marking;
mod reading;
mod searching;

pub use appending::{put_done, put_done_at, put_entry, put_entry_at};
pub use copying::{copy_entry, copy_entry_at};
pub use entry::{ZEntry, decode_zentry, encode_zentry, fill_unit, zentry_fields};
pub use guarding::guard;
pub use holding::{find_bytes, may_have};
pub use laws::steps_are_bounded;
pub use marking::{close, close_at, empty_sector};
pub use reading::{
    FIRST, Opened, SLOT, SectorState, SlotEntry, TAIL, TAIL_AT, can_close, capacity, cost,
    cycle_of, data_len, entry_in, is_fresh, listed_entry, offset_of, read_sector, slot_of, state,
    valid_within,
};
pub use searching::{has_close, listed_slots, reach_in, reach_within};
