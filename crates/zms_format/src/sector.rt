// How one sector reads, over its bytes, and entries at their places.
ghost use Rattle.std.specs.Prelude.{◌≡◌, ◌^◌, ◌<◌, ◌≤◌, ◌||◌, not, length, false, IfSome};
ghost use Rattle.std.specs.Option.{option_map, option_map_or};
ghost use Rattle.zms_cycle.specs.Sector.{valid_slots, entries, has_guard, is_under, cost, capacity, entry_cost, holds_too_much};
ghost use Rattle.zms_format.specs.Area.{marks_of, may_close, is_clean, placed_at, last_in, IsListed};

use flash_map::padded;
use flash_sim::Kind;
use zms_cycle::{
    FIRST, SLOT, SectorState, SlotEntry, TAIL, ZEntry, can_close, capacity, cost, is_fresh,
    listed_entry, offset_of, reach_in, read_sector,
};

// The slots of a sector that no entry takes up: for empty and close, and the guard slot.
const UNLISTED: u64 = 3;

/// An entry that counts, and where it stands in the area.
#[derive(Clone, Copy)]
pub struct Found {
    /// The sector, counted from 0 in the area.
    pub sector: u32,
    /// The number of the slot.
    pub slot: u32,
    /// What the slot holds.
    pub entry: ZEntry,
}

/// What the calls on an area have to know of a sector.
#[derive(Clone, Copy)]
pub struct Marks {
    /// The sector has no cycle yet.
    pub blank: bool,
    /// Slot 2 is valid.
    pub begun: bool,
    /// The close entry stands.
    pub closed: bool,
    /// gc-done stands in the sector.
    pub gc_done: bool,
    /// How many slots from slot 2 on are valid.
    pub slots: u32,
    /// Where the next value goes, in bytes; the last number of 32 bits stands for all above it.
    pub data_end: u32,
}

impl Marks {
    /// Whether slot 2 is valid or the sector is closed.
    pub fn in_use(&self) -> bool
        ensures { result ≡ (self.now.begun || self.now.closed) }
    {
        self.begun || self.closed
    }
}

/// The marks of a sector, on a bank of this kind.
pub fn read_marks(sector: &[u8], kind: Kind) -> Marks
    requires long { 48 ≤ length sector.now }
    requires short { length sector.now ≤ 2 ^ 15 }
    ensures { result ≡ marks_of kind sector.now }
{
    match read_sector(sector, kind) {
        SectorState::Blank => Marks {
            blank: true,
            begun: false,
            closed: false,
            gc_done: false,
            slots: 0,
            data_end: 0,
        },
        SectorState::Used {
            closed,
            slots,
            data_end,
            gc_done,
            ..
        } => Marks {
            blank: false,
            begun: slots > 0,
            closed,
            gc_done,
            slots,
            data_end,
        },
    }
}

/// Whether a sector with these marks is closed, is blank, or can take the close entry, on a bank of
/// this kind.
#[tactic(auto, unfolding(crate::specs::Area::may_close))]
pub fn may_close(sector: &[u8], marks: &Marks, kind: Kind) -> bool
    requires long { 48 ≤ length sector.now }
    requires marks { marks.now ≡ marks_of kind sector.now }
    ensures { result ≡ may_close kind sector.now }
{
    if marks.closed {
        return true;
    }
    if marks.blank {
        return true;
    }
    can_close(sector, kind)
}

/// Whether a garbage collection into a sector can begin at once, or as soon as a blank one is
/// emptied, on a bank of this kind.
#[tactic(auto, unfolding(crate::specs::Area::is_clean))]
pub fn is_clean(sector: &[u8], kind: Kind) -> bool
    requires long { 48 ≤ length sector.now }
    requires short { length sector.now ≤ 2 ^ 15 }
    ensures { result ≡ is_clean kind sector.now }
{
    let marks = read_marks(sector, kind);
    match kind {
        Kind::Rewritable => !marks.in_use(),
        Kind::Erasing => marks.blank || is_fresh(sector),
    }
}

/// The entry in this sector of the area.
pub fn placed_in(found: SlotEntry, sector: u32) -> Found
    ensures { result ≡ placed_at sector found }
{
    Found {
        sector,
        slot: found.slot,
        entry: found.entry,
    }
}

/// What an entry and its value take up, in bytes, if there is an entry with a value.
#[tactic(auto, unfolding(zms_cycle::specs::Sector::entry_cost))]
fn cost_of(found: &Option<SlotEntry>) -> u64
    ensures value { result ≡ option_map_or entry_cost found.now 0 }
    ensures small { result < 2 ^ 18 }
{
    match found {
        Some(found) if found.entry.len > 0 => u64::from(cost(found.entry.len)),
        _ => 0,
    }
}

/// Whether an entry's value stands outside whole units or ends above the limit.
#[tactic(auto, unfolding(zms_cycle::specs::Sector::is_under))]
fn passes(found: &Option<SlotEntry>, limit: u64) -> bool
    ensures { result ≡ option_map_or (λ f. not (is_under limit f)) found.now false }
{
    match found {
        Some(found) if found.entry.len > TAIL => {
            let offset = offset_of(&found.entry);
            let padded = padded(SLOT, u32::from(found.entry.len));
            offset % SLOT != 0 || limit < u64::from(offset) + u64::from(padded)
        }
        _ => false,
    }
}

/// Whether there is a guard slot under this many valid slots.
pub fn has_guard(sector: &[u8], slots: u32) -> bool
    requires short { length sector.now ≤ 2 ^ 15 }
    requires slots { slots ≡ length (valid_slots sector.now) }
    ensures { result ≡ has_guard sector.now }
{
    (u64::from(slots) + UNLISTED) * u64::from(SLOT) <= sector.len() as u64
}

/// Whether a sector with this many valid slots holds more than it may.
pub fn holds_too_much(sector: &[u8], slots: u32) -> bool
    requires short { length sector.now ≤ 2 ^ 15 }
    requires slots { slots ≡ length (valid_slots sector.now) }
    ensures { result ≡ holds_too_much sector.now }
{
    let size = sector.len() as u64;
    let limit = size.saturating_sub((u64::from(slots) + UNLISTED) * u64::from(SLOT));
    let mut over = false;
    let mut costs = 0;
    for slot in FIRST..FIRST + slots {
        let found = listed_entry(sector, slot);
        over |= passes(&found, limit);
        costs += cost_of(&found);
    }
    over || u64::from(capacity(sector.len() as u32)) < costs
}

/// The last entry of the id in a sector. It may be a delete. `place` is the number of the sector.
/// The first `known` slots of the sector's list are not checked.
pub fn find_in(sector: &[u8], place: u32, known: u32, id: u32) -> Option<Found>
    requires long { 48 ≤ length sector.now }
    requires short { length sector.now ≤ 2 ^ 15 }
    requires known { known ≤ length (valid_slots sector.now) }
    ensures last { result ≡ option_map (placed_at place) (last_in id (entries sector.now)) }
    ensures listed { IfSome result (λ p. IsListed sector.now p) }
    ensures sector { IfSome result (λ p. p.sector ≡ place) }
{
    let mut count = reach_in(sector, known, id, id);
    while count > 0 {
        if let Some(found) = listed_entry(sector, count + 1) {
            if found.entry.id == id {
                return Some(placed_in(found, place));
            }
        }
        count -= 1;
    }
    None
}
