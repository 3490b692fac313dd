// What a scan of an area says, and entries at their places.

ghost use Rattle.std.specs.Prelude.{◌≡◌, ℕ, ◌<◌, not, List, length};
ghost use Rattle.item_laws.specs.Area.{counts_at};
ghost use Rattle.nvs_store.specs.Scans.{reading, scan_of, placed_at, marked_redo};

use crate::entry::Entry;
use flash_map::Area;

/// An entry that counts, and its slot. Slots of entries are numbered from 1, downward from the
/// sector's end.
#[derive(Clone, Copy)]
pub struct SlotEntry {
    /// The number of the slot.
    pub slot: u32,
    /// What the slot holds.
    pub entry: Entry,
}

impl SlotEntry {
    /// The entry in this sector of the area.
    pub fn at(self, sector: u32) -> Found
        ensures { result ≡ placed_at sector self }
    {
        Found {
            sector,
            slot: self.slot,
            entry: self.entry,
        }
    }
}

/// An entry that counts, and where it stands in the area.
#[derive(Clone, Copy)]
pub struct Found {
    /// The sector, counted from 0 in the area.
    pub sector: u32,
    /// The number of the slot.
    pub slot: u32,
    /// What the slot holds.
    pub entry: Entry,
}

/// What a mount has to do before the area is at rest.
#[derive(Clone, Copy)]
pub enum Redo {
    /// No garbage collection was cut.
    Nothing,
    /// A garbage collection is done but for its last step: to erase the next sector, the victim.
    EraseNext,
    /// A garbage collection was cut before gc-done: it starts again into the open sector.
    CollectAgain,
}

impl Redo {
    /// What is left to do once gc-done stands.
    pub fn marked(self) -> Redo
        ensures { result ≡ marked_redo self }
    {
        match self {
            Redo::Nothing => Redo::Nothing,
            Redo::EraseNext | Redo::CollectAgain => Redo::EraseNext,
        }
    }
}

/// How far the open sector is filled. Places are in bytes from the sector's start.
#[derive(Clone, Copy)]
pub struct Scan {
    /// The open sector.
    pub current: u32,
    /// Where its lowest used slot starts.
    pub low: u32,
    /// Where its next data goes.
    pub data_end: u32,
    /// Whether gc-done stands in it.
    pub gc_done: bool,
    /// What a mount has to do.
    pub redo: Redo,
}

/// Whether a sector is ignored. During a garbage collection one sector is: the open one before
/// gc-done, and the victim after it.
pub fn is_ignored(area: &Area, scan: &Scan, place: u32) -> bool
    requires { scan.now.current < area.now.sectors }
    ensures { (unit : ℕ) (sectors : List (List ℕ)) → length sectors ≡ area.now.sectors
        → scan.now ≡ scan_of unit sectors
        → counts_at (reading unit) sectors scan.now.current place ≡ not result }
{
    match scan.redo {
        Redo::Nothing => false,
        Redo::EraseNext => place == area.next(scan.current),
        Redo::CollectAgain => place == scan.current,
    }
}
