// The last entries of ids, by one walk over the list of an area, from its newest entry to its
// oldest. If some ids have more than 16 bits and some are not the usual ones of their keys, the
// walk also searches the list for ids whose keys were seen.
ghost use Rattle.std.specs.Prelude.{◌≡◌, ◌+◌, ◌<◌, ◌≤◌, ◌++◌, ◌∷◌, ◌^◌, ◌&&◌, ◌==◌, ℕ, List, [], true, false, None, Some, is_some, length};
ghost use Rattle.std.specs.Option.{option_map, option_to_list};
ghost use Rattle.std.specs.List.Sorted.{IsSearchInRange};
ghost use Rattle.std.specs.List.{AllWithin};
ghost use Rattle.flash_map.specs.declared.area.Geometry.{Geometry as geometry_type};
ghost use Rattle.flash_map.specs.Area.{sectors_of};
ghost use Rattle.item_laws.specs.Area.{counts_at};
ghost use Rattle.item_laws.specs.Live.{counted_in};
ghost use Rattle.item_laws.specs.NextIds.{IsBehind};
ghost use Rattle.item_store.specs.OnSector.{sector_on, IsOpenAt};
ghost use Rattle.item_store.specs.declared.entry.Placed.{Placed as PlacedEntry};
ghost use Rattle.item_store.specs.SectorFormat.{placed_at, slots};
ghost use Rattle.item_store.specs.Latest.{last_of_id, Covers, IsKnown, Rises, Splits, IsNextIn, DropsGreatest, Knows, KnowsOn};
ghost use Rattle.item_store.specs.Listed.{format_on, HasSlotOn};
ghost use Rattle.item_store.specs.Seen.{HasSeen, AreBehind, behind};

use crate::entry::Placed;
use crate::lookup::{counts, find};
use crate::open_area::OpenArea;
use crate::sectors::SlotSectors;
use crate::seen::Seen;
use arrayvec::ArrayVec;
use flash_sim::{Flash, Steps};
use std::sync::ledger::Ledger;

// The most entries of a table, of 16 bytes each.
const ENTRIES: usize = 1024;

/// A table of last entries: for each id below its bound, the last entry of the id, if that has
/// bytes. It has a bound only if more ids had bytes than it has places.
#[derive(Drop)]
pub struct LastSlots {
    // in the order of their ids
    pub(crate) entries: ArrayVec<Placed, ENTRIES>,
    // It knows the ids below this one. With no bound it knows each id.
    pub(crate) bound: Option<u32>,
}

// Where the entry of an id stands among entries in the order of their ids, or where it would stand.
fn search(entries: &[Placed], id: u32) -> Result<usize, usize>
    ensures inside { IsSearchInRange result (length entries.now) }
    ensures splits { Rises entries.now → Splits entries.now id result }
{
    let at = entries.partition_point(|placed| placed.id < id);
    if at < entries.len() && entries[at].id == id {
        Ok(at)
    } else {
        Err(at)
    }
}

impl LastSlots {
    /// A table of no entries.
    pub fn new() -> LastSlots
        ensures { (limit : ℕ) → Knows limit result [] }
    {
        LastSlots {
            entries: ArrayVec::new(),
            bound: None,
        }
    }

    // Empties the table.
    fn clear(&mut self)
        ensures { (limit : ℕ) → Knows limit self.new [] }
    {
        self.entries.clear();
        self.bound = None;
    }

    /// Whether the table knows an id.
    pub fn knows_of(&self, id: u32) -> bool
        ensures yes_it { result ≡ true → IsKnown self.now.bound id }
        ensures not_it { result ≡ false → IsKnown self.now.bound id → ⊥ }
    {
        match self.bound {
            Some(bound) => id < bound,
            None => true,
        }
    }

    /// Whether the table knows each id.
    pub fn knows_all(&self) -> bool
        ensures yes_it { result ≡ true → self.now.bound ≡ None }
        ensures not_it { result ≡ false → self.now.bound ≡ None → ⊥ }
    {
        self.bound.is_none()
    }

    /// The entry of an id, if the table has one.
    pub fn entry_of(&self, id: u32) -> Option<Placed>
        ensures { Rises self.now.entries.items → result ≡ last_of_id id self.now.entries.items }
    {
        match search(self.entries.as_slice(), id) {
            Ok(at) => Some(self.entries.as_slice()[at]),
            Err(_) => None,
        }
    }

    // Where the entries begin whose ids are greater than `after`.
    fn first_behind(&self, after: Option<u32>) -> usize
        ensures before { Rises self.now.entries.items
            → AllWithin (λ p. IsBehind after p.id → ⊥) self.now.entries.items 0 result }
        ensures behind { Rises self.now.entries.items
            → AllWithin (λ p. IsBehind after p.id) self.now.entries.items result
            (length self.now.entries.items) }
    {
        match after {
            Some(after) => match search(self.entries.as_slice(), after) {
                Ok(at) => at + 1,
                Err(at) => at,
            },
            None => 0,
        }
    }

    /// The entry of the least id greater than `after`, or of the least of all if `after` is not
    /// given.
    pub fn next(&self, after: Option<u32>) -> Option<Placed>
        ensures { Rises self.now.entries.items → IsNextIn after self.now.entries.items result }
    {
        let first = self.first_behind(after);
        if first < self.entries.len() {
            Some(self.entries.as_slice()[first])
        } else {
            None
        }
    }

    // Takes out the entry of the greatest id.
    fn drop_greatest(&mut self)
        requires { 0 < length self.old.entries.items }
        ensures { DropsGreatest self.old self.new }
    {
        if let Some(greatest) = self.entries.pop() {
            self.bound = Some(greatest.id);
        }
    }

    // Puts an entry with bytes at its place, as the last one of an id of which the table has none.
    // If the table is full, the greatest id goes, this one or another.
    fn put_new(&mut self, at: usize, placed: &Placed)
        requires inside { at ≤ length self.old.entries.items }
        ensures { (limit : ℕ) (before : List PlacedEntry) → placed.now.id < limit
            → ¬ (placed.now.len ≡ 0)
            → AllWithin (λ p. p.id < placed.now.id) self.old.entries.items 0 at
            → AllWithin (λ p. placed.now.id < p.id) self.old.entries.items at
            (length self.old.entries.items) → IsKnown self.old.bound placed.now.id
            → Knows limit self.old before → Knows limit self.new (before ++ placed.now ∷ []) }
    {
        if !self.entries.is_full() {
            self.entries.insert(at, *placed);
            return;
        }
        if at == self.entries.len() {
            self.bound = Some(placed.id);
            return;
        }
        self.drop_greatest();
        self.entries.insert(at, *placed);
    }

    // Takes an entry as the last one of its id. The table knows the id, and has no entry of it.
    fn put(&mut self, placed: &Placed)
        ensures { (limit : ℕ) (before : List PlacedEntry) → placed.now.id < limit
            → last_of_id placed.now.id before ≡ None → IsKnown self.old.bound placed.now.id
            → Knows limit self.old before → Knows limit self.new (before ++ placed.now ∷ []) }
    {
        match search(self.entries.as_slice(), placed.id) {
            Ok(_) => {}
            Err(at) => {
                if placed.len > 0 {
                    self.put_new(at, placed);
                }
            }
        }
    }

    // Takes an entry that stands behind others, none of which has its id.
    fn note(&mut self, placed: &Placed)
        ensures { (limit : ℕ) (before : List PlacedEntry) → placed.now.id < limit
            → last_of_id placed.now.id before ≡ None → Knows limit self.old before
            → Knows limit self.new (before ++ placed.now ∷ []) }
    {
        if self.knows_of(placed.id) {
            self.put(placed);
        }
    }

    // Takes an entry that stands before others, unless one of them has its id.
    fn take_older(&mut self, placed: &Placed, has_later: bool)
        ensures { (limit : ℕ) (later : List PlacedEntry) → placed.now.id < limit
            → has_later ≡ is_some (last_of_id placed.now.id later)
            → Knows limit self.old later → Knows limit self.new (placed.now ∷ later) }
    {
        if !has_later {
            self.note(placed);
        }
    }

    // Whether the table has an entry of the id. If so, the entries that it was made of have one.
    fn has(&self, id: u32) -> bool
        ensures { (limit : ℕ) (later : List PlacedEntry) → Knows limit self.now later
            → result ≡ true → is_some (last_of_id id later) ≡ true }
    {
        if !self.knows_of(id) {
            return false;
        }
        self.entry_of(id).is_some()
    }
}

// Whether an entry of exactly this id was seen. `false` says nothing.
fn was_known<T: SlotSectors>(last: &LastSlots, seen: &Seen, id: u32) -> bool
    ensures { (geometry : geometry_type) (later : List PlacedEntry)
        → ((T.format_of geometry).ids ≤ 2 ^ 16 → id < 2 ^ 16)
        → Covers (T.format_of geometry).ids last.now seen.now later → result ≡ true
        → is_some (last_of_id id later) ≡ true }
{
    if !seen.has(id) {
        return false;
    }
    if T::has_short_ids() {
        return true;
    }
    if seen.is_exact(id) {
        return true;
    }
    last.has(id)
}

// Whether two entries stand in the same slot.
fn share_place(one: &Placed, other: &Placed) -> bool
    ensures { result ≡ ((one.now.sector == other.now.sector) && (one.now.slot == other.now.slot)) }
{
    one.sector == other.sector && one.slot == other.slot
}

// Whether an entry behind this one has its id. The list is searched only if an entry was seen that
// may have it.
fn has_later<T: SlotSectors, F: Flash, L: Ledger>(
    flash: &F,
    on: &OpenArea<'_, T>,
    placed: &Placed,
    seen: &Seen,
    steps: &mut Steps<L>,
) -> bool
    requires on { IsOpenAt T.role T.format_of T.kept (F.device flash.now) on.now }
    ensures { let d = F.device flash.now in let area = on.now.area.now in
        let k = format_on T.format_of d area in
        (later : List PlacedEntry) → AreBehind k (sectors_of d area) placed.now later
        → HasSeen k.ids seen.now later → result ≡ is_some (last_of_id placed.now.id later) }
{
    if !seen.has(placed.id) {
        return false;
    }
    match find(flash, on, placed.id, steps) {
        Some(last) => !share_place(&last, placed),
        None => false,
    }
}

// Takes an entry that was read and stands before those taken so far. Its id is noted.
fn index_entry<T: SlotSectors, F: Flash, L: Ledger>(
    flash: &F,
    on: &OpenArea<'_, T>,
    placed: &Placed,
    last: &mut LastSlots,
    seen: &mut Seen,
    steps: &mut Steps<L>,
)
    requires on { IsOpenAt T.role T.format_of T.kept (F.device flash.now) on.now }
    requires known { let d = F.device flash.now in let area = on.now.area.now in
        placed.now.id < (format_on T.format_of d area).ids }
    ensures { let d = F.device flash.now in let area = on.now.area.now in
        let k = format_on T.format_of d area in
        (later : List PlacedEntry) → AreBehind k (sectors_of d area) placed.now later
        → Covers k.ids last.old seen.old later
        → Covers k.ids last.new seen.new (placed.now ∷ later) }
{
    let older = has_later(flash, on, placed, seen, steps);
    last.take_older(placed, older);
    seen.add(placed.id);
}

// Takes the entry in a slot, if there is one, before those taken so far. The id is read first: if
// an entry of this id was seen, the slot is skipped, and its CRC is not checked.
fn index_slot<T: SlotSectors, F: Flash, L: Ledger>(
    flash: &F,
    on: &OpenArea<'_, T>,
    place: u32,
    slot: u32,
    last: &mut LastSlots,
    seen: &mut Seen,
    steps: &mut Steps<L>,
)
    requires on { IsOpenAt T.role T.format_of T.kept (F.device flash.now) on.now }
    requires inside { place < on.now.area.now.sectors }
    requires listed { HasSlotOn T.format_of (F.device flash.now) on.now.area.now place slot }
    ensures { let d = F.device flash.now in let area = on.now.area.now in
        let k = format_on T.format_of d area in
        (later : List PlacedEntry)
        → ((p : PlacedEntry)
        → option_map (placed_at place) (k.in_slot (sector_on d area place) slot) ≡ Some p
        → AreBehind k (sectors_of d area) p later) → Covers k.ids last.old seen.old later
        → Covers k.ids last.new seen.new
        (option_to_list (option_map (placed_at place) (k.in_slot (sector_on d area place) slot))
        ++ later) }
{
    let id = T::id_in(flash, on.area, place, slot, steps);
    if was_known::<T>(last, seen, id) {
        return;
    }
    match T::entry_in(flash, on.area, place, slot, steps) {
        Some(placed) => index_entry(flash, on, &placed, last, seen, steps),
        None => {}
    }
}

// Takes the entries of a sector that counts, before those behind it.
fn index_sector<T: SlotSectors, F: Flash, L: Ledger>(
    flash: &F,
    on: &OpenArea<'_, T>,
    place: u32,
    last: &mut LastSlots,
    seen: &mut Seen,
    steps: &mut Steps<L>,
)
    requires on { IsOpenAt T.role T.format_of T.kept (F.device flash.now) on.now }
    requires inside { place < on.now.area.now.sectors }
    requires counts { let d = F.device flash.now in let area = on.now.area.now in
        counts_at (format_on T.format_of d area).reading (sectors_of d area) on.now.current place
        ≡ true }
    requires covers { let d = F.device flash.now in let area = on.now.area.now in
        let k = format_on T.format_of d area in
        Covers k.ids last.old seen.old (behind k (sectors_of d area) on.now.current place) }
    ensures { let d = F.device flash.now in let area = on.now.area.now in
        let k = format_on T.format_of d area in
        Covers k.ids last.new seen.new
        (counted_in (slots k) (sectors_of d area) on.now.current place
        ++ behind k (sectors_of d area) on.now.current place) }
{
    let first = T::first_slot();
    let mut left = T::slots(flash, on.area, place, steps);
    while left > 0 {
        let slot = first + (left - 1);
        index_slot(flash, on, place, slot, last, seen, steps);
        left -= 1;
    }
}

// The same if the sector counts; otherwise it takes none.
fn index_counting<T: SlotSectors, F: Flash, L: Ledger>(
    flash: &F,
    on: &OpenArea<'_, T>,
    place: u32,
    last: &mut LastSlots,
    seen: &mut Seen,
    steps: &mut Steps<L>,
)
    requires on { IsOpenAt T.role T.format_of T.kept (F.device flash.now) on.now }
    requires inside { place < on.now.area.now.sectors }
    requires covers { let d = F.device flash.now in let area = on.now.area.now in
        let k = format_on T.format_of d area in
        Covers k.ids last.old seen.old (behind k (sectors_of d area) on.now.current place) }
    ensures { let d = F.device flash.now in let area = on.now.area.now in
        let k = format_on T.format_of d area in
        Covers k.ids last.new seen.new
        (counted_in (slots k) (sectors_of d area) on.now.current place
        ++ behind k (sectors_of d area) on.now.current place) }
{
    if counts(flash, on, place, steps) {
        index_sector(flash, on, place, last, seen, steps);
    }
}

// Takes all entries of the list, from the newest sector to the oldest.
#[inline(never)]
fn index_all<T: SlotSectors, F: Flash, L: Ledger>(
    flash: &F,
    on: &OpenArea<'_, T>,
    last: &mut LastSlots,
    steps: &mut Steps<L>,
)
    requires on { IsOpenAt T.role T.format_of T.kept (F.device flash.now) on.now }
    requires none { let d = F.device flash.now in
        Knows (format_on T.format_of d on.now.area.now).ids last.old [] }
    ensures { KnowsOn T.format_of (F.device flash.now) on.now.area.now last.new }
{
    let oldest = on.area.next(on.current);
    let mut seen = Seen::new();
    let mut place = on.current;
    while place != oldest {
        index_counting(flash, on, place, last, &mut seen, steps);
        place = on.area.previous(place);
    }
    index_counting(flash, on, oldest, last, &mut seen, steps);
}

/// Fills the table with the last entry of each id in the list, as far as it has room. What it held
/// before is gone. It reads each sector that counts once.
pub fn fill_last_slots<T: SlotSectors, F: Flash, L: Ledger>(
    flash: &F,
    on: &OpenArea<'_, T>,
    last: &mut LastSlots,
    steps: &mut Steps<L>,
)
    requires on { IsOpenAt T.role T.format_of T.kept (F.device flash.now) on.now }
    ensures { KnowsOn T.format_of (F.device flash.now) on.now.area.now last.new }
{
    last.clear();
    index_all(flash, on, last, steps);
}
