// Which entries of a sector are live, by one look at those behind it and one at its own.
ghost use Rattle.std.specs.Prelude.{◌≡◌, ◌≢◌, ◌+◌, ◌-◌, ◌^◌, ◌<◌, ◌||◌, ◌==◌, ℕ, List, ◌++◌, true, false, IfSome};
ghost use Rattle.std.specs.Option.{option_map, option_to_list};
ghost use Rattle.flash_map.specs.Area.{sectors_of};
ghost use Rattle.item_laws.specs.Area.{counts_at};
ghost use Rattle.item_laws.specs.Live.{is_live, live_in, counted_in};
ghost use Rattle.item_store.specs.OnSector.{sector_on, IsOpenAt};
ghost use Rattle.item_store.specs.declared.entry.Placed.{Placed as PlacedEntry};
ghost use Rattle.item_store.specs.SectorFormat.{placed_at, slots};
ghost use Rattle.item_store.specs.Listed.{format_on, HasSlotOn};
ghost use Rattle.item_store.specs.Seen.{has_bit, HasSeen, AreBehind, behind, holds_live};
ghost use Rattle.item_store.specs.Standing.{IsStoreArea};

use crate::bits::{has_bit, set_bit};
use crate::entry::Placed;
use crate::lookup::find;
use crate::open_area::OpenArea;
use crate::sectors::SlotSectors;
use crate::seen::{Seen, note_behind};
use flash_map::Area;
use flash_sim::{Flash, Steps};
use std::sync::ledger::Ledger;

// A bit for each slot of a sector's list.
const BYTES: usize = 0x1000;

/// Which slots of a sector's list hold live entries, by their numbers from the first slot on.
#[derive(Drop)]
pub struct LiveEntries {
    pub(crate) bits: [u8; BYTES],
}

impl LiveEntries {
    /// No slot is marked yet.
    pub fn new() -> LiveEntries
        ensures { (index : ℕ) → index < 2 ^ 15 → has_bit result.bits index ≡ false }
    {
        LiveEntries { bits: [0; BYTES] }
    }

    /// Whether the slot holds a live entry.
    pub fn has(&self, index: u32) -> bool
        requires { index < 2 ^ 15 }
        ensures { result ≡ has_bit self.now.bits index }
    {
        has_bit(&self.bits, index)
    }

    fn put(&mut self, index: u32, live: bool)
        requires { index < 2 ^ 15 }
        ensures put { has_bit self.new.bits index ≡ (has_bit self.old.bits index || live) }
        ensures others { (other : ℕ) → other ≢ index
            → has_bit self.new.bits other ≡ has_bit self.old.bits other }
    {
        if live {
            set_bit(&mut self.bits, index);
        }
    }
}

/// Whether an entry of the list is the last of its id and has bytes.
pub fn is_live<T: SlotSectors, F: Flash, L: Ledger>(
    flash: &F,
    on: &OpenArea<'_, T>,
    placed: &Placed,
    steps: &mut Steps<L>,
) -> bool
    requires on { IsOpenAt T.role T.format_of T.kept (F.device flash.now) on.now }
    ensures { let d = F.device flash.now in let area = on.now.area.now in
        result ≡ is_live (slots (format_on T.format_of d area)) (sectors_of d area)
        placed.now }
{
    match find(flash, on, placed.id, steps) {
        Some(last) => last.sector == placed.sector && last.slot == placed.slot && placed.len > 0,
        None => false,
    }
}

// The same, by what was seen behind it. The list is searched only if an id of the same key was seen
// that may differ.
fn is_live_by<T: SlotSectors, F: Flash, L: Ledger>(
    flash: &F,
    on: &OpenArea<'_, T>,
    placed: &Placed,
    seen: &Seen,
    steps: &mut Steps<L>,
) -> bool
    requires on { IsOpenAt T.role T.format_of T.kept (F.device flash.now) on.now }
    requires known { let d = F.device flash.now in let area = on.now.area.now in
        placed.now.id < (format_on T.format_of d area).ids }
    ensures { let d = F.device flash.now in let area = on.now.area.now in
        let k = format_on T.format_of d area in
        (later : List PlacedEntry) → AreBehind k (sectors_of d area) placed.now later
        → HasSeen k.ids seen.now later
        → result ≡ is_live (slots k) (sectors_of d area) placed.now }
{
    if placed.len == 0 {
        return false;
    }
    if !seen.has(placed.id) {
        return true;
    }
    if T::has_short_ids() {
        return false;
    }
    if seen.is_exact(placed.id) {
        return false;
    }
    is_live(flash, on, placed, steps)
}

// Whether the entry in a slot is live, by what was seen behind it. Its id is noted.
fn look_at<T: SlotSectors, F: Flash, L: Ledger>(
    flash: &F,
    on: &OpenArea<'_, T>,
    place: u32,
    slot: u32,
    seen: &mut Seen,
    steps: &mut Steps<L>,
) -> bool
    requires on { IsOpenAt T.role T.format_of T.kept (F.device flash.now) on.now }
    requires inside { place < on.now.area.now.sectors }
    requires listed { HasSlotOn T.format_of (F.device flash.now) on.now.area.now place slot }
    ensures live { let d = F.device flash.now in let area = on.now.area.now in
        let k = format_on T.format_of d area in
        (later : List PlacedEntry)
        → ((p : PlacedEntry)
        → option_map (placed_at place) (k.in_slot (sector_on d area place) slot) ≡ Some p
        → AreBehind k (sectors_of d area) p later) → HasSeen k.ids seen.old later
        → result ≡ holds_live k (sectors_of d area) place slot }
    ensures seen { let d = F.device flash.now in let area = on.now.area.now in
        let k = format_on T.format_of d area in
        (later : List PlacedEntry) → HasSeen k.ids seen.old later
        → HasSeen k.ids seen.new
        (option_to_list (option_map (placed_at place) (k.in_slot (sector_on d area place) slot))
        ++ later) }
{
    match T::entry_in(flash, on.area, place, slot, steps) {
        Some(placed) => {
            let live = is_live_by(flash, on, &placed, seen, steps);
            seen.add(placed.id);
            live
        }
        None => false,
    }
}

/// Marks the live entries of a sector that counts, by what was seen behind it. None was marked
/// before. The ids of its own entries are noted as seen.
pub fn live_by<T: SlotSectors, F: Flash, L: Ledger>(
    flash: &F,
    on: &OpenArea<'_, T>,
    place: u32,
    seen: &mut Seen,
    live: &mut LiveEntries,
    steps: &mut Steps<L>,
)
    requires on { IsOpenAt T.role T.format_of T.kept (F.device flash.now) on.now }
    requires inside { place < on.now.area.now.sectors }
    requires counts { let d = F.device flash.now in let area = on.now.area.now in
        counts_at (format_on T.format_of d area).reading (sectors_of d area) on.now.current place
        ≡ true }
    requires seen { let d = F.device flash.now in let area = on.now.area.now in
        let k = format_on T.format_of d area in
        HasSeen k.ids seen.old (behind k (sectors_of d area) on.now.current place) }
    requires none { (index : ℕ) → index < 2 ^ 15 → has_bit live.old.bits index ≡ false }
    ensures live { let d = F.device flash.now in let area = on.now.area.now in
        let k = format_on T.format_of d area in
        (index : ℕ) → index < k.count (sector_on d area place)
        → has_bit live.new.bits index
        ≡ holds_live k (sectors_of d area) place (k.first + index) }
    ensures seen { let d = F.device flash.now in let area = on.now.area.now in
        let k = format_on T.format_of d area in
        HasSeen k.ids seen.new
        (counted_in (slots k) (sectors_of d area) on.now.current place
        ++ behind k (sectors_of d area) on.now.current place) }
{
    let first = T::first_slot();
    let mut left = T::slots(flash, on.area, place, steps);
    while left > 0 {
        let slot = first + (left - 1);
        let is = look_at(flash, on, place, slot, seen, steps);
        live.put(left - 1, is);
        left -= 1;
    }
}

/// Marks the live entries of a sector that counts. None was marked before.
#[inline(never)]
pub fn live_entries<T: SlotSectors, F: Flash, L: Ledger>(
    flash: &F,
    on: &OpenArea<'_, T>,
    place: u32,
    live: &mut LiveEntries,
    steps: &mut Steps<L>,
)
    requires on { IsOpenAt T.role T.format_of T.kept (F.device flash.now) on.now }
    requires inside { place < on.now.area.now.sectors }
    requires counts { let d = F.device flash.now in let area = on.now.area.now in
        counts_at (format_on T.format_of d area).reading (sectors_of d area) on.now.current place
        ≡ true }
    requires none { (index : ℕ) → index < 2 ^ 15 → has_bit live.old.bits index ≡ false }
    ensures { let d = F.device flash.now in let area = on.now.area.now in
        let k = format_on T.format_of d area in
        (index : ℕ) → index < k.count (sector_on d area place)
        → has_bit live.new.bits index
        ≡ holds_live k (sectors_of d area) place (k.first + index) }
{
    let mut seen = Seen::new();
    note_behind(flash, on, place, &mut seen, steps);
    live_by(flash, on, place, &mut seen, live, steps);
}

/// The entry in a slot of a sector's list, if it is live.
pub fn live_in<T: SlotSectors, F: Flash, L: Ledger>(
    flash: &F,
    area: &Area,
    place: u32,
    slot: u32,
    live: bool,
    steps: &mut Steps<L>,
) -> Option<Placed>
    requires area { IsStoreArea T.role (F.device flash.now).banks area.now }
    requires inside { place < area.now.sectors }
    requires listed { HasSlotOn T.format_of (F.device flash.now) area.now place slot }
    requires live { let d = F.device flash.now in
        live ≡ holds_live (format_on T.format_of d area.now) (sectors_of d area.now) place slot }
    ensures entry { let d = F.device flash.now in
        result ≡ live_in (slots (format_on T.format_of d area.now)) (sectors_of d area.now) place
        slot }
    ensures short { IfSome result (λ p. p.len < 2 ^ 16) }
{
    if live {
        T::entry_in(flash, area, place, slot, steps)
    } else {
        None
    }
}
