// Noting the entries of the list, sector by sector.
ghost use Rattle.std.specs.Prelude.{◌-◌, ◌<◌, ◌≤◌, ℕ, List, [], ◌++◌};
ghost use Rattle.std.specs.List.{flat_map, range_with_len};
ghost use Rattle.flash_map.specs.Area.{sectors_of};
ghost use Rattle.item_laws.specs.Live.{counted_in};
ghost use Rattle.item_store.specs.OnSector.{IsKeptAt, IsOpenAt};
ghost use Rattle.item_store.specs.declared.entry.Placed.{Placed as PlacedEntry};
ghost use Rattle.item_store.specs.SectorFormat.{slots};
ghost use Rattle.item_store.specs.Listed.{format_on, entries_on};

use crate::lookup::counts;
use crate::notes::Notes;
use crate::open_area::{OpenArea, known_slots};
use crate::sectors::SlotSectors;
use flash_sim::{Flash, Steps};
use std::sync::ledger::Ledger;

// Notes the entries of a sector if it counts with `current` open.
fn note_counting<T: SlotSectors, N: Notes, F: Flash, L: Ledger>(
    flash: &F,
    on: &OpenArea<'_, T>,
    place: u32,
    notes: &mut N,
    steps: &mut Steps<L>,
)
    requires on { IsKeptAt T.role T.format_of T.kept (F.device flash.now) on.now }
    requires inside { place < on.now.area.now.sectors }
    ensures { let d = F.device flash.now in let area = on.now.area.now in
        let k = format_on T.format_of d area in
        (start : N) (before : List PlacedEntry) → N.noted start k.ids notes.old before
        → N.noted start k.ids notes.new
        (before ++ counted_in (slots k) (sectors_of d area) on.now.current place) }
{
    if counts(flash, on, place, steps) {
        let known = known_slots::<T>(on.tops, place);
        T::note_sector(flash, on.area, place, known, notes, steps);
    }
}

/// Notes the entries of the sectors from `first` to the one before `end`, as far as these count.
pub fn note_among<T: SlotSectors, N: Notes, F: Flash, L: Ledger>(
    flash: &F,
    on: &OpenArea<'_, T>,
    first: u32,
    end: u32,
    notes: &mut N,
    steps: &mut Steps<L>,
)
    requires on { IsKeptAt T.role T.format_of T.kept (F.device flash.now) on.now }
    requires order { first ≤ end }
    requires inside { end ≤ on.now.area.now.sectors }
    ensures { let d = F.device flash.now in let area = on.now.area.now in
        let k = format_on T.format_of d area in
        (start : N) (before : List PlacedEntry) → N.noted start k.ids notes.old before
        → N.noted start k.ids notes.new
        (before
        ++ flat_map (counted_in (slots k) (sectors_of d area) on.now.current)
        (range_with_len first (end - first))) }
{
    for place in first..end {
        note_counting(flash, on, place, notes, steps);
    }
}

/// Notes all entries of the list, oldest first. It reads each sector that counts once.
pub fn note_all<T: SlotSectors, N: Notes, F: Flash, L: Ledger>(
    flash: &F,
    on: &OpenArea<'_, T>,
    notes: &mut N,
    steps: &mut Steps<L>,
)
    requires on { IsOpenAt T.role T.format_of T.kept (F.device flash.now) on.now }
    ensures { let d = F.device flash.now in let area = on.now.area.now in
        let k = format_on T.format_of d area in
        (start : N) → N.noted start k.ids notes.old []
        → N.noted start k.ids notes.new (entries_on T.format_of d area) }
{
    let older = on.current + 1;
    note_among(flash, on, older, on.area.sectors, notes, steps);
    note_among(flash, on, 0, older, notes, steps);
}
