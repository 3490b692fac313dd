// Entries of the list of an area.
ghost use Rattle.std.specs.Prelude.{◌≡◌, ◌+◌, ◌-◌, ◌<◌, ◌≤◌};
ghost use Rattle.std.specs.List.{flat_map, range_with_len};
ghost use Rattle.flash_map.specs.Area.{sectors_of};
ghost use Rattle.item_laws.specs.Area.{counts_at};
ghost use Rattle.item_laws.specs.Live.{last_of, last_placed, counted_in};
ghost use Rattle.item_store.specs.OnSector.{Ignores, IsKeptAt, IsOpenAt};
ghost use Rattle.item_store.specs.Listed.{format_on};
ghost use Rattle.item_store.specs.SectorFormat.{slots};

use crate::entry::Placed;
use crate::open_area::{OpenArea, known_slots};
use crate::sectors::SlotSectors;
use flash_sim::{Flash, Steps};
use std::sync::ledger::Ledger;

/// The sector that does not count, with this one open; `None` if each counts. This takes at most
/// one step.
fn ignored_sector<T: SlotSectors, F: Flash, L: Ledger>(
    flash: &F,
    on: &OpenArea<'_, T>,
    steps: &mut Steps<L>,
) -> Option<u32>
    requires on { IsKeptAt T.role T.format_of T.kept (F.device flash.now) on.now }
    ensures ignores { let d = F.device flash.now in let area = on.now.area.now in
        Ignores (format_on T.format_of d area) (sectors_of d area) on.now.current result }
    ensures step { steps.new ≤ steps.old + 1 }
{
    let after = on.area.next(on.current);
    if !T::is_closed(flash, on.area, after, steps) {
        return None;
    }
    if on.opened.has_gc_done() {
        Some(after)
    } else {
        Some(on.current)
    }
}

/// Whether a sector counts, with this one open. This takes at most one step.
pub fn counts<T: SlotSectors, F: Flash, L: Ledger>(
    flash: &F,
    on: &OpenArea<'_, T>,
    place: u32,
    steps: &mut Steps<L>,
) -> bool
    requires on { IsKeptAt T.role T.format_of T.kept (F.device flash.now) on.now }
    ensures value { let d = F.device flash.now in let area = on.now.area.now in
        result
        ≡ counts_at (format_on T.format_of d area).reading (sectors_of d area) on.now.current
        place }
    ensures step { steps.new ≤ steps.old + 1 }
{
    match ignored_sector(flash, on, steps) {
        Some(ignored) => place != ignored,
        None => true,
    }
}

// The last entry of the id in one sector, if that counts. This takes at most one step.
fn find_at<T: SlotSectors, F: Flash, L: Ledger>(
    flash: &F,
    on: &OpenArea<'_, T>,
    ignored: Option<u32>,
    place: u32,
    id: u32,
    steps: &mut Steps<L>,
) -> Option<Placed>
    requires on { IsKeptAt T.role T.format_of T.kept (F.device flash.now) on.now }
    requires ignores { let d = F.device flash.now in let area = on.now.area.now in
        Ignores (format_on T.format_of d area) (sectors_of d area) on.now.current ignored }
    requires inside { place < on.now.area.now.sectors }
    ensures last { let d = F.device flash.now in let area = on.now.area.now in
        let k = format_on T.format_of d area in
        result
        ≡ last_of (slots k) id (counted_in (slots k) (sectors_of d area) on.now.current place) }
    ensures step { steps.new ≤ steps.old + 1 }
{
    if ignored == Some(place) {
        return None;
    }
    let known = known_slots::<T>(on.tops, place);
    T::find_in(flash, on.area, place, known, id, steps)
}

/// The last entry of the id in the sectors from `first` to the one before `end`, but the one that
/// does not count. This takes at most one step for each of them.
pub fn find_among<T: SlotSectors, F: Flash, L: Ledger>(
    flash: &F,
    on: &OpenArea<'_, T>,
    ignored: Option<u32>,
    first: u32,
    end: u32,
    id: u32,
    steps: &mut Steps<L>,
) -> Option<Placed>
    requires on { IsKeptAt T.role T.format_of T.kept (F.device flash.now) on.now }
    requires ignores { let d = F.device flash.now in let area = on.now.area.now in
        Ignores (format_on T.format_of d area) (sectors_of d area) on.now.current ignored }
    requires order { first ≤ end }
    requires inside { end ≤ on.now.area.now.sectors }
    ensures last { let d = F.device flash.now in let area = on.now.area.now in
        let k = format_on T.format_of d area in
        result
        ≡ last_of (slots k) id
        (flat_map (counted_in (slots k) (sectors_of d area) on.now.current)
        (range_with_len first (end - first))) }
    ensures steps { steps.new ≤ steps.old + (end - first) }
{
    let mut place = end;
    while place > first {
        let found = find_at(flash, on, ignored, place - 1, id, steps);
        if found.is_some() {
            return found;
        }
        place -= 1;
    }
    None
}

/// The last entry of the id in the list, with this sector open. It may be a delete. It asks once
/// which sector does not count, and views each other one at most once.
pub fn find<T: SlotSectors, F: Flash, L: Ledger>(
    flash: &F,
    on: &OpenArea<'_, T>,
    id: u32,
    steps: &mut Steps<L>,
) -> Option<Placed>
    requires on { IsOpenAt T.role T.format_of T.kept (F.device flash.now) on.now }
    ensures last { let d = F.device flash.now in let area = on.now.area.now in
        result ≡ last_placed (slots (format_on T.format_of d area)) (sectors_of d area) id }
    ensures steps { steps.new ≤ steps.old + on.now.area.now.sectors + 1 }
{
    let ignored = ignored_sector(flash, on, steps);
    let newest = find_among(flash, on, ignored, 0, on.current + 1, id, steps);
    if newest.is_some() {
        return newest;
    }
    find_among(
        flash,
        on,
        ignored,
        on.current + 1,
        on.area.sectors,
        id,
        steps,
    )
}
