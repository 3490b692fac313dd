// From the newest entry of the list of an area back to the oldest.
ghost use Rattle.std.specs.Prelude.{◌≡◌, ◌+◌, ◌-◌, ◌<◌, ◌≤◌, length, map, None, IfSome};
ghost use Rattle.std.specs.List.{flat_map, last_or, range_with_len};
ghost use Rattle.flash_map.specs.Area.{sectors_of};
ghost use Rattle.item_laws.specs.Live.{counted_in};
ghost use Rattle.item_laws.specs.RoundParts.{places_before};
ghost use Rattle.item_laws.specs.Walk.{entries_within, counted_within, placed_up_to};
ghost use Rattle.item_store.specs.OnSector.{sector_on, IsKeptAt, IsOpenAt};
ghost use Rattle.item_store.specs.SectorFormat.{placed_at, slots};
ghost use Rattle.item_store.specs.Listed.{format_on, entries_on, IsListedOn, IsPlacedOn};
ghost use Rattle.item_store.specs.Older.{IsNextOlder, newest_before as newest_before_place};
ghost use Rattle.item_store.specs.Standing.{IsStoreArea};

use crate::entry::Placed;
use crate::lookup::counts;
use crate::open_area::OpenArea;
use crate::sectors::SlotSectors;
use flash_map::Area;
use flash_sim::{Flash, Steps};
use std::sync::ledger::Ledger;

// The newest entry in the first so many slots of a sector's list.
fn newest_in<T: SlotSectors, F: Flash, L: Ledger>(
    flash: &F,
    area: &Area,
    place: u32,
    limit: u32,
    steps: &mut Steps<L>,
) -> Option<Placed>
    requires area { IsStoreArea T.role (F.device flash.now).banks area.now }
    requires inside { place < area.now.sectors }
    ensures last { let d = F.device flash.now in
        result
        ≡ last_or None
        (map (placed_at place)
        (entries_within (slots (format_on T.format_of d area.now)) (sector_on d area.now place)
        limit)) }
    ensures listed { IfSome result (IsListedOn T.format_of (F.device flash.now) area.now) }
    ensures sector { IfSome result (λ p. p.sector ≡ place) }
{
    let mut count = T::slots(flash, area, place, steps).min(limit);
    let first = T::first_slot();
    while count > 0 {
        let slot = first + (count - 1);
        if let Some(placed) = T::entry_in(flash, area, place, slot, steps) {
            return Some(placed);
        }
        count -= 1;
    }
    None
}

// The newest entry in the first so many slots of a sector's list, if that counts with `current`
// open.
fn newest_at<T: SlotSectors, F: Flash, L: Ledger>(
    flash: &F,
    on: &OpenArea<'_, T>,
    place: u32,
    limit: u32,
    steps: &mut Steps<L>,
) -> Option<Placed>
    requires on { IsKeptAt T.role T.format_of T.kept (F.device flash.now) on.now }
    requires inside { place < on.now.area.now.sectors }
    ensures last { let d = F.device flash.now in let area = on.now.area.now in
        result
        ≡ last_or None
        (counted_within (slots (format_on T.format_of d area)) (sectors_of d area)
        on.now.current place
        limit) }
    ensures placed { IfSome result
        (IsPlacedOn T.format_of (F.device flash.now) on.now.area.now on.now.current) }
{
    if counts(flash, on, place, steps) {
        newest_in::<T, F, L>(flash, on.area, place, limit, steps)
    } else {
        None
    }
}

// The newest entry of a sector, if that counts.
fn newest_of<T: SlotSectors, F: Flash, L: Ledger>(
    flash: &F,
    on: &OpenArea<'_, T>,
    place: u32,
    steps: &mut Steps<L>,
) -> Option<Placed>
    requires on { IsKeptAt T.role T.format_of T.kept (F.device flash.now) on.now }
    requires inside { place < on.now.area.now.sectors }
    ensures last { let d = F.device flash.now in let area = on.now.area.now in
        result
        ≡ last_or None
        (counted_in (slots (format_on T.format_of d area)) (sectors_of d area) on.now.current
        place) }
    ensures placed { IfSome result
        (IsPlacedOn T.format_of (F.device flash.now) on.now.area.now on.now.current) }
{
    let all = T::slots(flash, on.area, place, steps);
    newest_at(flash, on, place, all, steps)
}

// The newest entry in the sectors from `first` to the one before `end`, of those that count.
fn newest_among<T: SlotSectors, F: Flash, L: Ledger>(
    flash: &F,
    on: &OpenArea<'_, T>,
    first: u32,
    end: u32,
    steps: &mut Steps<L>,
) -> Option<Placed>
    requires on { IsKeptAt T.role T.format_of T.kept (F.device flash.now) on.now }
    requires order { first ≤ end }
    requires inside { end ≤ on.now.area.now.sectors }
    ensures last { let d = F.device flash.now in let area = on.now.area.now in
        result
        ≡ last_or None
        (flat_map (counted_in (slots (format_on T.format_of d area)) (sectors_of d area)
        on.now.current)
        (range_with_len first (end - first))) }
    ensures placed { IfSome result
        (IsPlacedOn T.format_of (F.device flash.now) on.now.area.now on.now.current) }
{
    let mut place = end;
    while place > first {
        let found = newest_of(flash, on, place - 1, steps);
        if found.is_some() {
            return found;
        }
        place -= 1;
    }
    None
}

// The newest entry in the sectors before this one, in the round to the open sector.
fn newest_before<T: SlotSectors, F: Flash, L: Ledger>(
    flash: &F,
    on: &OpenArea<'_, T>,
    place: u32,
    steps: &mut Steps<L>,
) -> Option<Placed>
    requires on { IsKeptAt T.role T.format_of T.kept (F.device flash.now) on.now }
    requires inside { place < on.now.area.now.sectors }
    ensures last { let d = F.device flash.now in let area = on.now.area.now in
        result
        ≡ last_or None
        (flat_map (counted_in (slots (format_on T.format_of d area)) (sectors_of d area)
        on.now.current)
        (places_before (length (sectors_of d area)) on.now.current place)) }
    ensures placed { IfSome result
        (IsPlacedOn T.format_of (F.device flash.now) on.now.area.now on.now.current) }
{
    if on.current < place {
        return newest_among(flash, on, on.current + 1, place, steps);
    }
    let newest = newest_among(flash, on, 0, place, steps);
    if newest.is_some() {
        return newest;
    }
    newest_among(flash, on, on.current + 1, on.area.sectors, steps)
}

// The newest entry up to so many slots of this sector's list, in the round to the open sector.
fn newest_up_to<T: SlotSectors, F: Flash, L: Ledger>(
    flash: &F,
    on: &OpenArea<'_, T>,
    place: u32,
    limit: u32,
    steps: &mut Steps<L>,
) -> Option<Placed>
    requires on { IsKeptAt T.role T.format_of T.kept (F.device flash.now) on.now }
    requires inside { place < on.now.area.now.sectors }
    ensures last { let d = F.device flash.now in let area = on.now.area.now in
        result
        ≡ last_or None
        (placed_up_to (slots (format_on T.format_of d area)) (sectors_of d area)
        on.now.current place
        limit) }
    ensures placed { IfSome result
        (IsPlacedOn T.format_of (F.device flash.now) on.now.area.now on.now.current) }
{
    let newest = newest_at(flash, on, place, limit, steps);
    if newest.is_some() {
        return newest;
    }
    newest_before(flash, on, place, steps)
}

/// The next older entry of the list, deletes included: the one before the entry in this sector and
/// slot, or the newest one if no place is given. If no entry stands at the place, it is the newest
/// one before it, on the way round to the open sector. `None` exactly if there is no older entry.
pub fn walk<T: SlotSectors, F: Flash, L: Ledger>(
    flash: &F,
    on: &OpenArea<'_, T>,
    after: Option<(u32, u32)>,
    steps: &mut Steps<L>,
) -> Option<Placed>
    requires on { IsOpenAt T.role T.format_of T.kept (F.device flash.now) on.now }
    requires inside { IfSome after (λ place. place.0 < on.now.area.now.sectors) }

    ensures older { IsNextOlder (entries_on T.format_of (F.device flash.now) on.now.area.now) after
        result }
    ensures before { let d = F.device flash.now in let area = on.now.area.now in
        IfSome after
        (λ place. result
        ≡ newest_before_place (format_on T.format_of d area) (sectors_of d area) place) }
    ensures placed { IfSome result
        (IsPlacedOn T.format_of (F.device flash.now) on.now.area.now on.now.current) }
{
    match after {
        Some((sector, slot)) => {
            let limit = slot.saturating_sub(T::first_slot());
            newest_up_to(flash, on, sector, limit, steps)
        }
        None => {
            let all = T::slots(flash, on.area, on.current, steps);
            newest_up_to(flash, on, on.current, all, steps)
        }
    }
}
