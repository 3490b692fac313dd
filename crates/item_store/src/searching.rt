// A search that goes from a sector back to the oldest one, in a store at rest: each sector counts.
ghost use Rattle.std.specs.Prelude.{◌≡◌, ◌+◌, ◌<◌, ◌≤◌, [], ◌∷◌, ◌++◌, length};
ghost use Rattle.std.specs.List.{flat_map};
ghost use Rattle.flash_map.specs.Area.{sectors_of};
ghost use Rattle.item_laws.specs.Live.{last_of, counted_in};
ghost use Rattle.item_laws.specs.RoundParts.{places_before};
ghost use Rattle.item_store.specs.OnSector.{IsKeptAt, NextIsNotClosedOn};
ghost use Rattle.item_store.specs.Listed.{format_on};
ghost use Rattle.item_store.specs.SectorFormat.{slots};

use crate::entry::Placed;
use crate::lookup::find_among;
use crate::open_area::OpenArea;
use crate::sectors::SlotSectors;
use flash_sim::{Flash, Steps};
use std::sync::ledger::Ledger;

/// The last entry of the id in this sector and those before it, in the round to the open one. It
/// may be a delete. This takes at most one step for each sector.
pub fn find_up_to<T: SlotSectors, F: Flash, L: Ledger>(
    flash: &F,
    on: &OpenArea<'_, T>,
    place: u32,
    id: u32,
    steps: &mut Steps<L>,
) -> Option<Placed>
    requires on { IsKeptAt T.role T.format_of T.kept (F.device flash.now) on.now }
    requires rested { let d = F.device flash.now in
        NextIsNotClosedOn T.format_of d on.now.area.now on.now.current }
    requires inside { place < on.now.area.now.sectors }
    ensures last { let d = F.device flash.now in let area = on.now.area.now in
        let k = format_on T.format_of d area in
        result
        ≡ last_of (slots k) id
        (flat_map (counted_in (slots k) (sectors_of d area) on.now.current)
        (places_before (length (sectors_of d area)) on.now.current place ++ place ∷ [])) }
    ensures steps { steps.new ≤ steps.old + on.now.area.now.sectors }
{
    if on.current < place {
        return find_among(flash, on, None, on.current + 1, place + 1, id, steps);
    }
    let newest = find_among(flash, on, None, 0, place + 1, id, steps);
    if newest.is_some() {
        return newest;
    }
    find_among(flash, on, None, on.current + 1, on.area.sectors, id, steps)
}

/// The same in the sectors before this one, in as many steps.
pub fn find_before<T: SlotSectors, F: Flash, L: Ledger>(
    flash: &F,
    on: &OpenArea<'_, T>,
    place: u32,
    id: u32,
    steps: &mut Steps<L>,
) -> Option<Placed>
    requires on { IsKeptAt T.role T.format_of T.kept (F.device flash.now) on.now }
    requires rested { let d = F.device flash.now in
        NextIsNotClosedOn T.format_of d on.now.area.now on.now.current }
    requires inside { place < on.now.area.now.sectors }
    ensures last { let d = F.device flash.now in let area = on.now.area.now in
        let k = format_on T.format_of d area in
        result
        ≡ last_of (slots k) id
        (flat_map (counted_in (slots k) (sectors_of d area) on.now.current)
        (places_before (length (sectors_of d area)) on.now.current place)) }
    ensures steps { steps.new ≤ steps.old + on.now.area.now.sectors }
{
    if on.current < place {
        return find_among(flash, on, None, on.current + 1, place, id, steps);
    }
    let newest = find_among(flash, on, None, 0, place, id, steps);
    if newest.is_some() {
        return newest;
    }
    find_among(flash, on, None, on.current + 1, on.area.sectors, id, steps)
}
