// What is kept of the open sector, and the calls on sectors.
ghost use Rattle.std.specs.Prelude.{◌≡◌, ◌+◌, ◌^◌, ◌<◌, ◌≤◌, Some};
ghost use Rattle.std.specs.Option.{option_map};
ghost use Rattle.flash_map.specs.declared.area.Role.TheVariants.{Nvs as nvs_role};
ghost use Rattle.flash_map.specs.Area.{geometry_of, unit_of, sector_size, sectors_of, sector_bytes};
ghost use Rattle.nvs_store.specs.Sector.{low, data_end, has_gc_done};
ghost use Rattle.nvs_store.specs.Scans.{IsInArea};
ghost use Rattle.nvs_format.specs.Formats.{ReadsAs, format_of};
ghost use Rattle.nvs_format.proofs.FormatLemmas.{nvs_is_format};
ghost use Rattle.item_store.specs.SectorFormat.{placed_at};
ghost use Rattle.item_store.specs.Standing.{IsStoreArea};

use crate::entries::{bytes_in, last_of, named_id, note_entries, placed, reach_in};
use flash_map::{Area, Damaged, Geometry, area_erase, geometry, sector_view};
use flash_sim::{Flash, PowerLost, Steps};
use item_store::{IdPair, IdRange, ListStart, LookBack, MayHave, Notes, Placed, SlotSectors};
use nvs_store::{
    Found, Redo, Scan, append, are_named, capacity, copy_entry, cost, counting_entry, find_holder,
    is_blank, is_closed, mount_scan, put_close, put_done, scan_sector, slot_size, used_count,
};
use std::sync::ledger::Ledger;

/// What an NVS store keeps of its open sector.
#[derive(Clone, Copy)]
pub struct NvsOpen {
    low: u32,
    data_end: u32,
    gc_done: bool,
}

// The entry at this place, as NVS reads it.
pub(crate) fn read_again<F: Flash, L: Ledger>(
    flash: &F,
    area: &Area,
    at: &Placed,
    steps: &mut Steps<L>,
) -> Found
    requires area { IsStoreArea nvs_role (F.device flash.now).banks area.now }
    requires inside { at.now.sector < area.now.sectors }
    requires listed { let d = F.device flash.now in
        (1 ≤ at.now.slot)
        × (at.now.slot
        < 1 + (format_of (geometry_of d area.now)).count (sector_bytes d area.now at.now.sector)) }
    requires there { let d = F.device flash.now in
        option_map (placed_at at.now.sector)
        ((format_of (geometry_of d area.now)).in_slot (sector_bytes d area.now at.now.sector)
        at.now.slot) ≡ Some at.now }
    ensures own { let d = F.device flash.now in
        ReadsAs (unit_of d area.now) (sectors_of d area.now) at.now result }
    ensures in_area { IsInArea area.now.sectors (sector_size (F.device flash.now) area.now) result }
    ensures small { result.entry.id < 2 ^ 16 }
{
    let unit = geometry(flash, area).unit;
    match counting_entry(sector_view(flash, area, at.sector, steps), unit, at.slot) {
        Some(found) => found.at(at.sector),
        None => unreachable!(),
    }
}

impl SlotSectors for NvsOpen {
    ghost role = { nvs_role };

    ghost format_of = { format_of };

    ghost kept = { λ geometry b. record { low = low geometry.unit b; data_end = data_end geometry.unit b; gc_done = has_gc_done geometry.unit b } };

    fn first_slot() -> u32 {
        1
    }

    fn has_short_ids() -> bool {
        true
    }

    fn cost(geometry: &Geometry, len: u32) -> u64 {
        cost(geometry.unit, len)
    }

    fn capacity(geometry: &Geometry) -> u32 {
        capacity(geometry.unit, geometry.sector)
    }

    fn slot_size(geometry: &Geometry) -> u32 {
        slot_size(geometry.unit)
    }

    fn opens_ready(_geometry: &Geometry) -> bool {
        false
    }

    fn is_clean<F: Flash, L: Ledger>(
        flash: &F,
        area: &Area,
        place: u32,
        steps: &mut Steps<L>,
    ) -> bool {
        is_blank(flash, area, place, steps)
    }

    fn is_closed<F: Flash, L: Ledger>(
        flash: &F,
        area: &Area,
        place: u32,
        steps: &mut Steps<L>,
    ) -> bool {
        is_closed(flash, area, place, steps)
    }

    fn keep<F: Flash, L: Ledger>(
        flash: &F,
        area: &Area,
        place: u32,
        steps: &mut Steps<L>,
    ) -> NvsOpen {
        let unit = geometry(flash, area).unit;
        let scan = scan_sector(sector_view(flash, area, place, steps), unit, place);
        NvsOpen {
            low: scan.low,
            data_end: scan.data_end,
            gc_done: scan.gc_done,
        }
    }

    fn has_gc_done(&self) -> bool {
        self.gc_done
    }

    fn free<F: Flash, L: Ledger>(
        &self,
        _flash: &F,
        _area: &Area,
        _place: u32,
        _steps: &mut Steps<L>,
    ) -> u32 {
        self.low.saturating_sub(self.data_end)
    }

    fn own_slots<F: Flash, L: Ledger>(
        &self,
        flash: &F,
        area: &Area,
        _place: u32,
        _steps: &mut Steps<L>,
    ) -> u32 {
        let own = geometry(flash, area);
        (own.sector - self.low) / slot_size(own.unit) - 1
    }

    fn slots<F: Flash, L: Ledger>(flash: &F, area: &Area, place: u32, steps: &mut Steps<L>) -> u32 {
        let unit = geometry(flash, area).unit;
        used_count(sector_view(flash, area, place, steps), unit)
    }

    fn entry_in<F: Flash, L: Ledger>(
        flash: &F,
        area: &Area,
        place: u32,
        slot: u32,
        steps: &mut Steps<L>,
    ) -> Option<Placed> {
        let unit = geometry(flash, area).unit;
        match counting_entry(sector_view(flash, area, place, steps), unit, slot) {
            Some(found) => Some(placed(found.at(place))),
            None => None,
        }
    }

    fn id_in<F: Flash, L: Ledger>(
        flash: &F,
        area: &Area,
        place: u32,
        slot: u32,
        steps: &mut Steps<L>,
    ) -> u32 {
        let unit = geometry(flash, area).unit;
        named_id(sector_view(flash, area, place, steps), unit, slot)
    }

    fn value<'a, F: Flash, L: Ledger>(
        flash: &'a F,
        area: &Area,
        placed: &Placed,
        steps: &mut Steps<L>,
    ) -> &'a [u8] {
        let unit = geometry(flash, area).unit;
        bytes_in(
            sector_view(flash, area, placed.sector, steps),
            unit,
            placed.slot,
        )
    }

    fn find_in<F: Flash, L: Ledger>(
        flash: &F,
        area: &Area,
        place: u32,
        _known: u32,
        id: u32,
        steps: &mut Steps<L>,
    ) -> Option<Placed> {
        let unit = geometry(flash, area).unit;
        last_of(sector_view(flash, area, place, steps), unit, place, id)
    }

    fn reach<F: Flash, L: Ledger>(
        flash: &F,
        area: &Area,
        place: u32,
        _known: u32,
        ids: &IdRange,
        steps: &mut Steps<L>,
    ) -> u32 {
        let unit = geometry(flash, area).unit;
        let bytes = sector_view(flash, area, place, steps);
        reach_in(bytes, unit, used_count(bytes, unit), ids.least, ids.most)
    }

    fn reach_of<F: Flash, L: Ledger>(
        flash: &F,
        area: &Area,
        place: u32,
        slots: u32,
        least: u32,
        most: u32,
        steps: &mut Steps<L>,
    ) -> u32 {
        let unit = geometry(flash, area).unit;
        reach_in(
            sector_view(flash, area, place, steps),
            unit,
            slots,
            least,
            most,
        )
    }

    fn look_back<F: Flash, L: Ledger>(
        flash: &F,
        area: &Area,
        place: u32,
        before: u32,
        ids: &IdRange,
        steps: &mut Steps<L>,
    ) -> LookBack {
        let unit = geometry(flash, area).unit;
        let bytes = sector_view(flash, area, place, steps);
        let reach = reach_in(bytes, unit, before, ids.least, ids.most);
        match counting_entry(bytes, unit, before + 1) {
            Some(found) => LookBack {
                entry: Some(placed(found.at(place))),
                reach,
            },
            None => LookBack { entry: None, reach },
        }
    }

    fn find_bytes<F: Flash, L: Ledger>(
        flash: &F,
        area: &Area,
        place: u32,
        start: &ListStart,
        ids: &IdRange,
        bytes: &[u8],
        steps: &mut Steps<L>,
    ) -> Option<Placed> {
        let unit = geometry(flash, area).unit;
        let sector = sector_view(flash, area, place, steps);
        match find_holder(sector, unit, start.skipped, ids.least, ids.most, bytes) {
            Some(found) => Some(placed(found.at(place))),
            None => None,
        }
    }

    fn may_have<F: Flash, L: Ledger>(
        flash: &F,
        area: &Area,
        place: u32,
        skipped: u32,
        ids: &IdPair,
        steps: &mut Steps<L>,
    ) -> MayHave {
        let unit = geometry(flash, area).unit;
        let bytes = sector_view(flash, area, place, steps);
        let (lower, upper) = are_named(bytes, unit, skipped, ids.lower, ids.upper);
        MayHave { lower, upper }
    }

    fn note_sector<N: Notes, F: Flash, L: Ledger>(
        flash: &F,
        area: &Area,
        place: u32,
        _known: u32,
        notes: &mut N,
        steps: &mut Steps<L>,
    ) {
        let unit = geometry(flash, area).unit;
        note_entries(sector_view(flash, area, place, steps), unit, place, notes);
    }

    fn begin<F: Flash, L: Ledger>(
        &mut self,
        _flash: &mut F,
        _area: &Area,
        _place: u32,
        _steps: &mut Steps<L>,
    ) -> Result<(), PowerLost> {
        Ok(())
    }

    fn put<F: Flash, L: Ledger>(
        &mut self,
        flash: &mut F,
        area: &Area,
        place: u32,
        id: u32,
        bytes: &[u8],
        _steps: &mut Steps<L>,
    ) -> Result<(), PowerLost> {
        let mut scan = Scan {
            current: place,
            low: self.low,
            data_end: self.data_end,
            gc_done: self.gc_done,
            redo: Redo::Nothing,
        };
        append(flash, area, &mut scan, id as u16, bytes)?;
        self.low = scan.low;
        self.data_end = scan.data_end;
        Ok(())
    }

    fn copy<F: Flash, L: Ledger>(
        &mut self,
        flash: &mut F,
        area: &Area,
        place: u32,
        from: &Placed,
        steps: &mut Steps<L>,
    ) -> Result<(), PowerLost> {
        let own = read_again(flash, area, from, steps);
        let mut scan = Scan {
            current: place,
            low: self.low,
            data_end: self.data_end,
            gc_done: self.gc_done,
            redo: Redo::CollectAgain,
        };
        copy_entry(flash, area, &mut scan, &own, steps)?;
        self.low = scan.low;
        self.data_end = scan.data_end;
        Ok(())
    }

    fn mark_done<F: Flash, L: Ledger>(
        &mut self,
        flash: &mut F,
        area: &Area,
        place: u32,
        _steps: &mut Steps<L>,
    ) -> Result<(), PowerLost> {
        let mut scan = Scan {
            current: place,
            low: self.low,
            data_end: self.data_end,
            gc_done: self.gc_done,
            redo: Redo::CollectAgain,
        };
        put_done(flash, area, &mut scan)?;
        self.low = scan.low;
        self.gc_done = true;
        Ok(())
    }

    fn close<F: Flash, L: Ledger>(
        &self,
        flash: &mut F,
        area: &Area,
        place: u32,
        _steps: &mut Steps<L>,
    ) -> Result<(), PowerLost> {
        let scan = Scan {
            current: place,
            low: self.low,
            data_end: self.data_end,
            gc_done: self.gc_done,
            redo: Redo::Nothing,
        };
        put_close(flash, area, &scan)
    }

    fn clear<F: Flash, L: Ledger>(
        flash: &mut F,
        area: &Area,
        place: u32,
        _steps: &mut Steps<L>,
    ) -> Result<(), PowerLost> {
        area_erase(flash, area, place)
    }

    fn scan<F: Flash, L: Ledger>(
        flash: &F,
        area: &Area,
        steps: &mut Steps<L>,
    ) -> Result<u32, Damaged> {
        match mount_scan(flash, area, steps) {
            Ok(scan) => Ok(scan.current),
            Err(damaged) => Err(damaged),
        }
    }

    ghost lawful = { λ geometry unit. nvs_is_format geometry.unit unit };
}
