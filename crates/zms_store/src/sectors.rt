// What is kept of the open sector, and the calls on sectors.
ghost use Rattle.std.specs.Prelude.{◌≡◌, IsSome, length, Some, ◌-◌, ◌^◌, min};
ghost use Rattle.flash_map.specs.declared.area.Role.TheVariants.{Zms as zms_role};
ghost use Rattle.zms_cycle.specs.Sector.{cycle_of, data_end, has_gc_done, valid_slots};
ghost use Rattle.zms_format.specs.Formats.{format_of};
ghost use Rattle.zms_format.proofs.FormatLemmas.{zms_is_format};

use crate::entries::{named_id, note_entries, placed, value_in};
use flash_map::{Area, Damaged, Geometry, geometry, sector_view};
use flash_sim::{Flash, Kind, PowerLost, Steps};
use item_store::{IdPair, IdRange, ListStart, LookBack, MayHave, Notes, Placed, SlotSectors};
use std::sync::ledger::Ledger;
use zms_cycle::{
    FIRST, Opened, SLOT, SectorState, capacity, close_at, copy_entry_at, cost, empty_sector,
    find_bytes, has_close, listed_entry, listed_slots, may_have, put_done_at, put_entry_at,
    reach_in, reach_within, state,
};
use zms_format::{find_in, is_clean, scan};

/// What a ZMS store keeps of its open sector: enough to know its free space and where the next
/// entry goes, without reading its list.
#[derive(Clone, Copy)]
pub struct ZmsOpen {
    gc_done: bool,
    // none if it is blank
    cycle: Option<u8>,
    // how many slots its list has
    slots: u32,
    // where the next value goes, in bytes; the last number of 32 bits stands for all above it
    data_end: u32,
}

impl ZmsOpen {
    // What a step has to know of a sector that is not blank.
    fn opened(&self) -> Opened
        requires { IsSome self.now.cycle }
        ensures cycle { self.now.cycle ≡ Some result.cycle }
        ensures slots { result.slots ≡ self.now.slots }
        ensures data_end { result.data_end ≡ self.now.data_end }
    {
        match self.cycle {
            Some(cycle) => Opened {
                cycle,
                slots: self.slots,
                data_end: self.data_end,
            },
            None => unreachable!(),
        }
    }
}

impl SlotSectors for ZmsOpen {
    ghost role = { zms_role };

    ghost format_of = { format_of };

    ghost kept = { λ geometry b. record { gc_done = has_gc_done b; cycle = cycle_of b; slots = length (valid_slots b); data_end = min (data_end geometry.kind b) (2 ^ 32 - 1) } };

    fn first_slot() -> u32 {
        2
    }

    fn has_short_ids() -> bool {
        false
    }

    fn cost(_geometry: &Geometry, len: u32) -> u64 {
        u64::from(cost(len as u16))
    }

    fn capacity(geometry: &Geometry) -> u32 {
        capacity(geometry.sector)
    }

    fn slot_size(_geometry: &Geometry) -> u32 {
        SLOT
    }

    fn opens_ready(geometry: &Geometry) -> bool {
        match geometry.kind {
            Kind::Rewritable => false,
            Kind::Erasing => true,
        }
    }

    fn is_clean<F: Flash, L: Ledger>(
        flash: &F,
        area: &Area,
        place: u32,
        steps: &mut Steps<L>,
    ) -> bool {
        let kind = geometry(flash, area).kind;
        is_clean(sector_view(flash, area, place, steps), kind)
    }

    fn is_closed<F: Flash, L: Ledger>(
        flash: &F,
        area: &Area,
        place: u32,
        steps: &mut Steps<L>,
    ) -> bool {
        has_close(sector_view(flash, area, place, steps))
    }

    fn keep<F: Flash, L: Ledger>(
        flash: &F,
        area: &Area,
        place: u32,
        steps: &mut Steps<L>,
    ) -> ZmsOpen {
        match state(flash, area, place, steps) {
            SectorState::Blank => ZmsOpen {
                gc_done: false,
                cycle: None,
                slots: 0,
                data_end: 0,
            },
            SectorState::Used {
                cycle,
                slots,
                data_end,
                gc_done,
                ..
            } => ZmsOpen {
                gc_done,
                cycle: Some(cycle),
                slots,
                data_end,
            },
        }
    }

    fn has_gc_done(&self) -> bool {
        self.gc_done
    }

    fn free<F: Flash, L: Ledger>(
        &self,
        flash: &F,
        area: &Area,
        _place: u32,
        _steps: &mut Steps<L>,
    ) -> u32 {
        let used = (FIRST + self.slots) * SLOT;
        let size = geometry(flash, area).sector;
        size.saturating_sub(used).saturating_sub(self.data_end)
    }

    fn own_slots<F: Flash, L: Ledger>(
        &self,
        _flash: &F,
        _area: &Area,
        _place: u32,
        _steps: &mut Steps<L>,
    ) -> u32 {
        self.slots
    }

    fn slots<F: Flash, L: Ledger>(flash: &F, area: &Area, place: u32, steps: &mut Steps<L>) -> u32 {
        listed_slots(sector_view(flash, area, place, steps))
    }

    fn entry_in<F: Flash, L: Ledger>(
        flash: &F,
        area: &Area,
        place: u32,
        slot: u32,
        steps: &mut Steps<L>,
    ) -> Option<Placed> {
        match listed_entry(sector_view(flash, area, place, steps), slot) {
            Some(found) => Some(placed(found, place)),
            None => None,
        }
    }

    fn id_in<F: Flash, L: Ledger>(
        flash: &F,
        area: &Area,
        place: u32,
        slot: u32,
        steps: &mut Steps<L>,
    ) -> u32 {
        named_id(sector_view(flash, area, place, steps), slot)
    }

    fn value<'a, F: Flash, L: Ledger>(
        flash: &'a F,
        area: &Area,
        placed: &Placed,
        steps: &mut Steps<L>,
    ) -> &'a [u8] {
        let bytes = sector_view(flash, area, placed.sector, steps);
        match listed_entry(bytes, placed.slot) {
            Some(found) => value_in(bytes, &found),
            None => unreachable!(),
        }
    }

    fn find_in<F: Flash, L: Ledger>(
        flash: &F,
        area: &Area,
        place: u32,
        known: u32,
        id: u32,
        steps: &mut Steps<L>,
    ) -> Option<Placed> {
        match find_in(sector_view(flash, area, place, steps), place, known, id) {
            Some(found) => Some(Placed {
                sector: found.sector,
                slot: found.slot,
                id: found.entry.id,
                len: u32::from(found.entry.len),
            }),
            None => None,
        }
    }

    fn reach<F: Flash, L: Ledger>(
        flash: &F,
        area: &Area,
        place: u32,
        known: u32,
        ids: &IdRange,
        steps: &mut Steps<L>,
    ) -> u32 {
        reach_in(
            sector_view(flash, area, place, steps),
            known,
            ids.least,
            ids.most,
        )
    }

    fn reach_of<F: Flash, L: Ledger>(
        flash: &F,
        area: &Area,
        place: u32,
        slots: u32,
        least: u32,
        most: u32,
        steps: &mut Steps<L>,
    ) -> u32 {
        reach_within(sector_view(flash, area, place, steps), slots, least, most)
    }

    fn look_back<F: Flash, L: Ledger>(
        flash: &F,
        area: &Area,
        place: u32,
        before: u32,
        ids: &IdRange,
        steps: &mut Steps<L>,
    ) -> LookBack {
        let bytes = sector_view(flash, area, place, steps);
        let reach = reach_within(bytes, before, ids.least, ids.most);
        match listed_entry(bytes, before + FIRST) {
            Some(found) => LookBack {
                entry: Some(placed(found, place)),
                reach,
            },
            None => LookBack { entry: None, reach },
        }
    }

    fn find_bytes<F: Flash, L: Ledger>(
        flash: &F,
        area: &Area,
        place: u32,
        start: &ListStart,
        ids: &IdRange,
        bytes: &[u8],
        steps: &mut Steps<L>,
    ) -> Option<Placed> {
        let sector = sector_view(flash, area, place, steps);
        match find_bytes(
            sector,
            start.skipped,
            start.known,
            ids.least,
            ids.most,
            bytes,
        ) {
            Some(found) => Some(placed(found, place)),
            None => None,
        }
    }

    fn may_have<F: Flash, L: Ledger>(
        flash: &F,
        area: &Area,
        place: u32,
        skipped: u32,
        ids: &IdPair,
        steps: &mut Steps<L>,
    ) -> MayHave {
        let bytes = sector_view(flash, area, place, steps);
        let (lower, upper) = may_have(bytes, skipped, ids.lower, ids.upper);
        MayHave { lower, upper }
    }

    fn note_sector<N: Notes, F: Flash, L: Ledger>(
        flash: &F,
        area: &Area,
        place: u32,
        known: u32,
        notes: &mut N,
        steps: &mut Steps<L>,
    ) {
        note_entries(sector_view(flash, area, place, steps), place, known, notes);
    }

    fn begin<F: Flash, L: Ledger>(
        &mut self,
        flash: &mut F,
        area: &Area,
        place: u32,
        steps: &mut Steps<L>,
    ) -> Result<(), PowerLost> {
        if self.cycle.is_some() {
            return Ok(());
        }
        empty_sector(flash, area, place, steps)?;
        *self = ZmsOpen {
            gc_done: false,
            // the first one
            cycle: Some(1),
            slots: 0,
            data_end: 0,
        };
        Ok(())
    }

    fn put<F: Flash, L: Ledger>(
        &mut self,
        flash: &mut F,
        area: &Area,
        place: u32,
        id: u32,
        bytes: &[u8],
        steps: &mut Steps<L>,
    ) -> Result<(), PowerLost> {
        let opened = self.opened();
        put_entry_at(flash, area, place, &opened, id, bytes, steps)?;
        self.slots += 1;
        self.data_end += cost(bytes.len() as u16) - SLOT;
        Ok(())
    }

    fn copy<F: Flash, L: Ledger>(
        &mut self,
        flash: &mut F,
        area: &Area,
        place: u32,
        from: &Placed,
        steps: &mut Steps<L>,
    ) -> Result<(), PowerLost> {
        let opened = self.opened();
        copy_entry_at(flash, area, place, &opened, from.sector, from.slot, steps)?;
        self.slots += 1;
        self.data_end += cost(from.len as u16) - SLOT;
        Ok(())
    }

    fn mark_done<F: Flash, L: Ledger>(
        &mut self,
        flash: &mut F,
        area: &Area,
        place: u32,
        steps: &mut Steps<L>,
    ) -> Result<(), PowerLost> {
        let opened = self.opened();
        put_done_at(flash, area, place, &opened, steps)?;
        self.gc_done = true;
        self.slots += 1;
        Ok(())
    }

    fn close<F: Flash, L: Ledger>(
        &self,
        flash: &mut F,
        area: &Area,
        place: u32,
        steps: &mut Steps<L>,
    ) -> Result<(), PowerLost> {
        close_at(flash, area, place, &self.opened(), steps)
    }

    fn clear<F: Flash, L: Ledger>(
        flash: &mut F,
        area: &Area,
        place: u32,
        steps: &mut Steps<L>,
    ) -> Result<(), PowerLost> {
        empty_sector(flash, area, place, steps)
    }

    fn scan<F: Flash, L: Ledger>(
        flash: &F,
        area: &Area,
        steps: &mut Steps<L>,
    ) -> Result<u32, Damaged> {
        scan(flash, area, steps)
    }

    ghost lawful = { λ geometry is. zms_is_format geometry };
}
