// Looking for an item by its bytes: ids and bytes are compared before CRCs.
ghost use Rattle.std.specs.Prelude.{◌≡◌, ◌+◌, ◌<◌, ◌≤◌, ◌^◌, ◌||◌, true, false, Some, None, length, option_map};
ghost use Rattle.std.specs.FinMap as map;
ghost use Rattle.flash_map.specs.Area.{sectors_of};
ghost use Rattle.item_laws.specs.Items.{value_of};
ghost use Rattle.item_laws.specs.Live.{bytes_of, last_placed};
ghost use Rattle.item_laws.specs.RoundParts.{places_after};
ghost use Rattle.item_store.specs.Asking.{FindsHolderIn, IsHolderAt, IsHolderOf};
ghost use Rattle.item_store.specs.Holding.{held_in, held_in_all, holder_views, search_views, NoneHoldsAt, NoneHoldsIn, NoneLater, RulesOutBehind, RulesOutLater, SearchesSector};
ghost use Rattle.item_store.specs.Listed.{format_on, items_on, IsPlacedOn};
ghost use Rattle.item_store.specs.OnSector.{sector_on, IsOpenAt};
ghost use Rattle.item_store.specs.SectorFormat.{slots};
ghost use Rattle.item_store.specs.Stands.{StandsOn};

use crate::entry::{IdPair, IdRange, ListStart, MayHave, Placed};
use crate::open_area::{OpenArea, known_slots};
use crate::sectors::SlotSectors;
use crate::store::Store;
use flash_sim::{Flash, Steps};
use std::sync::ledger::Ledger;

/// An item that has the bytes that were looked for, and the item a step above it.
#[derive(Clone, Copy)]
pub struct Holder<'a> {
    /// The id of the item.
    pub id: u32,
    /// The bytes of the item a step above it; `None` if that id has no item.
    pub above: Option<&'a [u8]>,
}

impl MayHave {
    // What neither of two answers rules out.
    fn or(self, other: MayHave) -> MayHave
        ensures lower { result.lower ≡ (self.lower || other.lower) }
        ensures upper { result.upper ≡ (self.upper || other.upper) }
    {
        MayHave {
            lower: self.lower || other.lower,
            upper: self.upper || other.upper,
        }
    }
}

// Which of two ids the entries in the sectors behind a place, in the round to the open one, may
// have. It views each of these sectors at most once.
fn may_have_behind<T: SlotSectors, F: Flash, L: Ledger>(
    flash: &F,
    on: &OpenArea<'_, T>,
    place: u32,
    ids: &IdPair,
    steps: &mut Steps<L>,
) -> MayHave
    requires on { IsOpenAt T.role T.format_of T.kept (F.device flash.now) on.now }
    requires inside { place < on.now.area.now.sectors }
    ensures rules { let d = F.device flash.now in let area = on.now.area.now in
        RulesOutBehind (format_on T.format_of d area) (sectors_of d area) on.now.current place
        ids.now result }
    ensures steps { let behind = places_after on.now.area.now.sectors on.now.current place in
        steps.new ≤ steps.old + length behind }
{
    let mut may = MayHave {
        lower: false,
        upper: false,
    };
    let mut at = place;
    while at != on.current {
        at = on.area.next(at);
        may = may.or(T::may_have(flash, on.area, at, 0, ids, steps));
    }
    may
}

impl<T: SlotSectors> Store<T> {
    // Which of two ids the entries behind this one may have. It views each sector from that of the
    // entry to the open one at most once.
    fn may_have_later<F: Flash, L: Ledger>(
        &self,
        flash: &F,
        holder: &Placed,
        ids: &IdPair,
        steps: &mut Steps<L>,
    ) -> MayHave
        requires stands { StandsOn T.role T.format_of T.kept (F.device flash.now) self.now }
        requires placed { IsPlacedOn T.format_of (F.device flash.now) self.now.area self.now.current
            holder.now }
        requires small { holder.now.slot < 2 ^ 16 }
        ensures rules { let d = F.device flash.now in
            RulesOutLater (format_on T.format_of d self.now.area) (sectors_of d self.now.area)
            self.now.current holder.now ids.now result }
        ensures steps { let count = self.now.area.sectors in
            let behind = places_after count self.now.current holder.now.sector in
            steps.new ≤ steps.old + 1 + length behind }
    {
        let tops = self.cache.tops();
        let on = OpenArea {
            area: &self.area,
            current: self.current,
            opened: self.opened,
            tops,
        };
        let up_to = holder.slot - T::first_slot() + 1;
        let here = T::may_have(flash, &self.area, holder.sector, up_to, ids, steps);
        if here.lower && here.upper {
            return here;
        }
        here.or(may_have_behind(flash, &on, holder.sector, ids, steps))
    }

    // Whether the item of an entry's id has the bytes that the entry gives it. The id is looked up
    // only if an entry behind this one may have it.
    fn gives_item<F: Flash, L: Ledger>(
        &self,
        flash: &F,
        holder: &Placed,
        may_be_later: bool,
        bytes: &[u8],
        steps: &mut Steps<L>,
    ) -> bool
        requires stands { StandsOn T.role T.format_of T.kept (F.device flash.now) self.now }
        requires placed { IsPlacedOn T.format_of (F.device flash.now) self.now.area self.now.current
            holder.now }
        requires holds { let d = F.device flash.now in
            value_of
            (bytes_of (slots (format_on T.format_of d self.now.area)) (sectors_of d self.now.area)
            holder.now) ≡ Some bytes.now }
        requires none { let d = F.device flash.now in
            may_be_later ≡ false
            → NoneLater (format_on T.format_of d self.now.area) (sectors_of d self.now.area)
            self.now.current holder.now holder.now.id }
        ensures yes_it { result ≡ true
            → map.get (items_on T.format_of (F.device flash.now) self.now.area) holder.now.id
            ≡ Some bytes.now }
        ensures not_it { result ≡ false
            → map.get (items_on T.format_of (F.device flash.now) self.now.area) holder.now.id
            ≡ Some bytes.now → ⊥ }
        ensures steps { steps.new ≤ steps.old + self.now.area.sectors + 4 }
    {
        if !may_be_later {
            return true;
        }
        match self.get(flash, holder.id, steps) {
            Some(item) => item == bytes,
            None => false,
        }
    }

    // The item of an entry that holds the bytes, and the item a step above it; `None` if the item
    // of the id does not have these bytes. It views each sector from that of the entry to the open
    // one at most once, and looks up its id. If the item has the bytes, it looks up the id above.
    fn holder_at<'a, F: Flash, L: Ledger>(
        &self,
        flash: &'a F,
        holder: &Placed,
        step: u32,
        bytes: &[u8],
        steps: &mut Steps<L>,
    ) -> Option<Holder<'a>>
        requires stands { StandsOn T.role T.format_of T.kept (F.device flash.now) self.now }
        requires placed { IsPlacedOn T.format_of (F.device flash.now) self.now.area self.now.current
            holder.now }
        requires holds { let d = F.device flash.now in
            value_of
            (bytes_of (slots (format_on T.format_of d self.now.area)) (sectors_of d self.now.area)
            holder.now) ≡ Some bytes.now }
        requires small { holder.now.slot < 2 ^ 16 }
        requires step { 0 < step }
        requires top { holder.now.id + step < 2 ^ 32 }
        ensures holder { IsHolderAt holder.now.id step
            (items_on T.format_of (F.device flash.now) self.now.area) bytes.now result }
        ensures none { result ≡ None → steps.new < steps.old + holder_views self.now.area.sectors }
        ensures steps { let count = self.now.area.sectors in
            steps.new < steps.old + holder_views count + (count + 4) }
    {
        let ids = IdPair {
            lower: holder.id,
            upper: holder.id,
        };
        let may = self.may_have_later(flash, holder, &ids, steps);
        if !self.gives_item(flash, holder, may.lower, bytes, steps) {
            return None;
        }
        let above = self.get(flash, holder.id + step, steps);
        Some(Holder {
            id: holder.id,
            above,
        })
    }

    // An id of the range whose item has these bytes, by the entries of one sector that hold them,
    // and the item a step above it. Of several in a row with one id, the first decides. It views
    // the sector at most once, and takes so many steps more for each entry that gives an id of the
    // range these bytes. Only the last one can cost the look-up of the item above.
    fn holder_in<'a, F: Flash, L: Ledger>(
        &self,
        flash: &'a F,
        place: u32,
        ids: &IdRange,
        step: u32,
        bytes: &[u8],
        steps: &mut Steps<L>,
    ) -> Option<Holder<'a>>
        requires stands { StandsOn T.role T.format_of T.kept (F.device flash.now) self.now }
        requires inside { place < self.now.area.sectors }
        requires some_bytes { 0 < length bytes.now }
        requires step { 0 < step }
        requires top { ids.now.most + step < 2 ^ 32 }
        ensures holder { let d = F.device flash.now in
            FindsHolderIn (format_on T.format_of d self.now.area) (sector_on d self.now.area place)
            (items_on T.format_of d self.now.area) ids.now step bytes.now result }
        ensures absent { let d = F.device flash.now in
            NoneHoldsIn (format_on T.format_of d self.now.area) (sector_on d self.now.area place)
            ids.now bytes.now → steps.new ≤ steps.old + 1 }
        ensures present { let d = F.device flash.now in let b = sector_on d self.now.area place in
            let held = held_in (format_on T.format_of d self.now.area) b ids.now bytes.now in
            SearchesSector self.now.area.sectors held steps.old steps.new result }
    {
        let first = T::first_slot();
        let tops = self.cache.tops();
        let known = known_slots::<T>(tops, place);
        let mut skipped = 0;
        let mut dead = None;
        while let Some(holder) = T::find_bytes(
            flash,
            &self.area,
            place,
            &ListStart { skipped, known },
            ids,
            bytes,
            steps,
        ) {
            if dead != Some(holder.id) {
                let found = self.holder_at(flash, &holder, step, bytes, steps);
                if found.is_some() {
                    return found;
                }
                dead = Some(holder.id);
            }
            skipped = holder.slot - first + 1;
        }
        None
    }

    // The place so many sectors before the open one, in the round to it.
    fn newest_but(&self, back: u32) -> u32
        requires current { self.now.current < self.now.area.sectors }
        requires back { back < self.now.area.sectors }
        ensures inside { result < self.now.area.sectors }
        ensures near { back ≤ self.now.current → result + back ≡ self.now.current }
        ensures far { self.now.current < back
            → result + back ≡ self.now.current + self.now.area.sectors }
    {
        if back <= self.current {
            self.current - back
        } else {
            self.area.sectors - (back - self.current)
        }
    }

    /// An id of the range whose item has these bytes, with the item `step` above it; any of them if
    /// several have, `None` if none has. It searches sector after sector, the newest first, and
    /// compares ids and bytes before CRCs. It then reads the ids behind an entry that holds the
    /// bytes. An id that these may have is looked up as `get` does, and so is the item above. Where
    /// no entry gives an id of the range these bytes, it takes at most one step for each sector.
    /// Each entry that does may cost the search for it, one look at each sector, and a look-up of
    /// its id. The item above costs one look-up in all.
    pub fn holder_of<'a, F: Flash, L: Ledger>(
        &self,
        flash: &'a F,
        ids: &IdRange,
        step: u32,
        bytes: &[u8],
        steps: &mut Steps<L>,
    ) -> Option<Holder<'a>>
        requires stands { StandsOn T.role T.format_of T.kept (F.device flash.now) self.now }
        requires step { 0 < step }
        requires top { ids.now.most + step < 2 ^ 32 }
        ensures holder { IsHolderOf ids.now step
            (items_on T.format_of (F.device flash.now) self.now.area) bytes.now result }
        ensures absent { let d = F.device flash.now in
            NoneHoldsAt (format_on T.format_of d self.now.area) (sectors_of d self.now.area)
            self.now.area.sectors ids.now bytes.now
            → steps.new ≤ steps.old + self.now.area.sectors }
        ensures present { let d = F.device flash.now in let sectors = sectors_of d self.now.area in
            let k = format_on T.format_of d self.now.area in
            let held = held_in_all k sectors ids.now bytes.now in
            steps.new ≤ steps.old + search_views self.now.area.sectors held }
    {
        if bytes.is_empty() {
            return None;
        }
        for back in 0..self.area.sectors {
            let place = self.newest_but(back);
            let found = self.holder_in(flash, place, ids, step, bytes, steps);
            if found.is_some() {
                return found;
            }
        }
        None
    }
}
