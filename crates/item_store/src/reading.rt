// Reading items.
ghost use Rattle.std.specs.Prelude.{◌≡◌, ◌+◌, ◌-◌, ◌<◌, ◌≤◌, false, Some, None, is_some, IfSome, option_map};
ghost use Rattle.std.specs.FinMap as map;
ghost use Rattle.flash_sim.specs.Bank.{IsLawful};
ghost use Rattle.flash_sim.specs.Device.{Device};
ghost use Rattle.flash_map.specs.Area.{sectors_of};
ghost use Rattle.item_laws.specs.Items.{value_of};
ghost use Rattle.item_laws.specs.Live.{bytes_of, last_placed};
ghost use Rattle.item_laws.specs.NextIds.{is_between, Follows, IsAtMost, IsLeastOf, IsNextId};
ghost use Rattle.item_store.specs.OnSector.{sector_on};
ghost use Rattle.item_store.specs.Cached.{latest_on};
ghost use Rattle.item_store.specs.Lasts.{AreOthers};
ghost use Rattle.item_store.specs.SectorFormat.{slots};
ghost use Rattle.item_store.specs.Listed.{format_on, items_on, entries_on, IsPlacedOn};
ghost use Rattle.item_store.specs.Older.{IsNextOlder, newest_before};
ghost use Rattle.item_store.specs.Stands.{StandsOn};

use crate::entry::Placed;
use crate::open_area::OpenArea;
use crate::searching::{find_before, find_up_to};
use crate::sectors::SlotSectors;
use crate::store::Store;
use crate::walking::walk;
use flash_sim::{Flash, Steps};
use std::sync::ledger::Ledger;

// Whether an id is greater than `after` and less than `least`, as far as these are given.
fn is_between(id: u32, after: Option<u32>, least: Option<u32>) -> bool
    ensures { result ≡ is_between id after least }
{
    after.is_none_or(|after| after < id) && least.is_none_or(|least| id < least)
}

impl<T: SlotSectors> Store<T> {
    /// The bytes of an item; `None` if the id has no entry or its last entry is a delete. If no
    /// entry shares the id's cache slot, this takes no step. If the latest entry that shares it has
    /// this id, it takes at most two. Otherwise it searches the list: it takes at most one step for
    /// each sector, and four besides.
    pub fn get<'a, F: Flash, L: Ledger>(
        &self,
        flash: &'a F,
        id: u32,
        steps: &mut Steps<L>,
    ) -> Option<&'a [u8]>
        requires { StandsOn T.role T.format_of T.kept (F.device flash.now) self.now }
        ensures value { option_map (λ bytes. bytes.now) result
            ≡ map.get (items_on T.format_of (F.device flash.now) self.now.area) id }
        ensures none { latest_on T.format_of (F.device flash.now) self.now.area id ≡ None
            → steps.new ≡ steps.old }
        ensures few { IfSome (latest_on T.format_of (F.device flash.now) self.now.area id)
            (λ p. p.id ≡ id → steps.new ≤ steps.old + 2) }
        ensures steps { steps.new ≤ steps.old + self.now.area.sectors + 4 }
    {
        let latest = self.latest(flash, id, steps)?;
        if latest.id == id {
            return self.bytes_at(flash, &latest, steps);
        }
        self.search(flash, &latest, id, steps)
    }

    /// Whether the id may have an item: `true` exactly if an entry of the list shares the id's
    /// cache slot. If `false`, the id has no item. It reads only the cache.
    pub fn may_hold(&self, id: u32) -> bool
        ensures exactly { (d : Device) → StandsOn T.role T.format_of T.kept d self.now
            → result ≡ is_some (latest_on T.format_of d self.now.area id) }
        ensures none { (d : Device) → IsLawful d.banks d.bytes
            → StandsOn T.role T.format_of T.kept d self.now → result ≡ false
            → map.get (items_on T.format_of d self.now.area) id ≡ None }
    {
        self.cache.start_of(id).is_some()
    }

    // The latest entry of the id's cache slot. It may be a delete.
    fn latest<F: Flash, L: Ledger>(
        &self,
        flash: &F,
        id: u32,
        steps: &mut Steps<L>,
    ) -> Option<Placed>
        requires { StandsOn T.role T.format_of T.kept (F.device flash.now) self.now }
        ensures entry { result ≡ latest_on T.format_of (F.device flash.now) self.now.area id }
        ensures none { result ≡ None → steps.new ≡ steps.old }
        ensures step { steps.new ≤ steps.old + 1 }
    {
        let (sector, slot) = self.cache.start_of(id)?;
        T::entry_in(flash, &self.area, sector, slot, steps)
    }

    // How many slots before the latest entry of an id's cache slot, in its sector, have to be read
    // for the id. It reads their ids, from the last back, and checks no CRC.
    fn reach_before<F: Flash, L: Ledger>(
        &self,
        flash: &F,
        latest: &Placed,
        id: u32,
        steps: &mut Steps<L>,
    ) -> u32
        requires stands { StandsOn T.role T.format_of T.kept (F.device flash.now) self.now }
        requires latest { Some latest.now
            ≡ latest_on T.format_of (F.device flash.now) self.now.area id }
        ensures few { result
            ≤ latest.now.slot - (format_on T.format_of (F.device flash.now) self.now.area).first }
        ensures others { let d = F.device flash.now in
            let k = format_on T.format_of d self.now.area in
            AreOthers k (sector_on d self.now.area latest.now.sector) result
            (latest.now.slot - k.first) id id }
        ensures step { steps.new ≤ steps.old + 1 }
    {
        let before = latest.slot - T::first_slot();
        T::reach_of(flash, &self.area, latest.sector, before, id, id, steps)
    }

    // The entry in the last of the slots that have to be read, if it has the id. It is the last
    // entry of the id, where the latest one of its cache slot is of another id.
    fn last_before<F: Flash, L: Ledger>(
        &self,
        flash: &F,
        latest: &Placed,
        reach: u32,
        id: u32,
        steps: &mut Steps<L>,
    ) -> Option<Placed>
        requires stands { StandsOn T.role T.format_of T.kept (F.device flash.now) self.now }
        requires latest { Some latest.now
            ≡ latest_on T.format_of (F.device flash.now) self.now.area id }
        requires other { latest.now.id ≡ id → ⊥ }
        requires some_left { 0 < reach }
        requires few { reach
            ≤ latest.now.slot - (format_on T.format_of (F.device flash.now) self.now.area).first }
        requires others { let d = F.device flash.now in
            let k = format_on T.format_of d self.now.area in
            AreOthers k (sector_on d self.now.area latest.now.sector) reach
            (latest.now.slot - k.first) id id }
        ensures last { let d = F.device flash.now in let area = self.now.area in
            IfSome result
            (λ p. Some p
            ≡ last_placed (slots (format_on T.format_of d area)) (sectors_of d area) id) }
        ensures step { steps.new ≤ steps.old + 1 }
    {
        let slot = T::first_slot() + (reach - 1);
        if let Some(placed) = T::entry_in(flash, &self.area, latest.sector, slot, steps) {
            if placed.id == id {
                return Some(placed);
            }
        }
        None
    }

    // The last entry of an id, where the latest one of its cache slot is of another id. No entry
    // behind that one has the id. It may be a delete.
    fn last_entry<F: Flash, L: Ledger>(
        &self,
        flash: &F,
        latest: &Placed,
        id: u32,
        steps: &mut Steps<L>,
    ) -> Option<Placed>
        requires stands { StandsOn T.role T.format_of T.kept (F.device flash.now) self.now }
        requires latest { Some latest.now
            ≡ latest_on T.format_of (F.device flash.now) self.now.area id }
        requires other { latest.now.id ≡ id → ⊥ }
        ensures last { let d = F.device flash.now in let area = self.now.area in
            result ≡ last_placed (slots (format_on T.format_of d area)) (sectors_of d area) id }
        ensures steps { steps.new ≤ steps.old + self.now.area.sectors + 2 }
    {
        let tops = self.cache.tops();
        let on = OpenArea {
            area: &self.area,
            current: self.current,
            opened: self.opened,
            tops,
        };
        let reach = self.reach_before(flash, latest, id, steps);
        if reach == 0 {
            return find_before(flash, &on, latest.sector, id, steps);
        }
        if let Some(placed) = self.last_before(flash, latest, reach, id, steps) {
            return Some(placed);
        }
        find_up_to(flash, &on, latest.sector, id, steps)
    }

    // The bytes of an item, by its last entry.
    fn search<'a, F: Flash, L: Ledger>(
        &self,
        flash: &'a F,
        latest: &Placed,
        id: u32,
        steps: &mut Steps<L>,
    ) -> Option<&'a [u8]>
        requires stands { StandsOn T.role T.format_of T.kept (F.device flash.now) self.now }
        requires latest { Some latest.now
            ≡ latest_on T.format_of (F.device flash.now) self.now.area id }
        requires other { latest.now.id ≡ id → ⊥ }
        ensures value { option_map (λ bytes. bytes.now) result
            ≡ map.get (items_on T.format_of (F.device flash.now) self.now.area) id }
        ensures steps { steps.new ≤ steps.old + self.now.area.sectors + 3 }
    {
        let placed = self.last_entry(flash, latest, id, steps)?;
        self.bytes_at(flash, &placed, steps)
    }

    // The bytes that an entry gives its id; `None` if it is a delete.
    pub(crate) fn bytes_at<'a, F: Flash, L: Ledger>(
        &self,
        flash: &'a F,
        placed: &Placed,
        steps: &mut Steps<L>,
    ) -> Option<&'a [u8]>
        requires stands { StandsOn T.role T.format_of T.kept (F.device flash.now) self.now }
        requires placed { IsPlacedOn T.format_of (F.device flash.now) self.now.area self.now.current
            placed.now }
        ensures value { let d = F.device flash.now in
            option_map (λ bytes. bytes.now) result
            ≡ value_of
            (bytes_of (slots (format_on T.format_of d self.now.area)) (sectors_of d self.now.area)
            placed.now) }
        ensures step { steps.new ≤ steps.old + 1 }
    {
        if placed.len == 0 {
            return None;
        }
        Some(T::value(flash, &self.area, placed, steps))
    }

    // The id, if it is greater than `after`, less than `least` and has a value; else `least`.
    fn lesser<F: Flash, L: Ledger>(
        &self,
        flash: &F,
        id: u32,
        after: Option<u32>,
        least: Option<u32>,
        steps: &mut Steps<L>,
    ) -> Option<u32>
        requires stands { StandsOn T.role T.format_of T.kept (F.device flash.now) self.now }
        requires some { IfSome least
            (Follows (items_on T.format_of (F.device flash.now) self.now.area) after) }
        requires small { let d = F.device flash.now in
            IfSome least (λ l. l < (format_on T.format_of d self.now.area).ids) }
        requires own { let d = F.device flash.now in
            id < (format_on T.format_of d self.now.area).ids }
        ensures some { IfSome result
            (Follows (items_on T.format_of (F.device flash.now) self.now.area) after) }
        ensures small { let d = F.device flash.now in
            IfSome result (λ l. l < (format_on T.format_of d self.now.area).ids) }
        ensures kept { IfSome least (IsAtMost result) }
        ensures id { Follows (items_on T.format_of (F.device flash.now) self.now.area) after id
            → IsAtMost result id }
    {
        if !is_between(id, after, least) {
            return least;
        }
        if self.get(flash, id, steps).is_some() {
            Some(id)
        } else {
            least
        }
    }

    // The same for the id of an entry, if there is one.
    fn lesser_of<F: Flash, L: Ledger>(
        &self,
        flash: &F,
        placed: Option<Placed>,
        after: Option<u32>,
        least: Option<u32>,
        steps: &mut Steps<L>,
    ) -> Option<u32>
        requires stands { StandsOn T.role T.format_of T.kept (F.device flash.now) self.now }
        requires some { IfSome least
            (Follows (items_on T.format_of (F.device flash.now) self.now.area) after) }
        requires small { let d = F.device flash.now in
            IfSome least (λ l. l < (format_on T.format_of d self.now.area).ids) }
        requires own { let d = F.device flash.now in
            IfSome placed (λ p. p.id < (format_on T.format_of d self.now.area).ids) }
        ensures some { IfSome result
            (Follows (items_on T.format_of (F.device flash.now) self.now.area) after) }
        ensures small { let d = F.device flash.now in
            IfSome result (λ l. l < (format_on T.format_of d self.now.area).ids) }
        ensures kept { IfSome least (IsAtMost result) }
        ensures id { IfSome placed
            (λ p. Follows (items_on T.format_of (F.device flash.now) self.now.area) after p.id
            → IsAtMost result p.id) }
    {
        match placed {
            Some(placed) => self.lesser(flash, placed.id, after, least, steps),
            None => least,
        }
    }

    // The least of `least` and of those ids of a sector's entries that are greater than `after` and
    // have a value.
    fn next_in<F: Flash, L: Ledger>(
        &self,
        flash: &F,
        place: u32,
        after: Option<u32>,
        least: Option<u32>,
        steps: &mut Steps<L>,
    ) -> Option<u32>
        requires stands { StandsOn T.role T.format_of T.kept (F.device flash.now) self.now }
        requires inside { place < self.now.area.sectors }
        requires some { IfSome least
            (Follows (items_on T.format_of (F.device flash.now) self.now.area) after) }
        requires small { let d = F.device flash.now in
            IfSome least (λ l. l < (format_on T.format_of d self.now.area).ids) }
        ensures some { IfSome result
            (Follows (items_on T.format_of (F.device flash.now) self.now.area) after) }
        ensures small { let d = F.device flash.now in
            IfSome result (λ l. l < (format_on T.format_of d self.now.area).ids) }
        ensures kept { IfSome least (IsAtMost result) }
        ensures least { let d = F.device flash.now in
            IsLeastOf (items_on T.format_of d self.now.area) after
            ((format_on T.format_of d self.now.area).reading.pairs
            (sector_on d self.now.area place))
            result }
    {
        let mut next = least;
        let slots = T::slots(flash, &self.area, place, steps);
        let first = T::first_slot();
        for slot in first..first + slots {
            let placed = T::entry_in(flash, &self.area, place, slot, steps);
            next = self.lesser_of(flash, placed, after, next, steps);
        }
        next
    }

    /// The least id greater than `after` that has a value, or the least of all if `after` is not
    /// given; `None` if there is none.
    pub fn next_id<F: Flash, L: Ledger>(
        &self,
        flash: &F,
        after: Option<u32>,
        steps: &mut Steps<L>,
    ) -> Option<u32>
        requires { StandsOn T.role T.format_of T.kept (F.device flash.now) self.now }
        ensures next { IsNextId (items_on T.format_of (F.device flash.now) self.now.area) after
            result }
        ensures known { let d = F.device flash.now in
            IfSome result (λ id. id < (format_on T.format_of d self.now.area).ids) }
    {
        let mut least = None;
        for place in 0..self.area.sectors {
            least = self.next_in(flash, place, after, least, steps);
        }
        least
    }

    /// The next older entry of the list, deletes included: the one before the entry in this sector
    /// and slot, or the newest one if no place is given. If no entry stands at the place, it is the
    /// newest one before it, on the way round to the open sector. `None` exactly if there is no
    /// older entry.
    pub fn walk<F: Flash, L: Ledger>(
        &self,
        flash: &F,
        after: Option<(u32, u32)>,
        steps: &mut Steps<L>,
    ) -> Option<Placed>
        requires stands { StandsOn T.role T.format_of T.kept (F.device flash.now) self.now }
        requires inside { IfSome after (λ place. place.0 < self.now.area.sectors) }

        ensures older { IsNextOlder
            (entries_on T.format_of (F.device flash.now) self.now.area) after
            result }
        ensures before { let d = F.device flash.now in
            IfSome after
            (λ place. result
            ≡ newest_before (format_on T.format_of d self.now.area) (sectors_of d self.now.area)
            place) }
        ensures placed { IfSome result
            (IsPlacedOn T.format_of (F.device flash.now) self.now.area self.now.current) }
    {
        let tops = self.cache.tops();
        let on = OpenArea {
            area: &self.area,
            current: self.current,
            opened: self.opened,
            tops,
        };
        walk(flash, &on, after, steps)
    }
}
