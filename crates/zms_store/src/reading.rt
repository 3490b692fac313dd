// Reading items.
ghost use Rattle.std.specs.Prelude.{◌≡◌, ◌+◌, ◌*◌, ◌^◌, ◌<◌, ◌≤◌, false, None, is_some, IfSome, option_map};
ghost use Rattle.std.specs.FinMap as map;
ghost use Rattle.flash_sim.specs.Bank.{IsLawful};
ghost use Rattle.flash_sim.specs.Device.{Device};
ghost use Rattle.flash_map.specs.Area.{sectors_of, sector_at};
ghost use Rattle.item_laws.specs.Bytes.{IsNextOf};
ghost use Rattle.item_laws.specs.NextIds.{IsNextId};
ghost use Rattle.item_store.specs.declared.lasts.TheConstants.{MOST_IDS};
ghost use Rattle.item_store.specs.declared.free.TheConstants.{MOST_CANDIDATES};
ghost use Rattle.item_store.specs.Asking.{IsHolderOf};
ghost use Rattle.item_store.specs.Cached.{latest_on};
ghost use Rattle.item_store.specs.Free.{IsLeastFree};
ghost use Rattle.item_store.specs.Holding.{held_in_all, search_views};
ghost use Rattle.item_store.specs.Lasts.{slots_in_all};
ghost use Rattle.item_store.specs.Latest.{IsKnown, KnowsOn};
ghost use Rattle.item_store.specs.Listed.{IsListedOn};
ghost use Rattle.item_store.specs.Older.{IsNextOlder, newest_before};
ghost use Rattle.zms_format.specs.Area.{IsListed};
ghost use Rattle.zms_format.specs.Formats.{format_of, placed_of};
ghost use Rattle.zms_store.specs.Standing.{IsZmsArea, StandsOn, IsPlacedOn, format_on, entries_on, items_on, live_cost_on};

use crate::store::Zms;
use flash_map::{Area, sector_view};
use flash_sim::{Flash, Steps};
use item_store::{Holder, IdRange, LastSlots};
use std::sync::ledger::Ledger;
use zms_cycle::entry_in;
use zms_format::Found;

// The entry in a slot of the list, as the slot has it.
fn entry_at<F: Flash, L: Ledger>(
    flash: &F,
    area: &Area,
    placed: &item_store::Placed,
    steps: &mut Steps<L>,
) -> Found
    requires area { IsZmsArea (F.device flash.now).banks area.now }
    requires listed { IsListedOn format_of (F.device flash.now) area.now placed.now }
    ensures same { placed_of result ≡ placed.now }
    ensures listed { let d = F.device flash.now in
        IsListed (sector_at (sectors_of d area.now) placed.now.sector) result }
{
    match entry_in(sector_view(flash, area, placed.sector, steps), placed.slot) {
        Some(found) => Found {
            sector: placed.sector,
            slot: found.slot,
            entry: found.entry,
        },
        None => unreachable!(),
    }
}

impl Zms {
    /// The bytes of an item; `None` if the id has no entry or its last entry is a delete. If no
    /// entry of the list shares the id's cache slot, this takes no step. If the latest entry that
    /// shares it has this id, it takes at most two. Otherwise it takes at most one step for each
    /// sector, and four besides.
    pub fn get<'a, F: Flash, L: Ledger>(
        &self,
        flash: &'a F,
        id: u32,
        steps: &mut Steps<L>,
    ) -> Option<&'a [u8]>
        requires { StandsOn (F.device flash.now) self.now }
        ensures value { option_map (λ bytes. bytes.now) result
            ≡ map.get (items_on (F.device flash.now) self.now.store.area) id }
        ensures none { let d = F.device flash.now in
            latest_on format_of d self.now.store.area id ≡ None → steps.new ≡ steps.old }
        ensures few { let d = F.device flash.now in
            IfSome (latest_on format_of d self.now.store.area id)
            (λ p. p.id ≡ id → steps.new ≤ steps.old + 2) }
        ensures steps { steps.new ≤ steps.old + self.now.store.area.sectors + 4 }
    {
        self.store.get(flash, id, steps)
    }

    /// Whether the id may have an item: `true` exactly if an entry of the list shares the id's
    /// cache slot. If `false`, the id has no item. It reads only the cache.
    pub fn may_hold(&self, id: u32) -> bool
        ensures exactly { (d : Device) → StandsOn d self.now
            → result ≡ is_some (latest_on format_of d self.now.store.area id) }
        ensures none { (d : Device) → IsLawful d.banks d.bytes → StandsOn d self.now
            → result ≡ false → map.get (items_on d self.now.store.area) id ≡ None }
    {
        self.store.may_hold(id)
    }

    /// Makes a table of the last entries of ids: of 1024 ids at most, the least that have bytes. It
    /// knows each id if at most 1024 ids ever had bytes in the list. It is valid as long as the
    /// area stays as it is. This takes one walk over the list, and a search for each id that shares
    /// its key.
    pub fn fill_last_slots<F: Flash, L: Ledger>(
        &self,
        flash: &F,
        last: &mut LastSlots,
        steps: &mut Steps<L>,
    )
        requires { StandsOn (F.device flash.now) self.now }
        ensures { KnowsOn format_of (F.device flash.now) self.now.store.area last.new }
    {
        self.store.fill_last_slots(flash, last, steps)
    }

    /// The bytes of an item, as `get` gives them. If the table knows the id, this takes at most one
    /// step; otherwise it does what `get` does.
    pub fn get_by<'a, F: Flash, L: Ledger>(
        &self,
        flash: &'a F,
        last: &LastSlots,
        id: u32,
        steps: &mut Steps<L>,
    ) -> Option<&'a [u8]>
        requires stands { StandsOn (F.device flash.now) self.now }
        requires last { KnowsOn format_of (F.device flash.now) self.now.store.area last.now }
        ensures value { option_map (λ bytes. bytes.now) result
            ≡ map.get (items_on (F.device flash.now) self.now.store.area) id }
        ensures few { IsKnown last.now.bound id → steps.new ≤ steps.old + 1 }
    {
        self.store.get_by(flash, last, id, steps)
    }

    /// The least id greater than `after` that has a value, or the least of all if `after` is not
    /// given; `None` if there is none. It is never the reserved id FFFFFFFF.
    pub fn next_id<F: Flash, L: Ledger>(
        &self,
        flash: &F,
        after: Option<u32>,
        steps: &mut Steps<L>,
    ) -> Option<u32>
        requires { StandsOn (F.device flash.now) self.now }
        ensures next { IsNextId (items_on (F.device flash.now) self.now.store.area) after result }
        ensures known { IfSome result (λ id. id < 0xFFFFFFFF) }
    {
        self.store.next_id(flash, after, steps)
    }

    /// The least id greater than `after` that has a value, or the least of all, as `next_id` gives
    /// it. If the table knows that id, or knows each id, this takes no step; otherwise it searches
    /// the list.
    pub fn next_by<F: Flash, L: Ledger>(
        &self,
        flash: &F,
        last: &LastSlots,
        after: Option<u32>,
        steps: &mut Steps<L>,
    ) -> Option<u32>
        requires stands { StandsOn (F.device flash.now) self.now }
        requires last { KnowsOn format_of (F.device flash.now) self.now.store.area last.now }
        ensures next { IsNextId (items_on (F.device flash.now) self.now.store.area) after result }
        ensures known { IfSome result (λ id. id < 0xFFFFFFFF) }
        ensures covered { IfSome result (λ id. IsKnown last.now.bound id → steps.new ≡ steps.old) }
        ensures all { last.now.bound ≡ None → steps.new ≡ steps.old }
    {
        self.store.next_by(flash, last, after, steps)
    }

    /// An id of the range whose item has these bytes, with the item `step` above it; any of them if
    /// several have, `None` if none has. It compares ids and bytes before CRCs. It takes at most
    /// one step for each sector. Each entry that gives an id of the range these bytes may cost one
    /// step more, one for each sector, and a look-up of its id. The item above costs one look-up in
    /// all.
    pub fn holder_of<'a, F: Flash, L: Ledger>(
        &self,
        flash: &'a F,
        ids: &IdRange,
        step: u32,
        bytes: &[u8],
        steps: &mut Steps<L>,
    ) -> Option<Holder<'a>>
        requires stands { StandsOn (F.device flash.now) self.now }
        requires step { 0 < step }
        requires top { ids.now.most + step < 2 ^ 32 }
        ensures holder { IsHolderOf ids.now step (items_on (F.device flash.now) self.now.store.area)
            bytes.now result }
        ensures steps { let d = F.device flash.now in let area = self.now.store.area in
            let held = held_in_all (format_on d area) (sectors_of d area) ids.now bytes.now in
            steps.new ≤ steps.old + search_views area.sectors held }
    {
        self.store.holder_of(flash, ids, step, bytes, steps)
    }

    /// The least id of the range that has no item, and whose id `step` above it has none; `None` if
    /// there is none. The range has at most `MOST_CANDIDATES` ids. This takes one walk over the list.
    pub fn least_free<F: Flash, L: Ledger>(
        &self,
        flash: &F,
        ids: &IdRange,
        step: u32,
        steps: &mut Steps<L>,
    ) -> Option<u32>
        requires stands { StandsOn (F.device flash.now) self.now }
        requires range { ids.now.most < ids.now.least + MOST_CANDIDATES }
        ensures { IsLeastFree ids.now step (items_on (F.device flash.now) self.now.store.area)
            result }
    {
        self.store.least_free(flash, ids, step, steps)
    }

    /// The least bytes of an item with an id from `least` to `most`: of those greater than `after`,
    /// or of all if `after` is not given; `None` if there are none. The range has at most
    /// `MOST_IDS` ids. This takes one walk over the list: it takes at most one step for each
    /// sector, and two for each slot: for its entry and for that entry's bytes.
    pub fn next_of<'a, F: Flash, L: Ledger>(
        &self,
        flash: &'a F,
        least: u32,
        most: u32,
        after: Option<&[u8]>,
        steps: &mut Steps<L>,
    ) -> Option<&'a [u8]>
        requires stands { StandsOn (F.device flash.now) self.now }
        requires range { most < least + MOST_IDS }
        ensures next { IsNextOf least most (items_on (F.device flash.now) self.now.store.area)
            (option_map (λ other. other.now) after.entry) (option_map (λ bytes. bytes.now) result) }
        ensures steps { let d = F.device flash.now in let area = self.now.store.area in
            let slots = slots_in_all (format_on d area) (sectors_of d area) in
            steps.new ≤ steps.old + area.sectors + 2 * slots }
    {
        self.store.next_of(flash, least, most, after, steps)
    }

    /// What all items cost, in bytes: the value of each, padded, and its entry.
    pub fn live_cost<F: Flash, L: Ledger>(&self, flash: &F, steps: &mut Steps<L>) -> u64
        requires { StandsOn (F.device flash.now) self.now }
        ensures { result ≡ live_cost_on (F.device flash.now) self.now.store.area }
    {
        self.store.live_cost(flash, steps)
    }

    /// The next older entry of the list, deletes included: the one before the entry in this sector
    /// and slot, or the newest one if no place is given. If no entry stands at the place, it is the
    /// newest one before it, on the way round to the open sector. `None` exactly if there is no
    /// older entry.
    pub fn walk<F: Flash, L: Ledger>(
        &self,
        flash: &F,
        after: Option<(u32, u32)>,
        steps: &mut Steps<L>,
    ) -> Option<Found>
        requires stands { StandsOn (F.device flash.now) self.now }
        requires inside { IfSome after (λ place. place.0 < self.now.store.area.sectors) }

        ensures older { let next = option_map placed_of result in
            IsNextOlder (entries_on (F.device flash.now) self.now.store.area) after next }
        ensures before { let d = F.device flash.now in let area = self.now.store.area in
            IfSome after (λ place. option_map placed_of result
            ≡ newest_before (format_on d area) (sectors_of d area) place) }
        ensures placed { IfSome result (IsPlacedOn (F.device flash.now) self.now) }
    {
        match self.store.walk(flash, after, steps) {
            Some(placed) => Some(entry_at(flash, self.store.area(), &placed, steps)),
            None => None,
        }
    }
}
