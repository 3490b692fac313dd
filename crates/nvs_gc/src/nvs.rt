// The NVS store.
ghost use Rattle.std.specs.Prelude.{◌≡◌, ℕ, ◌+◌, ◌*◌, ◌^◌, ◌<◌, ◌≤◌, ◌∷◌, [], Some, None, true, false, length, is_err, is_some, IfSome, OnOk, OnErr, option_map};
ghost use Rattle.std.specs.FinMap as map;
ghost use Rattle.flash_sim.specs.Bank.{IsLawful};
ghost use Rattle.flash_sim.specs.Device.{Device};
ghost use Rattle.flash_map.specs.Faults.{mount_lost, write_lost};
ghost use Rattle.flash_map.specs.Spending.{SpendsBetween};
ghost use Rattle.flash_map.specs.Touches.{Touches};
ghost use Rattle.flash_map.specs.Area.{sectors_of};
ghost use Rattle.item_laws.specs.Bytes.{IsNextOf};
ghost use Rattle.item_laws.specs.NextIds.{IsNextId};
ghost use Rattle.nvs_format.specs.Formats.{format_of, placed_of};
ghost use Rattle.item_store.specs.declared.free.TheConstants.{MOST_CANDIDATES};
ghost use Rattle.item_store.specs.Asking.{IsHolderOf};
ghost use Rattle.item_store.specs.Cached.{latest_on};
ghost use Rattle.item_store.specs.Free.{IsLeastFree};
ghost use Rattle.item_store.specs.Holding.{held_in_all, search_views};
ghost use Rattle.item_store.specs.Lasts.{slots_in_all};
ghost use Rattle.item_store.specs.Latest.{IsKnown, KnowsOn};
ghost use Rattle.item_store.specs.Older.{IsNextOlder, newest_before};
ghost use Rattle.nvs_gc.specs.Ends.{MountEnds, MarksFirst, RoundEnds, WriteEnds, DeleteEnds, KeepsWritten, SameOrWritten, sector_units};
ghost use Rattle.nvs_gc.specs.Standing.{IsNvsArea, StandsOn, format_on, KeepsItems, IsPlacedOn, IsUndamaged, entries_on, items_on, live_cost_on};

use crate::sectors::{NvsOpen, read_again};
use flash_map::{Area, MountFault, WriteFault};
use flash_sim::{Flash, PowerLost, Steps};
use item_store::{Holder, IdRange, LastSlots, Store};
use nvs_store::Found;
use std::alloc::Global;
use std::sync::ledger::Ledger;

/// An NVS store on one area.
#[derive(Drop)]
pub struct Nvs {
    pub(crate) store: Store<NvsOpen>,
}

// The id as one of any store.
fn widened(id: Option<u16>) -> Option<u32>
    ensures { result ≡ id }
{
    match id {
        Some(id) => Some(id as u32),
        None => None,
    }
}

// The id, which has 16 bits, as one of NVS.
fn narrowed(id: Option<u32>) -> Option<u16>
    requires { IfSome id (λ id. id < 2 ^ 16) }
    ensures { result ≡ id }
{
    match id {
        Some(id) => Some(id as u16),
        None => None,
    }
}

impl Nvs {
    /// Reads the area and completes what a power loss left undone: the erase of a collected sector,
    /// or a whole garbage collection. The items stay, and so do the newest versions of each, even
    /// if power is lost again. It never spends more units and erases than a sector has units. An
    /// area at rest stays as it is. A collection done again leaves as much room as one that was not
    /// cut. If anything changed, the area is not all FF afterwards, even if power was lost. The
    /// collected sector is not erased before gc-done stands.
    ///
    /// # Errors
    /// `Damaged` and `NoMemory`: nothing changed. `PowerLost`, only if the area was not at rest.
    pub fn mount<F: Flash, L: Ledger>(
        alloc: Global,
        flash: &mut F,
        area: Area,
        steps: &mut Steps<L>,
    ) -> Result<Nvs, MountFault>
        requires { IsNvsArea (F.device flash.old).banks area }
        ensures touches { Touches (area ∷ []) (F.device flash.old)
            (F.device flash.new) (mount_lost result) }
        ensures ends { MountEnds (F.device flash.old) (F.device flash.new) area result }
        ensures at_most { let d = F.device flash.old in
            SpendsBetween d (F.device flash.new) 0 (sector_units d area) }
        ensures written { KeepsWritten (F.device flash.old) (F.device flash.new) area }
        ensures changed { SameOrWritten (F.device flash.old) (F.device flash.new) area }
        ensures marks { MarksFirst (F.device flash.old) (F.device flash.new) area }
    {
        match Store::<NvsOpen>::mount(alloc, flash, area, steps) {
            Ok(store) => Ok(Nvs { store }),
            Err(fault) => Err(fault),
        }
    }

    /// The store of `item_store` that does the work.
    pub fn store(&self) -> &Store<NvsOpen>
        ensures { result.now ≡ self.now.store }
    {
        &self.store
    }

    /// The area that the store stands on.
    pub fn area(&self) -> &Area
        ensures { result.now ≡ self.now.store.area }
    {
        self.store.area()
    }

    /// Whether the store is up: no call has returned `PowerLost`.
    pub fn is_up(&self) -> bool
        ensures { result ≡ self.now.store.up }
    {
        self.store.is_up()
    }

    /// Closes the open sector and collects the oldest one, if that is not blank. If the open sector
    /// is blank, nothing changes. The items stay, even if power is lost. After a round, a value
    /// fits the open sector exactly if it fits beside the items copied there, and a delete fits. If
    /// a sector was collected, gc-done stands in the open one, and the collected one is all FF.
    ///
    /// # Errors
    /// `PowerLost`, only if the open sector is not blank: the list is as before or as after the
    /// round, and the store is down. Where a byte of the collected sector is gone, gc-done stands.
    pub fn close_and_collect<F: Flash, L: Ledger>(
        &mut self,
        flash: &mut F,
        steps: &mut Steps<L>,
    ) -> Result<(), PowerLost>
        requires { StandsOn (F.device flash.old) self.old }

        ensures touches { Touches (self.old.store.area ∷ []) (F.device flash.old)
            (F.device flash.new) (is_err result) }
        ensures area { self.new.store.area ≡ self.old.store.area }
        ensures items { KeepsItems (F.device flash.old) (F.device flash.new) self.old.store.area }
        ensures written { let d = F.device flash.old in
            KeepsWritten d (F.device flash.new) self.old.store.area }
        ensures changed { let d = F.device flash.old in
            SameOrWritten d (F.device flash.new) self.old.store.area }

        ensures ends { let d = F.device flash.old in let store = self.old.store in
            RoundEnds d (F.device flash.new) store.area store.current result }
        ensures stands { OnOk result (StandsOn (F.device flash.new) self.new) }
        ensures down { OnErr result (self.new.store.up ≡ false) }
    {
        self.store.close_and_collect(flash, steps)
    }

    /// The bytes of an item; `None` if the id has no entry or its last entry is a delete. If no
    /// entry of the list shares the id's cache slot, this takes no step. If the latest entry that
    /// shares it has this id, it takes at most two. Otherwise it takes at most one step for each
    /// sector, and four besides.
    pub fn get<'a, F: Flash, L: Ledger>(
        &self,
        flash: &'a F,
        id: u16,
        steps: &mut Steps<L>,
    ) -> Option<&'a [u8]>
        requires { StandsOn (F.device flash.now) self.now }
        ensures value { option_map (λ bytes. bytes.now) result
            ≡ map.get (items_on (F.device flash.now) self.now.store.area) id }
        ensures none { let d = F.device flash.now in
            latest_on format_of d self.now.store.area id ≡ None → steps.new ≡ steps.old }
        ensures few { let d = F.device flash.now in
            IfSome (latest_on format_of d self.now.store.area id)
            (λ p. p.id ≡ id → steps.new ≤ steps.old + 2) }
        ensures steps { steps.new ≤ steps.old + self.now.store.area.sectors + 4 }
    {
        self.store.get(flash, id as u32, steps)
    }

    /// Whether the id may have an item: `true` exactly if an entry of the list shares the id's
    /// cache slot. If `false`, the id has no item. It reads only the cache.
    pub fn may_hold(&self, id: u16) -> bool
        ensures exactly { (d : Device) → StandsOn d self.now
            → result ≡ is_some (latest_on format_of d self.now.store.area id) }
        ensures none { (d : Device) → IsLawful d.banks d.bytes → StandsOn d self.now
            → result ≡ false → map.get (items_on d self.now.store.area) id ≡ None }
    {
        self.store.may_hold(id as u32)
    }

    /// Makes a table of the last entries of ids: of 1024 ids at most, the least that have bytes. It
    /// knows each id if at most 1024 ids ever had bytes in the list. It is valid as long as the
    /// area stays as it is. This takes one walk over the list.
    pub fn fill_last_slots<F: Flash, L: Ledger>(
        &self,
        flash: &F,
        last: &mut LastSlots,
        steps: &mut Steps<L>,
    )
        requires { StandsOn (F.device flash.now) self.now }
        ensures { KnowsOn format_of (F.device flash.now) self.now.store.area last.new }
    {
        self.store.fill_last_slots(flash, last, steps)
    }

    /// The bytes of an item, as `get` gives them. If the table knows the id, this takes at most one
    /// step; otherwise it does what `get` does.
    pub fn get_by<'a, F: Flash, L: Ledger>(
        &self,
        flash: &'a F,
        last: &LastSlots,
        id: u16,
        steps: &mut Steps<L>,
    ) -> Option<&'a [u8]>
        requires stands { StandsOn (F.device flash.now) self.now }
        requires last { KnowsOn format_of (F.device flash.now) self.now.store.area last.now }
        ensures value { option_map (λ bytes. bytes.now) result
            ≡ map.get (items_on (F.device flash.now) self.now.store.area) id }
        ensures few { IsKnown last.now.bound id → steps.new ≤ steps.old + 1 }
    {
        self.store.get_by(flash, last, id as u32, steps)
    }

    /// The least id greater than `after` that has a value, or the least of all if `after` is not
    /// given; `None` if there is none.
    pub fn next_id<F: Flash, L: Ledger>(
        &self,
        flash: &F,
        after: Option<u16>,
        steps: &mut Steps<L>,
    ) -> Option<u16>
        requires { StandsOn (F.device flash.now) self.now }
        ensures next { IsNextId (items_on (F.device flash.now) self.now.store.area) after result }
        ensures known { IfSome result (λ id. id < 0xFFFF) }
    {
        narrowed(self.store.next_id(flash, widened(after), steps))
    }

    /// The least id greater than `after` that has a value, or the least of all, as `next_id` gives
    /// it. If the table knows that id, or knows each id, this takes no step; otherwise it searches
    /// the list.
    pub fn next_by<F: Flash, L: Ledger>(
        &self,
        flash: &F,
        last: &LastSlots,
        after: Option<u16>,
        steps: &mut Steps<L>,
    ) -> Option<u16>
        requires stands { StandsOn (F.device flash.now) self.now }
        requires last { KnowsOn format_of (F.device flash.now) self.now.store.area last.now }
        ensures next { IsNextId (items_on (F.device flash.now) self.now.store.area) after result }
        ensures known { IfSome result (λ id. id < 0xFFFF) }
        ensures covered { IfSome result (λ id. IsKnown last.now.bound id → steps.new ≡ steps.old) }
        ensures all { last.now.bound ≡ None → steps.new ≡ steps.old }
    {
        narrowed(self.store.next_by(flash, last, widened(after), steps))
    }

    /// The next older entry of the list, deletes included: the one before the entry in this sector
    /// and slot, or the newest one if no place is given. If no entry stands at the place, it is the
    /// newest one before it, on the way round to the open sector. `None` exactly if there is no
    /// older entry.
    pub fn walk<F: Flash, L: Ledger>(
        &self,
        flash: &F,
        after: Option<(u32, u32)>,
        steps: &mut Steps<L>,
    ) -> Option<Found>
        requires stands { StandsOn (F.device flash.now) self.now }
        requires inside { IfSome after (λ place. place.0 < self.now.store.area.sectors) }

        ensures older { let next = option_map placed_of result in
            IsNextOlder (entries_on (F.device flash.now) self.now.store.area) after next }
        ensures before { let d = F.device flash.now in let area = self.now.store.area in
            IfSome after (λ place. option_map placed_of result
            ≡ newest_before (format_on d area) (sectors_of d area) place) }
        ensures placed { IfSome result (IsPlacedOn (F.device flash.now) self.now) }
    {
        match self.store.walk(flash, after, steps) {
            Some(placed) => Some(read_again(flash, self.store.area(), &placed, steps)),
            None => None,
        }
    }

    /// An id of the range whose item has these bytes, with the item `step` above it; any of them if
    /// several have, `None` if none has. It compares ids and bytes before CRCs. It takes at most
    /// one step for each sector. Each entry that gives an id of the range these bytes may cost one
    /// step more, one for each sector, and a look-up of its id. The item above costs one look-up in
    /// all.
    pub fn holder_of<'a, F: Flash, L: Ledger>(
        &self,
        flash: &'a F,
        ids: &IdRange,
        step: u32,
        bytes: &[u8],
        steps: &mut Steps<L>,
    ) -> Option<Holder<'a>>
        requires stands { StandsOn (F.device flash.now) self.now }
        requires step { 0 < step }
        requires top { ids.now.most + step < 2 ^ 32 }
        ensures holder { IsHolderOf ids.now step (items_on (F.device flash.now) self.now.store.area)
            bytes.now result }
        ensures steps { let d = F.device flash.now in let area = self.now.store.area in
            let held = held_in_all (format_on d area) (sectors_of d area) ids.now bytes.now in
            steps.new ≤ steps.old + search_views area.sectors held }
    {
        self.store.holder_of(flash, ids, step, bytes, steps)
    }

    /// The least id of the range that has no item, and whose id `step` above it has none; `None` if
    /// there is none. The range has at most `MOST_CANDIDATES` ids. This takes one walk over the list.
    pub fn least_free<F: Flash, L: Ledger>(
        &self,
        flash: &F,
        ids: &IdRange,
        step: u32,
        steps: &mut Steps<L>,
    ) -> Option<u32>
        requires stands { StandsOn (F.device flash.now) self.now }
        requires range { ids.now.most < ids.now.least + MOST_CANDIDATES }
        ensures { IsLeastFree ids.now step (items_on (F.device flash.now) self.now.store.area)
            result }
    {
        self.store.least_free(flash, ids, step, steps)
    }

    /// The least bytes of an item with an id from `least` to `most`: of those greater than `after`,
    /// or of all if `after` is not given; `None` if there are none. This takes one walk over the
    /// list: it takes at most one step for each sector, and two for each slot: for its entry and
    /// for that entry's bytes.
    pub fn next_of<'a, F: Flash, L: Ledger>(
        &self,
        flash: &'a F,
        least: u16,
        most: u16,
        after: Option<&[u8]>,
        steps: &mut Steps<L>,
    ) -> Option<&'a [u8]>
        requires { StandsOn (F.device flash.now) self.now }
        ensures next { IsNextOf least most (items_on (F.device flash.now) self.now.store.area)
            (option_map (λ other. other.now) after.entry) (option_map (λ bytes. bytes.now) result) }
        ensures steps { let d = F.device flash.now in let area = self.now.store.area in
            let slots = slots_in_all (format_on d area) (sectors_of d area) in
            steps.new ≤ steps.old + area.sectors + 2 * slots }
    {
        self.store
            .next_of(flash, least as u32, most as u32, after, steps)
    }

    /// What all items cost, in bytes: the bytes of each, padded, and its entry.
    pub fn live_cost<F: Flash, L: Ledger>(&self, flash: &F, steps: &mut Steps<L>) -> u64
        requires { StandsOn (F.device flash.now) self.now }
        ensures { result ≡ live_cost_on (F.device flash.now) self.now.store.area }
    {
        self.store.live_cost(flash, steps)
    }

    /// Sets an item. If the item has these bytes already, nothing is programmed.
    ///
    /// # Errors
    /// `TooLong` exactly if the bytes and their entry cost more than a sector has for them: nothing
    /// was programmed. `NoSpace` if no garbage collection makes room: every sector but the blank
    /// one then holds live items only, with no room for this one beside them. The items stay.
    /// `PowerLost`: the items are as before or with this one set, and the store is down.
    pub fn write<F: Flash, L: Ledger>(
        &mut self,
        flash: &mut F,
        id: u16,
        bytes: &[u8],
        steps: &mut Steps<L>,
    ) -> Result<(), WriteFault>
        requires stands { StandsOn (F.device flash.old) self.old }
        requires ordinary { id < 0xFFFF }
        requires some { 0 < length bytes.now }

        ensures touches { Touches (self.old.store.area ∷ []) (F.device flash.old)
            (F.device flash.new) (write_lost result) }
        ensures area { self.new.store.area ≡ self.old.store.area }
        ensures written { let d = F.device flash.old in
            KeepsWritten d (F.device flash.new) self.old.store.area }
        ensures ends { let d = F.device flash.old in
            WriteEnds d (F.device flash.new) self.old.store.area id bytes.now result }
        ensures undamaged { IsUndamaged (F.device flash.new) self.old.store.area }
        ensures stands { write_lost result ≡ false → StandsOn (F.device flash.new) self.new }
        ensures down { write_lost result ≡ true → self.new.store.up ≡ false }
    {
        self.store.write(flash, id as u32, bytes, steps)
    }

    /// Gives an item bytes that it does not have. It is `write` for a caller that has looked.
    ///
    /// # Errors
    /// As `write`.
    pub fn write_changed<F: Flash, L: Ledger>(
        &mut self,
        flash: &mut F,
        id: u16,
        bytes: &[u8],
        steps: &mut Steps<L>,
    ) -> Result<(), WriteFault>
        requires stands { StandsOn (F.device flash.old) self.old }
        requires ordinary { id < 0xFFFF }
        requires some { 0 < length bytes.now }
        requires differs { map.get (items_on (F.device flash.old) self.old.store.area) id
            ≡ Some bytes.now → ⊥ }

        ensures touches { Touches (self.old.store.area ∷ []) (F.device flash.old)
            (F.device flash.new) (write_lost result) }
        ensures area { self.new.store.area ≡ self.old.store.area }
        ensures written { let d = F.device flash.old in
            KeepsWritten d (F.device flash.new) self.old.store.area }
        ensures ends { let d = F.device flash.old in
            WriteEnds d (F.device flash.new) self.old.store.area id bytes.now result }
        ensures undamaged { IsUndamaged (F.device flash.new) self.old.store.area }
        ensures stands { write_lost result ≡ false → StandsOn (F.device flash.new) self.new }
        ensures down { write_lost result ≡ true → self.new.store.up ≡ false }
    {
        self.store.write_changed(flash, id as u32, bytes, steps)
    }

    /// Deletes an item. If the id has none, nothing is programmed; the reserved id FFFF never has
    /// one. A delete always finds room.
    ///
    /// # Errors
    /// `PowerLost`: the items are as before or without this one, and the store is down.
    pub fn delete<F: Flash, L: Ledger>(
        &mut self,
        flash: &mut F,
        id: u16,
        steps: &mut Steps<L>,
    ) -> Result<(), PowerLost>
        requires { StandsOn (F.device flash.old) self.old }

        ensures touches { Touches (self.old.store.area ∷ []) (F.device flash.old)
            (F.device flash.new) (is_err result) }
        ensures area { self.new.store.area ≡ self.old.store.area }
        ensures written { let d = F.device flash.old in
            KeepsWritten d (F.device flash.new) self.old.store.area }
        ensures ends { let d = F.device flash.old in
            DeleteEnds d (F.device flash.new) self.old.store.area id result }
        ensures undamaged { IsUndamaged (F.device flash.new) self.old.store.area }
        ensures stands { is_err result ≡ false → StandsOn (F.device flash.new) self.new }
        ensures down { is_err result ≡ true → self.new.store.up ≡ false }
    {
        self.store.delete(flash, id as u32, steps)
    }
}
