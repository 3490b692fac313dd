// The trait of a store of items.
ghost use Rattle.std.specs.Prelude.{◌≡◌, ◌+◌, ◌^◌, ◌<◌, ◌≤◌, ◌∷◌, [], ℕ, Bool, List, length, replicate, true, false, is_err, Option, Some, None, option_map, IfOk, IfSome};
ghost use Rattle.std.specs.FinMap as finite;
ghost use Rattle.flash_sim.specs.Bank.{IsLawful};
ghost use Rattle.flash_sim.specs.Device.{Device};
ghost use Rattle.flash_map.specs.declared.area.Area.{Area as area_type};
ghost use Rattle.flash_map.specs.declared.area.Geometry.{Geometry};
ghost use Rattle.flash_map.specs.declared.faults.Damaged.{Damaged as damaged_type};
ghost use Rattle.flash_map.specs.Area.{geometry_of, value_limit};
ghost use Rattle.flash_map.specs.Faults.{mount_lost, write_lost};
ghost use Rattle.flash_map.specs.Lawful.{IsLawfulFor};
ghost use Rattle.flash_map.specs.Spending.{SpendsAtMost};
ghost use Rattle.flash_map.specs.Touches.{Touches};
ghost use Rattle.item_laws.specs.Bytes.{IsNextOf};
ghost use Rattle.item_laws.specs.Costs.{items_cost};
ghost use Rattle.item_laws.specs.Items.{Items};
ghost use Rattle.item_store.specs.declared.free.TheConstants.{MOST_CANDIDATES};
ghost use Rattle.item_store.specs.declared.lasts.TheConstants.{MOST_IDS};
ghost use Rattle.backend_api.specs.Ends.{MountEnds};
ghost use Rattle.backend_api.specs.Written.{StaysWritten};
ghost use Rattle.flash_map.specs.On.{on, HoldsOn, StandsOn};
ghost use Rattle.item_store.specs.Asking.{IsHolderOf};
ghost use Rattle.item_store.specs.Free.{IsLeastFree};
ghost use Rattle.named_items.specs.StoreEnds.{most_items, item_units, delete_units, IsNextId, SpendsMounting, SpendsDeleting, WriteEnds, DeleteEnds};

use flash_map::{Area, MountFault, WriteFault};
use flash_sim::{Flash, PowerLost, Steps};
use item_store::{Holder, IdRange};
use std::alloc::Global;
use std::sync::ledger::Ledger;

/// A store of items on one area. An area without damage holds one map of ids to bytes.
pub trait ItemStore: Drop {
    /// An index: where the items stand among the store's entries.
    type Index: Drop;

    /// The store serves such an area, with this geometry.
    ghost serves: { area_type → Geometry → Type 0 };

    /// The damage that the sectors of an area with this geometry show.
    ghost damage: { area_type → Geometry → List (List ℕ) → Option damaged_type };

    /// The items that such sectors hold if they show no damage.
    ghost contents: { area_type → Geometry → List (List ℕ) → Items };

    /// A mount has nothing to do on these sectors.
    ghost rests: { area_type → Geometry → List (List ℕ) → Type 0 };

    /// What an item of this length costs, in bytes: its data and its entry.
    ghost price: { Geometry → ℕ → ℕ };

    /// How many bytes a sector has for data and entries.
    ghost cap: { Geometry → ℕ };

    /// The most units and erases of a mount, which does again what a cut command left undone.
    ghost redo: { Geometry → ℕ };

    /// The most units and erases of one delete: those of one garbage collection and of one entry.
    ghost removal: { Geometry → ℕ };

    /// The most units and erases that end a garbage collection whose copies are all made.
    ghost clear: { Geometry → ℕ };

    /// The most units and erases of a delete that needs no garbage collection.
    ghost entry: { Geometry → ℕ };

    /// Whether a delete in these sectors needs no garbage collection.
    ghost roomy: { area_type → Geometry → List (List ℕ) → Bool };

    /// An item may have this id.
    ghost is_id: { ℕ → Type 0 };

    /// The area that the store was mounted on.
    ghost mounted_on: { Self → area_type };

    /// The store is up, and what it keeps in memory is true of these sectors of its area.
    ghost stands: { Self → Geometry → List (List ℕ) → Type 0 };

    /// Whether the store is up. A call that answers `PowerLost` takes it down.
    ghost runs: { Self → Bool };

    /// The index says where the items of the area stand in these sectors.
    ghost describes: { Self.Index → area_type → Geometry → List (List ℕ) → Type 0 };

    /// Mounts a store on an area. The items stay, even if power is lost. It spends at most the
    /// units and erases of a redo (`redo`), which one write may spend too (`item_units`). If it
    /// spends more than the end of a garbage collection (`clear`), it leaves room for a delete. The
    /// area is all FF afterwards only if it was so before.
    ///
    /// # Errors
    /// `Damaged` exactly if the area shows damage; nothing was programmed then. `PowerLost`: the
    /// items are as before. `NoMemory`: nothing was programmed.
    fn mount<F: Flash, L: Ledger>(
        alloc: Global,
        flash: &mut F,
        area: Area,
        steps: &mut Steps<L>,
    ) -> Result<Self, MountFault>
        requires lawful { IsLawfulFor (F.device flash.old).banks area }
        requires serves { serves area (geometry_of (F.device flash.old) area) }

        ensures touches { Touches (area ∷ []) (F.device flash.old) (F.device flash.new)
            (mount_lost result) }
        ensures ends { MountEnds (on damage (F.device flash.old) area) (F.device flash.old)
            (F.device flash.new) result }
        ensures sound { on damage (F.device flash.old) area ≡ None
            → on damage (F.device flash.new) area ≡ None }
        ensures keeps { on damage (F.device flash.old) area ≡ None
            → on contents (F.device flash.new) area ≡ on contents (F.device flash.old) area }
        ensures rests { HoldsOn rests (F.device flash.old) area
            → F.device flash.new ≡ F.device flash.old }
        ensures written { StaysWritten (F.device flash.old) (F.device flash.new) area }
        ensures units { let d = F.device flash.old in let e = F.device flash.new in
            let g = geometry_of d area in
            SpendsMounting (item_units g) (redo g) (clear g) (on roomy e area) d e result }
        ensures on { IfOk result (λ store. mounted_on store ≡ area) }
        ensures stands { IfOk result
            (λ store. StandsOn mounted_on stands (F.device flash.new) store) };

    /// The bytes of an item; `None` if the id has no item.
    fn get<'a, F: Flash, L: Ledger>(
        &self,
        flash: &'a F,
        id: u32,
        steps: &mut Steps<L>,
    ) -> Option<&'a [u8]>
        requires lawful { IsLawfulFor (F.device flash.now).banks (mounted_on self.now) }
        requires stands { StandsOn mounted_on stands (F.device flash.now) self.now }
        requires known { is_id id }
        ensures { option_map (λ bytes. bytes.now) result
            ≡ finite.get (on contents (F.device flash.now) (mounted_on self.now)) id };

    /// Whether the id may have an item: if the answer is `false`, it has none. It does not
    /// look at the flash.
    fn may_hold(&self, id: u32) -> bool
        requires known { is_id id }
        ensures { (d : Device) → IsLawful d.banks d.bytes
            → IsLawfulFor d.banks (mounted_on self.now) → StandsOn mounted_on stands d self.now
            → result ≡ false → finite.get (on contents d (mounted_on self.now)) id ≡ None };

    /// A new index, for `fill_index` to fill.
    fn new_index() -> Self::Index;

    /// Fills the index with where the items stand, and drops what it held before. The index is good
    /// as long as the area stays as it is.
    fn fill_index<F: Flash, L: Ledger>(
        &self,
        flash: &F,
        index: &mut Self::Index,
        steps: &mut Steps<L>,
    )
        requires lawful { IsLawfulFor (F.device flash.now).banks (mounted_on self.now) }
        requires stands { StandsOn mounted_on stands (F.device flash.now) self.now }
        ensures { HoldsOn (describes index.new) (F.device flash.now) (mounted_on self.now) };

    /// The bytes of an item, as `get` gives them, found by the index.
    fn get_by<'a, F: Flash, L: Ledger>(
        &self,
        flash: &'a F,
        index: &Self::Index,
        id: u32,
        steps: &mut Steps<L>,
    ) -> Option<&'a [u8]>
        requires lawful { IsLawfulFor (F.device flash.now).banks (mounted_on self.now) }
        requires stands { StandsOn mounted_on stands (F.device flash.now) self.now }
        requires describes { HoldsOn (describes index.now) (F.device flash.now)
            (mounted_on self.now) }
        requires known { is_id id }
        ensures { option_map (λ bytes. bytes.now) result
            ≡ finite.get (on contents (F.device flash.now) (mounted_on self.now)) id };

    /// An id of the range whose item has these bytes, with the item `step` above it; `None` if no
    /// item of the range has them. It searches the store's entries, and makes no index.
    fn holder_of<'a, F: Flash, L: Ledger>(
        &self,
        flash: &'a F,
        ids: &IdRange,
        step: u32,
        bytes: &[u8],
        steps: &mut Steps<L>,
    ) -> Option<Holder<'a>>
        requires lawful { IsLawfulFor (F.device flash.now).banks (mounted_on self.now) }
        requires stands { StandsOn mounted_on stands (F.device flash.now) self.now }
        requires step { 0 < step }
        requires known { is_id (ids.now.most + step) }
        ensures { IsHolderOf ids.now step (on contents (F.device flash.now) (mounted_on self.now))
            bytes.now result };

    /// The least bytes of an item that are greater than `after`, or the least of all if `after` is
    /// `None`; `None` if there are none. Only the ids from `least` to `most` count, at most
    /// `MOST_IDS` of them. It walks over the store's entries once, and makes no index.
    fn next_of<'a, F: Flash, L: Ledger>(
        &self,
        flash: &'a F,
        least: u32,
        most: u32,
        after: Option<&[u8]>,
        steps: &mut Steps<L>,
    ) -> Option<&'a [u8]>
        requires lawful { IsLawfulFor (F.device flash.now).banks (mounted_on self.now) }
        requires stands { StandsOn mounted_on stands (F.device flash.now) self.now }
        requires least { is_id least }
        requires most { is_id most }
        requires range { most < least + MOST_IDS }
        ensures { IsNextOf least most (on contents (F.device flash.now) (mounted_on self.now))
            (option_map (λ other. other.now) after.entry)
            (option_map (λ bytes. bytes.now) result) };

    /// The least id of a range that has no item, and neither has the id `step` above it; `None` if
    /// there is none. The range has at most `MOST_CANDIDATES` ids. It walks over the store's
    /// entries once, and makes no index.
    fn least_free<F: Flash, L: Ledger>(
        &self,
        flash: &F,
        ids: &IdRange,
        step: u32,
        steps: &mut Steps<L>,
    ) -> Option<u32>
        requires lawful { IsLawfulFor (F.device flash.now).banks (mounted_on self.now) }
        requires stands { StandsOn mounted_on stands (F.device flash.now) self.now }
        requires range { ids.now.most < ids.now.least + MOST_CANDIDATES }
        ensures { IsLeastFree ids.now step (on contents (F.device flash.now) (mounted_on self.now))
            result };

    /// Gives an item bytes that it does not have. It spends at most `item_units` units and erases.
    ///
    /// # Errors
    /// `TooLong` exactly if the bytes and their entry cost more than a sector has for them; nothing
    /// was programmed then. `NoSpace` only if the items cost too much; they are as before.
    /// `PowerLost`: the items are as before, or with this one, and the store is down.
    fn write_changed<F: Flash, L: Ledger>(
        &mut self,
        flash: &mut F,
        id: u32,
        bytes: &[u8],
        steps: &mut Steps<L>,
    ) -> Result<(), WriteFault>
        requires lawful { IsLawfulFor (F.device flash.old).banks (mounted_on self.old) }
        requires stands { StandsOn mounted_on stands (F.device flash.old) self.old }
        requires known { is_id id }
        requires some { 0 < length bytes.now }
        requires differs { finite.get (on contents (F.device flash.old) (mounted_on self.old)) id
            ≡ Some bytes.now → ⊥ }

        ensures touches { Touches (mounted_on self.old ∷ []) (F.device flash.old)
            (F.device flash.new) (write_lost result) }
        ensures area { mounted_on self.new ≡ mounted_on self.old }
        ensures ends { let area = mounted_on self.old in let d = F.device flash.old in
            let e = F.device flash.new in
            WriteEnds (price (geometry_of d area)) (cap (geometry_of d area)) area.sectors d e
            (on contents d area) (on contents e area) id bytes.now result }
        ensures at_most { let d = F.device flash.old in
            SpendsAtMost d (F.device flash.new) (item_units (geometry_of d (mounted_on self.old))) }
        ensures sound { on damage (F.device flash.new) (mounted_on self.old) ≡ None }
        ensures stands { write_lost result ≡ false
            → StandsOn mounted_on stands (F.device flash.new) self.new }
        ensures down { write_lost result ≡ true → runs self.new ≡ false };

    /// Deletes an item. If the id has none, nothing is programmed. It always finds room, and spends
    /// at most the units and erases of one garbage collection and one entry (`removal_units`). The
    /// area is all FF afterwards only if it was so before.
    ///
    /// # Errors
    /// `PowerLost`: the items are as before, or without this one, and the store is down.
    fn delete<F: Flash, L: Ledger>(
        &mut self,
        flash: &mut F,
        id: u32,
        steps: &mut Steps<L>,
    ) -> Result<(), PowerLost>
        requires lawful { IsLawfulFor (F.device flash.old).banks (mounted_on self.old) }
        requires stands { StandsOn mounted_on stands (F.device flash.old) self.old }
        requires known { is_id id }

        ensures touches { Touches (mounted_on self.old ∷ []) (F.device flash.old)
            (F.device flash.new) (is_err result) }
        ensures area { mounted_on self.new ≡ mounted_on self.old }
        ensures ends { let area = mounted_on self.old in let d = F.device flash.old in
            let e = F.device flash.new in
            DeleteEnds d e (on contents d area) (on contents e area) id result }
        ensures units { let d = F.device flash.old in let area = mounted_on self.old in
            SpendsDeleting (delete_units removal entry roomy d area) (geometry_of d area) d
            (F.device flash.new) }
        ensures written { StaysWritten (F.device flash.old) (F.device flash.new)
            (mounted_on self.old) }
        ensures sound { on damage (F.device flash.new) (mounted_on self.old) ≡ None }
        ensures stands { is_err result ≡ false
            → StandsOn mounted_on stands (F.device flash.new) self.new }
        ensures down { is_err result ≡ true → runs self.new ≡ false };

    /// The least id above `after` that has an item, or the least of all if `after` is `None`;
    /// `None` if there is none. It is found by the index.
    fn next_by<F: Flash, L: Ledger>(
        &self,
        flash: &F,
        index: &Self::Index,
        after: Option<u32>,
        steps: &mut Steps<L>,
    ) -> Option<u32>
        requires lawful { IsLawfulFor (F.device flash.now).banks (mounted_on self.now) }
        requires stands { StandsOn mounted_on stands (F.device flash.now) self.now }
        requires describes { HoldsOn (describes index.now) (F.device flash.now)
            (mounted_on self.now) }
        ensures next { IsNextId (on contents (F.device flash.now) (mounted_on self.now)) after
            result }
        ensures known { IfSome result is_id };

    /// What all items cost, in bytes: the padded data of each, and its entry.
    fn live_cost<F: Flash, L: Ledger>(&self, flash: &F, steps: &mut Steps<L>) -> u64
        requires lawful { IsLawfulFor (F.device flash.now).banks (mounted_on self.now) }
        requires stands { StandsOn mounted_on stands (F.device flash.now) self.now }
        ensures { let d = F.device flash.now in let area = mounted_on self.now in
            result ≡ items_cost (price (geometry_of d area)) (on contents d area) };

    /// What an item of this length costs, in bytes: its data and its entry. It is below 2^32.
    fn price_of<F: Flash>(&self, flash: &F, length: u32) -> u64
        requires lawful { IsLawfulFor (F.device flash.now).banks (mounted_on self.now) }
        requires stands { StandsOn mounted_on stands (F.device flash.now) self.now }
        requires short { length ≤ value_limit (mounted_on self.now) }
        ensures value { result
            ≡ price (geometry_of (F.device flash.now) (mounted_on self.now)) length }
        ensures small { result < 2 ^ 32 };

    /// The area that the store stands on.
    fn area(&self) -> &Area
        ensures { result.now ≡ mounted_on self.now };

    /// Whether the store is up. A call that answers `PowerLost` takes it down.
    fn is_up(&self) -> bool
        ensures { result ≡ runs self.now };

    // A store that stands is up. The store serves its area, which shows no damage, and a mount of
    // it would have nothing to do.
    ghost stands_up: { (store : Self) (geometry : Geometry) (sectors : List (List ℕ)) → stands store geometry sectors → runs store ≡ true };

    ghost stands_serves: { (store : Self) (geometry : Geometry) (sectors : List (List ℕ)) → stands store geometry sectors → serves (mounted_on store) geometry };

    ghost stands_reads: { (store : Self) (geometry : Geometry) (sectors : List (List ℕ)) → stands store geometry sectors → damage (mounted_on store) geometry sectors ≡ None };

    ghost stands_rests: { (store : Self) (geometry : Geometry) (sectors : List (List ℕ)) → stands store geometry sectors → rests (mounted_on store) geometry sectors };

    // A mount that begins a garbage collection again leaves room for a delete. Both together spend
    // no more than the end of a collection and one whole removal.
    ghost lean: { (d : Device) (area : area_type) → IsLawful d.banks d.bytes → IsLawfulFor d.banks area → serves area (geometry_of d area)
        → redo (geometry_of d area) + entry (geometry_of d area) ≤ clear (geometry_of d area) + removal (geometry_of d area) };

    // A value as long as the area allows fits a sector.
    ghost fits: { (d : Device) (area : area_type) (length : ℕ) → IsLawfulFor d.banks area → serves area (geometry_of d area) → length ≤ value_limit area
        → price (geometry_of d area) length ≤ cap (geometry_of d area) };

    // An area holds at most as many items as it has room for entries.
    ghost few: { (d : Device) (area : area_type) → IsLawful d.banks d.bytes → IsLawfulFor d.banks area → serves area (geometry_of d area)
        → finite.len (on contents d area) ≤ most_items (geometry_of d area) };

    // Sectors whose bytes are all FF show no damage, and hold no items.
    ghost blank_reads: { (area : area_type) (geometry : Geometry) (sectors size : ℕ) → 2 ≤ sectors → 16 ≤ size → damage area geometry (replicate sectors (replicate size 0xFF)) ≡ None };

    ghost blank_empty: { (area : area_type) (geometry : Geometry) (sectors size : ℕ) → 2 ≤ sectors → 16 ≤ size → contents area geometry (replicate sectors (replicate size 0xFF)) ≡ finite.empty };
}
