// The ZMS store: mounting, and closing with a garbage collection.
ghost use Rattle.std.specs.Prelude.{◌≡◌, ◌*◌, ◌/◌, ◌∷◌, [], false, is_err, OnOk, OnErr};
ghost use Rattle.flash_map.specs.Area.{geometry_of, sector_size};
ghost use Rattle.flash_map.specs.Faults.{mount_lost};
ghost use Rattle.flash_map.specs.Spending.{SpendsBetween};
ghost use Rattle.flash_map.specs.Touches.{Touches};
ghost use Rattle.zms_store.specs.Ends.{MountEnds, MarksFirst, RoundEnds, KeepsWritten, SameOrWritten, SameBytesOrWritten};
ghost use Rattle.zms_format.specs.Formats.{mount_limit};
ghost use Rattle.zms_store.specs.Spending.{most_round, most_mount};
ghost use Rattle.zms_store.specs.Standing.{IsZmsArea, StandsOn, KeepsItems};

use crate::sectors::ZmsOpen;
use flash_map::{Area, MountFault};
use flash_sim::{Flash, PowerLost, Steps};
use item_store::Store;
use std::alloc::Global;
use std::sync::ledger::Ledger;

/// A ZMS store on one area.
#[derive(Drop)]
pub struct Zms {
    pub(crate) store: Store<ZmsOpen>,
}

impl Zms {
    /// Reads the area and completes what a power loss left undone: the emptying of a collected
    /// sector, which takes one to three units by its bytes (two on an erasing bank), or a whole
    /// garbage collection. The items stay, and so do the newest versions of each, even if power is
    /// lost again. It spends at most twice the units of a sector (once on an erasing bank), and at
    /// most 8 more than twice the units that it copies. An area at rest stays as it is. A
    /// collection done again leaves as much room as one that was not cut. If anything changed, a
    /// sector is in use afterwards, even if power was lost. No byte of the collected sector changes
    /// before gc-done stands, and in the end that sector has an empty entry.
    ///
    /// # Errors
    /// `Damaged` and `NoMemory`: nothing changed. `PowerLost`, only if the area was not at rest.
    pub fn mount<F: Flash, L: Ledger>(
        alloc: Global,
        flash: &mut F,
        area: Area,
        steps: &mut Steps<L>,
    ) -> Result<Zms, MountFault>
        requires { IsZmsArea (F.device flash.old).banks area }
        ensures touches { Touches (area ∷ []) (F.device flash.old)
            (F.device flash.new) (mount_lost result) }
        ensures ends { MountEnds (F.device flash.old) (F.device flash.new) area result }
        ensures at_most { let d = F.device flash.old in
            SpendsBetween d (F.device flash.new) 0
            (mount_limit (geometry_of d area).kind (sector_size d area)) }
        ensures copies { let d = F.device flash.old in
            SpendsBetween d (F.device flash.new) 0 (most_mount d area) }
        ensures written { KeepsWritten (F.device flash.old) (F.device flash.new) area }
        ensures changed { SameOrWritten (F.device flash.old) (F.device flash.new) area }
        ensures marks { MarksFirst (F.device flash.old) (F.device flash.new) area }
    {
        match Store::<ZmsOpen>::mount(alloc, flash, area, steps) {
            Ok(store) => Ok(Zms { store }),
            Err(fault) => Err(fault),
        }
    }

    /// The store of `item_store` that does the work.
    pub fn store(&self) -> &Store<ZmsOpen>
        ensures { result.now ≡ self.now.store }
    {
        &self.store
    }

    /// The area that the store stands on.
    pub fn area(&self) -> &Area
        ensures { result.now ≡ self.now.store.area }
    {
        self.store.area()
    }

    /// Whether the store is up: no call has returned `PowerLost`.
    pub fn is_up(&self) -> bool
        ensures { result ≡ self.now.store.up }
    {
        self.store.is_up()
    }

    /// Closes the open sector and collects the oldest one, if that is in use. If it is not, on an
    /// erasing bank the next sector is made ready. The items stay, even if power is lost. After a
    /// round, a value fits the open sector exactly if it fits beside the items copied there, and a
    /// delete fits. If a sector was collected, gc-done stands in the open one, and the collected
    /// one has an empty entry. It spends at most the units that were free, twice those of what it
    /// copies, and 9. If the open sector is clean, nothing changes: on a rewritable bank it is
    /// clean if its slot 2 is not valid, on an erasing bank if it is blank or fresh.
    ///
    /// # Errors
    /// `PowerLost`, only if the open sector is not clean: the list is as before or as after the
    /// round, and the store is down. Where a byte of the collected sector changed, gc-done stands.
    pub fn close_and_collect<F: Flash, L: Ledger>(
        &mut self,
        flash: &mut F,
        steps: &mut Steps<L>,
    ) -> Result<(), PowerLost>
        requires { StandsOn (F.device flash.old) self.old }

        ensures touches { Touches (self.old.store.area ∷ []) (F.device flash.old)
            (F.device flash.new) (is_err result) }
        ensures area { self.new.store.area ≡ self.old.store.area }
        ensures items { KeepsItems (F.device flash.old) (F.device flash.new) self.old.store.area }
        ensures written { let d = F.device flash.old in
            KeepsWritten d (F.device flash.new) self.old.store.area }
        ensures changed { let d = F.device flash.old in
            SameBytesOrWritten d (F.device flash.new) self.old.store.area }

        ensures ends { let d = F.device flash.old in let store = self.old.store in
            RoundEnds d (F.device flash.new) store.area store.current result }
        ensures at_most { let d = F.device flash.old in let store = self.old.store in
            SpendsBetween d (F.device flash.new) 0 (most_round d store.area store.current) }
        ensures stands { OnOk result (StandsOn (F.device flash.new) self.new) }
        ensures down { OnErr result (self.new.store.up ≡ false) }
    {
        self.store.close_and_collect(flash, steps)
    }
}
