// Mounting, and a round: a close with the garbage collection that follows.
ghost use Rattle.std.specs.Prelude.{◌≡◌, ◌∷◌, [], false, is_err, OnOk, OnErr, ◌⊎◌};
ghost use Rattle.flash_map.specs.Area.{sector_size, sectors_of};
ghost use Rattle.flash_map.specs.Faults.{mount_lost};
ghost use Rattle.flash_map.specs.Spending.{SpendsBetween};
ghost use Rattle.flash_map.specs.Touches.{Touches};
ghost use Rattle.lookup_cache.specs.Places.{empty_cache};
ghost use Rattle.item_store.specs.Closing.{RoundEnds, PassEnds};
ghost use Rattle.item_store.specs.SectorFormat.{is_clean_at};
ghost use Rattle.item_store.specs.Listed.{format_on};
ghost use Rattle.item_store.specs.Standing.{IsStoreArea, KeepsItems};
ghost use Rattle.item_store.specs.Stands.{StandsOn, MountEnds, MountMarksFirst};
ghost use Rattle.item_store.specs.Written.{IsWritten};

use crate::cached::{CACHE_SLOTS, fill, follow_round};
use crate::collecting::{redo, round};
use crate::open_area::OpenArea;
use crate::sectors::SlotSectors;
use crate::store::Store;
use flash_map::{Area, MountFault};
use flash_sim::{Flash, PowerLost, Steps};
use lookup_cache::Cache;
use std::alloc::Global;
use std::sync::ledger::Ledger;

impl<T: SlotSectors> Store<T> {
    /// Reads the area and completes what a power loss left undone. The items stay, even if power is
    /// lost again. An area at rest stays as it is. A collection done again leaves as much room as
    /// one that was not cut. If anything changed, some sector is not blank afterwards, even if
    /// power was lost. No byte of a collected sector goes before gc-done stands, and in the end
    /// that sector is empty and ready for entries.
    ///
    /// # Errors
    /// `Damaged` and `NoMemory`: nothing changed. `PowerLost`, only if the area was not at rest.
    pub fn mount<F: Flash, L: Ledger>(
        alloc: Global,
        flash: &mut F,
        area: Area,
        steps: &mut Steps<L>,
    ) -> Result<Store<T>, MountFault>
        requires { IsStoreArea T.role (F.device flash.old).banks area }
        ensures touches { let d = F.device flash.old in let e = F.device flash.new in
            Touches (area ∷ []) d e (mount_lost result) }
        ensures ends { let d = F.device flash.old in let e = F.device flash.new in
            MountEnds T.role T.format_of T.kept d e area result }
        ensures at_most { let d = F.device flash.old in let e = F.device flash.new in
            SpendsBetween d e 0 ((format_on T.format_of d area).units.mount (sector_size d area)) }
        ensures written { let d = F.device flash.old in let e = F.device flash.new in
            let k = format_on T.format_of d area in
            IsWritten k (sectors_of d area) → IsWritten k (sectors_of e area) }
        ensures changed { let d = F.device flash.old in let e = F.device flash.new in
            (F.device flash.new ≡ d)
            ⊎ IsWritten (format_on T.format_of d area) (sectors_of e area) }
        ensures marks { let d = F.device flash.old in let e = F.device flash.new in
            MountMarksFirst (format_on T.format_of d area) d e area }
    {
        match Cache::with_slots(alloc, CACHE_SLOTS) {
            Err(_) => Err(MountFault::NoMemory),
            Ok(cache) => Store::<T>::mount_with(cache, flash, area, steps),
        }
    }

    // The same, with the memory of the cache at hand.
    fn mount_with<F: Flash, L: Ledger>(
        mut cache: Cache,
        flash: &mut F,
        area: Area,
        steps: &mut Steps<L>,
    ) -> Result<Store<T>, MountFault>
        requires area { IsStoreArea T.role (F.device flash.old).banks area }
        requires empty { cache ≡ empty_cache 64 }
        ensures touches { let d = F.device flash.old in let e = F.device flash.new in
            Touches (area ∷ []) d e (mount_lost result) }
        ensures ends { let d = F.device flash.old in let e = F.device flash.new in
            MountEnds T.role T.format_of T.kept d e area result }
        ensures at_most { let d = F.device flash.old in let e = F.device flash.new in
            SpendsBetween d e 0 ((format_on T.format_of d area).units.mount (sector_size d area)) }
        ensures written { let d = F.device flash.old in let e = F.device flash.new in
            let k = format_on T.format_of d area in
            IsWritten k (sectors_of d area) → IsWritten k (sectors_of e area) }
        ensures changed { let d = F.device flash.old in let e = F.device flash.new in
            (F.device flash.new ≡ d)
            ⊎ IsWritten (format_on T.format_of d area) (sectors_of e area) }
        ensures marks { let d = F.device flash.old in let e = F.device flash.new in
            MountMarksFirst (format_on T.format_of d area) d e area }
    {
        match T::scan(flash, &area, steps) {
            Err(damaged) => Err(MountFault::Damaged(damaged)),
            Ok(current) => {
                let mut opened = T::keep(flash, &area, current, steps);
                match redo(flash, &area, &mut opened, current, steps) {
                    Err(_) => Err(MountFault::PowerLost),
                    Ok(()) => {
                        let on = OpenArea {
                            area: &area,
                            current,
                            opened,
                            tops: &[],
                        };
                        fill(flash, &on, &mut cache, steps);
                        Ok(Store {
                            area,
                            current,
                            opened,
                            cache,
                            up: true,
                        })
                    }
                }
            }
        }
    }

    /// The area that the store stands on.
    pub fn area(&self) -> &Area
        ensures { result.now ≡ self.now.area }
    {
        &self.area
    }

    /// Whether the store is up: no call has returned `PowerLost`.
    pub fn is_up(&self) -> bool
        ensures { result ≡ self.now.up }
    {
        self.up
    }

    /// The number of the open sector, which takes the next entry.
    pub fn open_sector(&self) -> u32
        ensures { result ≡ self.now.current }
    {
        self.current
    }

    /// Closes the open sector and collects the oldest one. If the open sector is clean, nothing
    /// changes. The items stay, even if power is lost. After a round, a value fits the open sector
    /// exactly if it fits beside the items copied there, and a delete fits. If a sector was
    /// collected, gc-done stands in the open one, and the collected one is empty and ready for
    /// entries.
    ///
    /// # Errors
    /// `PowerLost`, only if the open sector is not clean: the list is as before or as after the
    /// round, and the store is down. Where a byte of the collected sector is gone, gc-done stands.
    pub fn close_and_collect<F: Flash, L: Ledger>(
        &mut self,
        flash: &mut F,
        steps: &mut Steps<L>,
    ) -> Result<(), PowerLost>
        requires { StandsOn T.role T.format_of T.kept (F.device flash.old) self.old }

        ensures touches { let d = F.device flash.old in
            Touches (self.old.area ∷ []) d (F.device flash.new) (is_err result) }
        ensures area { self.new.area ≡ self.old.area }
        ensures items { let d = F.device flash.old in let e = F.device flash.new in
            let area = self.old.area in
            KeepsItems (format_on T.format_of d area) (sectors_of d area) (sectors_of e area) }
        ensures written { let d = F.device flash.old in let area = self.old.area in
            let k = format_on T.format_of d area in
            IsWritten k (sectors_of d area) → IsWritten k (sectors_of (F.device flash.new) area) }
        ensures changed { let d = F.device flash.old in let area = self.old.area in
            let new = sectors_of (F.device flash.new) area in
            (new ≡ sectors_of d area) ⊎ IsWritten (format_on T.format_of d area) new }

        ensures ends { let d = F.device flash.old in let area = self.old.area in
            RoundEnds (format_on T.format_of d area) d (F.device flash.new) area self.old.current
            result }
        ensures stands { OnOk result
            (StandsOn T.role T.format_of T.kept (F.device flash.new) self.new) }
        ensures down { OnErr result (self.new.up ≡ false) }
    {
        if T::is_clean(flash, &self.area, self.current, steps) {
            return Ok(());
        }
        self.run_pass(flash, steps)
    }

    // A round: closes the open sector, which is not clean, and collects.
    pub(crate) fn run_pass<F: Flash, L: Ledger>(
        &mut self,
        flash: &mut F,
        steps: &mut Steps<L>,
    ) -> Result<(), PowerLost>
        requires stands { StandsOn T.role T.format_of T.kept (F.device flash.old) self.old }
        requires used { let d = F.device flash.old in let area = self.old.area in
            is_clean_at (format_on T.format_of d area) (sectors_of d area) self.old.current
            ≡ false }

        ensures touches { let d = F.device flash.old in
            Touches (self.old.area ∷ []) d (F.device flash.new) (is_err result) }
        ensures area { self.new.area ≡ self.old.area }
        ensures items { let d = F.device flash.old in let e = F.device flash.new in
            let area = self.old.area in
            KeepsItems (format_on T.format_of d area) (sectors_of d area) (sectors_of e area) }
        ensures written { let d = F.device flash.old in let area = self.old.area in
            let k = format_on T.format_of d area in
            IsWritten k (sectors_of d area) → IsWritten k (sectors_of (F.device flash.new) area) }
        ensures changed { let d = F.device flash.old in let area = self.old.area in
            let new = sectors_of (F.device flash.new) area in
            (new ≡ sectors_of d area) ⊎ IsWritten (format_on T.format_of d area) new }

        ensures ends { let d = F.device flash.old in let area = self.old.area in
            PassEnds (format_on T.format_of d area) d (F.device flash.new) area self.old.current
            result }
        ensures stands { OnOk result
            (StandsOn T.role T.format_of T.kept (F.device flash.new) self.new) }
        ensures down { OnErr result (self.new.up ≡ false) }
    {
        self.up = false;
        self.current = round(flash, &self.area, &mut self.opened, self.current, steps)?;
        follow_round::<T, F, L>(flash, &self.area, self.current, &mut self.cache, steps);
        self.up = true;
        Ok(())
    }
}
