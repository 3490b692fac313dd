// Writing and deleting items.
ghost use Rattle.std.specs.Prelude.{◌≡◌, ◌<◌, ◌∷◌, [], true, false, Some, length, is_err};
ghost use Rattle.std.specs.FinMap as map;
ghost use Rattle.flash_map.specs.Faults.{write_lost};
ghost use Rattle.flash_map.specs.Touches.{Touches};
ghost use Rattle.zms_store.specs.Ends.{WriteEnds, DeleteEnds, KeepsWritten};
ghost use Rattle.zms_store.specs.Spending.{WriteSpends, DeleteSpends};
ghost use Rattle.zms_store.specs.Standing.{StandsOn, IsUndamaged, items_on};

use crate::store::Zms;
use flash_map::WriteFault;
use flash_sim::{Flash, PowerLost, Steps};
use std::sync::ledger::Ledger;

impl Zms {
    /// Sets an item. If the item has these bytes already, nothing is programmed. If the entry fits
    /// the open sector, this spends its units and at most 4 more. Otherwise it spends at most three
    /// times the units of a sector and 9 for each sector but one, besides those.
    ///
    /// # Errors
    /// `TooLong` exactly if the bytes and their entry cost more than a sector has for them: nothing
    /// was programmed. `NoSpace` if no garbage collection makes room: every sector but the blank
    /// one then holds live items only, with no room for this one beside them. The items stay.
    /// `PowerLost`: the items are as before or with this one set, and the store is down.
    pub fn write<F: Flash, L: Ledger>(
        &mut self,
        flash: &mut F,
        id: u32,
        bytes: &[u8],
        steps: &mut Steps<L>,
    ) -> Result<(), WriteFault>
        requires stands { StandsOn (F.device flash.old) self.old }
        requires ordinary { id < 0xFFFFFFFF }
        requires some { 0 < length bytes.now }

        ensures touches { Touches (self.old.store.area ∷ []) (F.device flash.old)
            (F.device flash.new) (write_lost result) }
        ensures area { self.new.store.area ≡ self.old.store.area }
        ensures written { let d = F.device flash.old in
            KeepsWritten d (F.device flash.new) self.old.store.area }
        ensures ends { let d = F.device flash.old in
            WriteEnds d (F.device flash.new) self.old.store.area id bytes.now result }
        ensures units { let d = F.device flash.old in
            WriteSpends d (F.device flash.new) self.old.store.area id bytes.now result }
        ensures undamaged { IsUndamaged (F.device flash.new) self.old.store.area }
        ensures stands { write_lost result ≡ false → StandsOn (F.device flash.new) self.new }
        ensures down { write_lost result ≡ true → self.new.store.up ≡ false }
    {
        self.store.write(flash, id, bytes, steps)
    }

    /// Gives an item bytes that it does not have. It is `write` for a caller that has looked.
    ///
    /// # Errors
    /// As `write`.
    pub fn write_changed<F: Flash, L: Ledger>(
        &mut self,
        flash: &mut F,
        id: u32,
        bytes: &[u8],
        steps: &mut Steps<L>,
    ) -> Result<(), WriteFault>
        requires stands { StandsOn (F.device flash.old) self.old }
        requires ordinary { id < 0xFFFFFFFF }
        requires some { 0 < length bytes.now }
        requires differs { map.get (items_on (F.device flash.old) self.old.store.area) id
            ≡ Some bytes.now → ⊥ }

        ensures touches { Touches (self.old.store.area ∷ []) (F.device flash.old)
            (F.device flash.new) (write_lost result) }
        ensures area { self.new.store.area ≡ self.old.store.area }
        ensures written { let d = F.device flash.old in
            KeepsWritten d (F.device flash.new) self.old.store.area }
        ensures ends { let d = F.device flash.old in
            WriteEnds d (F.device flash.new) self.old.store.area id bytes.now result }
        ensures units { let d = F.device flash.old in
            WriteSpends d (F.device flash.new) self.old.store.area id bytes.now result }
        ensures undamaged { IsUndamaged (F.device flash.new) self.old.store.area }
        ensures stands { write_lost result ≡ false → StandsOn (F.device flash.new) self.new }
        ensures down { write_lost result ≡ true → self.new.store.up ≡ false }
    {
        self.store.write_changed(flash, id, bytes, steps)
    }

    /// Deletes an item. If the id has none, nothing is programmed; the reserved id FFFFFFFF never
    /// has one. A delete always finds room. It spends at most 5 units if it fits the open sector,
    /// and otherwise at most twice the units of a sector and 5. On an erasing bank it spends at
    /// most the units of a sector and 4.
    ///
    /// # Errors
    /// `PowerLost`: the items are as before or without this one, and the store is down.
    pub fn delete<F: Flash, L: Ledger>(
        &mut self,
        flash: &mut F,
        id: u32,
        steps: &mut Steps<L>,
    ) -> Result<(), PowerLost>
        requires { StandsOn (F.device flash.old) self.old }

        ensures touches { Touches (self.old.store.area ∷ []) (F.device flash.old)
            (F.device flash.new) (is_err result) }
        ensures area { self.new.store.area ≡ self.old.store.area }
        ensures written { let d = F.device flash.old in
            KeepsWritten d (F.device flash.new) self.old.store.area }
        ensures ends { let d = F.device flash.old in
            DeleteEnds d (F.device flash.new) self.old.store.area id result }
        ensures units { let d = F.device flash.old in
            DeleteSpends d (F.device flash.new) self.old.store.area id }
        ensures undamaged { IsUndamaged (F.device flash.new) self.old.store.area }
        ensures stands { is_err result ≡ false → StandsOn (F.device flash.new) self.new }
        ensures down { is_err result ≡ true → self.new.store.up ≡ false }
    {
        self.store.delete(flash, id, steps)
    }
}
