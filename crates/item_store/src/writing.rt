// Writing and deleting items.
ghost use Rattle.std.specs.Prelude.{◌≡◌, ◌^◌, ◌<◌, ◌≤◌, ◌∷◌, [], true, false, None, length, is_err, OnOk, OnErr};
ghost use Rattle.std.specs.Bool.{MatchBool};
ghost use Rattle.flash_map.specs.Area.{sectors_of};
ghost use Rattle.flash_map.specs.Faults.{write_lost};
ghost use Rattle.flash_map.specs.Touches.{Touches};
ghost use Rattle.item_store.specs.Cached.{AddsEntry, IsCacheOn};
ghost use Rattle.item_store.specs.Listed.{format_on};
ghost use Rattle.item_store.specs.Room.{has_room, IsShort};
ghost use Rattle.item_store.specs.Stands.{StandsOn, StandsAt};
ghost use Rattle.item_store.specs.Written.{IsWritten};
ghost use Rattle.item_store.specs.Writing.{PutsPair, StopsPutting, AppendEnds, Holds, WriteEnds, DeleteEnds};

use crate::room::{is_too_long, make_room};
use crate::sectors::SlotSectors;
use crate::store::Store;
use flash_map::{Area, WriteFault, geometry};
use flash_sim::{Flash, PowerLost, Steps};
use lookup_cache::Cache;
use std::sync::ledger::Ledger;

// Appends a pair that fits the open sector. No bytes are a delete.
fn put<T: SlotSectors, F: Flash, L: Ledger>(
    flash: &mut F,
    area: &Area,
    opened: &mut T,
    current: u32,
    id: u32,
    bytes: &[u8],
    steps: &mut Steps<L>,
) -> Result<(), PowerLost>
    requires stands { StandsAt T.role T.format_of T.kept (F.device flash.old) area.now current
        opened.old }
    requires ordinary { id < (format_on T.format_of (F.device flash.old) area.now).ids }
    requires room { let d = F.device flash.old in
        has_room (format_on T.format_of d area.now) (sectors_of d area.now) (length bytes.now)
        ≡ true }

    ensures touches { let d = F.device flash.old in let e = F.device flash.new in
        Touches (area.now ∷ []) d e (is_err result) }
    ensures written { let d = F.device flash.old in let e = F.device flash.new in
        let k = format_on T.format_of d area.now in
        IsWritten k (sectors_of d area.now) → IsWritten k (sectors_of e area.now) }

    ensures stands { OnOk result
        (StandsAt T.role T.format_of T.kept (F.device flash.new) area.now current opened.new) }
    ensures puts { let d = F.device flash.old in let e = F.device flash.new in
        OnOk result (PutsPair (format_on T.format_of d area.now) d e area.now id bytes.now) }
    ensures entry { let d = F.device flash.old in let e = F.device flash.new in
        let k = format_on T.format_of d area.now in
        OnOk result
        (AddsEntry k (sectors_of d area.now) (sectors_of e area.now) current id
        (length bytes.now)) }

    ensures stops { let d = F.device flash.old in let e = F.device flash.new in
        OnErr result (StopsPutting (format_on T.format_of d area.now) d e area.now id bytes.now) }
{
    opened.begin(flash, area, current, steps)?;
    opened.put(flash, area, current, id, bytes, steps)
}

// The same, noted in the cache.
fn put_noted<T: SlotSectors, F: Flash, L: Ledger>(
    flash: &mut F,
    area: &Area,
    opened: &mut T,
    current: u32,
    cache: &mut Cache,
    id: u32,
    bytes: &[u8],
    steps: &mut Steps<L>,
) -> Result<(), PowerLost>
    requires stands { StandsAt T.role T.format_of T.kept (F.device flash.old) area.now current
        opened.old }
    requires cached { IsCacheOn T.format_of (F.device flash.old) area.now cache.old }
    requires ordinary { id < (format_on T.format_of (F.device flash.old) area.now).ids }
    requires room { let d = F.device flash.old in
        has_room (format_on T.format_of d area.now) (sectors_of d area.now) (length bytes.now)
        ≡ true }

    ensures touches { let d = F.device flash.old in let e = F.device flash.new in
        Touches (area.now ∷ []) d e (is_err result) }
    ensures written { let d = F.device flash.old in let e = F.device flash.new in
        let k = format_on T.format_of d area.now in
        IsWritten k (sectors_of d area.now) → IsWritten k (sectors_of e area.now) }

    ensures stands { OnOk result
        (StandsAt T.role T.format_of T.kept (F.device flash.new) area.now current opened.new) }
    ensures cached { OnOk result (IsCacheOn T.format_of (F.device flash.new) area.now cache.new) }
    ensures puts { let d = F.device flash.old in let e = F.device flash.new in
        OnOk result (PutsPair (format_on T.format_of d area.now) d e area.now id bytes.now) }

    ensures stops { let d = F.device flash.old in let e = F.device flash.new in
        OnErr result (StopsPutting (format_on T.format_of d area.now) d e area.now id bytes.now) }
{
    put(flash, area, opened, current, id, bytes, steps)?;
    let first = T::first_slot();
    let count = opened.own_slots(flash, area, current, steps);
    let slot = first + count - 1;
    cache.note(id, current, slot);
    Ok(())
}

impl<T: SlotSectors> Store<T> {
    // Makes room for a pair and appends it if there is room. Says whether there is. After a power
    // loss the store is down.
    fn append<F: Flash, L: Ledger>(
        &mut self,
        flash: &mut F,
        id: u32,
        bytes: &[u8],
        steps: &mut Steps<L>,
    ) -> Result<bool, PowerLost>
        requires stands { StandsOn T.role T.format_of T.kept (F.device flash.old) self.old }
        requires ordinary { id < (format_on T.format_of (F.device flash.old) self.old.area).ids }
        requires narrow { length bytes.now < 2 ^ 16 }
        requires short { let d = F.device flash.old in let area = self.old.area in
            0 < length bytes.now → IsShort (format_on T.format_of d area) d area
            (length bytes.now) }

        ensures touches { let d = F.device flash.old in let e = F.device flash.new in
            Touches (self.old.area ∷ []) d e (is_err result) }
        ensures area { self.new.area ≡ self.old.area }
        ensures written { let d = F.device flash.old in let e = F.device flash.new in
            let k = format_on T.format_of d self.old.area in
            IsWritten k (sectors_of d self.old.area) → IsWritten k (sectors_of e self.old.area) }
        ensures ends { let d = F.device flash.old in let e = F.device flash.new in
            AppendEnds (format_on T.format_of d self.old.area) d e self.old.area id bytes.now
            result }
        ensures undamaged { let d = F.device flash.old in let e = F.device flash.new in
            (format_on T.format_of d self.old.area).damage (sectors_of e self.old.area) ≡ None }
        ensures stands { OnOk result
            (StandsOn T.role T.format_of T.kept (F.device flash.new) self.new) }
        ensures down { OnErr result (self.new.up ≡ false) }
    {
        self.up = false;
        let len = bytes.len() as u32;
        let room = make_room(
            flash,
            &self.area,
            &mut self.opened,
            &mut self.current,
            &mut self.cache,
            len,
            steps,
        )?;
        if !room {
            self.up = true;
            return Ok(false);
        }
        match put_noted(
            flash,
            &self.area,
            &mut self.opened,
            self.current,
            &mut self.cache,
            id,
            bytes,
            steps,
        ) {
            Ok(()) => {
                self.up = true;
                Ok(true)
            }
            Err(lost) => Err(lost),
        }
    }

    // Whether these bytes are the item's already.
    fn holds<F: Flash, L: Ledger>(
        &self,
        flash: &F,
        id: u32,
        bytes: &[u8],
        steps: &mut Steps<L>,
    ) -> bool
        requires { StandsOn T.role T.format_of T.kept (F.device flash.now) self.now }
        ensures { let d = F.device flash.now in let k = format_on T.format_of d self.now.area in
            MatchBool result (Holds k d self.now.area id bytes.now)
            (¬ Holds k d self.now.area id bytes.now) }
    {
        match self.get(flash, id, steps) {
            Some(stored) => stored == bytes,
            None => false,
        }
    }

    /// Gives an item bytes that it does not have. It is `write` for a caller that has looked.
    ///
    /// # Errors
    /// As `write`.
    pub fn write_changed<F: Flash, L: Ledger>(
        &mut self,
        flash: &mut F,
        id: u32,
        bytes: &[u8],
        steps: &mut Steps<L>,
    ) -> Result<(), WriteFault>
        requires stands { StandsOn T.role T.format_of T.kept (F.device flash.old) self.old }
        requires ordinary { id < (format_on T.format_of (F.device flash.old) self.old.area).ids }
        requires some { 0 < length bytes.now }
        requires differs { let d = F.device flash.old in let area = self.old.area in
            ¬ Holds (format_on T.format_of d area) d area id bytes.now }

        ensures touches { let d = F.device flash.old in let e = F.device flash.new in
            Touches (self.old.area ∷ []) d e (write_lost result) }
        ensures area { self.new.area ≡ self.old.area }
        ensures written { let d = F.device flash.old in let e = F.device flash.new in
            let k = format_on T.format_of d self.old.area in
            IsWritten k (sectors_of d self.old.area) → IsWritten k (sectors_of e self.old.area) }
        ensures ends { let d = F.device flash.old in let e = F.device flash.new in
            WriteEnds (format_on T.format_of d self.old.area) d e self.old.area id bytes.now
            result }
        ensures undamaged { let d = F.device flash.old in let e = F.device flash.new in
            (format_on T.format_of d self.old.area).damage (sectors_of e self.old.area) ≡ None }
        ensures stands { write_lost result ≡ false
            → StandsOn T.role T.format_of T.kept (F.device flash.new) self.new }
        ensures down { write_lost result ≡ true → self.new.up ≡ false }
    {
        let g = geometry(flash, &self.area);
        if is_too_long::<T>(&g, bytes.len()) {
            return Err(WriteFault::TooLong);
        }
        match self.append(flash, id, bytes, steps) {
            Err(_) => Err(WriteFault::PowerLost),
            Ok(true) => Ok(()),
            Ok(false) => {
                let need = T::cost(&g, bytes.len() as u32);
                let live = self.live_cost(flash, steps);
                Err(WriteFault::NoSpace { need, live })
            }
        }
    }

    /// Sets an item. If the item has these bytes already, nothing is programmed.
    ///
    /// # Errors
    /// `TooLong` exactly if the bytes and their entry cost more than a sector has for them: nothing
    /// was programmed. `NoSpace` if no garbage collection makes room: every sector but the blank
    /// one then holds live items only, with no room for this one beside them. The items stay.
    /// `PowerLost`: the items are as before or with this one set, and the store is down.
    pub fn write<F: Flash, L: Ledger>(
        &mut self,
        flash: &mut F,
        id: u32,
        bytes: &[u8],
        steps: &mut Steps<L>,
    ) -> Result<(), WriteFault>
        requires stands { StandsOn T.role T.format_of T.kept (F.device flash.old) self.old }
        requires ordinary { id < (format_on T.format_of (F.device flash.old) self.old.area).ids }
        requires some { 0 < length bytes.now }

        ensures touches { let d = F.device flash.old in let e = F.device flash.new in
            Touches (self.old.area ∷ []) d e (write_lost result) }
        ensures area { self.new.area ≡ self.old.area }
        ensures written { let d = F.device flash.old in let e = F.device flash.new in
            let k = format_on T.format_of d self.old.area in
            IsWritten k (sectors_of d self.old.area) → IsWritten k (sectors_of e self.old.area) }
        ensures ends { let d = F.device flash.old in let e = F.device flash.new in
            WriteEnds (format_on T.format_of d self.old.area) d e self.old.area id bytes.now
            result }
        ensures undamaged { let d = F.device flash.old in let e = F.device flash.new in
            (format_on T.format_of d self.old.area).damage (sectors_of e self.old.area) ≡ None }
        ensures stands { write_lost result ≡ false
            → StandsOn T.role T.format_of T.kept (F.device flash.new) self.new }
        ensures down { write_lost result ≡ true → self.new.up ≡ false }
    {
        let g = geometry(flash, &self.area);
        if is_too_long::<T>(&g, bytes.len()) {
            return Err(WriteFault::TooLong);
        }
        if self.holds(flash, id, bytes, steps) {
            return Ok(());
        }
        self.write_changed(flash, id, bytes, steps)
    }

    /// Deletes an item. If the id has none, nothing is programmed. A delete always finds room.
    ///
    /// # Errors
    /// `PowerLost`: the items are as before or without this one, and the store is down.
    pub fn delete<F: Flash, L: Ledger>(
        &mut self,
        flash: &mut F,
        id: u32,
        steps: &mut Steps<L>,
    ) -> Result<(), PowerLost>
        requires stands { StandsOn T.role T.format_of T.kept (F.device flash.old) self.old }
        requires small { id ≤ (format_on T.format_of (F.device flash.old) self.old.area).ids }

        ensures touches { let d = F.device flash.old in let e = F.device flash.new in
            Touches (self.old.area ∷ []) d e (is_err result) }
        ensures area { self.new.area ≡ self.old.area }
        ensures written { let d = F.device flash.old in let e = F.device flash.new in
            let k = format_on T.format_of d self.old.area in
            IsWritten k (sectors_of d self.old.area) → IsWritten k (sectors_of e self.old.area) }
        ensures ends { let d = F.device flash.old in let e = F.device flash.new in
            DeleteEnds (format_on T.format_of d self.old.area) d e self.old.area id result }
        ensures undamaged { let d = F.device flash.old in let e = F.device flash.new in
            (format_on T.format_of d self.old.area).damage (sectors_of e self.old.area) ≡ None }
        ensures stands { is_err result ≡ false
            → StandsOn T.role T.format_of T.kept (F.device flash.new) self.new }
        ensures down { is_err result ≡ true → self.new.up ≡ false }
    {
        if self.get(flash, id, steps).is_none() {
            return Ok(());
        }
        match self.append(flash, id, &[], steps) {
            Err(lost) => Err(lost),
            Ok(_) => Ok(()),
        }
    }
}
