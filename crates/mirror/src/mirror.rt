// A mirror: its two stores, and the commands on them.
ghost use Rattle.std.specs.Prelude.{◌≡◌, ◌+◌, ◌<◌, ◌≤◌, ◌∷◌, ◌&&◌, ◌||◌, [], nat_lt, true, false, is_err, length, option_map, IfOk, OnOk};
ghost use Rattle.std.specs.FinMap as finite;
ghost use Rattle.flash_map.specs.Area.{geometry_of, value_limit};
ghost use Rattle.flash_map.specs.On.{on};
ghost use Rattle.flash_map.specs.Spending.{SpendsAtMost};
ghost use Rattle.flash_map.specs.Touches.{Touches};
ghost use Rattle.backend_api.specs.Ends.{set_lost};
ghost use Rattle.backend_api.specs.Listing.{pairs_in};
ghost use Rattle.backend_api.specs.Map.{IsStored, next_name};
ghost use Rattle.setting_name.specs.Name.{IsName};
ghost use Rattle.backend_api.specs.Room.{command_units};
ghost use Rattle.backend_api.specs.Written.{StaysWritten};
ghost use Rattle.mirror.specs.Mirrored.{HasRoom, IsMirror, LooksForBoth, MirrorDeletes, MirrorSets, SameSide, higher, lower};
ghost use Rattle.mirror.specs.Owing.{OneOwes};
ghost use Rattle.mirror.specs.Room.{too_many_on};

use crate::fitting::{has_value, is_too_many, look_for_room};
use crate::priced::Priced;
use crate::sides::{Side, put, take};
use backend_api::{Backend, SetFault};
use flash_map::Area;
use flash_sim::{Flash, NoMemory, PowerLost, Steps};
use setting_name::Name;
use std::alloc::Global;
use std::collections::BTreeMap;
use std::sync::ledger::Ledger;

/// A mirror: two areas that hold one map of settings. Reads go to the trusted area.
#[derive(Drop)]
pub struct Mirror<K: Backend> {
    pub(crate) trusted: Side<K>,
    pub(crate) other: Side<K>,
}

impl<K: Priced> Mirror<K> {
    // Whether the trusted area comes first in the map.
    fn is_trusted_lower(&self) -> bool
        ensures { result ≡ nat_lt self.now.trusted.place self.now.other.place }
    {
        self.trusted.place < self.other.place
    }

    // The area that comes first in the map.
    fn lower(&self) -> &Area
        ensures { result.now ≡ lower self.now.trusted self.now.other }
    {
        if self.is_trusted_lower() {
            &self.trusted.area
        } else {
            &self.other.area
        }
    }

    // The area that comes second in the map.
    fn higher(&self) -> &Area
        ensures { result.now ≡ higher self.now.trusted self.now.other }
    {
        if self.is_trusted_lower() {
            &self.other.area
        } else {
            &self.trusted.area
        }
    }

    // Whether the name would be one too many in one of the areas.
    fn is_too_many<F: Flash, L: Ledger>(&self, flash: &F, name: &Name, steps: &mut Steps<L>) -> bool
        requires mirrors { let d = F.device flash.now in
            IsMirror K.mounted_on K.stands K.contents K.room K.prices d self.now.trusted
            self.now.other }
        ensures { let d = F.device flash.now in let trusted = self.now.trusted.area in
            let settings = on K.contents d trusted in
            result
            ≡ (too_many_on K.room d trusted settings name.now
            || too_many_on K.room d self.now.other.area settings name.now) }
    {
        let store = &self.trusted.store;
        is_too_many(store, flash, &self.trusted.area, name, steps)
            || is_too_many(store, flash, &self.other.area, name, steps)
    }

    // Checks whether a put is refused, before anything is programmed.
    fn look_for_room<F: Flash, L: Ledger>(
        &self,
        flash: &F,
        name: &Name,
        value: &[u8],
        steps: &mut Steps<L>,
    ) -> Result<(), SetFault>
        requires mirrors { let d = F.device flash.now in
            IsMirror K.mounted_on K.stands K.contents K.room K.prices d self.now.trusted
            self.now.other }
        requires short { length value.now ≤ value_limit self.now.trusted.area }
        ensures ends { let d = F.device flash.now in
            let settings = on K.contents d self.now.trusted.area in
            LooksForBoth K.room d self.now.trusted self.now.other settings name.now value.now
            result }
        ensures name { let settings = on K.contents (F.device flash.now) self.now.trusted.area in
            OnOk result (¬ IsStored settings name.now value.now → IsName name.now) }
    {
        if self.is_too_many(flash, name, steps) {
            return Err(SetFault::TooManyNames);
        }
        let store = &self.trusted.store;
        if has_value(store, flash, name, value, steps) {
            return Ok(());
        }
        look_for_room(store, flash, self.lower(), name, value, steps)?;
        look_for_room(store, flash, self.higher(), name, value, steps)
    }

    // Gives a name a value in both areas, which have room for it.
    fn put_both<F: Flash, L: Ledger>(
        &mut self,
        flash: &mut F,
        name: &Name,
        value: &[u8],
        steps: &mut Steps<L>,
    ) -> Result<(), SetFault>
        requires mirrors { let d = F.device flash.old in
            IsMirror K.mounted_on K.stands K.contents K.room K.prices d self.old.trusted
            self.old.other }
        requires some { 0 < length value.now }
        requires short { length value.now ≤ value_limit self.old.trusted.area }
        requires room { let d = F.device flash.old in
            let settings = on K.contents d self.old.trusted.area in
            HasRoom K.room d self.old.trusted.area self.old.other.area settings name.now value.now }
        requires name { let settings = on K.contents (F.device flash.old) self.old.trusted.area in
            ¬ IsStored settings name.now value.now → IsName name.now }

        ensures touches { let areas = self.old.trusted.area ∷ self.old.other.area ∷ [] in
            Touches areas (F.device flash.old) (F.device flash.new) (set_lost result) }
        ensures trusted { SameSide self.old.trusted self.new.trusted }
        ensures other { SameSide self.old.other self.new.other }
        ensures ends { let d = F.device flash.old in let e = F.device flash.new in
            MirrorSets K.damage K.contents K.room K.prices d e self.old.trusted self.old.other
            name.now value.now result }
        ensures at_most { let d = F.device flash.old in
            SpendsAtMost d (F.device flash.new)
            (command_units (geometry_of d self.old.trusted.area)
            + command_units (geometry_of d self.old.other.area)) }
        ensures mirrors { let e = F.device flash.new in
            set_lost result ≡ false
            → IsMirror K.mounted_on K.stands K.contents K.room K.prices e self.new.trusted
            self.new.other }
        ensures cut { let e = F.device flash.new in
            set_lost result ≡ true
            → ((K.runs self.new.trusted.store && K.runs self.new.other.store) ≡ false)
            × OneOwes K.owes K.boot_units K.rests e self.old.trusted.area self.old.other.area }
    {
        match put(&mut self.trusted, flash, name, value, steps) {
            Ok(()) => {}
            Err(_) => return Err(SetFault::PowerLost),
        }
        match put(&mut self.other, flash, name, value, steps) {
            Ok(()) => Ok(()),
            Err(_) => Err(SetFault::PowerLost),
        }
    }

    /// The place of the trusted area in the map.
    pub fn trusted(&self) -> usize
        ensures { result ≡ self.now.trusted.place }
    {
        self.trusted.place
    }

    /// Whether the mirror is up. A call that answers `PowerLost` takes it down.
    pub fn is_up(&self) -> bool
        ensures { result ≡ K.runs self.now.trusted.store && K.runs self.now.other.store }
    {
        self.trusted.store.is_up() && self.other.store.is_up()
    }

    /// The value of a name, read from the trusted area; `None` if it has none.
    pub fn get<'a, F: Flash, L: Ledger>(
        &self,
        flash: &'a F,
        name: &Name,
        steps: &mut Steps<L>,
    ) -> Option<&'a [u8]>
        requires mirrors { let d = F.device flash.now in
            IsMirror K.mounted_on K.stands K.contents K.room K.prices d self.now.trusted
            self.now.other }
        ensures { let settings = on K.contents (F.device flash.now) self.now.trusted.area in
            option_map (λ bytes. bytes.now) result ≡ finite.get settings name.now }
    {
        self.trusted.store.get(flash, name, steps)
    }

    /// The name after the given one in byte order, or the first of all if none is given, read from
    /// the trusted area; `None` at the end.
    pub fn next_name<F: Flash, L: Ledger>(
        &self,
        flash: &F,
        after: Option<&Name>,
        steps: &mut Steps<L>,
    ) -> Option<Name>
        requires mirrors { let d = F.device flash.now in
            IsMirror K.mounted_on K.stands K.contents K.room K.prices d self.now.trusted
            self.now.other }
        ensures { let settings = on K.contents (F.device flash.now) self.now.trusted.area in
            result ≡ next_name settings (option_map (λ name. name.now) after.entry) }
    {
        self.trusted.store.next_name(flash, after, steps)
    }

    /// All settings, in the byte order of their names, read from the trusted area. This takes
    /// memory for each name.
    ///
    /// # Errors
    /// `NoMemory`.
    pub fn settings<'a, F: Flash, L: Ledger>(
        &self,
        alloc: Global,
        flash: &'a F,
        steps: &mut Steps<L>,
    ) -> Result<BTreeMap<Name, &'a [u8], Global>, NoMemory>
        requires mirrors { let d = F.device flash.now in
            IsMirror K.mounted_on K.stands K.contents K.room K.prices d self.now.trusted
            self.now.other }
        ensures { let settings = on K.contents (F.device flash.now) self.now.trusted.area in
            IfOk result (λ found. pairs_in found ≡ finite.entries settings) }
    {
        self.trusted.store.settings(alloc, flash, steps)
    }

    /// Gives a name a value that is not empty and no longer than the areas allow, in the trusted
    /// area first and then in the other one. If the name has this value already, nothing is
    /// programmed. It takes no memory, and spends at most the units and erases of one command in
    /// each area (`command_units`).
    ///
    /// # Errors
    /// `TooManyNames` exactly if the name would be one too many in one of the areas. `NoSpace`
    /// exactly if it would not, the name has another value or none, and the map with this put would
    /// cost more than one of the areas may have (`mirror_room`). It gives the figures of the area
    /// that comes first in the map, if that one is full, else those of the other one. Both checks
    /// come before anything is programmed. `PowerLost`: the mirror is down. Each area is as before
    /// or has the value; the other one has it only if the trusted one does. The map fits both
    /// areas, with the value and without it. At most one of them owes anything to the next mount,
    /// and that at most what one cut command leaves (`boot_units`).
    pub fn set<F: Flash, L: Ledger>(
        &mut self,
        flash: &mut F,
        name: &Name,
        value: &[u8],
        steps: &mut Steps<L>,
    ) -> Result<(), SetFault>
        requires mirrors { let d = F.device flash.old in
            IsMirror K.mounted_on K.stands K.contents K.room K.prices d self.old.trusted
            self.old.other }
        requires some { 0 < length value.now }
        requires short { length value.now ≤ value_limit self.old.trusted.area }

        ensures touches { let areas = self.old.trusted.area ∷ self.old.other.area ∷ [] in
            Touches areas (F.device flash.old) (F.device flash.new) (set_lost result) }
        ensures trusted { SameSide self.old.trusted self.new.trusted }
        ensures other { SameSide self.old.other self.new.other }
        ensures ends { let d = F.device flash.old in let e = F.device flash.new in
            MirrorSets K.damage K.contents K.room K.prices d e self.old.trusted self.old.other
            name.now value.now result }
        ensures at_most { let d = F.device flash.old in
            SpendsAtMost d (F.device flash.new)
            (command_units (geometry_of d self.old.trusted.area)
            + command_units (geometry_of d self.old.other.area)) }
        ensures mirrors { let e = F.device flash.new in
            set_lost result ≡ false
            → IsMirror K.mounted_on K.stands K.contents K.room K.prices e self.new.trusted
            self.new.other }
        ensures down { set_lost result ≡ true
            → (K.runs self.new.trusted.store && K.runs self.new.other.store) ≡ false }
        ensures owes { set_lost result ≡ true
            → OneOwes K.owes K.boot_units K.rests (F.device flash.new) self.old.trusted.area
            self.old.other.area }
    {
        match self.look_for_room(flash, name, value, steps) {
            Ok(()) => self.put_both(flash, name, value, steps),
            Err(fault) => Err(fault),
        }
    }

    /// Deletes a name, in the trusted area first and then in the other one. If the name has no
    /// value, nothing is programmed. It is never refused for want of room, takes no memory, and
    /// spends at most the units and erases of one command in each area (`command_units`). The
    /// trusted area is all FF afterwards only if it was so before.
    ///
    /// # Errors
    /// `PowerLost`: the mirror is down. Each area is as before or without the name; the other
    /// one is without it only if the trusted one is. The map fits both areas, with the name
    /// and without it. At most one of them owes anything to the next mount, and that at most what
    /// one cut command leaves (`boot_units`).
    pub fn delete<F: Flash, L: Ledger>(
        &mut self,
        flash: &mut F,
        name: &Name,
        steps: &mut Steps<L>,
    ) -> Result<(), PowerLost>
        requires mirrors { let d = F.device flash.old in
            IsMirror K.mounted_on K.stands K.contents K.room K.prices d self.old.trusted
            self.old.other }

        ensures touches { let areas = self.old.trusted.area ∷ self.old.other.area ∷ [] in
            Touches areas (F.device flash.old) (F.device flash.new) (is_err result) }
        ensures trusted { SameSide self.old.trusted self.new.trusted }
        ensures other { SameSide self.old.other self.new.other }
        ensures ends { let d = F.device flash.old in let e = F.device flash.new in
            MirrorDeletes K.damage K.contents K.room K.prices d e self.old.trusted self.old.other
            name.now result }
        ensures written { StaysWritten (F.device flash.old) (F.device flash.new)
            self.old.trusted.area }
        ensures at_most { let d = F.device flash.old in
            SpendsAtMost d (F.device flash.new)
            (command_units (geometry_of d self.old.trusted.area)
            + command_units (geometry_of d self.old.other.area)) }
        ensures mirrors { let e = F.device flash.new in
            is_err result ≡ false
            → IsMirror K.mounted_on K.stands K.contents K.room K.prices e self.new.trusted
            self.new.other }
        ensures down { is_err result ≡ true
            → (K.runs self.new.trusted.store && K.runs self.new.other.store) ≡ false }
        ensures owes { is_err result ≡ true
            → OneOwes K.owes K.boot_units K.rests (F.device flash.new) self.old.trusted.area
            self.old.other.area }
    {
        match take(&mut self.trusted, flash, name, steps) {
            Ok(()) => {}
            Err(lost) => return Err(lost),
        }
        take(&mut self.other, flash, name, steps)
    }
}
