// One of the two areas of a mirror, and a command on it.
ghost use Rattle.std.specs.Prelude.{◌≡◌, ◌<◌, ◌≤◌, ◌∷◌, [], true, false, is_err, length, None};
ghost use Rattle.std.specs.FinMap as finite;
ghost use Rattle.flash_map.specs.Area.{geometry_of, value_limit};
ghost use Rattle.flash_map.specs.On.{on};
ghost use Rattle.flash_map.specs.Touches.{Touches};
ghost use Rattle.backend_api.specs.Boot.{CommandUnits};
ghost use Rattle.backend_api.specs.Map.{IsAbsent, IsStored};
ghost use Rattle.backend_api.specs.Room.{HasNoRoom, command_units};
ghost use Rattle.backend_api.specs.Written.{StaysWritten};
ghost use Rattle.migrator.specs.Migrating.{room_on};
ghost use Rattle.mirror.specs.Mirrored.{SameSide, SideCommand, SideStands};
ghost use Rattle.mirror.specs.Room.{too_many_on};

use crate::priced::Priced;
use backend_api::{Backend, SetFault};
use flash_map::Area;
use flash_sim::{Flash, PowerLost, Steps};
use setting_name::Name;
use std::sync::ledger::Ledger;

/// A side of a mirror: the store on one of its two areas.
#[derive(Drop)]
pub struct Side<K: Backend> {
    pub(crate) store: K,
    pub(crate) area: Area,
    // its place in the map
    pub(crate) place: usize,
}

// Gives a name a value on one side, which has room for it.
pub(crate) fn put<K: Priced, F: Flash, L: Ledger>(
    side: &mut Side<K>,
    flash: &mut F,
    name: &Name,
    value: &[u8],
    steps: &mut Steps<L>,
) -> Result<(), PowerLost>
    requires stands { SideStands K.mounted_on K.stands (F.device flash.old) side.old }
    requires some { 0 < length value.now }
    requires short { length value.now ≤ value_limit side.old.area }
    requires few { let d = F.device flash.old in let settings = on K.contents d side.old.area in
        too_many_on K.room d side.old.area settings name.now ≡ false }
    requires room { let d = F.device flash.old in let settings = on K.contents d side.old.area in
        ¬ IsStored settings name.now value.now
        → ¬ HasNoRoom (room_on K.room d side.old.area) side.old.area.sectors settings name.now
        value.now }

    ensures touches { Touches (side.old.area ∷ []) (F.device flash.old) (F.device flash.new)
        (is_err result) }
    ensures same { SameSide side.old side.new }
    ensures ends { let d = F.device flash.old in let settings = on K.contents d side.old.area in
        SideCommand K.contents d (F.device flash.new) side.old.area
        (IsStored settings name.now value.now) (finite.insert settings name.now value.now) result }
    ensures units { let d = F.device flash.old in let area = side.old.area in
        let g = geometry_of d area in
        CommandUnits K.owes (K.boot_units area g) (command_units g) d (F.device flash.new) area
        (is_err result) }
    ensures sound { on K.damage (F.device flash.new) side.old.area ≡ None }
    ensures stands { is_err result ≡ false
        → SideStands K.mounted_on K.stands (F.device flash.new) side.new }
    ensures down { is_err result ≡ true → K.runs side.new.store ≡ false }
{
    match side.store.set(flash, name, value, steps) {
        Ok(()) => Ok(()),
        Err(SetFault::PowerLost) => Err(PowerLost),
        Err(SetFault::TooManyNames) => unreachable!(),
        Err(SetFault::NoSpace { need: _, live: _ }) => unreachable!(),
    }
}

// Deletes a name on one side. The area is all FF afterwards only if it was so before.
pub(crate) fn take<K: Priced, F: Flash, L: Ledger>(
    side: &mut Side<K>,
    flash: &mut F,
    name: &Name,
    steps: &mut Steps<L>,
) -> Result<(), PowerLost>
    requires stands { SideStands K.mounted_on K.stands (F.device flash.old) side.old }

    ensures touches { Touches (side.old.area ∷ []) (F.device flash.old) (F.device flash.new)
        (is_err result) }
    ensures same { SameSide side.old side.new }
    ensures ends { let d = F.device flash.old in let settings = on K.contents d side.old.area in
        SideCommand K.contents d (F.device flash.new) side.old.area
        (IsAbsent settings name.now) (finite.remove settings name.now) result }
    ensures written { StaysWritten (F.device flash.old) (F.device flash.new) side.old.area }
    ensures units { let d = F.device flash.old in let area = side.old.area in
        let g = geometry_of d area in
        CommandUnits K.owes (K.boot_units area g) (command_units g) d (F.device flash.new) area
        (is_err result) }
    ensures sound { on K.damage (F.device flash.new) side.old.area ≡ None }
    ensures stands { is_err result ≡ false
        → SideStands K.mounted_on K.stands (F.device flash.new) side.new }
    ensures down { is_err result ≡ true → K.runs side.new.store ≡ false }
{
    side.store.delete(flash, name, steps)
}
