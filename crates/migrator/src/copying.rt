// The copy of all settings from one store into another.
ghost use Rattle.std.specs.Prelude.{◌≡◌, ◌*◌, ◌∷◌, [], All, IfOk, false, length, map};
ghost use Rattle.std.specs.FinMap as finite;
ghost use Rattle.flash_map.specs.Area.{geometry_of, value_limit};
ghost use Rattle.flash_map.specs.Lawful.{IsLawfulFor};
ghost use Rattle.flash_map.specs.Spending.{SpendsAtMost};
ghost use Rattle.flash_map.specs.Touches.{Touches};
ghost use Rattle.backend_api.specs.Ends.{set_lost};
ghost use Rattle.backend_api.specs.Map.{IsValue, Map as settings_type};
ghost use Rattle.backend_api.specs.Room.{command_units};
ghost use Rattle.flash_map.specs.On.{on, StandsOn};
ghost use Rattle.migrator.specs.Copying.{CopyEnds, PutsInOrder, pair_of};
ghost use Rattle.migrator.specs.Migrating.{room_on};

use backend_api::{Backend, SetFault};
use flash_sim::{Flash, NoMemory, Steps};
use setting_name::Name;
use std::alloc::Global;
use std::sync::ledger::Ledger;

/// When it is the turn of a name, the copy has the settings of all lesser names. The function does
/// nothing; its contract is the law.
pub fn put_in_order()
    ensures { (settings : settings_type) → PutsInOrder settings }
{}

// A setting in memory.
#[derive(Drop)]
pub(crate) struct Setting {
    name: Name,
    value: Vec<u8>,
}

// All settings of a store, in the byte order of their names, read into memory.
pub(crate) fn read_all<F: Flash, K: Backend, L: Ledger>(
    alloc: Global,
    from: &K,
    flash: &F,
    steps: &mut Steps<L>,
) -> Result<Vec<Setting>, NoMemory>
    requires lawful { IsLawfulFor (F.device flash.now).banks (K.mounted_on from.now) }
    requires stands { StandsOn K.mounted_on K.stands (F.device flash.now) from.now }
    ensures pairs { let settings = on K.contents (F.device flash.now) (K.mounted_on from.now) in
        IfOk result (λ all. map pair_of all.items ≡ finite.entries settings) }
    ensures values { let limit = value_limit (K.mounted_on from.now) in
        IfOk result (λ all. All (λ setting. IsValue limit setting.value.items) all.items) }
{
    let found = from.settings(alloc, flash, steps)?;
    let mut all = Vec::new(alloc);
    for (name, bytes) in found {
        let value = bytes.to_vec(alloc)?;
        all.push(Setting { name, value })?;
    }
    Ok(all)
}

// Puts settings, in their order, into a store that has none.
pub(crate) fn put_all<F: Flash, K: Backend, L: Ledger>(
    settings: &[Setting],
    to: &mut K,
    flash: &mut F,
    steps: &mut Steps<L>,
) -> Result<(), SetFault>
    requires lawful { IsLawfulFor (F.device flash.old).banks (K.mounted_on to.old) }
    requires stands { StandsOn K.mounted_on K.stands (F.device flash.old) to.old }
    requires empty { on K.contents (F.device flash.old) (K.mounted_on to.old) ≡ finite.empty }
    requires values { let limit = value_limit (K.mounted_on to.old) in
        All (λ setting. IsValue limit setting.value.items) settings.now }

    ensures touches { Touches (K.mounted_on to.old ∷ []) (F.device flash.old) (F.device flash.new)
        (set_lost result) }
    ensures area { K.mounted_on to.new ≡ K.mounted_on to.old }
    ensures ends { let area = K.mounted_on to.old in let d = F.device flash.old in
        let e = F.device flash.new in
        (all : settings_type) → map pair_of settings.now ≡ finite.entries all
        → CopyEnds (room_on K.room d area) area.sectors all (on K.contents e area) result }
    ensures at_most { let d = F.device flash.old in
        SpendsAtMost d (F.device flash.new)
        (length settings.now * command_units (geometry_of d (K.mounted_on to.old))) }
    ensures stands { set_lost result ≡ false
        → StandsOn K.mounted_on K.stands (F.device flash.new) to.new }
{
    for setting in settings {
        to.set(flash, &setting.name, &setting.value, steps)?;
    }
    Ok(())
}
