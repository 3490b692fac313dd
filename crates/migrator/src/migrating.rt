// The migration of all settings to another area.
ghost use Rattle.std.specs.Prelude.{◌≡◌, ◌⊎◌, ◌+◌, ◌<◌, ◌≤◌, ◌∷◌, [], true, false, Some, None, IfOk, OnErr, OnOk, count_by, is_err};
ghost use Rattle.std.specs.FinMap as finite;
ghost use Rattle.flash_map.specs.Area.{sectors_of, geometry_of, AreApart};
ghost use Rattle.flash_map.specs.Lawful.{IsLawfulFor};
ghost use Rattle.flash_map.specs.Spending.{Spends, SpendsAtMost};
ghost use Rattle.flash_map.specs.Touches.{Touches};
ghost use Rattle.flash_map.specs.Units.{is_written};
ghost use Rattle.flash_map.specs.On.{on, HoldsOn, StandsOn};
ghost use Rattle.fcb_ring.specs.Standing.{erases_on, is_up};
ghost use Rattle.migrator.specs.Areas.{is_store_at};
ghost use Rattle.migrator.specs.Choosing.{IsOpen};
ghost use Rattle.migrator.specs.Migrating.{migrate_lost, is_refused, ActiveRests, IsLeftResting, IsServed, CanMove, KeepsSelector, KeepsSource, ChoosesOnce, FillSpends, FillsAndChooses, fill_units, move_units, migrate_units, filled_as, moved_as, worked_on, room_on, OpenEnds, FillEnds, ReadsAs, MoveEnds, MigrateEnds};

use crate::Selector;
use crate::areas::{area_at, target};
use crate::copying::{put_all, read_all};
use backend_api::{Backend, SetFault};
use flash_map::{Area, FlashMap, MountFault};
use flash_sim::{Flash, PowerLost, Steps};
use std::alloc::Global;
use std::sync::ledger::Ledger;

/// Why the settings were not moved.
#[derive(Clone, Copy, Debug, PartialEq, Eq)]
pub enum MigrateFault {
    /// There is no other store area.
    NoTarget,
    /// The target has no room for a setting. `need` is what that setting needs, `live` what those
    /// before it cost, both in bytes.
    NoSpace { need: u64, live: u64 },
    /// A name would be one too many for the target.
    TooManyNames,
    /// Power was off, or was lost in the call.
    PowerLost,
    /// There was not enough memory.
    NoMemory,
}

// Erases the sectors of an area that are not erased. It then reads as no settings, and a mount of it
// has nothing to do.
fn erase<F: Flash, K: Backend, L: Ledger>(
    flash: &mut F,
    area: &Area,
    steps: &mut Steps<L>,
) -> Result<(), PowerLost>
    requires lawful { IsLawfulFor (F.device flash.old).banks area.now }
    requires serves { K.serves area.now (geometry_of (F.device flash.old) area.now) }

    ensures touches { Touches (area.now ∷ []) (F.device flash.old) (F.device flash.new)
        (is_err result) }
    ensures sound { OnOk result (on K.damage (F.device flash.new) area.now ≡ None) }
    ensures empty { OnOk result (on K.contents (F.device flash.new) area.now ≡ finite.empty) }
    ensures rests { OnOk result (HoldsOn K.rests (F.device flash.new) area.now) }
    ensures units { let d = F.device flash.old in
        OnOk result (Spends d (F.device flash.new) (count_by is_written (sectors_of d area.now))) }
    ensures units_lost { let d = F.device flash.old in
        OnErr result
        (SpendsAtMost d (F.device flash.new) (count_by is_written (sectors_of d area.now))) }
{
    K::format(flash, area, steps)
}

// Erases an area, and mounts a store on it. That mount spends nothing.
fn open_blank<F: Flash, K: Backend, L: Ledger>(
    alloc: Global,
    flash: &mut F,
    area: Area,
    steps: &mut Steps<L>,
) -> Result<K, MigrateFault>
    requires lawful { IsLawfulFor (F.device flash.old).banks area }
    requires serves { K.serves area (geometry_of (F.device flash.old) area) }

    ensures touches { Touches (area ∷ []) (F.device flash.old) (F.device flash.new)
        (migrate_lost result) }
    ensures ends { OpenEnds (on K.contents (F.device flash.new) area) result }
    ensures on { IfOk result (λ state. K.mounted_on state ≡ area) }
    ensures stands { IfOk result
        (λ state. StandsOn K.mounted_on K.stands (F.device flash.new) state) }
    ensures at_most { let d = F.device flash.old in
        SpendsAtMost d (F.device flash.new) area.sectors }
    ensures erased { let d = F.device flash.old in
        OnOk result (Spends d (F.device flash.new) (count_by is_written (sectors_of d area))) }
{
    let erased: Result<(), PowerLost> = erase::<F, K, L>(flash, &area, steps);
    match erased {
        Ok(()) => {}
        Err(_) => return Err(MigrateFault::PowerLost),
    }
    match K::mount(alloc, flash, area, steps) {
        Ok(state) => Ok(state),
        Err(MountFault::PowerLost) => Err(MigrateFault::PowerLost),
        Err(MountFault::NoMemory) => Err(MigrateFault::NoMemory),
        Err(MountFault::Damaged(_)) => unreachable!(),
    }
}

// The store, if all settings were put into it; else why not.
fn filled_as<K: Backend>(to: K, copied: Result<(), SetFault>) -> Result<K, MigrateFault>
    ensures { result ≡ filled_as to copied }
{
    match copied {
        Ok(()) => Ok(to),
        Err(SetFault::NoSpace { need, live }) => Err(MigrateFault::NoSpace { need, live }),
        Err(SetFault::TooManyNames) => Err(MigrateFault::TooManyNames),
        Err(SetFault::PowerLost) => Err(MigrateFault::PowerLost),
    }
}

// The store and its index, if the selector names it now.
fn moved_as<K: Backend>(
    to: K,
    index: usize,
    chosen: Result<(), PowerLost>,
) -> Result<(K, usize), MigrateFault>
    ensures { result ≡ moved_as (to, index) chosen }
{
    match chosen {
        Ok(()) => Ok((to, index)),
        Err(_) => Err(MigrateFault::PowerLost),
    }
}

/// Reads all settings of a store into memory. Then it erases each sector of an area that is not all
/// FF, mounts a store on it, and puts them into it, in the byte order of their names. The source
/// stays as it is. Whatever the result, it spends at most the units and erases that `fill_units`
/// gives for the area's geometry and the count of settings.
///
/// # Errors
/// `TooManyNames` and `NoSpace` if the area has no place for a setting beside those of lesser
/// names; `NoMemory`; `PowerLost`. The area may then hold any settings. Never `NoTarget`.
pub fn fill<F: Flash, K: Backend, L: Ledger>(
    alloc: Global,
    from: &K,
    flash: &mut F,
    area: Area,
    steps: &mut Steps<L>,
) -> Result<K, MigrateFault>
    requires lawful_from { IsLawfulFor (F.device flash.old).banks (K.mounted_on from.now) }
    requires stands_from { StandsOn K.mounted_on K.stands (F.device flash.old) from.now }
    requires lawful { IsLawfulFor (F.device flash.old).banks area }
    requires serves { K.serves area (geometry_of (F.device flash.old) area) }
    requires apart { AreApart area (K.mounted_on from.now) }
    requires version { area.version ≡ (K.mounted_on from.now).version }

    ensures touches { Touches (area ∷ []) (F.device flash.old) (F.device flash.new)
        (migrate_lost result) }
    ensures source { let area = K.mounted_on from.now in
        sectors_of (F.device flash.new) area ≡ sectors_of (F.device flash.old) area }
    ensures ends { let d = F.device flash.old in
        let settings = on K.contents d (K.mounted_on from.now) in
        FillEnds (room_on K.room d area) area.sectors settings
        (on K.contents (F.device flash.new) area) result }
    ensures on { IfOk result (λ state. K.mounted_on state ≡ area) }
    ensures stands { IfOk result
        (λ state. StandsOn K.mounted_on K.stands (F.device flash.new) state) }
    ensures spends { let d = F.device flash.old in
        let settings = on K.contents d (K.mounted_on from.now) in
        FillSpends d (F.device flash.new) area (finite.len settings) result }
{
    let Ok(settings) = read_all(alloc, from, flash, steps) else {
        return Err(MigrateFault::NoMemory);
    };
    let opened: Result<K, MigrateFault> = open_blank(alloc, flash, area, steps);
    let mut to = match opened {
        Ok(to) => to,
        Err(fault) => return Err(fault),
    };
    let copied = put_all(&settings, &mut to, flash, steps);
    filled_as(to, copied)
}

// Moves all settings to this area, and makes it the active one.
fn move_to<F: Flash, K: Backend, L: Ledger>(
    alloc: Global,
    flash: &mut F,
    map: &FlashMap,
    selector: &mut Selector,
    from: &K,
    area: Area,
    index: u8,
    steps: &mut Steps<L>,
) -> Result<(K, usize), MigrateFault>
    requires moves { let d = F.device flash.old in
        CanMove K.serves K.mounted_on K.stands d selector.old.ring from.now area }
    requires store { is_store_at map.now index ≡ true }

    ensures touches { let areas = area ∷ selector.old.ring.area ∷ [] in
        Touches areas (F.device flash.old) (F.device flash.new) (migrate_lost result) }
    ensures source { let area = K.mounted_on from.now in
        sectors_of (F.device flash.new) area ≡ sectors_of (F.device flash.old) area }
    ensures selector { let e = F.device flash.new in
        KeepsSelector e selector.old.ring selector.new.ring (migrate_lost result) }
    ensures ends { let d = F.device flash.old in
        let settings = on K.contents d (K.mounted_on from.now) in
        MoveEnds K.mounted_on K.damage K.contents (room_on K.room d area) map.now
        selector.old.ring.area area index settings d (F.device flash.new) result }
    ensures stands { IfOk result
        (λ moved. StandsOn K.mounted_on K.stands (F.device flash.new) moved.0) }
    ensures at_most { let d = F.device flash.old in let e = F.device flash.new in
        let names = finite.len (on K.contents d (K.mounted_on from.now)) in
        SpendsAtMost d e (move_units d selector.old.ring.area area names) }
    ensures kept { let e = F.device flash.new in let area = selector.old.ring.area in
        is_refused result ≡ true → sectors_of e area ≡ sectors_of (F.device flash.old) area }
    ensures chosen { let d = F.device flash.old in let e = F.device flash.new in
        let names = finite.len (on K.contents d (K.mounted_on from.now)) in
        OnOk result (FillsAndChooses map.now d e selector.old.ring area index names) }
    ensures rests { let d = F.device flash.old in let e = F.device flash.new in
        ActiveRests K.rests map.now selector.old.ring.area area index d e }
    ensures left { erases_on (F.device flash.new) selector.old.ring.area ≤ 1 }
{
    let filled: Result<K, MigrateFault> = fill(alloc, from, flash, area, steps);
    let to = match filled {
        Ok(to) => to,
        Err(fault) => return Err(fault),
    };
    let chosen = selector.choose(flash, map, index, steps);
    moved_as(to, index as usize, chosen)
}

/// Moves all settings to the next store area of the map, and makes that area the active one. All
/// of them are in memory before the target is erased. It returns the store on that area, and the
/// area's index. The selector gets one record more, after the target was filled. The sectors of the
/// source stay as they are. Whatever happens, the active area reads as the same settings, a mount
/// of it has nothing to do, and one of the selector erases at most one sector. It spends at most
/// the units and erases of filling the target once and choosing it (`migrate_units`).
///
/// # Errors
/// `NoTarget` exactly if there is no other store area; nothing changed then. `TooManyNames` and
/// `NoSpace` if the target has no place for a setting beside those of lesser names, and `NoMemory`:
/// the source is still active, and the selector's sectors are as before. `PowerLost`: the source is
/// active, or the target, which then has all settings; the selector is down, or takes calls as
/// before.
pub fn migrate<F: Flash, K: Backend, L: Ledger>(
    alloc: Global,
    flash: &mut F,
    map: &FlashMap,
    selector: &mut Selector,
    from: &K,
    active: usize,
    steps: &mut Steps<L>,
) -> Result<(K, usize), MigrateFault>
    requires { let d = F.device flash.old in
        IsServed K.serves K.mounted_on K.stands map.now d selector.old.ring from.now active }

    ensures touches { let areas = worked_on map.now selector.old.ring.area active in
        Touches areas (F.device flash.old) (F.device flash.new) (migrate_lost result) }
    ensures source { let d = F.device flash.old in
        KeepsSource K.mounted_on K.stands d (F.device flash.new) from.now }
    ensures area { selector.new.ring.area ≡ selector.old.ring.area }
    ensures map { let settings = on K.contents (F.device flash.old) (K.mounted_on from.now) in
        ReadsAs K.damage K.contents map.now (F.device flash.new) settings }
    ensures ends { let d = F.device flash.old in
        let settings = on K.contents d (K.mounted_on from.now) in
        MigrateEnds K.mounted_on K.damage K.contents K.room map.now selector.old.ring.area active
        settings d (F.device flash.new) result }
    ensures goes_on { let e = F.device flash.new in IfOk result (λ moved.
        IsServed K.serves K.mounted_on K.stands map.now e selector.new.ring moved.0 moved.1) }
    ensures stays { let e = F.device flash.new in is_refused result ≡ true
        → IsServed K.serves K.mounted_on K.stands map.now e selector.new.ring from.now active }
    ensures lost { let e = F.device flash.new in migrate_lost result ≡ true
        → (is_up selector.new.ring.stage ≡ false) ⊎ IsOpen e selector.new.ring }
    ensures at_most { let d = F.device flash.old in let e = F.device flash.new in
        let names = finite.len (on K.contents d (K.mounted_on from.now)) in
        SpendsAtMost d e (migrate_units d map.now selector.old.ring.area active names) }
    ensures once { let d = F.device flash.old in let e = F.device flash.new in
        let names = finite.len (on K.contents d (K.mounted_on from.now)) in
        ChoosesOnce K.mounted_on map.now d e selector.old.ring names result }
    ensures rests { IsLeftResting K.rests map.now selector.old.ring.area (F.device flash.new) }
{
    match target(map, active) {
        Some(index) => {
            let area = area_at(map, index);
            move_to(alloc, flash, map, selector, from, area, index as u8, steps)
        }
        None => Err(MigrateFault::NoTarget),
    }
}
