// Whether maps and puts fit an area.
ghost use Rattle.std.specs.Prelude.{◌≡◌, ◌<◌, ◌≤◌, ◌+◌, ◌-◌, ◌*◌, ◌^◌, ◌==◌, ℕ, true, false, length, count_by, IfOk, max, not};
ghost use Rattle.std.specs.Bool.{MatchBool};
ghost use Rattle.std.specs.FinMap as finite;
ghost use Rattle.flash_map.specs.Area.{geometry_of, value_limit};
ghost use Rattle.flash_map.specs.Lawful.{IsLawfulFor};
ghost use Rattle.flash_map.specs.On.{on, StandsOn};
ghost use Rattle.setting_name.specs.Name.{IsName};
ghost use Rattle.backend_api.specs.Map.{IsStored};
ghost use Rattle.migrator.specs.Migrating.{room_on};
ghost use Rattle.mirror.specs.Room.{FitsOn, IsMirrored, have_few, mirror_room, prices_on, too_many_on};
ghost use Rattle.mirror.specs.Mirrored.{LooksForRoom};

use crate::priced::Priced;
use crate::walking::{alike, classes, map_cost, one_if};
use backend_api::{Backend, SetFault};
use flash_map::{Area, geometry};
use flash_sim::{Flash, NoMemory, Steps};
use setting_name::{NAME_LIMIT, Name};
use std::alloc::Global;
use std::sync::ledger::Ledger;

// The most that a map may cost in an area, in bytes.
pub(crate) fn mirror_room<K: Priced, F: Flash>(flash: &F, area: &Area) -> u64
    requires area { IsLawfulFor (F.device flash.now).banks area.now }
    requires role { IsMirrored area.now }
    ensures { let d = F.device flash.now in
        result ≡ mirror_room (room_on K.room d area.now) area.now.sectors (value_limit area.now) }
{
    let name = K::price(flash, area, NAME_LIMIT as u32);
    let value = K::price(flash, area, area.value_limit());
    let greatest = K::counted(flash, area).max(value.max(name));
    u64::from(area.sectors - 1) * K::cap(flash, area).saturating_sub(greatest)
}

// How many of the classes equal this one.
fn count_same(classes: &[u32], class: u32) -> u64
    ensures { result ≡ count_by (λ other. other == class) classes.now }
{
    let mut count: u64 = 0;
    for other in classes {
        count += one_if(*other == class);
    }
    count
}

// Whether each class stands there at most `most` times.
fn are_few(classes: &[u32], most: u32) -> bool
    ensures { result ≡ have_few most classes.now }
{
    let mut few = true;
    for class in classes {
        few &= count_same(classes, *class) <= u64::from(most);
    }
    few
}

// Whether the map of a store fits an area.
pub(crate) fn fits<K: Priced, F: Flash, L: Ledger>(
    alloc: Global,
    store: &K,
    flash: &F,
    area: &Area,
    steps: &mut Steps<L>,
) -> Result<bool, NoMemory>
    requires lawful { IsLawfulFor (F.device flash.now).banks (K.mounted_on store.now) }
    requires stands { StandsOn K.mounted_on K.stands (F.device flash.now) store.now }
    requires area { IsLawfulFor (F.device flash.now).banks area.now }
    requires role { IsMirrored area.now }
    ensures { IfOk result
        (λ fits. let d = F.device flash.now in let settings = on K.contents d
        (K.mounted_on store.now) in MatchBool fits (FitsOn K.room K.prices d area.now settings)
        (¬ FitsOn K.room K.prices d area.now settings)) }
{
    if map_cost(store, flash, area, steps) > mirror_room::<K, F>(flash, area) {
        return Ok(false);
    }
    match classes(alloc, store, flash, area, steps) {
        Ok(found) => Ok(are_few(&found, K::most(flash, area))),
        Err(_) => Err(NoMemory),
    }
}

// Whether the name has just this value.
pub(crate) fn has_value<K: Priced, F: Flash, L: Ledger>(
    store: &K,
    flash: &F,
    name: &Name,
    value: &[u8],
    steps: &mut Steps<L>,
) -> bool
    requires lawful { IsLawfulFor (F.device flash.now).banks (K.mounted_on store.now) }
    requires stands { StandsOn K.mounted_on K.stands (F.device flash.now) store.now }
    ensures { let settings = on K.contents (F.device flash.now) (K.mounted_on store.now) in
        MatchBool result (IsStored settings name.now value.now)
        (¬ IsStored settings name.now value.now) }
{
    match store.get(flash, name, steps) {
        Some(bytes) => bytes == value,
        None => false,
    }
}

// Whether the name has no value.
fn is_new<K: Priced, F: Flash, L: Ledger>(
    store: &K,
    flash: &F,
    name: &Name,
    steps: &mut Steps<L>,
) -> bool
    requires lawful { IsLawfulFor (F.device flash.now).banks (K.mounted_on store.now) }
    requires stands { StandsOn K.mounted_on K.stands (F.device flash.now) store.now }
    ensures { let settings = on K.contents (F.device flash.now) (K.mounted_on store.now) in
        result ≡ not (finite.contains_key settings name.now) }
{
    store.get(flash, name, steps).is_none()
}

// Whether the name would be one too many in an area.
pub(crate) fn is_too_many<K: Priced, F: Flash, L: Ledger>(
    store: &K,
    flash: &F,
    area: &Area,
    name: &Name,
    steps: &mut Steps<L>,
) -> bool
    requires lawful { IsLawfulFor (F.device flash.now).banks (K.mounted_on store.now) }
    requires stands { StandsOn K.mounted_on K.stands (F.device flash.now) store.now }
    requires area { IsLawfulFor (F.device flash.now).banks area.now }
    requires role { IsMirrored area.now }
    ensures { let d = F.device flash.now in
        let settings = on K.contents d (K.mounted_on store.now) in
        result ≡ too_many_on K.room d area.now settings name.now }
{
    if !is_new(store, flash, name, steps) {
        return false;
    }
    alike(store, flash, area, name, steps) >= u64::from(K::most(flash, area))
}

// What a put needs in an area, in bytes.
fn need<K: Priced, F: Flash, L: Ledger>(
    store: &K,
    flash: &F,
    area: &Area,
    name: &Name,
    value: &[u8],
    steps: &mut Steps<L>,
) -> u64
    requires lawful { IsLawfulFor (F.device flash.now).banks (K.mounted_on store.now) }
    requires stands { StandsOn K.mounted_on K.stands (F.device flash.now) store.now }
    requires area { IsLawfulFor (F.device flash.now).banks area.now }
    requires role { IsMirrored area.now }
    requires short { length value.now ≤ value_limit area.now }
    ensures need { let d = F.device flash.now in
        let settings = on K.contents d (K.mounted_on store.now) in
        result ≡ (room_on K.room d area.now).need settings name.now value.now }
    ensures small { result < 2 ^ 17 }
    ensures name { IsName name.now }
{
    let own = K::price(flash, area, name.bytes().len() as u32);
    let price = K::price(flash, area, value.len() as u32);
    if is_new(store, flash, name, steps) {
        price + own
    } else {
        price
    }
}

// Checks whether the map of a store, with this put, costs at most what an area may have.
pub(crate) fn look_for_room<K: Priced, F: Flash, L: Ledger>(
    store: &K,
    flash: &F,
    area: &Area,
    name: &Name,
    value: &[u8],
    steps: &mut Steps<L>,
) -> Result<(), SetFault>
    requires lawful { IsLawfulFor (F.device flash.now).banks (K.mounted_on store.now) }
    requires stands { StandsOn K.mounted_on K.stands (F.device flash.now) store.now }
    requires area { IsLawfulFor (F.device flash.now).banks area.now }
    requires role { IsMirrored area.now }
    requires short { length value.now ≤ value_limit area.now }
    ensures ends { let d = F.device flash.now in
        let settings = on K.contents d (K.mounted_on store.now) in
        LooksForRoom K.room d area.now settings name.now value.now result }
    ensures name { IsName name.now }
{
    let live = map_cost(store, flash, area, steps);
    let need = need(store, flash, area, name, value, steps);
    if mirror_room::<K, F>(flash, area) < live + need {
        return Err(SetFault::NoSpace { need, live });
    }
    Ok(())
}
