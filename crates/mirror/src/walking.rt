// Walks over the names of a store's map, for the room of an area, which may be another one
// than the store's.
ghost use Rattle.std.specs.Prelude.{◌≡◌, ◌+◌, ◌<◌, ◌≤◌, ◌^◌, ℕ, List, true, length, map, IfOk, if◌then◌else◌};
ghost use Rattle.std.specs.FinMap as finite;
ghost use Rattle.flash_map.specs.Area.{geometry_of};
ghost use Rattle.flash_map.specs.declared.area.TheConstants.{LONG_VALUE_LIMIT};
ghost use Rattle.flash_map.specs.Lawful.{IsLawfulFor};
ghost use Rattle.flash_map.specs.On.{on, StandsOn};
ghost use Rattle.backend_api.specs.Map.{IsStored};
ghost use Rattle.mirror.specs.Room.{IsMirrored, alike, prices_on, room_by};

use crate::priced::Priced;
use backend_api::Backend;
use flash_map::Area;
use flash_sim::{Flash, NoMemory, Steps};
use setting_name::Name;
use std::alloc::Global;
use std::sync::ledger::Ledger;

// How many bytes the value of a name has.
fn value_length<K: Priced, F: Flash, L: Ledger>(
    store: &K,
    flash: &F,
    name: &Name,
    steps: &mut Steps<L>,
) -> u32
    requires lawful { IsLawfulFor (F.device flash.now).banks (K.mounted_on store.now) }
    requires stands { StandsOn K.mounted_on K.stands (F.device flash.now) store.now }
    ensures value { let settings = on K.contents (F.device flash.now) (K.mounted_on store.now) in
        (value : List ℕ) → IsStored settings name.now value → result ≡ length value }
    ensures short { result ≤ LONG_VALUE_LIMIT }
{
    match store.get(flash, name, steps) {
        Some(bytes) => bytes.len() as u32,
        None => 0,
    }
}

// What a name and its value cost in an area, in bytes.
fn pair_price<K: Priced, F: Flash, L: Ledger>(
    store: &K,
    flash: &F,
    area: &Area,
    name: &Name,
    steps: &mut Steps<L>,
) -> u64
    requires lawful { IsLawfulFor (F.device flash.now).banks (K.mounted_on store.now) }
    requires stands { StandsOn K.mounted_on K.stands (F.device flash.now) store.now }
    requires area { IsLawfulFor (F.device flash.now).banks area.now }
    requires role { IsMirrored area.now }
    ensures price { let d = F.device flash.now in
        let price = (prices_on K.prices d area.now).price in
        (value : List ℕ) → IsStored (on K.contents d (K.mounted_on store.now)) name.now value
        → result ≡ price (length name.now) + price (length value) }
    ensures small { result < 2 ^ 17 }
{
    let length = value_length(store, flash, name, steps);
    K::price(flash, area, name.bytes().len() as u32) + K::price(flash, area, length)
}

// What the map of a store costs in an area, in bytes.
pub(crate) fn map_cost<K: Priced, F: Flash, L: Ledger>(
    store: &K,
    flash: &F,
    area: &Area,
    steps: &mut Steps<L>,
) -> u64
    requires lawful { IsLawfulFor (F.device flash.now).banks (K.mounted_on store.now) }
    requires stands { StandsOn K.mounted_on K.stands (F.device flash.now) store.now }
    requires area { IsLawfulFor (F.device flash.now).banks area.now }
    requires role { IsMirrored area.now }
    ensures cost { let d = F.device flash.now in
        let settings = on K.contents d (K.mounted_on store.now) in
        result ≡ (room_by (prices_on K.prices d area.now)).cost settings }
    ensures small { result < 2 ^ 50 }
{
    let mut cost = K::counted(flash, area);
    let mut at = store.next_name(flash, None, steps);
    while let Some(name) = at {
        cost += pair_price(store, flash, area, &name, steps);
        at = store.next_name(flash, Some(&name), steps);
    }
    cost
}

pub(crate) fn one_if(is: bool) -> u64
    ensures { result ≡ (if is then 1 else 0) }
{
    if is { 1 } else { 0 }
}

// How many names of the map of a store have the class of this name in an area.
pub(crate) fn alike<K: Priced, F: Flash, L: Ledger>(
    store: &K,
    flash: &F,
    area: &Area,
    name: &Name,
    steps: &mut Steps<L>,
) -> u64
    requires lawful { IsLawfulFor (F.device flash.now).banks (K.mounted_on store.now) }
    requires stands { StandsOn K.mounted_on K.stands (F.device flash.now) store.now }
    requires area { IsLawfulFor (F.device flash.now).banks area.now }
    requires role { IsMirrored area.now }
    ensures { let d = F.device flash.now in
        let settings = on K.contents d (K.mounted_on store.now) in
        result ≡ alike (prices_on K.prices d area.now) settings name.now }
{
    let class = K::class(flash, area, name);
    let mut count: u64 = 0;
    let mut at = store.next_name(flash, None, steps);
    while let Some(other) = at {
        count += one_if(K::class(flash, area, &other) == class);
        at = store.next_name(flash, Some(&other), steps);
    }
    count
}

// The classes of all names of the map of a store in an area, in the order of the names.
pub(crate) fn classes<K: Priced, F: Flash, L: Ledger>(
    alloc: Global,
    store: &K,
    flash: &F,
    area: &Area,
    steps: &mut Steps<L>,
) -> Result<Vec<u32>, NoMemory>
    requires lawful { IsLawfulFor (F.device flash.now).banks (K.mounted_on store.now) }
    requires stands { StandsOn K.mounted_on K.stands (F.device flash.now) store.now }
    requires area { IsLawfulFor (F.device flash.now).banks area.now }
    requires role { IsMirrored area.now }
    ensures { IfOk result
        (λ found. let d = F.device flash.now in found.items
        ≡ map (prices_on K.prices d area.now).class
        (finite.keys (on K.contents d (K.mounted_on store.now)))) }
{
    let settings = store.settings(alloc, flash, steps)?;
    let mut found = Vec::new(alloc);
    for name in settings.keys() {
        match found.push(K::class(flash, area, name)) {
            Ok(()) => {}
            Err(_) => return Err(NoMemory),
        }
    }
    Ok(found)
}
