// The mount of a map: its selector, and then settings on the active area.
ghost use Rattle.std.specs.Prelude.{◌≡◌, ℕ, ◌≤◌, ◌++◌, ◌∷◌, [], true, None, Some, OnOk};
ghost use Rattle.flash_map.specs.declared.area.Area.{Area as area_type};
ghost use Rattle.flash_map.specs.Spending.{Spends, SpendsAtMost};
ghost use Rattle.flash_map.specs.Touches.{Touches};
ghost use Rattle.fcb_ring.specs.Standing.{erases_on};
ghost use Rattle.migrator.specs.Active.{active_on, selector_damage_on};
ghost use Rattle.migrator.specs.Areas.{IsLawfulMap, selector_of};
ghost use Rattle.session.specs.OnMap.{HasSelector, IsAtRest, IsServedMap, SameRecords, active_area, damage_in, mount_bound, selector_erases, selectors};
ghost use Rattle.session.specs.Owing.{MapUnits};
ghost use Rattle.session.specs.Mounting.{MapEnds, SelectorEnds, answered, map_lost, mounted_as, selected_as};

use crate::areas::selector_place;
use crate::fault::SessionFault;
use crate::session::Session;
use backend_api::Backend;
use flash_map::{Damaged, FlashMap, MountFault};
use flash_sim::{Flash, Steps};
use migrator::{Selector, area_at, first_store};
use script_lines::Answer;
use settings_core::Settings;
use std::alloc::Global;
use std::sync::ledger::Ledger;

/// Why a map was not mounted.
#[derive(Clone, Copy)]
pub(crate) enum MapFault {
    /// The area at this place is damaged.
    Damaged { area: usize, damage: Damaged },
    /// Power was lost.
    PowerLost,
    /// There was not enough memory.
    NoMemory,
}

// The selector at this place, if it was mounted; else why not.
fn selected_as(
    place: usize,
    mounted: Result<Selector, MountFault>,
) -> Result<Option<Selector>, MapFault>
    ensures { result ≡ selected_as place mounted }
{
    match mounted {
        Ok(selector) => Ok(Some(selector)),
        Err(MountFault::Damaged(damage)) => Err(MapFault::Damaged {
            area: place,
            damage,
        }),
        Err(MountFault::PowerLost) => Err(MapFault::PowerLost),
        Err(MountFault::NoMemory) => Err(MapFault::NoMemory),
    }
}

// Mounts the selector, if the map has one.
fn mount_selector<F: Flash, L: Ledger>(
    flash: &mut F,
    map: &FlashMap,
    steps: &mut Steps<L>,
) -> Result<Option<Selector>, MapFault>
    requires lawful { IsLawfulMap (F.device flash.old).banks map.now }

    ensures touches { Touches (selectors map.now) (F.device flash.old) (F.device flash.new)
        (map_lost result) }
    ensures ends { SelectorEnds map.now (F.device flash.old) (F.device flash.new) result }
    ensures sound { selector_damage_on map.now (F.device flash.old) ≡ None
        → selector_damage_on map.now (F.device flash.new) ≡ None }
    ensures active { selector_damage_on map.now (F.device flash.old) ≡ None
        → active_on map.now (F.device flash.new) ≡ active_on map.now (F.device flash.old) }
    ensures records { selector_damage_on map.now (F.device flash.old) ≡ None
        → SameRecords map.now (F.device flash.old) (F.device flash.new) }
    ensures idle { ((area : area_type) → selector_of map.now ≡ Some area
        → erases_on (F.device flash.old) area ≡ 0) → F.device flash.new ≡ F.device flash.old }
    ensures units { OnOk result ((area : area_type) → selector_of map.now ≡ Some area
        → Spends (F.device flash.old) (F.device flash.new) (erases_on (F.device flash.old) area)) }
    ensures at_most { SpendsAtMost (F.device flash.old) (F.device flash.new)
        (selector_erases map.now (F.device flash.old)) }
    ensures left { selector_erases map.now (F.device flash.new)
        ≤ selector_erases map.now (F.device flash.old) }
{
    match selector_place(map) {
        Some(place) => {
            let mounted = Selector::mount(flash, area_at(map, place), steps);
            selected_as(place, mounted)
        }
        None => Ok(None),
    }
}

// The place of the active area.
fn active_place<F: Flash, L: Ledger>(
    flash: &F,
    map: &FlashMap,
    selector: &Option<Selector>,
    steps: &mut Steps<L>,
) -> usize
    requires { HasSelector map.now (F.device flash.now) selector.now }
    ensures { result ≡ active_on map.now (F.device flash.now) }
{
    match selector {
        Some(selector) => selector.active(flash, map, steps),
        None => first_store(map),
    }
}

// The session, if settings were mounted; else why not.
fn mounted_as<K: Backend>(
    selector: Option<Selector>,
    place: usize,
    mounted: Result<Settings<K>, MountFault>,
) -> Result<Session<K>, MapFault>
    ensures { result ≡ mounted_as selector place mounted }
{
    match mounted {
        Ok(settings) => Ok(Session {
            selector,
            settings: Some(settings),
            active: place,
        }),
        Err(MountFault::Damaged(damage)) => Err(MapFault::Damaged {
            area: place,
            damage,
        }),
        Err(MountFault::PowerLost) => Err(MapFault::PowerLost),
        Err(MountFault::NoMemory) => Err(MapFault::NoMemory),
    }
}

// Mounts a map: the selector, and then settings on the active area.
pub(crate) fn mount_map<K: Backend, F: Flash, L: Ledger>(
    alloc: Global,
    flash: &mut F,
    map: &FlashMap,
    steps: &mut Steps<L>,
) -> Result<Session<K>, MapFault>
    requires map { IsServedMap K.serves map.now (F.device flash.old) }
    requires on { (F.device flash.old).is_on ≡ true }

    ensures touches { let areas =
        selectors map.now ++ active_area map.now (F.device flash.old) ∷ [] in
        Touches areas (F.device flash.old) (F.device flash.new) (map_lost result) }
    ensures ends { let d = F.device flash.old in let e = F.device flash.new in
        MapEnds K.mounted_on K.stands K.runs K.damage K.contents map.now d e result }
    ensures sound { damage_in K.damage map.now (F.device flash.old) ≡ None
        → damage_in K.damage map.now (F.device flash.new) ≡ None }
    ensures records { selector_damage_on map.now (F.device flash.old) ≡ None
        → SameRecords map.now (F.device flash.old) (F.device flash.new) }
    ensures rests { IsAtRest K.rests map.now (F.device flash.old)
        → F.device flash.new ≡ F.device flash.old }
    ensures at_most { SpendsAtMost (F.device flash.old) (F.device flash.new)
        (mount_bound map.now (F.device flash.old)) }
    ensures owes { MapUnits K.owes map.now (F.device flash.old) (F.device flash.new) }
{
    let selector = match mount_selector(flash, map, steps) {
        Ok(selector) => selector,
        Err(fault) => return Err(fault),
    };
    let place = active_place(flash, map, &selector, steps);
    let mounted = Settings::mount(alloc, flash, area_at(map, place), steps);
    mounted_as(selector, place, mounted)
}

// The session with the answer to its mount, which took so many units; or why it stopped.
pub(crate) fn answered<K: Backend>(
    units: u64,
    mounted: Result<Session<K>, MapFault>,
) -> Result<(Session<K>, Answer), SessionFault>
    ensures { result ≡ answered units mounted }
{
    match mounted {
        Ok(session) => Ok((session, Answer::Done { units })),
        Err(MapFault::PowerLost) => {
            let lost = Answer::Lost {
                units,
                chance: false,
            };
            Ok((Session::down(), lost))
        }
        Err(MapFault::Damaged { area, damage }) => Err(SessionFault::Damaged { area, damage }),
        Err(MapFault::NoMemory) => Err(SessionFault::NoMemory),
    }
}
