// The mount of a mirror, and the repair of the area that is not trusted.
ghost use Rattle.std.specs.Prelude.{◌≡◌, ◌+◌, ◌<◌, ◌∷◌, [], true, false, length, None, Some, OnOk};
ghost use Rattle.std.specs.FinMap as finite;
ghost use Rattle.std.specs.List.{slice_get};
ghost use Rattle.flash_map.specs.declared.area.Area.{Area as area_type};
ghost use Rattle.flash_map.specs.Area.{geometry_of, sectors_of};
ghost use Rattle.flash_map.specs.Lawful.{IsLawfulFor};
ghost use Rattle.flash_map.specs.On.{on, HoldsOn, StandsOn};
ghost use Rattle.flash_map.specs.Spending.{SpendsAtMost};
ghost use Rattle.flash_map.specs.Touches.{Touches};
ghost use Rattle.backend_api.specs.Boot.{MountUnits};
ghost use Rattle.backend_api.specs.Map.{Map as map_type};
ghost use Rattle.backend_api.specs.Room.{foreign_units};
ghost use Rattle.backend_api.specs.Written.{StaysWritten};
ghost use Rattle.migrator.specs.Areas.{is_store_at, selector_of};
ghost use Rattle.migrator.specs.Migrating.{fill_units};
ghost use Rattle.mirror.specs.Mirrored.{SideStands};
ghost use Rattle.mirror.specs.Mounting.{BothEnds, BothFitEnds, FitEnds, HoldEnds, HoldsMap, IsAtRest, IsKeptIf, IsNotRefused, KeepsCopy, MayCopyTrusted, MirrorMounts, OtherEnds, RepairsAs, SideEnds, SparesAreas, SparesBoth, both_units, fault_at, mount_lost, other_place, other_units, trust_units, worked_on};
ghost use Rattle.mirror.specs.Owing.{LeavesDue, MountsOwed, OpensOwed, naming_units};
ghost use Rattle.mirror.specs.Room.{IsMirrored};
ghost use Rattle.mirror.specs.Trusted.{IsMirrorMap, MirrorReads, trusted_on};

use crate::comparing::hold_one_map;
use crate::fitting::fits;
use crate::mirror::Mirror;
use crate::priced::Priced;
use crate::sides::Side;
use crate::trusting::trust;
use backend_api::Backend;
use flash_map::{Area, Damaged, FlashMap, MountFault};
use flash_sim::{Flash, Steps};
use migrator::{MigrateFault, area_at, fill, target};
use std::alloc::Global;
use std::sync::ledger::Ledger;

/// Why a mirror was not mounted.
#[derive(Clone, Copy)]
pub enum MirrorMount {
    /// The area at this place of the map is damaged: the selector's, or the trusted one.
    Damaged { area: usize, damage: Damaged },
    /// The map of the trusted area does not fit the area at this place.
    Unfit { area: usize },
    /// Power was off, or was lost in the call.
    PowerLost,
    /// There was not enough memory.
    NoMemory,
}

// Why the area at this place was not mounted, as the mirror's mount answers it.
pub(crate) fn fault_at(place: usize, fault: MountFault) -> MirrorMount
    ensures { result ≡ fault_at place fault }
{
    match fault {
        MountFault::Damaged(damage) => MirrorMount::Damaged {
            area: place,
            damage,
        },
        MountFault::PowerLost => MirrorMount::PowerLost,
        MountFault::NoMemory => MirrorMount::NoMemory,
    }
}

// Mounts the store on the area at this place.
fn mount_side<K: Priced, F: Flash, L: Ledger>(
    alloc: Global,
    flash: &mut F,
    area: Area,
    place: usize,
    steps: &mut Steps<L>,
) -> Result<Side<K>, MirrorMount>
    requires lawful { IsLawfulFor (F.device flash.old).banks area }
    requires role { IsMirrored area }
    requires serves { K.serves area (geometry_of (F.device flash.old) area) }

    ensures touches { Touches (area ∷ []) (F.device flash.old) (F.device flash.new)
        (mount_lost result) }
    ensures ends { let d = F.device flash.old in let e = F.device flash.new in
        SideEnds K.mounted_on K.stands K.damage d e area place result }
    ensures keeps { let d = F.device flash.old in let e = F.device flash.new in
        on K.damage d area ≡ None → on K.contents e area ≡ on K.contents d area }
    ensures sound { let d = F.device flash.old in let e = F.device flash.new in
        on K.damage d area ≡ None → on K.damage e area ≡ None }
    ensures rests { HoldsOn K.rests (F.device flash.old) area
        → F.device flash.new ≡ F.device flash.old }
    ensures written { StaysWritten (F.device flash.old) (F.device flash.new) area }
    ensures units { let d = F.device flash.old in
        MountUnits K.owes (foreign_units (geometry_of d area)) d (F.device flash.new) area }
{
    let own = area;
    match K::mount(alloc, flash, area, steps) {
        Ok(store) => Ok(Side {
            store,
            area: own,
            place,
        }),
        Err(fault) => Err(fault_at(place, fault)),
    }
}

// Checks whether the map of the trusted area fits the area at this place.
fn look_for_fit<K: Priced, F: Flash, L: Ledger>(
    alloc: Global,
    trusted: &Side<K>,
    flash: &F,
    area: &Area,
    place: usize,
    steps: &mut Steps<L>,
) -> Result<(), MirrorMount>
    requires trusted { SideStands K.mounted_on K.stands (F.device flash.now) trusted.now }
    requires lawful { IsLawfulFor (F.device flash.now).banks area.now }
    requires role { IsMirrored area.now }
    ensures { let d = F.device flash.now in
        FitEnds K.room K.prices d area.now place (on K.contents d trusted.now.area) result }
{
    match fits(alloc, &trusted.store, flash, area, steps) {
        Ok(true) => Ok(()),
        Ok(false) => Err(MirrorMount::Unfit { area: place }),
        Err(_) => Err(MirrorMount::NoMemory),
    }
}

// Checks whether the map of the trusted area fits both areas, the one at the lower place first.
fn look_for_both<K: Priced, F: Flash, L: Ledger>(
    alloc: Global,
    trusted: &Side<K>,
    flash: &F,
    map: &FlashMap,
    other: usize,
    steps: &mut Steps<L>,
) -> Result<(), MirrorMount>
    requires map { IsMirrorMap K.serves map.now (F.device flash.now) }
    requires trusted { SideStands K.mounted_on K.stands (F.device flash.now) trusted.now }
    requires store { is_store_at map.now trusted.now.place ≡ true }
    requires other { is_store_at map.now other ≡ true }
    ensures { let d = F.device flash.now in
        BothFitEnds K.room K.prices map.now d trusted.now.place other
        (on K.contents d trusted.now.area) result }
{
    let low = trusted.place.min(other);
    let high = trusted.place.max(other);
    look_for_fit(alloc, trusted, flash, &area_at(map, low), low, steps)?;
    look_for_fit(alloc, trusted, flash, &area_at(map, high), high, steps)
}

// The store, if it holds the map of the trusted area; `None` if it holds another one.
fn if_same<K: Priced, F: Flash, L: Ledger>(
    trusted: &K,
    store: K,
    flash: &F,
    steps: &mut Steps<L>,
) -> Option<K>
    requires lawful { IsLawfulFor (F.device flash.now).banks (K.mounted_on trusted.now) }
    requires stands { StandsOn K.mounted_on K.stands (F.device flash.now) trusted.now }
    requires lawful_other { IsLawfulFor (F.device flash.now).banks (K.mounted_on store) }
    requires stands_other { StandsOn K.mounted_on K.stands (F.device flash.now) store }
    ensures { let d = F.device flash.now in
        IsKeptIf result store
        (on K.contents d (K.mounted_on store) ≡ on K.contents d (K.mounted_on trusted.now)) }
{
    if hold_one_map(trusted, &store, flash, steps) {
        Some(store)
    } else {
        None
    }
}

// Mounts the other area. `None` exactly if it is damaged, or holds another map than
// the trusted one.
fn mount_other<K: Priced, F: Flash, L: Ledger>(
    alloc: Global,
    trusted: &K,
    flash: &mut F,
    area: Area,
    steps: &mut Steps<L>,
) -> Result<Option<K>, MirrorMount>
    requires other { let d = F.device flash.old in
        MayCopyTrusted K.serves K.mounted_on K.stands K.contents K.room K.prices d trusted.now
        area }

    ensures touches { Touches (area ∷ []) (F.device flash.old) (F.device flash.new)
        (mount_lost result) }
    ensures trusted { let area = K.mounted_on trusted.now in
        sectors_of (F.device flash.new) area ≡ sectors_of (F.device flash.old) area }
    ensures ends { let d = F.device flash.old in let e = F.device flash.new in
        HoldEnds K.mounted_on K.stands K.damage K.contents d e area
        (on K.contents d (K.mounted_on trusted.now)) result }
    ensures held { let d = F.device flash.old in let e = F.device flash.new in
        (settings : map_type) → HoldsMap K.damage K.contents d area settings
        → KeepsCopy K.damage K.contents K.rests d e area settings
        (foreign_units (geometry_of d area)) }
    ensures rests { HoldsOn K.rests (F.device flash.old) area
        → F.device flash.new ≡ F.device flash.old }
    ensures units { let d = F.device flash.old in
        MountUnits K.owes (foreign_units (geometry_of d area)) d (F.device flash.new) area }
{
    match K::mount(alloc, flash, area, steps) {
        Ok(store) => Ok(if_same(trusted, store, flash, steps)),
        Err(MountFault::Damaged(_)) => Ok(None),
        Err(MountFault::PowerLost) => Err(MirrorMount::PowerLost),
        Err(MountFault::NoMemory) => Err(MirrorMount::NoMemory),
    }
}

// The store, if it was filled; else why not. No put of a repair is refused.
fn repaired_as<K: Backend>(filled: Result<K, MigrateFault>) -> Result<K, MirrorMount>
    requires { IsNotRefused filled }
    ensures { RepairsAs filled result }
{
    match filled {
        Ok(store) => Ok(store),
        Err(MigrateFault::PowerLost) => Err(MirrorMount::PowerLost),
        Err(MigrateFault::NoMemory) => Err(MirrorMount::NoMemory),
        Err(MigrateFault::NoTarget) => unreachable!(),
        Err(MigrateFault::NoSpace { need: _, live: _ }) => unreachable!(),
        Err(MigrateFault::TooManyNames) => unreachable!(),
    }
}

// Erases the other area, and puts all settings of the trusted one into it.
fn repair<K: Priced, F: Flash, L: Ledger>(
    alloc: Global,
    trusted: &K,
    flash: &mut F,
    area: Area,
    steps: &mut Steps<L>,
) -> Result<K, MirrorMount>
    requires other { let d = F.device flash.old in
        MayCopyTrusted K.serves K.mounted_on K.stands K.contents K.room K.prices d trusted.now
        area }

    ensures touches { Touches (area ∷ []) (F.device flash.old) (F.device flash.new)
        (mount_lost result) }
    ensures trusted { let area = K.mounted_on trusted.now in
        sectors_of (F.device flash.new) area ≡ sectors_of (F.device flash.old) area }
    ensures ends { let d = F.device flash.old in let e = F.device flash.new in
        OtherEnds K.mounted_on K.stands e area
        (on K.contents e area ≡ on K.contents d (K.mounted_on trusted.now)) result }
    ensures at_most { let d = F.device flash.old in
        let settings = on K.contents d (K.mounted_on trusted.now) in
        SpendsAtMost d (F.device flash.new)
        (fill_units (geometry_of d area) (finite.len settings)) }
{
    let filled: Result<K, MigrateFault> = fill(alloc, trusted, flash, area, steps);
    repaired_as(filled)
}

// Mounts the other area, and repairs it exactly if it is damaged or holds another map.
fn open_other<K: Priced, F: Flash, L: Ledger>(
    alloc: Global,
    trusted: &K,
    flash: &mut F,
    area: Area,
    steps: &mut Steps<L>,
) -> Result<K, MirrorMount>
    requires other { let d = F.device flash.old in
        MayCopyTrusted K.serves K.mounted_on K.stands K.contents K.room K.prices d trusted.now
        area }

    ensures touches { Touches (area ∷ []) (F.device flash.old) (F.device flash.new)
        (mount_lost result) }
    ensures trusted { let area = K.mounted_on trusted.now in
        sectors_of (F.device flash.new) area ≡ sectors_of (F.device flash.old) area }
    ensures ends { let d = F.device flash.old in let e = F.device flash.new in
        OtherEnds K.mounted_on K.stands e area
        (on K.contents e area ≡ on K.contents d (K.mounted_on trusted.now)) result }
    ensures held { let d = F.device flash.old in let e = F.device flash.new in
        let settings = on K.contents d (K.mounted_on trusted.now) in
        HoldsMap K.damage K.contents d area settings
        → KeepsCopy K.damage K.contents K.rests d e area settings
        (foreign_units (geometry_of d area)) }
    ensures idle { let d = F.device flash.old in
        let settings = on K.contents d (K.mounted_on trusted.now) in
        HoldsMap K.damage K.contents d area settings → HoldsOn K.rests d area
        → F.device flash.new ≡ d }
    ensures at_most { let d = F.device flash.old in
        let settings = on K.contents d (K.mounted_on trusted.now) in
        SpendsAtMost d (F.device flash.new)
        (other_units (geometry_of d area) (finite.len settings)) }
    ensures owes { let d = F.device flash.old in let e = F.device flash.new in
        OpensOwed K.owes K.damage K.contents d e area (on K.contents d (K.mounted_on trusted.now)) }
{
    let own = area;
    let mounted: Result<Option<K>, MirrorMount> = mount_other(alloc, trusted, flash, own, steps);
    match mounted {
        Ok(Some(store)) => Ok(store),
        Ok(None) => repair(alloc, trusted, flash, area, steps),
        Err(fault) => Err(fault),
    }
}

// The store area beside this one.
fn other_place(map: &FlashMap, trusted: usize) -> usize
    requires { trusted < length map.now }
    ensures { result ≡ other_place map.now trusted }
{
    target(map, trusted).unwrap_or(trusted)
}

// Mounts both areas. The one at this place is trusted.
fn mount_both<K: Priced, F: Flash, L: Ledger>(
    alloc: Global,
    flash: &mut F,
    map: &FlashMap,
    place: usize,
    steps: &mut Steps<L>,
) -> Result<Mirror<K>, MirrorMount>
    requires map { IsMirrorMap K.serves map.now (F.device flash.old) }
    requires store { is_store_at map.now place ≡ true }

    ensures touches { let d = F.device flash.old in let e = F.device flash.new in
        (trusted other : area_type) → slice_get map.now place ≡ Some trusted
        → slice_get map.now (other_place map.now place) ≡ Some other
        → Touches (trusted ∷ other ∷ []) d e (mount_lost result) }
    ensures ends { let d = F.device flash.old in let e = F.device flash.new in
        (trusted other : area_type) → slice_get map.now place ≡ Some trusted
        → slice_get map.now (other_place map.now place) ≡ Some other
        → BothEnds K.mounted_on K.stands K.damage K.contents K.room K.prices map.now d e trusted
        other place result }
    ensures selector { (selector : area_type) → selector_of map.now ≡ Some selector
        → sectors_of (F.device flash.new) selector ≡ sectors_of (F.device flash.old) selector }
    ensures spares { let d = F.device flash.old in let e = F.device flash.new in
        (trusted other : area_type) → slice_get map.now place ≡ Some trusted
        → slice_get map.now (other_place map.now place) ≡ Some other
        → SparesBoth K.damage K.contents K.rests d e trusted other }
    ensures idle { let d = F.device flash.old in
        (trusted other : area_type) → slice_get map.now place ≡ Some trusted
        → slice_get map.now (other_place map.now place) ≡ Some other → HoldsOn K.rests d trusted
        → HoldsOn K.rests d other → HoldsMap K.damage K.contents d other (on K.contents d trusted)
        → F.device flash.new ≡ d }
    ensures at_most { let d = F.device flash.old in
        (trusted other : area_type) → slice_get map.now place ≡ Some trusted
        → slice_get map.now (other_place map.now place) ≡ Some other
        → SpendsAtMost d (F.device flash.new)
        (both_units d trusted other (finite.len (on K.contents d trusted))) }
    ensures owes { let d = F.device flash.old in let e = F.device flash.new in
        (trusted other : area_type) → slice_get map.now place ≡ Some trusted
        → slice_get map.now (other_place map.now place) ≡ Some other
        → MountsOwed K.owes K.damage K.contents 0 d e trusted other }
{
    let side: Result<Side<K>, MirrorMount> = mount_side(
        alloc,
        flash,
        area_at(map, place),
        place,
        steps,
    );
    let trusted = match side {
        Ok(side) => side,
        Err(fault) => return Err(fault),
    };
    let other = other_place(map, place);
    match look_for_both(alloc, &trusted, flash, map, other, steps) {
        Ok(()) => {}
        Err(fault) => return Err(fault),
    }
    let opened: Result<K, MirrorMount> = open_other(
        alloc,
        &trusted.store,
        flash,
        area_at(map, other),
        steps,
    );
    match opened {
        Ok(store) => Ok(Mirror {
            trusted,
            other: Side {
                store,
                area: area_at(map, other),
                place: other,
            },
        }),
        Err(fault) => Err(fault),
    }
}

impl<K: Priced> Mirror<K> {
    /// Mounts the selector and trusts the area that it names. If that area is all FF and the other
    /// one is not, it trusts the other one, and has the selector name it. Then it mounts the
    /// trusted area, and after it the other one. Exactly if the other one is damaged or holds
    /// another map, it is erased, and all settings are put into it.
    ///
    /// Whatever the result, the same area is trusted afterwards, and the mirror reads as the same
    /// map. An other area that holds this map is not repaired, even if power is lost: it holds the
    /// map afterwards too, and the mount spends no unit of a repair. Neither this area nor the
    /// trusted one is formatted: it is all FF only if it was all FF before. If a mount of it alone
    /// has nothing to do, its bytes stay. A mount spends at most the units and erases of the
    /// selector's mount, one choice, the mounts of both areas, and one repair for the map's names.
    /// If there is nothing to do, it spends nothing. Together the two areas spend at most what they
    /// owe, and one repair if the other one does not hold the map. The trusted one owes no more
    /// afterwards, nor does the other one if it holds the map. Nothing is said of what an
    /// interrupted repair leaves. The next mount of the selector erases no more sectors than
    /// before, or at most one. A selector that names the trusted area keeps its records. One that
    /// names the other area gets exactly one more, unless power is lost. A mount takes memory for
    /// each name, and a repair for each value too.
    ///
    /// # Errors
    /// `Damaged` exactly if the selector or the trusted area is damaged; no byte of a store area
    /// changed then. `Unfit` exactly if the map does not fit one of the areas: it gives the lower
    /// place, if the map does not fit there, else the higher one; the other area is untouched then.
    /// `PowerLost`: power was lost in the other area only if the map fits both. `NoMemory`: the
    /// selector was not damaged. The trusted area keeps its settings, if it was undamaged; if it was
    /// damaged, no byte of a store area changed.
    pub fn mount<F: Flash, L: Ledger>(
        alloc: Global,
        flash: &mut F,
        map: &FlashMap,
        steps: &mut Steps<L>,
    ) -> Result<Mirror<K>, MirrorMount>
        requires map { IsMirrorMap K.serves map.now (F.device flash.old) }

        ensures touches { let d = F.device flash.old in let e = F.device flash.new in
            (selector trusted other : area_type) → selector_of map.now ≡ Some selector
            → slice_get map.now (trusted_on map.now d) ≡ Some trusted
            → slice_get map.now (other_place map.now (trusted_on map.now d)) ≡ Some other
            → Touches (worked_on selector trusted other) d e (mount_lost result) }
        ensures ends { let d = F.device flash.old in let e = F.device flash.new in
            (selector : area_type) → selector_of map.now ≡ Some selector
            → MirrorMounts K.mounted_on K.stands K.damage K.contents K.room K.prices map.now
            selector d e result }
        ensures keeps { let d = F.device flash.old in let e = F.device flash.new in
            (settings : map_type) → MirrorReads K.damage K.contents map.now d settings
            → MirrorReads K.damage K.contents map.now e settings }
        ensures trusted { trusted_on map.now (F.device flash.new)
            ≡ trusted_on map.now (F.device flash.old) }
        ensures rests { OnOk result
            (IsAtRest K.damage K.contents K.rests map.now (F.device flash.new)) }
        ensures idle { let d = F.device flash.old in
            IsAtRest K.damage K.contents K.rests map.now d → F.device flash.new ≡ d }
        ensures copy { let d = F.device flash.old in let e = F.device flash.new in
            (selector trusted other : area_type) → selector_of map.now ≡ Some selector
            → slice_get map.now (trusted_on map.now d) ≡ Some trusted
            → slice_get map.now (other_place map.now (trusted_on map.now d)) ≡ Some other
            → SparesAreas K.damage K.contents K.rests map.now (mount_lost result) d e selector
            trusted other }
        ensures at_most { let d = F.device flash.old in
            (selector trusted other : area_type) → selector_of map.now ≡ Some selector
            → slice_get map.now (trusted_on map.now d) ≡ Some trusted
            → slice_get map.now (other_place map.now (trusted_on map.now d)) ≡ Some other
            → SpendsAtMost d (F.device flash.new)
            (trust_units d selector
            + both_units d trusted other (finite.len (on K.contents d trusted))) }
        ensures owes { let d = F.device flash.old in let e = F.device flash.new in
            (selector trusted other : area_type) → selector_of map.now ≡ Some selector
            → slice_get map.now (trusted_on map.now d) ≡ Some trusted
            → slice_get map.now (other_place map.now (trusted_on map.now d)) ≡ Some other
            → MountsOwed K.owes K.damage K.contents (naming_units map.now d selector) d e trusted
            other }
        ensures left { let d = F.device flash.old in let e = F.device flash.new in
            (selector : area_type) → selector_of map.now ≡ Some selector → LeavesDue d e selector }
    {
        let place = match trust::<K, F, L>(flash, map, steps) {
            Ok(place) => place,
            Err(fault) => return Err(fault),
        };
        mount_both(alloc, flash, map, place, steps)
    }
}
