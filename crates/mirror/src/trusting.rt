// The mount of the selector, and the choice of the trusted area.
ghost use Rattle.std.specs.Prelude.{◌≡◌, ◌≢◌, ◌<◌, ◌∷◌, [], true, is_err, length, OnOk, Some};
ghost use Rattle.flash_map.specs.declared.area.Area.{Area as area_type};
ghost use Rattle.flash_map.specs.Spending.{SpendsAtMost};
ghost use Rattle.flash_map.specs.Touches.{Touches};
ghost use Rattle.fcb_ring.specs.Standing.{erases_on};
ghost use Rattle.migrator.specs.Active.{active_in, active_on, selector_damage_on};
ghost use Rattle.migrator.specs.Areas.{IsLawfulMap, is_store_at, selector_of, target};
ghost use Rattle.migrator.specs.Choosing.{Chooses, IsOpen, choice_units};
ghost use Rattle.mirror.specs.Mounting.{NameEnds, SelectorRests, TrustEnds, fault_at, mount_lost, trust_units};
ghost use Rattle.mirror.specs.Naming.{SparesRecords};
ghost use Rattle.mirror.specs.Owing.{LeavesDue};
ghost use Rattle.mirror.specs.Trusted.{IsMirrorMap, is_blank_at, trusted_on, trusted_with};

use crate::areas::{is_blank, selector_place};
use crate::mounting::{MirrorMount, fault_at};
use crate::priced::Priced;
use flash_map::FlashMap;
use flash_sim::{Flash, PowerLost, Steps};
use migrator::{Selector, area_at, target};
use std::sync::ledger::Ledger;

// Whether the bytes of the area at this place are all FF.
fn is_blank_at<F: Flash, L: Ledger>(
    flash: &F,
    map: &FlashMap,
    place: usize,
    steps: &mut Steps<L>,
) -> bool
    requires lawful { IsLawfulMap (F.device flash.now).banks map.now }
    requires there { place < length map.now }
    ensures { result ≡ is_blank_at map.now (F.device flash.now) place }
{
    is_blank(flash, &area_at(map, place), steps)
}

// The place of the trusted area, if the one at this place is active.
fn trusted_with<F: Flash, L: Ledger>(
    flash: &F,
    map: &FlashMap,
    active: usize,
    steps: &mut Steps<L>,
) -> usize
    requires lawful { IsLawfulMap (F.device flash.now).banks map.now }
    requires store { is_store_at map.now active ≡ true }
    ensures trusted { result
        ≡ trusted_with map.now (F.device flash.now) active (target map.now active) }
    ensures store { is_store_at map.now result ≡ true }
{
    let other = match target(map, active) {
        Some(other) => other,
        None => return active,
    };
    if is_blank_at(flash, map, active, steps) && !is_blank_at(flash, map, other, steps) {
        other
    } else {
        active
    }
}

// Makes the selector name the trusted area, if another one is active.
fn name_trusted<F: Flash, L: Ledger>(
    flash: &mut F,
    map: &FlashMap,
    selector: &mut Selector,
    active: usize,
    trusted: usize,
    steps: &mut Steps<L>,
) -> Result<(), PowerLost>
    requires lawful { IsLawfulMap (F.device flash.old).banks map.now }
    requires mounted { IsOpen (F.device flash.old) selector.old.ring }
    requires store { is_store_at map.now trusted ≡ true }
    requires active { active ≡ active_in map.now (F.device flash.old) selector.old.ring.area }

    ensures touches { let area = selector.old.ring.area in
        Touches (area ∷ []) (F.device flash.old) (F.device flash.new) (is_err result) }
    ensures ends { NameEnds map.now (F.device flash.old) (F.device flash.new) selector.old.ring.area
        trusted result }
    ensures opened { OnOk result (IsOpen (F.device flash.new) selector.new.ring) }
    ensures area { selector.new.ring.area ≡ selector.old.ring.area }
    ensures chosen { let d = F.device flash.old in let e = F.device flash.new in
        OnOk result
        (active ≢ trusted → Chooses map.now d e selector.old.ring trusted) }
    ensures idle { active ≡ trusted → F.device flash.new ≡ F.device flash.old }
    ensures at_most { let d = F.device flash.old in
        SpendsAtMost d (F.device flash.new) (choice_units d selector.old.ring.area) }
    ensures left { LeavesDue (F.device flash.old) (F.device flash.new) selector.old.ring.area }
{
    if active == trusted {
        return Ok(());
    }
    selector.choose(flash, map, trusted as u8, steps)
}

// Mounts the selector, and makes it name the trusted area. The answer is the place of that area.
pub(crate) fn trust<K: Priced, F: Flash, L: Ledger>(
    flash: &mut F,
    map: &FlashMap,
    steps: &mut Steps<L>,
) -> Result<usize, MirrorMount>
    requires map { IsMirrorMap K.serves map.now (F.device flash.old) }

    ensures touches { (selector : area_type) → selector_of map.now ≡ Some selector
        → Touches (selector ∷ []) (F.device flash.old) (F.device flash.new) (mount_lost result) }
    ensures ends { TrustEnds map.now (F.device flash.old) (F.device flash.new) result }
    ensures idle { let d = F.device flash.old in
        SelectorRests map.now d → active_on map.now d ≡ trusted_on map.now d
        → F.device flash.new ≡ d }
    ensures records { let d = F.device flash.old in let e = F.device flash.new in
        (selector : area_type) → selector_of map.now ≡ Some selector
        → selector_damage_on map.now d ≡ None
        → SparesRecords map.now (mount_lost result) d e selector }
    ensures at_most { let d = F.device flash.old in
        (selector : area_type) → selector_of map.now ≡ Some selector
        → SpendsAtMost d (F.device flash.new) (trust_units d selector) }
    ensures named { let d = F.device flash.old in
        (selector : area_type) → selector_of map.now ≡ Some selector
        → active_on map.now d ≡ trusted_on map.now d
        → SpendsAtMost d (F.device flash.new) (erases_on d selector) }
    ensures left { let d = F.device flash.old in let e = F.device flash.new in
        (selector : area_type) → selector_of map.now ≡ Some selector → LeavesDue d e selector }
{
    let place = selector_place(map);
    let mut selector = match Selector::mount(flash, area_at(map, place), steps) {
        Ok(selector) => selector,
        Err(fault) => return Err(fault_at(place, fault)),
    };
    let active = selector.active(flash, map, steps);
    let trusted = trusted_with(flash, map, active, steps);
    match name_trusted(flash, map, &mut selector, active, trusted, steps) {
        Ok(()) => Ok(trusted),
        Err(_) => Err(MirrorMount::PowerLost),
    }
}
