// Room for a value in the open sector.
ghost use Rattle.std.specs.Prelude.{◌≡◌, ◌^◌, ◌<◌, ◌≤◌, ◌∷◌, [], true, false, nat_lt, is_err, IfOk, OnOk, OnErr};
ghost use Rattle.flash_map.specs.Area.{sectors_of};
ghost use Rattle.flash_map.specs.Touches.{Touches};
ghost use Rattle.flash_map.specs.Units.{IsUnit};
ghost use Rattle.item_store.specs.OnSector.{sector_on, IsKeptOn};
ghost use Rattle.item_store.specs.Listed.{format_on};
ghost use Rattle.item_store.specs.Cached.{IsCacheOn};
ghost use Rattle.item_store.specs.SectorFormat.{fits};
ghost use Rattle.item_store.specs.Room.{has_room, IsShort, MakesRoom, IsFull, StopsMakingRoom};
ghost use Rattle.item_store.specs.Standing.{IsStoreArea};
ghost use Rattle.item_store.specs.Stands.{StandsAt};
ghost use Rattle.item_store.specs.Written.{IsWritten};

use crate::cached::follow_round;
use crate::collecting::round;
use crate::sectors::SlotSectors;
use flash_map::{Area, Geometry, geometry};
use flash_sim::{Flash, PowerLost, Steps};
use lookup_cache::Cache;
use std::sync::ledger::Ledger;

/// Whether a value of this length and its entry cost more than a sector of this geometry has for
/// them.
pub fn is_too_long<T: SlotSectors>(geometry: &Geometry, len: usize) -> bool
    requires unit { IsUnit geometry.now.unit }
    requires size { geometry.now.sector ≤ 32768 }
    ensures { result
        ≡ nat_lt ((T.format_of geometry.now).cap geometry.now.sector)
        ((T.format_of geometry.now).cost len) }
{
    len > 0xFFFF || u64::from(T::capacity(geometry)) < T::cost(geometry, len as u32)
}

/// Whether a value of this length fits a sector. A length of 0 is a delete.
pub fn fits<T: SlotSectors, F: Flash, L: Ledger>(
    flash: &F,
    area: &Area,
    opened: &T,
    place: u32,
    len: u32,
    steps: &mut Steps<L>,
) -> bool
    requires area { IsStoreArea T.role (F.device flash.now).banks area.now }
    requires inside { place < area.now.sectors }
    requires kept { IsKeptOn T.kept (F.device flash.now) area.now place opened.now }
    requires narrow { len < 2 ^ 16 }
    ensures { let d = F.device flash.now in
        result ≡ fits (format_on T.format_of d area.now) (sector_on d area.now place) len }
{
    let geometry = geometry(flash, area);
    let slot = u64::from(T::slot_size(&geometry));
    let free = u64::from(opened.free(flash, area, place, steps));
    if len == 0 {
        return 2 * slot <= free;
    }
    let spare = if opened.has_gc_done() { 2 } else { 3 };
    T::cost(&geometry, len) + spare * slot <= free
}

/// Closes and collects, round after round, until a value of this length fits the open sector or
/// each sector but the blank one was collected. Says whether the value fits. The items stay, even
/// if power is lost. The cache follows each round.
///
/// # Errors
/// `PowerLost`, in a round: the items stay.
pub fn make_room<T: SlotSectors, F: Flash, L: Ledger>(
    flash: &mut F,
    area: &Area,
    opened: &mut T,
    current: &mut u32,
    cache: &mut Cache,
    len: u32,
    steps: &mut Steps<L>,
) -> Result<bool, PowerLost>
    requires stands { StandsAt T.role T.format_of T.kept (F.device flash.old) area.now current.old
        opened.old }
    requires cached { IsCacheOn T.format_of (F.device flash.old) area.now cache.old }
    requires narrow { len < 2 ^ 16 }
    requires short { let d = F.device flash.old in
        0 < len → IsShort (format_on T.format_of d area.now) d area.now len }

    ensures touches { let d = F.device flash.old in let e = F.device flash.new in
        Touches (area.now ∷ []) d e (is_err result) }
    ensures written { let d = F.device flash.old in let e = F.device flash.new in
        let k = format_on T.format_of d area.now in
        IsWritten k (sectors_of d area.now) → IsWritten k (sectors_of e area.now) }

    ensures stands { OnOk result
        (StandsAt T.role T.format_of T.kept (F.device flash.new) area.now current.new opened.new) }
    ensures cached { OnOk result (IsCacheOn T.format_of (F.device flash.new) area.now cache.new) }
    ensures makes { let d = F.device flash.old in let e = F.device flash.new in
        OnOk result (MakesRoom (format_on T.format_of d area.now) d e area.now len) }
    ensures room { let k = format_on T.format_of (F.device flash.old) area.now in
        IfOk result (λ room. room ≡ has_room k (sectors_of (F.device flash.new) area.now) len) }
    ensures full { let d = F.device flash.old in let e = F.device flash.new in
        IfOk result (λ room. room ≡ false
        → IsFull (format_on T.format_of d area.now) d e area.now len) }

    ensures stops { let d = F.device flash.old in let e = F.device flash.new in
        OnErr result (StopsMakingRoom (format_on T.format_of d area.now) d e area.now len) }
{
    for _round in 1..area.sectors {
        if fits(flash, area, opened, *current, len, steps) {
            return Ok(true);
        }
        let place = round(flash, area, opened, *current, steps)?;
        follow_round::<T, F, L>(flash, area, place, cache, steps);
        *current = place;
    }
    let room = fits(flash, area, opened, *current, len, steps);
    Ok(room)
}
