// The versions of an item.
ghost use Rattle.std.specs.Prelude.{◌≡◌, ◌∷◌, []};
ghost use Rattle.item_history.specs.History.{IsVersion};
ghost use Rattle.flash_map.specs.Area.{sectors_of};
ghost use Rattle.item_laws.specs.Area.{open_sector};
ghost use Rattle.item_laws.specs.Forms.{AtRest};
ghost use Rattle.item_laws.specs.Live.{bytes_of};
ghost use Rattle.item_store.specs.SectorFormat.{slots};
ghost use Rattle.item_store.specs.Listed.{format_on, list_on, IsListedOn, IsWithinOn};
ghost use Rattle.item_store.specs.Standing.{IsStoreArea};
ghost use Rattle.item_store.specs.Stands.{StandsOn};
ghost use Rattle.item_store.specs.Versions.{versions};

use crate::searches::nth_entry;
use flash_map::Area;
use flash_sim::{Flash, Steps};
use item_store::{Placed, SlotSectors, Store};
use std::sync::ledger::Ledger;

/// A version of an item.
#[derive(Clone, Copy, Debug, PartialEq, Eq)]
pub enum Older<'a> {
    /// The bytes that the item had.
    Value(&'a [u8]),
    /// The item was deleted.
    Deleted,
    /// The area does not hold so many versions.
    Gone,
}

// What an entry says of its id.
fn said<'a, T: SlotSectors, F: Flash, L: Ledger>(
    flash: &'a F,
    area: &Area,
    placed: &Placed,
    steps: &mut Steps<L>,
) -> Older<'a>
    requires area { IsStoreArea T.role (F.device flash.now).banks area.now }
    requires listed { IsListedOn T.format_of (F.device flash.now) area.now placed.now }
    requires within { IsWithinOn T.format_of (F.device flash.now) area.now placed.now.sector }
    ensures { let d = F.device flash.now in let s = slots (format_on T.format_of d area.now) in
        IsVersion (bytes_of s (sectors_of d area.now) placed.now ∷ []) 0 result }
{
    if placed.len == 0 {
        return Older::Deleted;
    }
    Older::Value(T::value(flash, area, placed, steps))
}

// The version of this number, in an area at rest.
fn version<'a, T: SlotSectors, F: Flash, L: Ledger>(
    flash: &'a F,
    area: &Area,
    current: u32,
    id: u32,
    n: u32,
    steps: &mut Steps<L>,
) -> Older<'a>
    requires area { IsStoreArea T.role (F.device flash.now).banks area.now }
    requires current { let d = F.device flash.now in
        current ≡ open_sector (format_on T.format_of d area.now).reading (sectors_of d area.now) }
    requires rested { let d = F.device flash.now in
        AtRest (format_on T.format_of d area.now).reading (sectors_of d area.now) current }
    ensures { IsVersion (versions (list_on T.format_of (F.device flash.now) area.now) id) n result }
{
    match nth_entry::<T, F, L>(flash, area, current, id, n, steps) {
        Some(placed) => said::<T, F, L>(flash, area, &placed, steps),
        None => Older::Gone,
    }
}

/// The version of an item with exactly `n` newer ones in its area: the newest at 0. `Gone` exactly
/// if the area holds at most `n` versions of it. It reads the entries once, from the newest back,
/// and allocates nothing.
pub fn store_older<'a, T: SlotSectors, F: Flash, L: Ledger>(
    store: &Store<T>,
    flash: &'a F,
    id: u32,
    n: u32,
    steps: &mut Steps<L>,
) -> Older<'a>
    requires { StandsOn T.role T.format_of T.kept (F.device flash.now) store.now }
    ensures { let d = F.device flash.now in
        IsVersion (versions (list_on T.format_of d store.now.area) id) n result }
{
    version::<T, F, L>(flash, store.area(), store.open_sector(), id, n, steps)
}
