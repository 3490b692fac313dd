// What the entries of an area take up.
ghost use Rattle.std.specs.Prelude.{◌≡◌, ◌+◌, ◌-◌, ◌*◌, ◌^◌, ◌<◌, ◌≤◌, map, sum_by};
ghost use Rattle.std.specs.Option.{option_map};
ghost use Rattle.flash_map.specs.Area.{sector_size, sectors_of, sector_at};
ghost use Rattle.item_history.specs.Usage.{space_of};
ghost use Rattle.item_laws.specs.PairRounds.{copies_cost};
ghost use Rattle.item_laws.specs.Area.{open_sector};
ghost use Rattle.item_laws.specs.Forms.{AtRest};
ghost use Rattle.item_laws.specs.Live.{cost_of};
ghost use Rattle.item_store.specs.SectorFormat.{entries, placed_at, slots};
ghost use Rattle.item_store.specs.Listed.{format_on, list_on, HasSlotOn};
ghost use Rattle.item_store.specs.Standing.{IsStoreArea};
ghost use Rattle.item_store.specs.Stands.{StandsOn};

use flash_map::{Area, geometry};
use flash_sim::{Flash, Steps};
use item_store::{SlotSectors, Store};
use std::sync::ledger::Ledger;

/// What the entries of an area take up, in bytes, each with its value.
#[derive(Clone, Copy, Debug, PartialEq, Eq)]
pub struct Space {
    /// Live entries: the last of their id, with a value.
    pub live: u64,
    /// All other entries: values that were replaced, and deletes.
    pub stale: u64,
    /// What is left for items, once all stale entries are collected.
    pub free: u64,
}

// What the entry in a slot costs, if there is one.
fn slot_cost<T: SlotSectors, F: Flash, L: Ledger>(
    flash: &F,
    area: &Area,
    place: u32,
    slot: u32,
    steps: &mut Steps<L>,
) -> u64
    requires area { IsStoreArea T.role (F.device flash.now).banks area.now }
    requires inside { place < area.now.sectors }
    requires slot { HasSlotOn T.format_of (F.device flash.now) area.now place slot }
    ensures cost { let d = F.device flash.now in let k = format_on T.format_of d area.now in
        let read = k.in_slot (sector_at (sectors_of d area.now) place) in
        result ≡ cost_of (slots k) (option_map (placed_at place) (read slot)) }
    ensures small { result ≤ 2 ^ 18 }
{
    let geometry = geometry(flash, area);
    match T::entry_in(flash, area, place, slot, steps) {
        Some(placed) => T::cost(&geometry, placed.len),
        None => 0,
    }
}

// What all entries of a sector cost.
fn sector_cost<T: SlotSectors, F: Flash, L: Ledger>(
    flash: &F,
    area: &Area,
    place: u32,
    steps: &mut Steps<L>,
) -> u64
    requires area { IsStoreArea T.role (F.device flash.now).banks area.now }
    requires inside { place < area.now.sectors }
    ensures cost { let d = F.device flash.now in let k = format_on T.format_of d area.now in
        let b = sector_at (sectors_of d area.now) place in
        result ≡ sum_by (λ p. k.cost p.len) (map (placed_at place) (entries k b)) }
    ensures small { result ≤ 2 ^ 33 }
{
    let slots = T::slots(flash, area, place, steps);
    let first = T::first_slot();
    let mut cost = 0;
    for slot in first..first + slots {
        cost += slot_cost::<T, F, L>(flash, area, place, slot, steps);
    }
    cost
}

// What all entries cost.
fn total_cost<T: SlotSectors, F: Flash, L: Ledger>(
    flash: &F,
    area: &Area,
    steps: &mut Steps<L>,
) -> u64
    requires area { IsStoreArea T.role (F.device flash.now).banks area.now }
    requires rested { let d = F.device flash.now in let k = format_on T.format_of d area.now in
        AtRest k.reading (sectors_of d area.now) (open_sector k.reading (sectors_of d area.now)) }
    ensures { let d = F.device flash.now in let k = format_on T.format_of d area.now in
        result ≡ copies_cost k.cost (list_on T.format_of d area.now) }
{
    let mut cost = 0;
    for place in 0..area.sectors {
        cost += sector_cost::<T, F, L>(flash, area, place, steps);
    }
    cost
}

// What all sectors but one have for items.
fn room<T: SlotSectors, F: Flash>(flash: &F, area: &Area) -> u64
    requires { IsStoreArea T.role (F.device flash.now).banks area.now }
    ensures { let d = F.device flash.now in let k = format_on T.format_of d area.now in
        result ≡ (area.now.sectors - 1) * k.cap (sector_size d area.now) }
{
    let geometry = geometry(flash, area);
    u64::from(area.sectors - 1) * u64::from(T::capacity(&geometry))
}

/// How the space of an area is used: by live entries, by stale ones, and what is left. It reads the
/// entries twice, and allocates nothing.
pub fn store_space<T: SlotSectors, F: Flash, L: Ledger>(
    store: &Store<T>,
    flash: &F,
    steps: &mut Steps<L>,
) -> Space
    requires { StandsOn T.role T.format_of T.kept (F.device flash.now) store.now }
    ensures { let d = F.device flash.now in let area = store.now.area in
        let k = format_on T.format_of d area in
        result ≡ space_of k area.sectors (sector_size d area) (list_on T.format_of d area) }
{
    let live = store.live_cost(flash, steps);
    let total = total_cost::<T, F, L>(flash, store.area(), steps);
    let room = room::<T, F>(flash, store.area());
    Space {
        live,
        stale: total.saturating_sub(live),
        free: room.saturating_sub(live),
    }
}
