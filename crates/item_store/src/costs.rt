// What all items cost.
ghost use Rattle.std.specs.Prelude.{◌≡◌, ◌+◌, ◌-◌, ◌^◌, ◌<◌, ◌≤◌, ℕ, ◌++◌};
ghost use Rattle.flash_map.specs.Area.{sectors_of};
ghost use Rattle.item_laws.specs.PairRounds.{copies_cost, live_cost};
ghost use Rattle.item_laws.specs.Live.{counted_in, live_in, live_to, cost_of};
ghost use Rattle.item_store.specs.OnSector.{sector_on};
ghost use Rattle.item_store.specs.SectorFormat.{slots};
ghost use Rattle.item_store.specs.Listed.{format_on, list_on, HasSlotOn, IsWithinOn};
ghost use Rattle.item_store.specs.Seen.{has_bit, HasSeen, behind, holds_live};
ghost use Rattle.item_store.specs.Standing.{IsStoreArea};
ghost use Rattle.item_store.specs.Stands.{StandsOn};

use crate::live::{LiveEntries, live_by, live_in};
use crate::open_area::OpenArea;
use crate::sectors::SlotSectors;
use crate::seen::Seen;
use crate::store::Store;
use flash_map::{Area, geometry};
use flash_sim::{Flash, Steps};
use std::sync::ledger::Ledger;

// What the live entry in a slot costs, if there is one.
fn slot_cost<T: SlotSectors, F: Flash, L: Ledger>(
    flash: &F,
    area: &Area,
    place: u32,
    slot: u32,
    live: bool,
    steps: &mut Steps<L>,
) -> u64
    requires area { IsStoreArea T.role (F.device flash.now).banks area.now }
    requires inside { place < area.now.sectors }
    requires listed { HasSlotOn T.format_of (F.device flash.now) area.now place slot }
    requires live { let d = F.device flash.now in
        live ≡ holds_live (format_on T.format_of d area.now) (sectors_of d area.now) place slot }
    ensures cost { let d = F.device flash.now in let k = format_on T.format_of d area.now in
        result ≡ cost_of (slots k) (live_in (slots k) (sectors_of d area.now) place slot) }
    ensures small { result ≤ 2 ^ 18 }
{
    let geometry = geometry(flash, area);
    match live_in::<T, F, L>(flash, area, place, slot, live, steps) {
        Some(placed) => T::cost(&geometry, placed.len),
        None => 0,
    }
}

// What the live entries of a sector cost, which are those of these slots.
fn sector_cost<T: SlotSectors, F: Flash, L: Ledger>(
    flash: &F,
    area: &Area,
    place: u32,
    live: &LiveEntries,
    steps: &mut Steps<L>,
) -> u64
    requires area { IsStoreArea T.role (F.device flash.now).banks area.now }
    requires inside { place < area.now.sectors }
    requires within { IsWithinOn T.format_of (F.device flash.now) area.now place }
    requires live { let d = F.device flash.now in let k = format_on T.format_of d area.now in
        (index : ℕ) → index < k.count (sector_on d area.now place)
        → has_bit live.now.bits index
        ≡ holds_live k (sectors_of d area.now) place (k.first + index) }
    ensures cost { let d = F.device flash.now in let k = format_on T.format_of d area.now in
        result
        ≡ copies_cost k.cost
        (live_to (slots k) (sectors_of d area.now) place (k.count (sector_on d area.now place))) }
    ensures small { result ≤ 2 ^ 33 }
{
    let slots = T::slots(flash, area, place, steps);
    let first = T::first_slot();
    let mut cost = 0;
    for slot in first..first + slots {
        let is = live.has(slot - first);
        cost += slot_cost::<T, F, L>(flash, area, place, slot, is, steps);
    }
    cost
}

impl<T: SlotSectors> Store<T> {
    // What the items in one sector cost, by what was seen behind it. The ids of its entries are
    // noted.
    #[inline(never)]
    fn cost_in<F: Flash, L: Ledger>(
        &self,
        flash: &F,
        place: u32,
        seen: &mut Seen,
        steps: &mut Steps<L>,
    ) -> u64
        requires stands { StandsOn T.role T.format_of T.kept (F.device flash.now) self.now }
        requires inside { place < self.now.area.sectors }
        requires seen { let d = F.device flash.now in
            let k = format_on T.format_of d self.now.area in
            HasSeen k.ids seen.old (behind k (sectors_of d self.now.area) self.now.current place) }
        ensures cost { let d = F.device flash.now in
            let k = format_on T.format_of d self.now.area in
            result
            ≡ copies_cost k.cost
            (live_to (slots k) (sectors_of d self.now.area) place
            (k.count (sector_on d self.now.area place))) }
        ensures small { result ≤ 2 ^ 33 }
        ensures seen { let d = F.device flash.now in
            let k = format_on T.format_of d self.now.area in
            HasSeen k.ids seen.new
            (counted_in (slots k) (sectors_of d self.now.area) self.now.current place
            ++ behind k (sectors_of d self.now.area) self.now.current place) }
    {
        let mut live = LiveEntries::new();
        let tops = self.cache.tops();
        let on = OpenArea {
            area: &self.area,
            current: self.current,
            opened: self.opened,
            tops,
        };
        live_by(flash, &on, place, seen, &mut live, steps);
        sector_cost::<T, F, L>(flash, &self.area, place, &live, steps)
    }

    /// What all items cost, in bytes: the bytes of each with its entry. This takes one walk over
    /// the list, from its newest sector to its oldest.
    #[inline(never)]
    pub fn live_cost<F: Flash, L: Ledger>(&self, flash: &F, steps: &mut Steps<L>) -> u64
        requires { StandsOn T.role T.format_of T.kept (F.device flash.now) self.now }
        ensures { let d = F.device flash.now in
            result
            ≡ live_cost (format_on T.format_of d self.now.area).cost
            (list_on T.format_of d self.now.area) }
    {
        let oldest = self.area.next(self.current);
        let mut seen = Seen::new();
        let mut place = self.current;
        let mut cost = 0;
        while place != oldest {
            cost += self.cost_in(flash, place, &mut seen, steps);
            place = self.area.previous(place);
        }
        cost + self.cost_in(flash, oldest, &mut seen, steps)
    }
}
