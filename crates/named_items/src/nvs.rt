// The store over NVS.
ghost use Rattle.std.specs.Prelude.{◌≡◌, ◌<◌, min, option_map};
ghost use Rattle.flash_map.specs.Area.{geometry_of};
ghost use Rattle.flash_map.specs.declared.area.Role.TheVariants.{Nvs as NvsRole};
ghost use Rattle.named_items.specs.Blank.{nvs-undamaged, nvs-empty};
ghost use Rattle.named_items.specs.Few.{nvs-few};
ghost use Rattle.named_items.specs.NvsStore.{nvs_damage, nvs_items, nvs_rests, nvs_price, nvs_cap, nvs_redo, nvs_removal, nvs_clear, nvs_entry, nvs_roomy, nvs_describes, NvsStands, nvs-lean, nvs-rested, nvs-fits};

use crate::store::ItemStore;
use flash_map::{Area, MountFault, WriteFault, geometry};
use flash_sim::{Flash, PowerLost, Steps};
use item_store::{Holder, IdRange, LastSlots};
use nvs_gc::Nvs;
use nvs_store::cost;
use std::alloc::Global;
use std::sync::ledger::Ledger;

// The id in 16 bits: 0xFFFF for each greater one. No item has an id above 0xFFFF.
fn narrowed(id: Option<u32>) -> Option<u16>
    ensures { result ≡ option_map (min 0xFFFF) id }
{
    match id {
        Some(id) => Some(id.min(0xFFFF) as u16),
        None => None,
    }
}

impl ItemStore for Nvs {
    type Index = LastSlots;

    ghost serves = { λ area geometry. area.role ≡ NvsRole };

    ghost damage = { λ area geometry sectors. nvs_damage area geometry sectors };

    ghost contents = { λ area geometry sectors. nvs_items area geometry sectors };

    ghost rests = { λ area geometry sectors. nvs_rests area geometry sectors };

    ghost price = { λ geometry. nvs_price geometry };

    ghost cap = { λ geometry. nvs_cap geometry };

    ghost redo = { λ geometry. nvs_redo geometry };

    ghost removal = { λ geometry. nvs_removal geometry };

    ghost clear = { λ geometry. nvs_clear geometry };

    ghost entry = { λ geometry. nvs_entry geometry };

    ghost roomy = { λ area geometry sectors. nvs_roomy area geometry sectors };

    ghost is_id = { λ id. id < 0xFFFF };

    ghost mounted_on = { λ store. store.store.area };

    ghost stands = { λ store geometry sectors. NvsStands store geometry sectors };

    ghost runs = { λ store. store.store.up };

    ghost describes = { λ last area geometry sectors. nvs_describes last geometry sectors };

    ghost stands_up = { λ store geometry sectors stands. stands.up };

    ghost stands_serves = { λ store geometry sectors stands. stands.role };

    ghost stands_reads = { λ store geometry sectors stands. stands.undamaged };

    ghost stands_rests = { λ store geometry sectors stands. nvs-rested store geometry sectors stands };

    ghost lean = { λ d area bank lawful serves. nvs-lean (geometry_of d area) };

    ghost fits = { λ d area length lawful serves short. nvs-fits d area length lawful serves short };

    ghost few = { λ d area bank lawful serves. nvs-few d area bank lawful };

    ghost blank_reads = { λ area geometry sectors size several long. nvs-undamaged sectors size several geometry.unit };

    ghost blank_empty = { λ area geometry sectors size several long. nvs-empty sectors size several geometry.unit };

    fn mount<F: Flash, L: Ledger>(
        alloc: Global,
        flash: &mut F,
        area: Area,
        steps: &mut Steps<L>,
    ) -> Result<Nvs, MountFault> {
        Nvs::mount(alloc, flash, area, steps)
    }

    fn get<'a, F: Flash, L: Ledger>(
        &self,
        flash: &'a F,
        id: u32,
        steps: &mut Steps<L>,
    ) -> Option<&'a [u8]> {
        Nvs::get(self, flash, id as u16, steps)
    }

    fn may_hold(&self, id: u32) -> bool {
        Nvs::may_hold(self, id as u16)
    }

    fn new_index() -> LastSlots {
        LastSlots::new()
    }

    fn fill_index<F: Flash, L: Ledger>(
        &self,
        flash: &F,
        index: &mut LastSlots,
        steps: &mut Steps<L>,
    ) {
        Nvs::fill_last_slots(self, flash, index, steps)
    }

    fn get_by<'a, F: Flash, L: Ledger>(
        &self,
        flash: &'a F,
        index: &LastSlots,
        id: u32,
        steps: &mut Steps<L>,
    ) -> Option<&'a [u8]> {
        Nvs::get_by(self, flash, index, id as u16, steps)
    }

    fn holder_of<'a, F: Flash, L: Ledger>(
        &self,
        flash: &'a F,
        ids: &IdRange,
        step: u32,
        bytes: &[u8],
        steps: &mut Steps<L>,
    ) -> Option<Holder<'a>> {
        Nvs::holder_of(self, flash, ids, step, bytes, steps)
    }

    fn next_of<'a, F: Flash, L: Ledger>(
        &self,
        flash: &'a F,
        least: u32,
        most: u32,
        after: Option<&[u8]>,
        steps: &mut Steps<L>,
    ) -> Option<&'a [u8]> {
        Nvs::next_of(self, flash, least as u16, most as u16, after, steps)
    }

    fn least_free<F: Flash, L: Ledger>(
        &self,
        flash: &F,
        ids: &IdRange,
        step: u32,
        steps: &mut Steps<L>,
    ) -> Option<u32> {
        Nvs::least_free(self, flash, ids, step, steps)
    }

    fn write_changed<F: Flash, L: Ledger>(
        &mut self,
        flash: &mut F,
        id: u32,
        bytes: &[u8],
        steps: &mut Steps<L>,
    ) -> Result<(), WriteFault> {
        Nvs::write_changed(self, flash, id as u16, bytes, steps)
    }

    fn delete<F: Flash, L: Ledger>(
        &mut self,
        flash: &mut F,
        id: u32,
        steps: &mut Steps<L>,
    ) -> Result<(), PowerLost> {
        Nvs::delete(self, flash, id as u16, steps)
    }

    fn next_by<F: Flash, L: Ledger>(
        &self,
        flash: &F,
        index: &LastSlots,
        after: Option<u32>,
        steps: &mut Steps<L>,
    ) -> Option<u32> {
        match Nvs::next_by(self, flash, index, narrowed(after), steps) {
            Some(next) => Some(u32::from(next)),
            None => None,
        }
    }

    fn live_cost<F: Flash, L: Ledger>(&self, flash: &F, steps: &mut Steps<L>) -> u64 {
        Nvs::live_cost(self, flash, steps)
    }

    fn price_of<F: Flash>(&self, flash: &F, length: u32) -> u64 {
        let own = geometry(flash, Nvs::area(self));
        cost(own.unit, length)
    }

    fn area(&self) -> &Area {
        Nvs::area(self)
    }

    fn is_up(&self) -> bool {
        Nvs::is_up(self)
    }
}
