// The store over ZMS.
ghost use Rattle.std.specs.Prelude.{◌≡◌, ◌<◌};
ghost use Rattle.flash_map.specs.Area.{geometry_of};
ghost use Rattle.flash_map.specs.declared.area.Role.TheVariants.{Zms as ZmsRole};
ghost use Rattle.named_items.specs.Blank.{zms-undamaged, zms-empty};
ghost use Rattle.named_items.specs.Few.{zms-few};
ghost use Rattle.named_items.specs.ZmsStore.{zms_damage, zms_items, zms_rests, zms_price, zms_cap, zms_redo, zms_removal, zms_clear, zms_entry, zms_roomy, zms_describes, ZmsStands, zms-lean, zms-rested, zms-fits};

use crate::store::ItemStore;
use flash_map::{Area, MountFault, WriteFault};
use flash_sim::{Flash, PowerLost, Steps};
use item_store::{Holder, IdRange, LastSlots};
use std::alloc::Global;
use std::sync::ledger::Ledger;
use zms_cycle::cost;
use zms_store::Zms;

impl ItemStore for Zms {
    type Index = LastSlots;

    ghost serves = { λ area geometry. area.role ≡ ZmsRole };

    ghost damage = { λ area geometry sectors. zms_damage area geometry sectors };

    ghost contents = { λ area geometry sectors. zms_items area geometry sectors };

    ghost rests = { λ area geometry sectors. zms_rests area geometry sectors };

    ghost price = { λ geometry. zms_price geometry };

    ghost cap = { λ geometry. zms_cap geometry };

    ghost redo = { λ geometry. zms_redo geometry };

    ghost removal = { λ geometry. zms_removal geometry };

    ghost clear = { λ geometry. zms_clear geometry };

    ghost entry = { λ geometry. zms_entry geometry };

    ghost roomy = { λ area geometry sectors. zms_roomy area geometry sectors };

    ghost is_id = { λ id. id < 0xFFFFFFFF };

    ghost mounted_on = { λ store. store.store.area };

    ghost stands = { λ store geometry sectors. ZmsStands store geometry sectors };

    ghost runs = { λ store. store.store.up };

    ghost describes = { λ last area geometry sectors. zms_describes last geometry sectors };

    ghost stands_up = { λ store geometry sectors stands. stands.up };

    ghost stands_serves = { λ store geometry sectors stands. stands.role };

    ghost stands_reads = { λ store geometry sectors stands. stands.undamaged };

    ghost stands_rests = { λ store geometry sectors stands. zms-rested store geometry sectors stands };

    ghost lean = { λ d area bank lawful serves. zms-lean (geometry_of d area) };

    ghost fits = { λ d area length lawful serves short. zms-fits d area length lawful serves short };

    ghost few = { λ d area bank lawful serves. zms-few d area bank lawful };

    ghost blank_reads = { λ area geometry sectors size several long. zms-undamaged sectors size several geometry.kind };

    ghost blank_empty = { λ area geometry sectors size several long. zms-empty sectors size several geometry.kind };

    fn mount<F: Flash, L: Ledger>(
        alloc: Global,
        flash: &mut F,
        area: Area,
        steps: &mut Steps<L>,
    ) -> Result<Zms, MountFault> {
        Zms::mount(alloc, flash, area, steps)
    }

    fn get<'a, F: Flash, L: Ledger>(
        &self,
        flash: &'a F,
        id: u32,
        steps: &mut Steps<L>,
    ) -> Option<&'a [u8]> {
        Zms::get(self, flash, id, steps)
    }

    fn may_hold(&self, id: u32) -> bool {
        Zms::may_hold(self, id)
    }

    fn new_index() -> LastSlots {
        LastSlots::new()
    }

    fn fill_index<F: Flash, L: Ledger>(
        &self,
        flash: &F,
        index: &mut LastSlots,
        steps: &mut Steps<L>,
    ) {
        Zms::fill_last_slots(self, flash, index, steps)
    }

    fn get_by<'a, F: Flash, L: Ledger>(
        &self,
        flash: &'a F,
        index: &LastSlots,
        id: u32,
        steps: &mut Steps<L>,
    ) -> Option<&'a [u8]> {
        Zms::get_by(self, flash, index, id, steps)
    }

    fn holder_of<'a, F: Flash, L: Ledger>(
        &self,
        flash: &'a F,
        ids: &IdRange,
        step: u32,
        bytes: &[u8],
        steps: &mut Steps<L>,
    ) -> Option<Holder<'a>> {
        Zms::holder_of(self, flash, ids, step, bytes, steps)
    }

    fn next_of<'a, F: Flash, L: Ledger>(
        &self,
        flash: &'a F,
        least: u32,
        most: u32,
        after: Option<&[u8]>,
        steps: &mut Steps<L>,
    ) -> Option<&'a [u8]> {
        Zms::next_of(self, flash, least, most, after, steps)
    }

    fn least_free<F: Flash, L: Ledger>(
        &self,
        flash: &F,
        ids: &IdRange,
        step: u32,
        steps: &mut Steps<L>,
    ) -> Option<u32> {
        Zms::least_free(self, flash, ids, step, steps)
    }

    fn write_changed<F: Flash, L: Ledger>(
        &mut self,
        flash: &mut F,
        id: u32,
        bytes: &[u8],
        steps: &mut Steps<L>,
    ) -> Result<(), WriteFault> {
        Zms::write_changed(self, flash, id, bytes, steps)
    }

    fn delete<F: Flash, L: Ledger>(
        &mut self,
        flash: &mut F,
        id: u32,
        steps: &mut Steps<L>,
    ) -> Result<(), PowerLost> {
        Zms::delete(self, flash, id, steps)
    }

    fn next_by<F: Flash, L: Ledger>(
        &self,
        flash: &F,
        index: &LastSlots,
        after: Option<u32>,
        steps: &mut Steps<L>,
    ) -> Option<u32> {
        Zms::next_by(self, flash, index, after, steps)
    }

    fn live_cost<F: Flash, L: Ledger>(&self, flash: &F, steps: &mut Steps<L>) -> u64 {
        Zms::live_cost(self, flash, steps)
    }

    fn price_of<F: Flash>(&self, _flash: &F, length: u32) -> u64 {
        u64::from(cost(length as u16))
    }

    fn area(&self) -> &Area {
        Zms::area(self)
    }

    fn is_up(&self) -> bool {
        Zms::is_up(self)
    }
}
