// The store of a mirror.
ghost use Rattle.any_backend.specs.ByRole.{any_serves, any_damage, any_contents, any_room, any_rests, any_owes, any_boot, any_chance, any_tears};
ghost use Rattle.any_backend.specs.Laws.{reads_settings};
ghost use Rattle.any_backend.specs.Standing.{rests-owe, owes-more};
ghost use Rattle.mirror.specs.Laws.{blank-empty, blank-reads, blank-rests, is-room, never-chance};
ghost use Rattle.mirror.specs.Prices.{mirror_prices};
ghost use Rattle.mirror.specs.Standing.{area_of, Stands, is_up, stands-up, stands-serves, stands-reads, stands-rests};

use crate::Priced;
use any_backend::AnyBackend;
use backend_api::{Backend, SetFault};
use backend_zms::{FIRST, GROUP_SIZE, first_of};
use flash_map::{Area, MountFault, Role, geometry};
use flash_sim::{Flash, Loss, NoMemory, PowerLost, Steps};
use nvs_store::{capacity as nvs_capacity, cost as nvs_cost};
use setting_name::Name;
use std::alloc::Global;
use std::collections::BTreeMap;
use std::sync::ledger::Ledger;
use zms_cycle::{capacity as zms_capacity, cost as zms_cost};

// The most names of an NVS area.
const NVS_NAMES: u32 = 511;

/// A store of settings on an area, by the area's role, with the prices of names and values there.
#[derive(Drop)]
pub struct MirrorStore {
    backend: AnyBackend,
}

impl Backend for MirrorStore {
    ghost serves = { any_serves };

    ghost damage = { any_damage };

    ghost contents = { any_contents };

    ghost room = { any_room };

    ghost rests = { any_rests };

    ghost owes = { any_owes };

    ghost boot_units = { any_boot };

    ghost chance = { any_chance };

    ghost tears = { any_tears };

    ghost mounted_on = { area_of };

    ghost stands = { Stands };

    ghost runs = { is_up };

    ghost stands_up = { stands-up };

    ghost stands_serves = { stands-serves };

    ghost stands_reads = { stands-reads };

    ghost stands_rests = { stands-rests };

    ghost rests_owe = { rests-owe };

    ghost owes_more = { owes-more };

    ghost reads_settings = { reads_settings };

    fn mount<F: Flash, L: Ledger>(
        alloc: Global,
        flash: &mut F,
        area: Area,
        steps: &mut Steps<L>,
    ) -> Result<MirrorStore, MountFault> {
        match AnyBackend::mount(alloc, flash, area, steps) {
            Ok(backend) => Ok(MirrorStore { backend }),
            Err(fault) => Err(fault),
        }
    }

    fn get<'a, F: Flash, L: Ledger>(
        &self,
        flash: &'a F,
        name: &Name,
        steps: &mut Steps<L>,
    ) -> Option<&'a [u8]> {
        self.backend.get(flash, name, steps)
    }

    fn set<F: Flash, L: Ledger>(
        &mut self,
        flash: &mut F,
        name: &Name,
        value: &[u8],
        steps: &mut Steps<L>,
    ) -> Result<(), SetFault> {
        self.backend.set(flash, name, value, steps)
    }

    fn delete<F: Flash, L: Ledger>(
        &mut self,
        flash: &mut F,
        name: &Name,
        steps: &mut Steps<L>,
    ) -> Result<(), PowerLost> {
        self.backend.delete(flash, name, steps)
    }

    fn next_name<F: Flash, L: Ledger>(
        &self,
        flash: &F,
        after: Option<&Name>,
        steps: &mut Steps<L>,
    ) -> Option<Name> {
        self.backend.next_name(flash, after, steps)
    }

    fn settings<'a, F: Flash, L: Ledger>(
        &self,
        alloc: Global,
        flash: &'a F,
        steps: &mut Steps<L>,
    ) -> Result<BTreeMap<Name, &'a [u8], Global>, NoMemory> {
        self.backend.settings(alloc, flash, steps)
    }

    fn format<F: Flash, L: Ledger>(
        flash: &mut F,
        area: &Area,
        steps: &mut Steps<L>,
    ) -> Result<(), PowerLost> {
        AnyBackend::format(flash, area, steps)
    }

    fn chance<F: Flash, L: Ledger>(
        flash: &F,
        area: &Area,
        loss: &Loss,
        steps: &mut Steps<L>,
    ) -> bool {
        AnyBackend::chance(flash, area, loss, steps)
    }

    fn is_up(&self) -> bool {
        self.backend.is_up()
    }
}

impl Priced for MirrorStore {
    ghost prices = { mirror_prices };

    ghost is_room = { is-room };

    ghost never_chance = { never-chance };

    ghost blank_reads = { blank-reads };

    ghost blank_empty = { blank-empty };

    ghost blank_rests = { blank-rests };

    fn price<F: Flash>(flash: &F, area: &Area, length: u32) -> u64 {
        match area.role {
            Role::Nvs => nvs_cost(geometry(flash, area).unit, length),
            Role::Zms => u64::from(zms_cost(length as u16)),
            Role::Fcb => 0,
            Role::Sel => 0,
        }
    }

    fn counted<F: Flash>(flash: &F, area: &Area) -> u64 {
        match area.role {
            Role::Nvs => nvs_cost(geometry(flash, area).unit, 2),
            Role::Zms => 0,
            Role::Fcb => 0,
            Role::Sel => 0,
        }
    }

    fn cap<F: Flash>(flash: &F, area: &Area) -> u64 {
        match area.role {
            Role::Nvs => {
                let geometry = geometry(flash, area);
                u64::from(nvs_capacity(geometry.unit, geometry.sector))
            }
            Role::Zms => u64::from(zms_capacity(geometry(flash, area).sector)),
            Role::Fcb => 0,
            Role::Sel => 0,
        }
    }

    fn class<F: Flash>(_flash: &F, area: &Area, name: &Name) -> u32 {
        match area.role {
            Role::Nvs => 0,
            Role::Zms => first_of(name.bytes()) - FIRST,
            Role::Fcb => 0,
            Role::Sel => 0,
        }
    }

    fn most<F: Flash>(_flash: &F, area: &Area) -> u32 {
        match area.role {
            Role::Nvs => NVS_NAMES,
            Role::Zms => GROUP_SIZE,
            Role::Fcb => 0,
            Role::Sel => 0,
        }
    }
}
