// The backend over any store.
ghost use Rattle.any_backend.specs.ByRole.{any_serves, any_damage, any_contents, any_room, any_rests, any_owes, any_boot, any_chance, any_tears};
ghost use Rattle.any_backend.specs.Standing.{area_of, Stands, is_up, stands-up, stands-serves, stands-reads, stands-rests, rests-owe, owes-more};
ghost use Rattle.any_backend.specs.Laws.{reads_settings};

use crate::tearing::chance;
use backend_api::{Backend, SetFault};
use backend_fcb::FcbBackend;
use backend_nvs::NvsBackend;
use backend_zms::ZmsBackend;
use flash_map::{Area, MountFault, Role};
use flash_sim::{Flash, Loss, NoMemory, PowerLost, Steps};
use setting_name::Name;
use std::alloc::Global;
use std::collections::BTreeMap;
use std::sync::ledger::Ledger;

/// A store of settings on an area. The area's role says which of the three it is; a selector's
/// area has none.
#[derive(Drop)]
pub enum AnyBackend {
    /// The store of an NVS area.
    Nvs(NvsBackend),
    /// The store of a ZMS area.
    Zms(ZmsBackend),
    /// The store of an FCB area.
    Fcb(FcbBackend),
}

impl Backend for AnyBackend {
    ghost serves = { any_serves };

    ghost damage = { any_damage };

    ghost contents = { any_contents };

    ghost room = { any_room };

    ghost rests = { any_rests };

    ghost owes = { any_owes };

    ghost boot_units = { any_boot };

    ghost chance = { any_chance };

    ghost tears = { any_tears };

    ghost mounted_on = { area_of };

    ghost stands = { Stands };

    ghost runs = { is_up };

    ghost stands_up = { stands-up };

    ghost stands_serves = { stands-serves };

    ghost stands_reads = { stands-reads };

    ghost stands_rests = { stands-rests };

    ghost rests_owe = { rests-owe };

    ghost owes_more = { owes-more };

    ghost reads_settings = { reads_settings };

    fn mount<F: Flash, L: Ledger>(
        alloc: Global,
        flash: &mut F,
        area: Area,
        steps: &mut Steps<L>,
    ) -> Result<AnyBackend, MountFault> {
        match area.role {
            Role::Nvs => match NvsBackend::mount(alloc, flash, area, steps) {
                Ok(backend) => Ok(AnyBackend::Nvs(backend)),
                Err(fault) => Err(fault),
            },
            Role::Zms => match ZmsBackend::mount(alloc, flash, area, steps) {
                Ok(backend) => Ok(AnyBackend::Zms(backend)),
                Err(fault) => Err(fault),
            },
            Role::Fcb => match FcbBackend::mount(alloc, flash, area, steps) {
                Ok(backend) => Ok(AnyBackend::Fcb(backend)),
                Err(fault) => Err(fault),
            },
            Role::Sel => unreachable!(),
        }
    }

    fn get<'a, F: Flash, L: Ledger>(
        &self,
        flash: &'a F,
        name: &Name,
        steps: &mut Steps<L>,
    ) -> Option<&'a [u8]> {
        match self {
            AnyBackend::Nvs(backend) => backend.get(flash, name, steps),
            AnyBackend::Zms(backend) => backend.get(flash, name, steps),
            AnyBackend::Fcb(backend) => backend.get(flash, name, steps),
        }
    }

    fn set<F: Flash, L: Ledger>(
        &mut self,
        flash: &mut F,
        name: &Name,
        value: &[u8],
        steps: &mut Steps<L>,
    ) -> Result<(), SetFault> {
        match self {
            AnyBackend::Nvs(backend) => backend.set(flash, name, value, steps),
            AnyBackend::Zms(backend) => backend.set(flash, name, value, steps),
            AnyBackend::Fcb(backend) => backend.set(flash, name, value, steps),
        }
    }

    fn delete<F: Flash, L: Ledger>(
        &mut self,
        flash: &mut F,
        name: &Name,
        steps: &mut Steps<L>,
    ) -> Result<(), PowerLost> {
        match self {
            AnyBackend::Nvs(backend) => backend.delete(flash, name, steps),
            AnyBackend::Zms(backend) => backend.delete(flash, name, steps),
            AnyBackend::Fcb(backend) => backend.delete(flash, name, steps),
        }
    }

    fn next_name<F: Flash, L: Ledger>(
        &self,
        flash: &F,
        after: Option<&Name>,
        steps: &mut Steps<L>,
    ) -> Option<Name> {
        match self {
            AnyBackend::Nvs(backend) => backend.next_name(flash, after, steps),
            AnyBackend::Zms(backend) => backend.next_name(flash, after, steps),
            AnyBackend::Fcb(backend) => backend.next_name(flash, after, steps),
        }
    }

    fn settings<'a, F: Flash, L: Ledger>(
        &self,
        alloc: Global,
        flash: &'a F,
        steps: &mut Steps<L>,
    ) -> Result<BTreeMap<Name, &'a [u8], Global>, NoMemory> {
        match self {
            AnyBackend::Nvs(backend) => backend.settings(alloc, flash, steps),
            AnyBackend::Zms(backend) => backend.settings(alloc, flash, steps),
            AnyBackend::Fcb(backend) => backend.settings(alloc, flash, steps),
        }
    }

    fn format<F: Flash, L: Ledger>(
        flash: &mut F,
        area: &Area,
        steps: &mut Steps<L>,
    ) -> Result<(), PowerLost> {
        match area.role {
            Role::Nvs => NvsBackend::format(flash, area, steps),
            Role::Zms => ZmsBackend::format(flash, area, steps),
            Role::Fcb => FcbBackend::format(flash, area, steps),
            Role::Sel => unreachable!(),
        }
    }

    fn chance<F: Flash, L: Ledger>(
        flash: &F,
        area: &Area,
        loss: &Loss,
        steps: &mut Steps<L>,
    ) -> bool {
        chance(flash, area, loss, steps)
    }

    fn is_up(&self) -> bool {
        match self {
            AnyBackend::Nvs(backend) => backend.is_up(),
            AnyBackend::Zms(backend) => backend.is_up(),
            AnyBackend::Fcb(backend) => backend.is_up(),
        }
    }
}
