// The same for NVS and ZMS stores.
ghost use Rattle.std.specs.Prelude.{◌≡◌};
ghost use Rattle.flash_map.specs.Area.{sector_size};
ghost use Rattle.item_history.specs.History.{IsVersion};
ghost use Rattle.item_history.specs.Usage.{space_of};
ghost use Rattle.nvs_gc.specs.Standing as nvs;
ghost use Rattle.item_store.specs.Versions.{versions};
ghost use Rattle.zms_store.specs.Standing as zms;

use crate::history::{Older, store_older};
use crate::usage::{Space, store_space};
use flash_sim::{Flash, Steps};
use nvs_gc::Nvs;
use std::sync::ledger::Ledger;
use zms_store::Zms;

/// `store_older` of an NVS store.
pub fn nvs_older<'a, F: Flash, L: Ledger>(
    store: &Nvs,
    flash: &'a F,
    id: u16,
    n: u32,
    steps: &mut Steps<L>,
) -> Older<'a>
    requires { nvs.StandsOn (F.device flash.now) store.now }
    ensures { let d = F.device flash.now in
        IsVersion (versions (nvs.list_on d store.now.store.area) id) n result }
{
    store_older(store.store(), flash, id as u32, n, steps)
}

/// `store_space` of an NVS store.
pub fn nvs_space<F: Flash, L: Ledger>(store: &Nvs, flash: &F, steps: &mut Steps<L>) -> Space
    requires { nvs.StandsOn (F.device flash.now) store.now }
    ensures { let d = F.device flash.now in let area = store.now.store.area in
        let k = nvs.format_on d area in
        result ≡ space_of k area.sectors (sector_size d area) (nvs.list_on d area) }
{
    store_space(store.store(), flash, steps)
}

/// `store_older` of a ZMS store.
pub fn zms_older<'a, F: Flash, L: Ledger>(
    store: &Zms,
    flash: &'a F,
    id: u32,
    n: u32,
    steps: &mut Steps<L>,
) -> Older<'a>
    requires { zms.StandsOn (F.device flash.now) store.now }
    ensures { let d = F.device flash.now in
        IsVersion (versions (zms.list_on d store.now.store.area) id) n result }
{
    store_older(store.store(), flash, id, n, steps)
}

/// `store_space` of a ZMS store.
pub fn zms_space<F: Flash, L: Ledger>(store: &Zms, flash: &F, steps: &mut Steps<L>) -> Space
    requires { zms.StandsOn (F.device flash.now) store.now }
    ensures { let d = F.device flash.now in let area = store.now.store.area in
        let k = zms.format_on d area in
        result ≡ space_of k area.sectors (sector_size d area) (zms.list_on d area) }
{
    store_space(store.store(), flash, steps)
}
