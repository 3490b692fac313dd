// Loads.
ghost use Rattle.std.specs.Prelude.{◌≡◌, ◌+◌, ◌-◌, ◌^◌, ◌<◌, true, length, option_map};
ghost use Rattle.std.specs.FinMap as finite;
ghost use Rattle.flash_map.specs.Lawful.{IsLawfulFor};
ghost use Rattle.flash_map.specs.On.{on, StandsOn};
ghost use Rattle.backend_api.specs.Listing.{pairs_in};
ghost use Rattle.handlers.specs.Registry.{registered};
ghost use Rattle.settings_core.specs.Loading.{LoadOneEnds, LoadEnds, counted};

use crate::committing::{commit, is_under};
use crate::offering::{Offered, offer};
use crate::report::Report;
use crate::settings::Settings;
use backend_api::Backend;
use flash_sim::{Flash, NoMemory, Steps};
use handlers::Registry;
use setting_name::Name;
use std::alloc::Global;
use std::collections::BTreeMap;
use std::sync::ledger::Ledger;

/// The counts of a load, in stored values whose names match the subtree.
#[derive(Clone, Copy, Debug, PartialEq, Eq)]
pub struct Loaded {
    /// How many values their handlers accepted.
    pub taken: u32,
    /// How many values their handlers did not accept.
    pub rejected: u32,
    /// How many names no handler's subtree matches.
    pub passed: u32,
}

/// Why a load failed.
#[derive(Clone, Copy, Debug, PartialEq, Eq)]
pub enum LoadFault {
    /// An earlier call answered that power was lost.
    Off,
    /// There was not enough memory.
    NoMemory,
}

impl<K: Backend> Settings<K> {
    /// Gives each stored value whose name matches the subtree to the best handler for it, in byte
    /// order of the names. Then it commits the handlers under the subtree. With no subtree given,
    /// every name and handler matches. A load takes memory for each stored name.
    ///
    /// # Errors
    /// `Off` exactly if the backend is down; nothing changes then. `NoMemory`: the handlers have
    /// taken the values up to some name, or no value, and no handler was committed.
    pub fn load<F: Flash, L: Ledger, R: Report>(
        &self,
        alloc: Global,
        flash: &F,
        registry: &mut Registry,
        subtree: Option<&Name>,
        report: &mut R,
        steps: &mut Steps<L>,
    ) -> Result<Loaded, LoadFault>
        requires lawful { IsLawfulFor (F.device flash.now).banks (K.mounted_on self.now.backend) }
        requires stands { K.runs self.now.backend ≡ true
            → StandsOn K.mounted_on K.stands (F.device flash.now) self.now.backend }
        ensures { let area = K.mounted_on self.now.backend in let d = F.device flash.now in
            LoadEnds (K.runs self.now.backend) (registered state registry.old)
            (registered state registry.new) (R.gives report.old) (R.gives report.new)
            (option_map (λ name. name.now) subtree.entry) (finite.entries (on K.contents d area))
            result }
    {
        if !self.backend.is_up() {
            return Err(LoadFault::Off);
        }
        match self.backend.settings(alloc, flash, steps) {
            Ok(settings) => load_all(alloc, &settings, registry, subtree, report),
            Err(_) => Err(LoadFault::NoMemory),
        }
    }
}

// Gives each of these settings whose name matches the subtree to its handler. Then it commits the
// handlers under the subtree.
fn load_all<R: Report>(
    alloc: Global,
    settings: &BTreeMap<Name, &[u8], Global>,
    registry: &mut Registry,
    subtree: Option<&Name>,
    report: &mut R,
) -> Result<Loaded, LoadFault>
    requires few { length (pairs_in settings.now) < 2 ^ 32 }
    ensures { LoadEnds true (registered state registry.old) (registered state registry.new)
        (R.gives report.old) (R.gives report.new) (option_map (λ name. name.now) subtree.entry)
        (pairs_in settings.now) result }
{
    let mut loaded = Loaded {
        taken: 0,
        rejected: 0,
        passed: 0,
    };
    for (name, value) in settings {
        if !is_under(name, subtree) {
            continue;
        }
        match load_one(alloc, registry, report, &mut loaded, name, value) {
            Ok(()) => {}
            Err(_) => return Err(LoadFault::NoMemory),
        }
    }
    commit(registry, subtree);
    Ok(loaded)
}

// Gives one setting to its handler, and counts it.
fn load_one<R: Report>(
    alloc: Global,
    registry: &mut Registry,
    report: &mut R,
    loaded: &mut Loaded,
    name: &Name,
    value: &[u8],
) -> Result<(), NoMemory>
    requires room { loaded.old.taken + loaded.old.rejected + loaded.old.passed < 2 ^ 32 - 1 }
    ensures { LoadOneEnds (registered state registry.old) (registered state registry.new)
        (R.gives report.old) (R.gives report.new) (name.now, value.now) loaded.old loaded.new
        result }
{
    let offered = offer(alloc, registry, report, name, value)?;
    count(loaded, offered);
    Ok(())
}

fn count(loaded: &mut Loaded, offered: Offered)
    requires room { loaded.old.taken + loaded.old.rejected + loaded.old.passed < 2 ^ 32 - 1 }
    ensures { loaded.new ≡ counted loaded.old offered }
{
    match offered {
        Offered::Taken => loaded.taken += 1,
        Offered::Rejected => loaded.rejected += 1,
        Offered::Passed => loaded.passed += 1,
    }
}
