// Loads without handlers.
ghost use Rattle.std.specs.Prelude.{◌≡◌, ℕ, ◌^◌, ◌<◌, true, List, [], ◌∷◌, length, Option, OnOk, OnErr, option_map};
ghost use Rattle.std.specs.FinMap as finite;
ghost use Rattle.flash_map.specs.Lawful.{IsLawfulFor};
ghost use Rattle.flash_map.specs.On.{on, StandsOn};
ghost use Rattle.backend_api.specs.Listing.{pairs_in};
ghost use Rattle.settings_core.specs.Direct.{DirectEnds};
ghost use Rattle.settings_core.specs.Reported.{reported_more};

use crate::committing::is_under;
use crate::loading::LoadFault;
use crate::settings::Settings;
use backend_api::Backend;
use flash_sim::{Flash, NoMemory, Steps};
use handlers::ValueView;
use setting_name::Name;
use std::alloc::Global;
use std::collections::BTreeMap;
use std::sync::ledger::Ledger;

/// Receives each setting of a load without handlers.
pub trait Each {
    /// The settings that it received, in order; `None` if the implementor does not say.
    ghost had: { Self → Option (List (List ℕ × List ℕ)) };

    /// Receives a name and its value.
    fn have(&mut self, alloc: Global, name: &Name, value: ValueView<'_>) -> Result<(), NoMemory>
        ensures ok { OnOk result
            (had self.new ≡ reported_more (had self.old) ((name.now, value.entry.bytes.now) ∷ [])) }
        ensures err { OnErr result (had self.new ≡ had self.old) };
}

impl<K: Backend> Settings<K> {
    /// Gives `each` every setting whose name matches the subtree, in byte order of the names, and
    /// answers how many there are. With no subtree given, every name matches. A load takes memory
    /// for each stored name.
    ///
    /// # Errors
    /// `Off` exactly if an earlier call answered that power was lost. `NoMemory`: `each` has
    /// received the settings up to some name, or none.
    pub fn load_direct<F: Flash, L: Ledger, E: Each>(
        &self,
        alloc: Global,
        flash: &F,
        subtree: Option<&Name>,
        each: &mut E,
        steps: &mut Steps<L>,
    ) -> Result<u32, LoadFault>
        requires lawful { IsLawfulFor (F.device flash.now).banks (K.mounted_on self.now.backend) }
        requires stands { K.runs self.now.backend ≡ true
            → StandsOn K.mounted_on K.stands (F.device flash.now) self.now.backend }
        ensures { let area = K.mounted_on self.now.backend in let d = F.device flash.now in
            DirectEnds (K.runs self.now.backend) (E.had each.old) (E.had each.new)
            (option_map (λ name. name.now) subtree.entry) (finite.entries (on K.contents d area))
            result }
    {
        if !self.backend.is_up() {
            return Err(LoadFault::Off);
        }
        match self.backend.settings(alloc, flash, steps) {
            Ok(settings) => give_all(alloc, &settings, subtree, each),
            Err(_) => Err(LoadFault::NoMemory),
        }
    }
}

// Gives `each` these settings whose names match the subtree, and counts them.
fn give_all<E: Each>(
    alloc: Global,
    settings: &BTreeMap<Name, &[u8], Global>,
    subtree: Option<&Name>,
    each: &mut E,
) -> Result<u32, LoadFault>
    requires few { length (pairs_in settings.now) < 2 ^ 32 }
    ensures { DirectEnds true (E.had each.old) (E.had each.new)
        (option_map (λ name. name.now) subtree.entry) (pairs_in settings.now) result }
{
    let mut count = 0;
    for (name, value) in settings {
        if !is_under(name, subtree) {
            continue;
        }
        match each.have(alloc, name, ValueView::of(value)) {
            Ok(()) => count += 1,
            Err(_) => return Err(LoadFault::NoMemory),
        }
    }
    Ok(count)
}
