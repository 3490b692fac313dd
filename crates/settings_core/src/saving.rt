// Saves.
ghost use Rattle.std.specs.Prelude.{◌≡◌, ℕ, ◌<◌, ◌≤◌, ◌∷◌, [], length, true, false, None, get_or, option_map};
ghost use Rattle.std.specs.FinMap as finite;
ghost use Rattle.flash_map.specs.Area.{geometry_of, value_limit};
ghost use Rattle.flash_map.specs.Lawful.{IsLawfulFor};
ghost use Rattle.flash_map.specs.Spending.{SpendsAtMost};
ghost use Rattle.flash_map.specs.Touches.{Touches};
ghost use Rattle.setting_name.specs.Name.{IsName};
ghost use Rattle.setting_name.specs.Match.{joined_text};
ghost use Rattle.handlers.specs.Registry.{registered, nobody};
ghost use Rattle.backend_api.specs.Commands.{puts_of};
ghost use Rattle.backend_api.specs.Commands.Command.{Put};
ghost use Rattle.backend_api.specs.Map.{IsValue};
ghost use Rattle.flash_map.specs.On.{on, StandsOn};
ghost use Rattle.settings_core.specs.Carrying.{CarryEndsOn, due_units, save_lost};
ghost use Rattle.settings_core.specs.Owing.{OwesBoot};
ghost use Rattle.settings_core.specs.Saving.{AreSettings, AreLawful, pairs_of, exported, exported_of, more_pairs, CarriesOn};

use crate::committing::is_place_under;
use crate::offering::subtree_at;
use crate::settings::Settings;
use crate::writing::{SaveFault, put};
use backend_api::Backend;
use flash_sim::{Flash, Steps};
use handlers::{Handler, Registry};
use setting_name::Name;
use std::sync::ledger::Ledger;

/// How many pairs a save stored, and how it ended.
#[derive(Clone, Copy, Debug, PartialEq, Eq)]
pub struct Saved {
    /// How many pairs were stored whose value was not stored already. The count stays at 2^32 - 1.
    pub pairs: u32,
    /// How it ended: at the last pair, or at the first that was refused.
    pub end: Result<(), SaveFault>,
}

impl<K: Backend> Settings<K> {
    /// Stores the pairs of each handler whose own subtree matches the given one, in the order of
    /// registration and then in byte order of the rests. With no subtree given, it stores those of
    /// all. It ends at the first error; the pairs before that one are stored. Whatever the result,
    /// it spends at most the units and erases of one set for each pair that differs (`due_units`).
    /// If power is lost, it leaves at most `boot_units` of them to the next mount. While power is
    /// off it stores no pair.
    pub fn save<F: Flash, L: Ledger>(
        &mut self,
        flash: &mut F,
        registry: &Registry,
        subtree: Option<&Name>,
        steps: &mut Steps<L>,
    ) -> Saved
        requires lawful { IsLawfulFor (F.device flash.old).banks (K.mounted_on self.old.backend) }
        requires stands { K.runs self.old.backend ≡ true
            → StandsOn K.mounted_on K.stands (F.device flash.old) self.old.backend }
        requires settings { AreLawful (value_limit (K.mounted_on self.old.backend))
            (registered state registry.now) }

        ensures touches { Touches (K.mounted_on self.old.backend ∷ []) (F.device flash.old)
            (F.device flash.new) (save_lost result.end) }
        ensures area { K.mounted_on self.new.backend ≡ K.mounted_on self.old.backend }
        ensures ends { (count : ℕ)
            × CarryEndsOn K.room K.contents K.chance K.tears (K.runs self.old.backend)
            (K.mounted_on self.old.backend) (F.device flash.old) (F.device flash.new)
            (puts_of
            (exported (option_map (λ name. name.now) subtree.entry)
            (registered state registry.now))) count result.end
            × (result.pairs ≡ more_pairs 0 count) }
        ensures at_most { let area = K.mounted_on self.old.backend in let d = F.device flash.old in
            let e = F.device flash.new in let under = option_map (λ name. name.now) subtree.entry in
            let puts = puts_of (exported under (registered state registry.now)) in
            SpendsAtMost d e (due_units (geometry_of d area) (on K.contents d area) puts) }
        ensures off { (F.device flash.old).is_on ≡ false → result.pairs ≡ 0 }
        ensures sound { K.runs self.old.backend ≡ true
            → on K.damage (F.device flash.new) (K.mounted_on self.old.backend) ≡ None }
        ensures stands { K.runs self.new.backend ≡ true
            → StandsOn K.mounted_on K.stands (F.device flash.new) self.new.backend }
        ensures owes { save_lost result.end ≡ true
            → OwesBoot K.owes K.boot_units (F.device flash.new) (K.mounted_on self.new.backend) }
        ensures down { save_lost result.end ≡ true → K.runs self.new.backend ≡ false }
        ensures up { save_lost result.end ≡ false
            → K.runs self.new.backend ≡ K.runs self.old.backend }
    {
        if !self.backend.is_up() {
            return Saved {
                pairs: 0,
                end: Err(SaveFault::Off),
            };
        }
        let mut pairs = 0;
        let end = save_all(
            &mut self.backend,
            flash,
            registry,
            subtree,
            &mut pairs,
            steps,
        );
        Saved { pairs, end }
    }
}

// Stores the pairs of each handler whose own subtree matches, and counts them.
fn save_all<K: Backend, F: Flash, L: Ledger>(
    backend: &mut K,
    flash: &mut F,
    registry: &Registry,
    subtree: Option<&Name>,
    pairs: &mut u32,
    steps: &mut Steps<L>,
) -> Result<(), SaveFault>
    requires lawful { IsLawfulFor (F.device flash.old).banks (K.mounted_on backend.old) }
    requires stands { StandsOn K.mounted_on K.stands (F.device flash.old) backend.old }
    requires settings { AreLawful (value_limit (K.mounted_on backend.old))
        (registered state registry.now) }
    ensures carries { CarriesOn K.mounted_on K.stands K.runs K.damage K.room K.contents K.chance
        K.tears
        (K.mounted_on backend.old) backend.new (F.device flash.old) (F.device flash.new)
        (puts_of
        (exported (option_map (λ name. name.now) subtree.entry) (registered state registry.now)))
        pairs.old pairs.new result }
    ensures owes { save_lost result ≡ true
        → OwesBoot K.owes K.boot_units (F.device flash.new) (K.mounted_on backend.new) }
{
    let mut i = 0;
    while i < registry.len() {
        match save_at(backend, flash, registry, i, subtree, pairs, steps) {
            Ok(()) => i += 1,
            Err(fault) => return Err(fault),
        }
    }
    Ok(())
}

// Stores the pairs of one handler, if its subtree matches.
fn save_at<K: Backend, F: Flash, L: Ledger>(
    backend: &mut K,
    flash: &mut F,
    registry: &Registry,
    i: usize,
    subtree: Option<&Name>,
    pairs: &mut u32,
    steps: &mut Steps<L>,
) -> Result<(), SaveFault>
    requires lawful { IsLawfulFor (F.device flash.old).banks (K.mounted_on backend.old) }
    requires stands { StandsOn K.mounted_on K.stands (F.device flash.old) backend.old }
    requires settings { AreLawful (value_limit (K.mounted_on backend.old))
        (registered state registry.now) }
    requires within { i < length (registered state registry.now) }
    ensures carries { CarriesOn K.mounted_on K.stands K.runs K.damage K.room K.contents K.chance
        K.tears
        (K.mounted_on backend.old) backend.new (F.device flash.old) (F.device flash.new)
        (puts_of
        (exported_of (option_map (λ name. name.now) subtree.entry)
        (get_or (registered state registry.now) i nobody))) pairs.old pairs.new result }
    ensures owes { save_lost result ≡ true
        → OwesBoot K.owes K.boot_units (F.device flash.new) (K.mounted_on backend.new) }
{
    if !is_place_under(registry, i, subtree) {
        return Ok(());
    }
    let own = subtree_at(registry, i);
    let handler = handler_at(registry, i);
    save_handler(backend, flash, &own, handler, pairs, steps)
}

pub(crate) fn handler_at(registry: &Registry, i: usize) -> &dyn Handler
    requires { i < length (registered (λ b. (Handler-box b).state b.value) registry.now) }
    ensures { (Handler-dyn result.now).state result.now.1
        ≡ (get_or (registered (λ b. (Handler-box b).state b.value) registry.now) i nobody).state }
{
    match registry.handler(i) {
        Some(handler) => handler,
        None => unreachable!(),
    }
}

// Stores the pairs of one handler.
fn save_handler<K: Backend, F: Flash, L: Ledger>(
    backend: &mut K,
    flash: &mut F,
    subtree: &Name,
    handler: &dyn Handler,
    pairs: &mut u32,
    steps: &mut Steps<L>,
) -> Result<(), SaveFault>
    requires lawful { IsLawfulFor (F.device flash.old).banks (K.mounted_on backend.old) }
    requires stands { StandsOn K.mounted_on K.stands (F.device flash.old) backend.old }
    requires settings { AreSettings (value_limit (K.mounted_on backend.old))
        (pairs_of subtree.now (state handler.now).held) }
    ensures carries { CarriesOn K.mounted_on K.stands K.runs K.damage K.room K.contents K.chance
        K.tears
        (K.mounted_on backend.old) backend.new (F.device flash.old) (F.device flash.new)
        (puts_of (pairs_of subtree.now (state handler.now).held)) pairs.old pairs.new result }
    ensures owes { save_lost result ≡ true
        → OwesBoot K.owes K.boot_units (F.device flash.new) (K.mounted_on backend.new) }
{
    let mut i = 0;
    while let Some((rest, value)) = handler.export_at(i) {
        match save_pair(backend, flash, subtree, rest, value, pairs, steps) {
            Ok(()) => i += 1,
            Err(refusal) => return Err(refusal),
        }
    }
    Ok(())
}

// Stores one pair, and counts it if it was not stored already.
fn save_pair<K: Backend, F: Flash, L: Ledger>(
    backend: &mut K,
    flash: &mut F,
    subtree: &Name,
    rest: &[u8],
    value: &[u8],
    pairs: &mut u32,
    steps: &mut Steps<L>,
) -> Result<(), SaveFault>
    requires lawful { IsLawfulFor (F.device flash.old).banks (K.mounted_on backend.old) }
    requires stands { StandsOn K.mounted_on K.stands (F.device flash.old) backend.old }
    requires name { IsName (joined_text subtree.now rest.now) }
    requires value { IsValue (value_limit (K.mounted_on backend.old)) value.now }
    ensures carries { CarriesOn K.mounted_on K.stands K.runs K.damage K.room K.contents K.chance
        K.tears
        (K.mounted_on backend.old) backend.new (F.device flash.old) (F.device flash.new)
        (Put (joined_text subtree.now rest.now) value.now ∷ []) pairs.old pairs.new result }
    ensures owes { save_lost result ≡ true
        → OwesBoot K.owes K.boot_units (F.device flash.new) (K.mounted_on backend.new) }
{
    let name = joined(subtree, rest);
    match put(backend, flash, &name, value, steps) {
        Ok(is_new) => {
            if is_new {
                *pairs = pairs.saturating_add(1);
            }
            Ok(())
        }
        Err(fault) => Err(fault),
    }
}

fn joined(subtree: &Name, rest: &[u8]) -> Name
    requires { IsName (joined_text subtree.now rest.now) }
    ensures { result ≡ joined_text subtree.now rest.now }
{
    match Name::join(subtree, rest) {
        Ok(name) => name,
        Err(_) => unreachable!(),
    }
}
