// All settings of a store.
ghost use Rattle.std.specs.Prelude.{◌≡◌, ◌+◌, ◌≤◌, option_map, IfOk};
ghost use Rattle.std.specs.FinMap as finite;
ghost use Rattle.flash_map.specs.Lawful.{IsLawfulFor};
ghost use Rattle.flash_map.specs.On.{on, HoldsOn, StandsOn};
ghost use Rattle.backend_api.specs.Listing.{pairs_in};
ghost use Rattle.named_items.specs.Listing.{IsNextSetting};
ghost use Rattle.named_items.specs.Looking.{HasIds};
ghost use Rattle.named_items.specs.Pairs.{settings_in, HasNoOrphans};

use crate::numbering::IdLayout;
use crate::store::ItemStore;
use crate::walking::name_in;
use flash_sim::{Flash, NoMemory, Steps};
use setting_name::Name;
use std::alloc::Global;
use std::collections::BTreeMap;
use std::sync::ledger::Ledger;

// The setting whose name has the least id above `after`: this id, the name and the value; `None`
// if there is none. No item may be an orphan. `after` is the id of a name, or the id below the
// first of them.
fn next_setting<'a, N: IdLayout, S: ItemStore, F: Flash, L: Ledger>(
    store: &S,
    flash: &'a F,
    index: &S::Index,
    after: u32,
    steps: &mut Steps<L>,
) -> Option<(u32, Name, &'a [u8])>
    requires ids { HasIds N.top S.is_id }
    requires lawful { IsLawfulFor (F.device flash.now).banks (S.mounted_on store.now) }
    requires stands { StandsOn S.mounted_on S.stands (F.device flash.now) store.now }
    requires describes { HoldsOn (S.describes index.now) (F.device flash.now)
        (S.mounted_on store.now) }
    requires clean { let area = S.mounted_on store.now in
        HasNoOrphans (N.numbering area) (on S.contents (F.device flash.now) area) }
    requires from { (N.numbering (S.mounted_on store.now)).first ≤ after + 1 }
    ensures { let area = S.mounted_on store.now in
        IsNextSetting (N.numbering area) (on S.contents (F.device flash.now) area) after
        (option_map (λ next. (next.0, next.1, next.2.now)) result) }
{
    let candidate = store.next_by(flash, index, Some(after), steps)?;
    if candidate > N::all_candidates().most {
        return None;
    }
    let name = name_in(store, flash, index, candidate, steps)?;
    let value = store.get_by(flash, index, candidate + N::step(), steps)?;
    Some((candidate, name, value))
}

/// All settings, in the byte order of their names. No item may be an orphan. It makes one index,
/// and looks each item up by it. It takes memory for each name.
///
/// # Errors
/// `NoMemory`.
pub fn all_settings<'a, N: IdLayout, S: ItemStore, F: Flash, L: Ledger>(
    alloc: Global,
    store: &S,
    flash: &'a F,
    steps: &mut Steps<L>,
) -> Result<BTreeMap<Name, &'a [u8], Global>, NoMemory>
    requires ids { HasIds N.top S.is_id }
    requires lawful { IsLawfulFor (F.device flash.now).banks (S.mounted_on store.now) }
    requires stands { StandsOn S.mounted_on S.stands (F.device flash.now) store.now }
    requires clean { let area = S.mounted_on store.now in
        HasNoOrphans (N.numbering area) (on S.contents (F.device flash.now) area) }
    ensures { let area = S.mounted_on store.now in
        IfOk result
        (λ found. pairs_in found
        ≡ finite.entries (settings_in (N.numbering area)
        (on S.contents (F.device flash.now) area))) }
{
    let mut index = S::new_index();
    store.fill_index(flash, &mut index, steps);
    let mut found = BTreeMap::new(alloc);
    let mut after = N::all_candidates().least - 1;
    while let Some((candidate, name, value)) = next_setting::<N, S, F, L>(
        store, flash, &index, after, steps,
    ) {
        found.insert(name, value)?;
        after = candidate;
    }
    Ok(found)
}
