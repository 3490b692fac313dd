// Which item stays, as a walk asks in rising order of ids.
ghost use Rattle.std.specs.Prelude.{◌≡◌, ◌+◌, ◌<◌, Some, true, false};
ghost use Rattle.std.specs.FinMap as finite;
ghost use Rattle.setting_name.specs.Name.{IsName};
ghost use Rattle.flash_map.specs.Lawful.{IsLawfulFor};
ghost use Rattle.flash_map.specs.On.{on, HoldsOn, StandsOn};
ghost use Rattle.named_items.specs.Looking.{HasIds, IsForName};
ghost use Rattle.named_items.specs.Pairs.{IsHeld, IsKept};
ghost use Rattle.named_items.specs.Seen.{HasCome, SawBelow};

use crate::candidates::contains;
use crate::lookup::is_value;
use crate::numbering::IdLayout;
use crate::seen::SeenNames;
use crate::store::ItemStore;
use crate::walking::name_in;
use flash_sim::{Flash, Steps};
use setting_name::Name;
use std::sync::ledger::Ledger;

// Whether a setting of this name stands at the id, in effect or not. The item of the id is the name,
// which is lawful.
fn is_held<N: IdLayout, S: ItemStore, F: Flash, L: Ledger>(
    store: &S,
    flash: &F,
    index: &S::Index,
    name: &Name,
    id: u32,
    steps: &mut Steps<L>,
) -> bool
    requires ids { HasIds N.top S.is_id }
    requires lawful { IsLawfulFor (F.device flash.now).banks (S.mounted_on store.now) }
    requires stands { StandsOn S.mounted_on S.stands (F.device flash.now) store.now }
    requires describes { HoldsOn (S.describes index.now) (F.device flash.now)
        (S.mounted_on store.now) }
    requires name { IsName name.now }
    requires named { finite.get (on S.contents (F.device flash.now) (S.mounted_on store.now)) id
        ≡ Some name.now }
    ensures yes_it { let area = S.mounted_on store.now in
        let items = on S.contents (F.device flash.now) area in
        result ≡ true → IsHeld (N.numbering area) items name.now id }
    ensures not_it { let area = S.mounted_on store.now in
        let items = on S.contents (F.device flash.now) area in
        result ≡ false → IsHeld (N.numbering area) items name.now id → ⊥ }
{
    if !contains(&N::candidates_of(name), id) {
        return false;
    }
    if N::end_of_names(store, flash, index, steps) <= id {
        return false;
    }
    let longest = store.area().value_limit();
    is_value(store.get_by(flash, index, id + N::step(), steps), longest)
}

// Whether the item at an id for names is a part of a setting in effect. The set has the names
// below, and gets this one. The lower ids are searched only if the set seems to have the name.
fn is_name_kept<N: IdLayout, S: ItemStore, F: Flash, L: Ledger>(
    store: &S,
    flash: &F,
    index: &S::Index,
    seen: &mut SeenNames,
    id: u32,
    steps: &mut Steps<L>,
) -> bool
    requires ids { HasIds N.top S.is_id }
    requires lawful { IsLawfulFor (F.device flash.now).banks (S.mounted_on store.now) }
    requires stands { StandsOn S.mounted_on S.stands (F.device flash.now) store.now }
    requires describes { HoldsOn (S.describes index.now) (F.device flash.now)
        (S.mounted_on store.now) }
    requires known { id < N.top }
    requires for_name { IsForName (N.numbering (S.mounted_on store.now)) id }
    requires saw { let area = S.mounted_on store.now in
        SawBelow (N.numbering area) (on S.contents (F.device flash.now) area) seen.old.words id }
    ensures yes_it { let area = S.mounted_on store.now in
        result ≡ true → IsKept (N.numbering area) (on S.contents (F.device flash.now) area) id }
    ensures not_it { let area = S.mounted_on store.now in
        result ≡ false → IsKept (N.numbering area) (on S.contents (F.device flash.now) area) id
        → ⊥ }
    ensures saw { let area = S.mounted_on store.now in
        SawBelow (N.numbering area) (on S.contents (F.device flash.now) area) seen.new.words
        (id + 1) }
{
    let Some(name) = name_in(store, flash, index, id, steps) else {
        return false;
    };
    if seen.insert(name.bytes()) {
        is_held::<N, S, F, L>(store, flash, index, &name, id, steps)
    } else {
        N::is_kept(store, flash, index, id, steps)
    }
}

/// Whether an id has the count, or a part of a setting in effect. Below the id no orphan is left,
/// so a value is kept exactly if its name's item is still there. The set has the names below, and
/// gets the name at the id.
pub(crate) fn is_kept_next<N: IdLayout, S: ItemStore, F: Flash, L: Ledger>(
    store: &S,
    flash: &F,
    index: &S::Index,
    seen: &mut SeenNames,
    id: u32,
    steps: &mut Steps<L>,
) -> bool
    requires ids { HasIds N.top S.is_id }
    requires lawful { IsLawfulFor (F.device flash.now).banks (S.mounted_on store.now) }
    requires stands { StandsOn S.mounted_on S.stands (F.device flash.now) store.now }
    requires describes { HoldsOn (S.describes index.now) (F.device flash.now)
        (S.mounted_on store.now) }
    requires known { id < N.top }
    requires walked { let area = S.mounted_on store.now in
        HasCome (N.numbering area) (on S.contents (F.device flash.now) area) seen.old.words id }
    ensures yes_it { let area = S.mounted_on store.now in
        result ≡ true → IsKept (N.numbering area) (on S.contents (F.device flash.now) area) id }
    ensures not_it { let area = S.mounted_on store.now in
        result ≡ false → IsKept (N.numbering area) (on S.contents (F.device flash.now) area) id
        → ⊥ }
    ensures saw { let area = S.mounted_on store.now in
        SawBelow (N.numbering area) (on S.contents (F.device flash.now) area) seen.new.words
        (id + 1) }
{
    let ids = N::all_candidates();
    let step = N::step();
    if contains(&ids, id) {
        return is_name_kept::<N, S, F, L>(store, flash, index, seen, id, steps);
    }
    if step <= id && contains(&ids, id - step) {
        return store.get_by(flash, index, id - step, steps).is_some();
    }
    N::is_kept(store, flash, index, id, steps)
}
