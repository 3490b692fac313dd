// Comparing the maps of two stores.
ghost use Rattle.std.specs.Prelude.{◌≡◌, ℕ, List, true, false, option_map};
ghost use Rattle.std.specs.Bool.{MatchBool};
ghost use Rattle.std.specs.FinMap as finite;
ghost use Rattle.flash_map.specs.Lawful.{IsLawfulFor};
ghost use Rattle.flash_map.specs.On.{on, StandsOn};
ghost use Rattle.backend_api.specs.Map.{IsStored};
ghost use Rattle.mirror.specs.Mirrored.{IsWithin};

use crate::fitting::has_value;
use crate::priced::Priced;
use backend_api::Backend;
use flash_sim::{Flash, Steps};
use setting_name::Name;
use std::sync::ledger::Ledger;

// Whether the name has the same value in both stores, if it has one in the first.
fn has_same<K: Priced, F: Flash, L: Ledger>(
    store: &K,
    other: &K,
    flash: &F,
    name: &Name,
    steps: &mut Steps<L>,
) -> bool
    requires lawful { IsLawfulFor (F.device flash.now).banks (K.mounted_on store.now) }
    requires stands { StandsOn K.mounted_on K.stands (F.device flash.now) store.now }
    requires lawful_other { IsLawfulFor (F.device flash.now).banks (K.mounted_on other.now) }
    requires stands_other { StandsOn K.mounted_on K.stands (F.device flash.now) other.now }
    ensures { let d = F.device flash.now in
        let settings = on K.contents d (K.mounted_on store.now) in
        let others = on K.contents d (K.mounted_on other.now) in
        MatchBool result
        ((value : List ℕ) → IsStored settings name.now value → IsStored others name.now value)
        (¬ ((value : List ℕ) → IsStored settings name.now value → IsStored others name.now value)) }
{
    match store.get(flash, name, steps) {
        Some(value) => has_value(other, flash, name, value, steps),
        None => true,
    }
}

// Whether each name of the first store has the same value in the other.
fn is_within<K: Priced, F: Flash, L: Ledger>(
    store: &K,
    other: &K,
    flash: &F,
    steps: &mut Steps<L>,
) -> bool
    requires lawful { IsLawfulFor (F.device flash.now).banks (K.mounted_on store.now) }
    requires stands { StandsOn K.mounted_on K.stands (F.device flash.now) store.now }
    requires lawful_other { IsLawfulFor (F.device flash.now).banks (K.mounted_on other.now) }
    requires stands_other { StandsOn K.mounted_on K.stands (F.device flash.now) other.now }
    ensures { let d = F.device flash.now in
        let settings = on K.contents d (K.mounted_on store.now) in
        let others = on K.contents d (K.mounted_on other.now) in
        MatchBool result (IsWithin settings others) (¬ IsWithin settings others) }
{
    let mut at = store.next_name(flash, None, steps);
    while let Some(name) = at {
        if !has_same(store, other, flash, &name, steps) {
            return false;
        }
        at = store.next_name(flash, Some(&name), steps);
    }
    true
}

// Whether both stores have one map.
pub(crate) fn hold_one_map<K: Priced, F: Flash, L: Ledger>(
    store: &K,
    other: &K,
    flash: &F,
    steps: &mut Steps<L>,
) -> bool
    requires lawful { IsLawfulFor (F.device flash.now).banks (K.mounted_on store.now) }
    requires stands { StandsOn K.mounted_on K.stands (F.device flash.now) store.now }
    requires lawful_other { IsLawfulFor (F.device flash.now).banks (K.mounted_on other.now) }
    requires stands_other { StandsOn K.mounted_on K.stands (F.device flash.now) other.now }
    ensures same { let d = F.device flash.now in
        result ≡ true
        → on K.contents d (K.mounted_on other.now) ≡ on K.contents d (K.mounted_on store.now) }
    ensures differ { let d = F.device flash.now in
        result ≡ false
        → ¬ (on K.contents d (K.mounted_on other.now) ≡ on K.contents d (K.mounted_on store.now)) }
{
    is_within(store, other, flash, steps) && is_within(other, store, flash, steps)
}
