// Which items are kept.
ghost use Rattle.std.specs.Prelude.{◌≡◌, ◌<◌, ℕ, List, true, false, option_map};
ghost use Rattle.flash_map.specs.Lawful.{IsLawfulFor};
ghost use Rattle.flash_map.specs.On.{on, HoldsOn, StandsOn};
ghost use Rattle.named_items.specs.Pairs.{IsAt, IsKept};
ghost use Rattle.named_items.specs.Looking.{HasIds};
ghost use Rattle.backend_nvs.specs.IdLayout.{is_count, numbering_of};
ghost use Rattle.backend_nvs.specs.declared.lookup.TheConstants.{TOP};

use crate::lookup::{COUNT, FIRST, STEP, id_of};
use flash_sim::{Flash, Steps};
use named_items::ItemStore;
use setting_name::Name;
use std::sync::ledger::Ledger;

// Whether a setting in effect has its name at this id.
fn stands_at<S: ItemStore, F: Flash, L: Ledger>(
    store: &S,
    flash: &F,
    index: &S::Index,
    id: u32,
    steps: &mut Steps<L>,
) -> bool
    requires ids { HasIds TOP S.is_id }
    requires lawful { IsLawfulFor (F.device flash.now).banks (S.mounted_on store.now) }
    requires stands { StandsOn S.mounted_on S.stands (F.device flash.now) store.now }
    requires describes { HoldsOn (S.describes index.now) (F.device flash.now)
        (S.mounted_on store.now) }
    requires known { id < TOP }
    ensures yes_it { let area = S.mounted_on store.now in
        result ≡ true
        → (name : List ℕ)
        × IsAt (numbering_of area) (on S.contents (F.device flash.now) area) name id }
    ensures not_it { let area = S.mounted_on store.now in
        result ≡ false → (name : List ℕ)
        → IsAt (numbering_of area) (on S.contents (F.device flash.now) area) name id → ⊥ }
{
    let name = match store.get_by(flash, index, id, steps) {
        Some(bytes) => match Name::read(bytes) {
            Ok(name) => name,
            Err(_) => return false,
        },
        None => return false,
    };
    match id_of(store, flash, index, &name, steps) {
        Some(found) => found == id,
        None => false,
    }
}

// Whether the item is a count.
fn is_count(found: Option<&[u8]>) -> bool
    ensures { result ≡ is_count (option_map (λ bytes. bytes.now) found.entry) }
{
    match found {
        Some(bytes) => bytes.len() == 2,
        None => false,
    }
}

// Whether an id has the count, or a part of a setting in effect.
pub(crate) fn is_kept<S: ItemStore, F: Flash, L: Ledger>(
    store: &S,
    flash: &F,
    index: &S::Index,
    id: u32,
    steps: &mut Steps<L>,
) -> bool
    requires ids { HasIds TOP S.is_id }
    requires lawful { IsLawfulFor (F.device flash.now).banks (S.mounted_on store.now) }
    requires stands { StandsOn S.mounted_on S.stands (F.device flash.now) store.now }
    requires describes { HoldsOn (S.describes index.now) (F.device flash.now)
        (S.mounted_on store.now) }
    requires known { id < TOP }
    ensures yes_it { let area = S.mounted_on store.now in
        result ≡ true → IsKept (numbering_of area) (on S.contents (F.device flash.now) area) id }
    ensures not_it { let area = S.mounted_on store.now in
        result ≡ false → IsKept (numbering_of area) (on S.contents (F.device flash.now) area)
        id → ⊥ }
{
    if id == COUNT {
        return is_count(store.get_by(flash, index, COUNT, steps));
    }
    let candidate = if id < FIRST + STEP { id } else { id - STEP };
    stands_at(store, flash, index, candidate, steps)
}
