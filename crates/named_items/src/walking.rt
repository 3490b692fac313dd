// The names of settings.
ghost use Rattle.std.specs.Prelude.{◌≡◌, option_map};
ghost use Rattle.std.specs.FinMap as finite;
ghost use Rattle.flash_map.specs.Lawful.{IsLawfulFor};
ghost use Rattle.flash_map.specs.On.{on, HoldsOn, StandsOn};
ghost use Rattle.backend_api.specs.Map.{next_name as next_name_of};
ghost use Rattle.named_items.specs.Pairs.{settings_in, HasNoOrphans};
ghost use Rattle.named_items.specs.Looking.{HasIds};
ghost use Rattle.named_items.specs.Walking.{IsNameIn};

use crate::numbering::IdLayout;
use crate::store::ItemStore;
use flash_sim::{Flash, Steps};
use setting_name::Name;
use std::sync::ledger::Ledger;

/// The lawful name that this item holds; `None` if it holds no such name.
pub fn name_in<S: ItemStore, F: Flash, L: Ledger>(
    store: &S,
    flash: &F,
    index: &S::Index,
    id: u32,
    steps: &mut Steps<L>,
) -> Option<Name>
    requires lawful { IsLawfulFor (F.device flash.now).banks (S.mounted_on store.now) }
    requires stands { StandsOn S.mounted_on S.stands (F.device flash.now) store.now }
    requires describes { HoldsOn (S.describes index.now) (F.device flash.now)
        (S.mounted_on store.now) }
    requires known { S.is_id id }
    ensures { let items = on S.contents (F.device flash.now) (S.mounted_on store.now) in
        IsNameIn (finite.get items id) result }
{
    match store.get_by(flash, index, id, steps) {
        Some(bytes) => match Name::read(bytes) {
            Ok(name) => Some(name),
            Err(_) => None,
        },
        None => None,
    }
}

/// The least name of a setting that is greater than `after`, or the least of all if `after` is
/// `None`; `None` if there is none. No item may be an orphan. It walks over the store's entries
/// once, and makes no index.
pub fn next_name<N: IdLayout, S: ItemStore, F: Flash, L: Ledger>(
    store: &S,
    flash: &F,
    after: Option<&Name>,
    steps: &mut Steps<L>,
) -> Option<Name>
    requires ids { HasIds N.top S.is_id }
    requires lawful { IsLawfulFor (F.device flash.now).banks (S.mounted_on store.now) }
    requires stands { StandsOn S.mounted_on S.stands (F.device flash.now) store.now }
    requires clean { let area = S.mounted_on store.now in
        HasNoOrphans (N.numbering area) (on S.contents (F.device flash.now) area) }
    ensures { let area = S.mounted_on store.now in
        result
        ≡ next_name_of (settings_in (N.numbering area) (on S.contents (F.device flash.now) area))
        (option_map (λ name. name.now) after.entry) }
{
    let ids = N::all_candidates();
    let after = after.map(|name| name.bytes());
    match Name::read(store.next_of(flash, ids.least, ids.most, after, steps)?) {
        Ok(name) => Some(name),
        Err(_) => None,
    }
}
