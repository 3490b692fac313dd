// The layout of ids by the hash of the name.
ghost use Rattle.std.specs.Prelude.{◌≡◌, ◌+◌, ◌-◌, ◌<◌, ◌≤◌, ℕ, List, None, true, false, IfSome};
ghost use Rattle.std.proofs.Common.{refl, lit<};
ghost use Rattle.flash_sim.specs.Bank.{IsLawful};
ghost use Rattle.flash_sim.specs.Device.{Device};
ghost use Rattle.flash_map.specs.Area.{value_limit};
ghost use Rattle.flash_map.specs.Lawful.{IsLawfulFor};
ghost use Rattle.flash_map.specs.On.{on, HoldsOn, StandsOn};
ghost use Rattle.named_items.specs.Candidates.{IsFreeCandidate};
ghost use Rattle.named_items.specs.Pairs.{IsAt, IsIdOfName};
ghost use Rattle.named_items.specs.Looking.{HasIds};
ghost use Rattle.backend_zms.specs.declared.hash.TheConstants.{GROUP_BITS};
ghost use Rattle.backend_zms.specs.Hash.{first_of};
ghost use Rattle.backend_zms.specs.IdLayout.{numbering_of, top, too_many, zms-numbering, zms-within, no-count, stored-one};

use crate::hash::{FIRST, GROUP_BITS, GROUP_SIZE, STEP, first_of};
use backend_api::SetFault;
use flash_sim::{Flash, Steps};
use named_items::{IdLayout, IdRange, ItemStore, NewNames, is_at, name_in, put_new};
use setting_name::Name;
use std::sync::ledger::Ledger;

/// The layout of ids in ZMS: each name at one of the 16 ids of its hash's group, and each value
/// 0x4000_0000 above its name.
pub struct ZmsIdLayout;

impl IdLayout for ZmsIdLayout {
    ghost numbering = { λ area. numbering_of area };

    ghost top = { top };

    ghost counted = { λ price. 0 };

    ghost too_many = { λ settings name. too_many settings name };

    ghost is_numbering = { λ area. zms-numbering (value_limit area) };

    ghost within = { λ area count. zms-within };

    ghost top_small = { lit< tt };

    ghost longest = { λ area. refl };

    ghost count_cost = { λ area price count counts. no-count price count counts };

    ghost stored_few = { λ settings name has. stored-one settings name has };

    fn step() -> u32 {
        STEP
    }

    fn candidates_of(name: &Name) -> IdRange {
        group_of(name)
    }

    fn all_candidates() -> IdRange {
        IdRange {
            least: FIRST,
            most: FIRST + GROUP_BITS + (GROUP_SIZE - 1),
        }
    }

    fn may_have<S: ItemStore, F: Flash, L: Ledger>(
        store: &S,
        _flash: &F,
        name: &Name,
        _steps: &mut Steps<L>,
    ) -> bool {
        may_stand(store, name)
    }

    fn end_of_names<S: ItemStore, F: Flash, L: Ledger>(
        _store: &S,
        _flash: &F,
        _index: &S::Index,
        _steps: &mut Steps<L>,
    ) -> u32 {
        FIRST + GROUP_BITS + GROUP_SIZE
    }

    fn id_of<S: ItemStore, F: Flash, L: Ledger>(
        store: &S,
        flash: &F,
        index: &S::Index,
        name: &Name,
        steps: &mut Steps<L>,
    ) -> Option<u32> {
        id_of(store, flash, index, name, steps)
    }

    fn is_kept<S: ItemStore, F: Flash, L: Ledger>(
        store: &S,
        flash: &F,
        index: &S::Index,
        id: u32,
        steps: &mut Steps<L>,
    ) -> bool {
        let candidate = if id < FIRST + STEP { id } else { id - STEP };
        stands_at(store, flash, index, candidate, steps)
    }

    fn settings_cost<S: ItemStore, F: Flash, L: Ledger>(
        store: &S,
        flash: &F,
        steps: &mut Steps<L>,
    ) -> u64 {
        store.live_cost(flash, steps)
    }
}

impl NewNames for ZmsIdLayout {
    fn put_name<S: ItemStore, F: Flash, L: Ledger>(
        store: &mut S,
        flash: &mut F,
        name: &Name,
        value: &[u8],
        steps: &mut Steps<L>,
    ) -> Result<(), SetFault> {
        match free_candidate(store, flash, name, steps) {
            Some(free) => put_new::<ZmsIdLayout, S, F, L>(store, flash, free, name, value, steps),
            None => Err(SetFault::TooManyNames),
        }
    }
}

// The ids of the name's group.
fn group_of(name: &Name) -> IdRange
    ensures least { result.least ≡ first_of name.now }
    ensures most { result.most ≡ first_of name.now + (GROUP_SIZE - 1) }
{
    let first = first_of(name.bytes());
    IdRange {
        least: first,
        most: first + (GROUP_SIZE - 1),
    }
}

// The id of the name's setting in effect, if it has a value: the least of its group that has the
// name and a value.
fn id_of<S: ItemStore, F: Flash, L: Ledger>(
    store: &S,
    flash: &F,
    index: &S::Index,
    name: &Name,
    steps: &mut Steps<L>,
) -> Option<u32>
    requires ids { HasIds top S.is_id }
    requires lawful { IsLawfulFor (F.device flash.now).banks (S.mounted_on store.now) }
    requires stands { StandsOn S.mounted_on S.stands (F.device flash.now) store.now }
    requires describes { HoldsOn (S.describes index.now) (F.device flash.now)
        (S.mounted_on store.now) }
    ensures id { let area = S.mounted_on store.now in
        IsIdOfName (numbering_of area) (on S.contents (F.device flash.now) area) name.now result }
    ensures below { IfSome result (λ id. id < FIRST + GROUP_BITS + GROUP_SIZE) }
{
    let first = first_of(name.bytes());
    for id in first..first + GROUP_SIZE {
        if is_at(store, flash, index, name, id, id + STEP, steps) {
            return Some(id);
        }
    }
    None
}

// Whether an item may stand at an id of the name's group: if the answer is `false`, the name has no
// value. It does not look at the flash.
fn may_stand<S: ItemStore>(store: &S, name: &Name) -> bool
    requires { HasIds top S.is_id }
    ensures { let area = S.mounted_on store.now in
        (d : Device) → IsLawful d.banks d.bytes → IsLawfulFor d.banks area
        → StandsOn S.mounted_on S.stands d store.now → result ≡ false
        → IsIdOfName (numbering_of area) (on S.contents d area) name.now None }
{
    let from = first_of(name.bytes());
    for id in from..from + GROUP_SIZE {
        if store.may_hold(id) {
            return true;
        }
    }
    false
}

// Whether a setting in effect has its name at this id.
fn stands_at<S: ItemStore, F: Flash, L: Ledger>(
    store: &S,
    flash: &F,
    index: &S::Index,
    id: u32,
    steps: &mut Steps<L>,
) -> bool
    requires ids { HasIds top S.is_id }
    requires lawful { IsLawfulFor (F.device flash.now).banks (S.mounted_on store.now) }
    requires stands { StandsOn S.mounted_on S.stands (F.device flash.now) store.now }
    requires describes { HoldsOn (S.describes index.now) (F.device flash.now)
        (S.mounted_on store.now) }
    requires known { id < top }
    ensures yes_it { let area = S.mounted_on store.now in
        let items = on S.contents (F.device flash.now) area in
        result ≡ true → (name : List ℕ) × IsAt (numbering_of area) items name id }
    ensures not_it { let area = S.mounted_on store.now in
        let items = on S.contents (F.device flash.now) area in
        result ≡ false → (name : List ℕ) → ¬ IsAt (numbering_of area) items name id }
{
    match name_in(store, flash, index, id, steps) {
        Some(name) => match id_of(store, flash, index, &name, steps) {
            Some(found) => found == id,
            None => false,
        },
        None => false,
    }
}

// The least id of the name's group that is free, as is the id of its value.
fn free_candidate<S: ItemStore, F: Flash, L: Ledger>(
    store: &S,
    flash: &F,
    name: &Name,
    steps: &mut Steps<L>,
) -> Option<u32>
    requires lawful { IsLawfulFor (F.device flash.now).banks (S.mounted_on store.now) }
    requires stands { StandsOn S.mounted_on S.stands (F.device flash.now) store.now }
    ensures { let area = S.mounted_on store.now in
        IsFreeCandidate (numbering_of area) (on S.contents (F.device flash.now) area) name.now
        result }
{
    store.least_free(flash, &group_of(name), STEP, steps)
}
