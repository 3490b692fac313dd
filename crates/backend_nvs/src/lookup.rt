// Look-ups of names.
ghost use Rattle.std.specs.Prelude.{◌≡◌, ◌+◌, ◌<◌, ◌≤◌, ℕ, List, option_map};
ghost use Rattle.std.specs.Bool.{MatchBool};
ghost use Rattle.flash_map.specs.Lawful.{IsLawfulFor};
ghost use Rattle.flash_map.specs.On.{on, HoldsOn, StandsOn};
ghost use Rattle.named_items.specs.Candidates.{IsFreeCandidate};
ghost use Rattle.named_items.specs.Pairs.{count_in, pair_at, HasName, IsIdOfName};
ghost use Rattle.named_items.specs.Looking.{HasIds};
ghost use Rattle.backend_nvs.specs.IdLayout.{count_of, number_of, numbering_of};

use flash_sim::{Flash, Steps};
use named_items::{IdRange, ItemStore, is_at};
use setting_name::Name;
use std::sync::ledger::Ledger;

// The item that may hold the count of names.
pub(crate) const COUNT: u32 = 0x8000;
// The id of the first name.
pub(crate) const FIRST: u32 = 0x8001;
// How far the id of a value is above that of its name.
pub(crate) const STEP: u32 = 0x4000;
// The most names of an area.
pub(crate) const LIMIT: u32 = 511;
// The ids of the store are those below this one.
pub(crate) const TOP: u32 = 0xFFFF;

// The number in an item, if it is a count of two bytes; else 0. It is at most `LIMIT`.
fn number_of(bytes: &[u8]) -> u32
    ensures { result ≡ number_of bytes.now }
{
    if bytes.len() == 2 {
        (u32::from(bytes[0]) + 256 * u32::from(bytes[1])).min(LIMIT)
    } else {
        0
    }
}

// How many names the item of the count allows; 0 if there is none.
fn count_of(found: Option<&[u8]>) -> u32
    ensures count { result ≡ count_of (option_map (λ bytes. bytes.now) found.entry) }
    ensures few { result ≤ LIMIT }
{
    match found {
        Some(bytes) => number_of(bytes),
        None => 0,
    }
}

// How many names the count allows. It makes no index.
pub(crate) fn read_count<S: ItemStore, F: Flash, L: Ledger>(
    store: &S,
    flash: &F,
    steps: &mut Steps<L>,
) -> u32
    requires ids { HasIds TOP S.is_id }
    requires lawful { IsLawfulFor (F.device flash.now).banks (S.mounted_on store.now) }
    requires stands { StandsOn S.mounted_on S.stands (F.device flash.now) store.now }
    ensures count { let area = S.mounted_on store.now in
        result ≡ count_in (numbering_of area) (on S.contents (F.device flash.now) area) }
    ensures few { result ≤ LIMIT }
{
    count_of(store.get(flash, COUNT, steps))
}

// How many names the count allows, as `read_count` gives it, found by the index.
pub(crate) fn read_count_by<S: ItemStore, F: Flash, L: Ledger>(
    store: &S,
    flash: &F,
    index: &S::Index,
    steps: &mut Steps<L>,
) -> u32
    requires ids { HasIds TOP S.is_id }
    requires lawful { IsLawfulFor (F.device flash.now).banks (S.mounted_on store.now) }
    requires stands { StandsOn S.mounted_on S.stands (F.device flash.now) store.now }
    requires describes { HoldsOn (S.describes index.now) (F.device flash.now)
        (S.mounted_on store.now) }
    ensures count { let area = S.mounted_on store.now in
        result ≡ count_in (numbering_of area) (on S.contents (F.device flash.now) area) }
    ensures few { result ≤ LIMIT }
{
    count_of(store.get_by(flash, index, COUNT, steps))
}

// Whether this id has the name, with a value.
fn is_here<S: ItemStore, F: Flash, L: Ledger>(
    store: &S,
    flash: &F,
    index: &S::Index,
    name: &Name,
    id: u32,
    steps: &mut Steps<L>,
) -> bool
    requires ids { HasIds TOP S.is_id }
    requires lawful { IsLawfulFor (F.device flash.now).banks (S.mounted_on store.now) }
    requires stands { StandsOn S.mounted_on S.stands (F.device flash.now) store.now }
    requires describes { HoldsOn (S.describes index.now) (F.device flash.now)
        (S.mounted_on store.now) }
    requires low { id < FIRST + LIMIT }
    ensures { let area = S.mounted_on store.now in
        let items = on S.contents (F.device flash.now) area in
        MatchBool result (HasName (pair_at (numbering_of area) items id) name.now)
        (¬ HasName (pair_at (numbering_of area) items id) name.now) }
{
    is_at(store, flash, index, name, id, id + STEP, steps)
}

// The id of the name's setting in effect, if there is one.
pub(crate) fn id_of<S: ItemStore, F: Flash, L: Ledger>(
    store: &S,
    flash: &F,
    index: &S::Index,
    name: &Name,
    steps: &mut Steps<L>,
) -> Option<u32>
    requires ids { HasIds TOP S.is_id }
    requires lawful { IsLawfulFor (F.device flash.now).banks (S.mounted_on store.now) }
    requires stands { StandsOn S.mounted_on S.stands (F.device flash.now) store.now }
    requires describes { HoldsOn (S.describes index.now) (F.device flash.now)
        (S.mounted_on store.now) }
    ensures { let area = S.mounted_on store.now in
        IsIdOfName (numbering_of area) (on S.contents (F.device flash.now) area) name.now result }
{
    let count = read_count_by(store, flash, index, steps);
    for id in FIRST..FIRST + count {
        if is_here(store, flash, index, name, id, steps) {
            return Some(id);
        }
    }
    None
}

// The least id that the count allows for a name with neither a name nor a value. Any name may
// stand there.
pub(crate) fn free_candidate<S: ItemStore, F: Flash, L: Ledger>(
    store: &S,
    flash: &F,
    count: u32,
    steps: &mut Steps<L>,
) -> Option<u32>
    requires lawful { IsLawfulFor (F.device flash.now).banks (S.mounted_on store.now) }
    requires stands { StandsOn S.mounted_on S.stands (F.device flash.now) store.now }
    requires counted { let area = S.mounted_on store.now in
        count ≡ count_in (numbering_of area) (on S.contents (F.device flash.now) area) }
    requires few { count ≤ LIMIT }
    ensures { let area = S.mounted_on store.now in
        let items = on S.contents (F.device flash.now) area in
        (name : List ℕ) → IsFreeCandidate (numbering_of area) items name result }
{
    let ids = IdRange {
        least: FIRST,
        most: FIRST + count - 1,
    };
    store.least_free(flash, &ids, STEP, steps)
}
