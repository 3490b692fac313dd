// The trait of a layout of ids.
ghost use Rattle.std.specs.Prelude.{◌≡◌, ◌+◌, ◌^◌, ◌<◌, ◌≤◌, ℕ, Bool, List, Option, None, true, false};
ghost use Rattle.std.specs.FinMap as finite;
ghost use Rattle.flash_map.specs.declared.area.Area.{Area as area_type};
ghost use Rattle.flash_map.specs.Area.{geometry_of, value_limit};
ghost use Rattle.flash_map.specs.Lawful.{IsLawfulFor};
ghost use Rattle.flash_map.specs.On.{on, HoldsOn, StandsOn};
ghost use Rattle.backend_api.specs.Map.{Map};
ghost use Rattle.named_items.specs.Numbering.{Numbering, IsNumbering};
ghost use Rattle.named_items.specs.PairRoom.{IsCountCost};
ghost use Rattle.named_items.specs.Pairs.{count_in, settings_in, IsKept, IsIdOfName, HasNoOrphans};
ghost use Rattle.named_items.specs.CandidateIds.{AreOfNames, HasCandidates, HasOnlyCandidates, HasAllCandidates, HasOnlyNameIds};
ghost use Rattle.named_items.specs.Looking.{HasIds};
ghost use Rattle.named_items.specs.Putting.{room_in};

use crate::store::ItemStore;
use flash_sim::{Flash, Steps};
use item_store::IdRange;
use setting_name::Name;
use std::sync::ledger::Ledger;

/// At which ids a backend stores the names and the values of its settings.
pub trait IdLayout {
    /// The numbering of an area.
    ghost numbering: { area_type → Numbering };

    /// The ids of the store are those below this one.
    ghost top: { ℕ };

    /// What a count costs in bytes, by the price of a length.
    ghost counted: { (ℕ → ℕ) → ℕ };

    /// Whether this name would be one too many beside these settings.
    ghost too_many: { Map → List ℕ → Bool };

    /// How far the id of a value is above that of its name.
    fn step() -> u32
        ensures { (area : area_type) → (numbering area).step ≡ result };

    /// The ids at which a name may stand.
    fn candidates_of(name: &Name) -> IdRange
        ensures ids { (area : area_type) → AreOfNames (numbering area) top result }
        ensures candidates { (area : area_type) → HasCandidates (numbering area) name.now result }
        ensures only { (area : area_type) → HasOnlyCandidates (numbering area) name.now result };

    /// The ids at which any name may stand.
    fn all_candidates() -> IdRange
        ensures ids { (area : area_type) → AreOfNames (numbering area) top result }
        ensures candidates { (area : area_type) → HasAllCandidates (numbering area) result }
        ensures only { (area : area_type) → HasOnlyNameIds (numbering area) result };

    /// Whether a name may have a value: if the answer is `false`, the name has none. It
    /// makes no index.
    fn may_have<S: ItemStore, F: Flash, L: Ledger>(
        store: &S,
        flash: &F,
        name: &Name,
        steps: &mut Steps<L>,
    ) -> bool
        requires ids { HasIds top S.is_id }
        requires lawful { IsLawfulFor (F.device flash.now).banks (S.mounted_on store.now) }
        requires stands { StandsOn S.mounted_on S.stands (F.device flash.now) store.now }
        ensures { let area = S.mounted_on store.now in
            result ≡ false
            → IsIdOfName (numbering area) (on S.contents (F.device flash.now) area) name.now None };

    /// The first id above those at which the count allows names.
    fn end_of_names<S: ItemStore, F: Flash, L: Ledger>(
        store: &S,
        flash: &F,
        index: &S::Index,
        steps: &mut Steps<L>,
    ) -> u32
        requires ids { HasIds top S.is_id }
        requires lawful { IsLawfulFor (F.device flash.now).banks (S.mounted_on store.now) }
        requires stands { StandsOn S.mounted_on S.stands (F.device flash.now) store.now }
        requires describes { HoldsOn (S.describes index.now) (F.device flash.now)
            (S.mounted_on store.now) }
        ensures { let area = S.mounted_on store.now in
            result ≡ (numbering area).first
            + count_in (numbering area) (on S.contents (F.device flash.now) area) };

    /// The id at which the setting of a name stands; `None` if the name has no value. Items may be
    /// orphans. It looks at the ids of the name in rising order, up to that one.
    fn id_of<S: ItemStore, F: Flash, L: Ledger>(
        store: &S,
        flash: &F,
        index: &S::Index,
        name: &Name,
        steps: &mut Steps<L>,
    ) -> Option<u32>
        requires ids { HasIds top S.is_id }
        requires lawful { IsLawfulFor (F.device flash.now).banks (S.mounted_on store.now) }
        requires stands { StandsOn S.mounted_on S.stands (F.device flash.now) store.now }
        requires describes { HoldsOn (S.describes index.now) (F.device flash.now)
            (S.mounted_on store.now) }
        ensures { let area = S.mounted_on store.now in
            IsIdOfName (numbering area) (on S.contents (F.device flash.now) area) name.now result };

    /// Whether an id has the count, or a part of a setting in effect.
    fn is_kept<S: ItemStore, F: Flash, L: Ledger>(
        store: &S,
        flash: &F,
        index: &S::Index,
        id: u32,
        steps: &mut Steps<L>,
    ) -> bool
        requires ids { HasIds top S.is_id }
        requires lawful { IsLawfulFor (F.device flash.now).banks (S.mounted_on store.now) }
        requires stands { StandsOn S.mounted_on S.stands (F.device flash.now) store.now }
        requires describes { HoldsOn (S.describes index.now) (F.device flash.now)
            (S.mounted_on store.now) }
        requires known { id < top }
        ensures yes_it { let area = S.mounted_on store.now in
            result ≡ true → IsKept (numbering area) (on S.contents (F.device flash.now) area) id }
        ensures not_it { let area = S.mounted_on store.now in
            result ≡ false → IsKept (numbering area) (on S.contents (F.device flash.now) area) id
            → ⊥ };

    /// What all settings cost, in bytes, by the area's `Room`. No item may be an orphan.
    fn settings_cost<S: ItemStore, F: Flash, L: Ledger>(
        store: &S,
        flash: &F,
        steps: &mut Steps<L>,
    ) -> u64
        requires ids { HasIds top S.is_id }
        requires lawful { IsLawfulFor (F.device flash.now).banks (S.mounted_on store.now) }
        requires stands { StandsOn S.mounted_on S.stands (F.device flash.now) store.now }
        requires clean { let area = S.mounted_on store.now in
            HasNoOrphans (numbering area) (on S.contents (F.device flash.now) area) }
        ensures { let d = F.device flash.now in let area = S.mounted_on store.now in
            result
            ≡ (room_in counted too_many S.price S.cap (geometry_of d area)).cost
            (settings_in (numbering area) (on S.contents d area)) };

    // The count, the names and the values have ids of their own, and all of them are
    // ids of the store.
    ghost is_numbering: { (area : area_type) → IsNumbering (numbering area) };

    ghost within: { (area : area_type) (count : Option (List ℕ)) → (numbering area).first + (numbering area).count_of count + (numbering area).step ≤ top };

    ghost top_small: { top < 2 ^ 32 };

    // A value is no longer than the area allows.
    ghost longest: { (area : area_type) → (numbering area).longest ≡ value_limit area };

    ghost count_cost: { (area : area_type) (price : ℕ → ℕ) → IsCountCost (numbering area) price (counted price) };

    // A name that has a value is never one too many.
    ghost stored_few: { (settings : Map) (name : List ℕ) → finite.contains_key settings name ≡ true → too_many settings name ≡ false };
}
