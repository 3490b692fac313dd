// Laws on settings as pairs of items: the map of names to values that a map of items reads as, how
// a write or a delete of one item changes it, and what it costs. Each function does nothing; its
// contract is the law.
ghost use Rattle.std.specs.Prelude.{◌≡◌, ◌+◌, ◌≤◌, ℕ, Bool, List, Option, Some, None};
ghost use Rattle.std.specs.FinMap.{get, insert, remove};
ghost use Rattle.item_laws.specs.Costs.{items_cost};
ghost use Rattle.item_laws.specs.Items.{Items};
ghost use Rattle.backend_api.specs.Map.{Map};
ghost use Rattle.named_items.specs.Numbering.{Numbering, IsNumbering};
ghost use Rattle.named_items.specs.PairRoom.{pair_room, IsCountCost};
ghost use Rattle.named_items.specs.Pairs.{IsOf, count_in, pair_at, settings_in, HasName, IsInside, IsLowest, IsAt, IsKept, HasNoOrphans};

/// Deleting an orphan leaves the settings unchanged. An orphan is an item that is neither the count
/// nor part of a setting in effect.
pub fn orphan_deleted()
    ensures { (n : Numbering) (items : Items) (id : ℕ) → IsNumbering n → ¬ IsKept n items id
        → settings_in n (remove items id) ≡ settings_in n items }
{}

/// Raising the count by one leaves the settings unchanged, if no setting stands yet at the id
/// that it admits.
pub fn count_written()
    ensures { (n : Numbering) (items : Items) (count : List ℕ) → IsNumbering n
        → n.count_of (Some count) ≡ count_in n items + 1
        → pair_at n items (n.first + count_in n items) ≡ None
        → settings_in n (insert items n.count_id count) ≡ settings_in n items }
{}

/// Writing a value leaves the settings unchanged, if its name has no item.
pub fn value_written()
    ensures { (n : Numbering) (items : Items) (candidate : ℕ) (value : List ℕ) → IsNumbering n
        → IsInside n items candidate → get items candidate ≡ None
        → settings_in n (insert items (candidate + n.step) value) ≡ settings_in n items }
{}

/// Writing the name or the value that completes a setting gives the name its value. No setting of
/// another name may stand there, and no lower id may have a setting of the name.
pub fn setting_written()
    ensures { (n : Numbering) (items : Items) (candidate id : ℕ) (bytes name value : List ℕ)
        → IsNumbering n → IsInside n items candidate → IsOf n candidate id
        → pair_at n (insert items id bytes) candidate ≡ Some (name, value)
        → ((other : List ℕ) → HasName (pair_at n items candidate) other → other ≡ name)
        → IsLowest n items name candidate
        → settings_in n (insert items id bytes) ≡ insert (settings_in n items) name value }
{}

/// If no item is an orphan, deleting the item of a name removes its setting.
pub fn name_deleted()
    ensures { (n : Numbering) (items : Items) (name : List ℕ) (candidate : ℕ) → IsNumbering n
        → HasNoOrphans n items → IsAt n items name candidate
        → settings_in n (remove items candidate) ≡ remove (settings_in n items) name }
{}

/// If no item is an orphan, the items cost at most what `pair_room` says of the settings. Its cost
/// includes a count even where the area has none.
pub fn items_cost_at_most()
    ensures { (n : Numbering) (items : Items) (price : ℕ → ℕ) (cap counted : ℕ)
        (too_many : Map → List ℕ → Bool) → IsNumbering n → IsCountCost n price counted
        → HasNoOrphans n items
        → items_cost price items
        ≤ (pair_room price cap counted too_many).cost (settings_in n items) }
{}
