//! Laws on lists of pairs. The functions do nothing: their contracts are the laws.

ghost use Rattle.std.specs.Prelude.{◌≡◌, ◌∷◌, [], ◌++◌, ◌==◌, ℕ, List, false, None, if◌then◌else◌};
ghost use Rattle.std.specs.FinMap.{get};
ghost use Rattle.item_laws.specs.Items.{last, value_of, SameItems, items_of, with_pair};
ghost use Rattle.item_laws.specs.LivePairs.{names, live_pairs};

/// A pair at the end of the list decides for its id, and leaves every other id as it was.
pub fn one_pair_more()
    ensures { (pairs : List (ℕ × List ℕ)) (pair : ℕ × List ℕ) (id : ℕ)
        → last (pairs ++ pair ∷ []) id ≡ (if pair.0 == id then value_of pair.1 else last pairs id) }
{}

/// Garbage collection keeps the items: the other sectors, followed by the live pairs of the victim,
/// stand for the same items as the victim followed by the others. If the victim's last pair of an
/// id is a delete, and no other sector names the id, no pair that is left names it.
pub fn collect_pairs()
    ensures items { (victim others : List (ℕ × List ℕ))
        → SameItems (others ++ live_pairs victim others) (victim ++ others) }
    ensures marks { (victim others : List (ℕ × List ℕ)) (id : ℕ) → names id others ≡ false
        → last victim id ≡ None → names id (others ++ live_pairs victim others) ≡ false }
{}

/// The map that a list stands for has the last value of each id. A list with one more pair stands
/// for the map with that pair. Lists that agree on the last value of each id stand for the same
/// map.
pub fn map_of_list()
    ensures last { (pairs : List (ℕ × List ℕ)) (id : ℕ) → get (items_of pairs) id ≡ last pairs id }
    ensures more { (pairs : List (ℕ × List ℕ)) (pair : ℕ × List ℕ)
        → items_of (pairs ++ pair ∷ []) ≡ with_pair (items_of pairs) pair }
    ensures same { (xs ys : List (ℕ × List ℕ)) → SameItems xs ys → items_of xs ≡ items_of ys }
{}
