//! Laws on versions of items. The functions do nothing: their contracts are the laws.

ghost use Rattle.std.specs.Prelude.{◌≡◌, ◌∷◌, [], ◌++◌, ◌==◌, ℕ, List, slice_get, if◌then◌else◌};
ghost use Rattle.std.specs.Option.{option_and_then};
ghost use Rattle.item_laws.specs.Items.{last, value_of, SameItems};
ghost use Rattle.item_laws.specs.LivePairs.{live_pairs};
ghost use Rattle.item_laws.specs.PairRounds.{joined, collect_oldest};
ghost use Rattle.item_store.specs.Versions.{versions, KeepsVersions};

/// A pair at the end of the list is one more version of its id, the newest. The versions of every
/// other id stay.
pub fn one_version_more()
    ensures { (pairs : List (ℕ × List ℕ)) (pair : ℕ × List ℕ) (id : ℕ)
        → versions (pairs ++ pair ∷ []) id
        ≡ (if pair.0 == id then pair.1 ∷ versions pairs id else versions pairs id) }
{}

/// The newest version of an id decides for it.
pub fn newest_version()
    ensures { (pairs : List (ℕ × List ℕ)) (id : ℕ)
        → last pairs id ≡ option_and_then value_of (slice_get (versions pairs id) 0) }
{}

/// If the newest versions stay, the items stay. Versions that stay in each of two steps stay in
/// both together, and with one more pair at the end of both lists. A garbage collection keeps the
/// newest versions, and so does a round.
pub fn versions_stay()
    ensures items { (old new : List (ℕ × List ℕ)) → KeepsVersions old new → SameItems new old }
    ensures again { (a b c : List (ℕ × List ℕ)) → KeepsVersions a b → KeepsVersions b c
        → KeepsVersions a c }
    ensures more { (old new : List (ℕ × List ℕ)) (pair : ℕ × List ℕ) → KeepsVersions old new
        → KeepsVersions (old ++ pair ∷ []) (new ++ pair ∷ []) }
    ensures collection { (victim others : List (ℕ × List ℕ))
        → KeepsVersions (victim ++ others) (others ++ live_pairs victim others) }
    ensures round { (parts : List (List (ℕ × List ℕ)))
        → KeepsVersions (joined parts) (joined (collect_oldest parts)) }
{}
