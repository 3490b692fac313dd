//! Laws on a cache's places. The functions do nothing: their contracts are the laws.

ghost use Rattle.std.specs.Prelude.{◌≡◌, ◌≢◌, ◌↔◌, ◌≤◌, ℕ, List, Option, Some, All, IfSome};
ghost use Rattle.lookup_cache.specs.Places.{place_of, without};
ghost use Rattle.lookup_cache.specs.History.{Event, cache_after, IsLastNoted};

/// The cache gives a place for an id exactly if it was noted last for the id's cache slot and its
/// sector was not forgotten since.
pub fn found_is_last_noted()
    ensures { (slots : ℕ) (events : List Event) (id sector slot : ℕ) → 1 ≤ slots
        → (place_of (cache_after slots events) id ≡ Some (sector, slot))
        ↔ IsLastNoted slots events id sector slot }
{}

/// No cache slot points into a sector that was just forgotten.
pub fn forgotten_sector()
    ensures { (cache : List (Option (ℕ × ℕ))) (sector : ℕ)
        → All (λ place. IfSome place (λ p. p.0 ≢ sector)) (without cache sector) }
{}
