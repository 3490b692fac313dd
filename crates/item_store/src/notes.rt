// Notes on the entries of a list.
ghost use Rattle.std.specs.Prelude.{◌≡◌, ◌<◌, ℕ, List, [], ◌∷◌, ◌++◌, true};
ghost use Rattle.item_store.specs.declared.entry.Placed.{Placed as PlacedEntry};

use crate::entry::Placed;

/// Notes on entries, taken one after the other.
pub trait Notes {
    /// From this state on these entries were noted, which gave that state. Their ids are below the
    /// limit.
    ghost noted: { Self → ℕ → Self → List PlacedEntry → Type 0 };

    /// `true` only if noting one more entry of this id and length would change nothing.
    fn is_moot(&self, id: u32, len: u32) -> bool
        ensures { (start : Self) (limit : ℕ) (before : List PlacedEntry) (placed : PlacedEntry)
            → result ≡ true → placed.id ≡ id → placed.len ≡ len
            → noted start limit self.now before
            → noted start limit self.now (before ++ placed ∷ []) };

    /// Notes one more entry, behind those noted so far.
    fn note(&mut self, placed: &Placed)
        ensures { (start : Self) (limit : ℕ) (before : List PlacedEntry) → placed.now.id < limit
            → noted start limit self.old before
            → noted start limit self.new (before ++ placed.now ∷ []) };
}
