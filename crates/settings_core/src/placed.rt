// Handlers by their places.
ghost use Rattle.std.specs.Prelude.{◌≡◌, ◌<◌, List, length, option_map, slice_get};
ghost use Rattle.handlers.specs.Best.{best};
ghost use Rattle.handlers.specs.Registry.{Registered, registered, subtrees, SetsAt, commit_at};

use handlers::{Handler, Registry, SetRefusal, ValueView};
use setting_name::Name;
use std::alloc::Global;

/// Handlers with their subtrees, each at a place, as a registry has them. Code that is generic over
/// it moves no boxes.
pub trait PlacedHandlers {
    /// The handlers, by their places.
    ghost placed: { Self → List Registered };

    /// How many there are.
    fn len(&self) -> usize
        ensures { result ≡ length (placed self.now) };

    /// The place of the handler whose subtree matches the name with the most parts; `None`
    /// if none matches.
    fn best(&self, name: &Name) -> Option<usize>
        ensures { result ≡ best (subtrees (placed self.now)) name.now };

    /// The subtree of the handler at a place; `None` if the place is past the last one.
    fn subtree(&self, i: usize) -> Option<&Name>
        ensures { option_map (λ name. name.now) result
            ≡ option_map (λ h. h.subtree) (slice_get (placed self.now) i) };

    /// Gives the handler at a place a value for a rest.
    ///
    /// # Errors
    /// Those of `Handler::set`; nothing changes then.
    fn set_at(
        &mut self,
        alloc: Global,
        i: usize,
        rest: &[u8],
        value: ValueView<'_>,
    ) -> Result<(), SetRefusal>
        requires { i < length (placed self.old) }
        ensures { SetsAt (placed self.old) (placed self.new) i rest.now value.entry.bytes.now
            result };

    /// Commits the handler at a place.
    fn commit_at(&mut self, i: usize)
        requires { i < length (placed self.old) }
        ensures { placed self.new ≡ commit_at (placed self.old) i };
}

// Each method that changes handlers repeats its `requires`. Without them the checker says that
// callers in other crates hide boxes.
impl PlacedHandlers for Registry {
    ghost placed = { λ registry. registered (λ b. (Handler-box b).state b.value) registry };

    fn len(&self) -> usize {
        self.len()
    }

    fn best(&self, name: &Name) -> Option<usize> {
        self.best(name)
    }

    fn subtree(&self, i: usize) -> Option<&Name> {
        self.subtree(i)
    }

    fn set_at(
        &mut self,
        alloc: Global,
        i: usize,
        rest: &[u8],
        value: ValueView<'_>,
    ) -> Result<(), SetRefusal>
        requires { i < length (registered state self.old) }
        ensures { SetsAt (registered state self.old) (registered state self.new) i rest.now
            value.entry.bytes.now result }
    {
        self.set_at(alloc, i, rest, value)
    }

    fn commit_at(&mut self, i: usize)
        requires { i < length (registered state self.old) }
        ensures { registered state self.new ≡ commit_at (registered state self.old) i }
    {
        self.commit_at(i);
    }
}
