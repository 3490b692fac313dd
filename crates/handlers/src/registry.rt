// The registry of handlers.
ghost use Rattle.std.specs.Prelude.{◌≡◌, ℕ, ◌<◌, List, [], ◌∷◌, ◌++◌, length, map, IfSome, option_map, slice_get};
ghost use Rattle.handlers.specs.Held.{SetEnds, committed};
ghost use Rattle.handlers.specs.Best.{AreDistinct, best};
ghost use Rattle.handlers.specs.Registry.{registered, subtrees, has_subtree, RegisterEnds, SetsAt, commit_at};

use crate::best::best_row;
use crate::{Handler, SetRefusal, ValueView};
use setting_name::Name;
use std::alloc::Global;

/// Why a handler was not registered.
#[derive(Clone, Copy, Debug, PartialEq, Eq)]
pub enum RegisterFault {
    /// The subtree is registered already.
    Exists,
    /// There was not enough memory.
    NoMemory,
}

/// A handler with its subtree.
#[derive(Drop)]
pub(crate) struct Row<B> {
    pub(crate) subtree: Name,
    handler: B,
}

impl Row<Box<dyn Handler>> {
    fn handler(&self) -> &dyn Handler
        ensures { (Handler-dyn result.now).state result.now.1
            ≡ (Handler-box self.now.handler).state self.now.handler.value }
    {
        &*self.handler
    }

    fn set(&mut self, alloc: Global, rest: &[u8], value: ValueView<'_>) -> Result<(), SetRefusal>
        ensures subtree { self.new.subtree ≡ self.old.subtree }
        ensures ends { SetEnds (state self.old.handler) (state self.new.handler) rest.now
            value.entry.bytes.now result }
    {
        self.handler.set(alloc, rest, value)
    }

    fn commit(&mut self)
        ensures subtree { self.new.subtree ≡ self.old.subtree }
        ensures ends { state self.new.handler ≡ committed (state self.old.handler) }
    {
        self.handler.commit();
    }
}

/// The registered handlers with their subtrees, in the order of registration. It is generic in what
/// it keeps, so that other crates can move boxes into it.
#[derive(Drop)]
pub struct RegistryOf<B> {
    rows: Vec<Row<B>>,
}

/// A registry of boxed handlers.
pub type Registry = RegistryOf<Box<dyn Handler>>;

impl<B: Drop> RegistryOf<B> {
    /// An empty registry.
    pub fn new(alloc: Global) -> RegistryOf<B>
        ensures { result.rows.items ≡ [] }
    {
        RegistryOf {
            rows: Vec::new(alloc),
        }
    }

    /// Registers a handler as the last one.
    ///
    /// # Errors
    /// `Exists` exactly if the subtree is registered already; `NoMemory` only if it is not. Nothing
    /// changes then, and the handler comes back.
    pub fn register(&mut self, subtree: Name, handler: B) -> Result<(), (RegisterFault, B)>
        ensures ends { RegisterEnds self.old.rows.items self.new.rows.items subtree handler result }
        ensures distinct { AreDistinct (map (λ row. row.subtree) self.old.rows.items)
            → AreDistinct (map (λ row. row.subtree) self.new.rows.items) }
    {
        if any_has(&self.rows, &subtree) {
            return Err((RegisterFault::Exists, handler));
        }
        match self.rows.push(Row { subtree, handler }) {
            Ok(()) => Ok(()),
            Err(failed) => Err((RegisterFault::NoMemory, failed.value.handler)),
        }
    }
}

impl RegistryOf<Box<dyn Handler>> {
    /// The place of the handler whose subtree matches the name with the most parts; `None`
    /// if none matches.
    pub fn best(&self, name: &Name) -> Option<usize>
        ensures { result ≡ best (subtrees (registered state self.now)) name.now }
    {
        best_row(&self.rows, name)
    }

    /// How many handlers are registered.
    pub fn len(&self) -> usize
        ensures { result ≡ length (registered state self.now) }
    {
        self.rows.len()
    }

    /// The subtree of the handler at a place; `None` if the place is past the last one.
    pub fn subtree(&self, i: usize) -> Option<&Name>
        ensures { option_map (λ name. name.now) result
            ≡ option_map (λ h. h.subtree) (slice_get (registered state self.now) i) }
    {
        Some(&self.rows.get(i)?.subtree)
    }

    /// The handler at a place; `None` if the place is past the last one.
    pub fn handler(&self, i: usize) -> Option<&dyn Handler>
        ensures { option_map (λ h. (Handler-dyn h.now).state h.now.1) result
            ≡ option_map (λ h. h.state)
            (slice_get (registered (λ b. (Handler-box b).state b.value) self.now) i) }
    {
        match self.rows.get(i) {
            Some(row) => Some(row.handler()),
            None => None,
        }
    }

    /// Gives the handler at a place a value for a rest.
    ///
    /// # Errors
    /// Those of `Handler::set`; nothing changes then.
    pub fn set_at(
        &mut self,
        alloc: Global,
        i: usize,
        rest: &[u8],
        value: ValueView<'_>,
    ) -> Result<(), SetRefusal>
        requires { i < length (registered state self.old) }
        ensures { SetsAt (registered state self.old) (registered state self.new) i rest.now
            value.entry.bytes.now result }
    {
        self.rows[i].set(alloc, rest, value)
    }

    /// Commits the handler at a place.
    pub fn commit_at(&mut self, i: usize)
        requires { i < length (registered state self.old) }
        ensures { registered state self.new ≡ commit_at (registered state self.old) i }
    {
        self.rows[i].commit();
    }
}

fn any_has<B>(rows: &[Row<B>], subtree: &Name) -> bool
    ensures { result ≡ has_subtree rows.now subtree.now }
{
    for row in rows {
        if *subtree == row.subtree {
            return true;
        }
    }
    false
}
