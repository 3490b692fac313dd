// The three kinds of handlers.
ghost use Rattle.std.specs.Prelude.{◌≡◌};
ghost use Rattle.handlers.specs.Held.{accepts, fresh};
ghost use Rattle.handlers.specs.declared.handler.HandlerKind.TheVariants.{Table, Counter, Level};

use crate::pairs::Pairs;
use crate::{Handler, HandlerKind, SetRefusal, ValueView};
use std::alloc::Global;
use std::marker::PhantomData;

/// A kind, as a type.
pub trait Kind {
    ghost use Rattle.handlers.specs.declared.handler.HandlerKind.{HandlerKind};

    /// Which kind it is.
    ghost kind: { HandlerKind };

    /// Which kind it is.
    fn kind() -> HandlerKind
        ensures { result ≡ kind };

    /// Whether a handler of this kind accepts the value.
    fn accepts(value: &[u8]) -> bool
        ensures { result ≡ accepts kind value.now };
}

/// A handler of the kind `K`.
#[derive(Drop)]
pub struct HandlerOf<K> {
    held: Pairs,
    commits: u64,
    kind: PhantomData<K>,
}

impl<K: Kind> HandlerOf<K> {
    fn empty(alloc: Global) -> HandlerOf<K>
        ensures { ⟦<HandlerOf<K> as Handler>⟧.state result ≡ fresh K.kind }
    {
        HandlerOf {
            held: Pairs::new(alloc),
            commits: 0,
            kind: PhantomData,
        }
    }
}

impl<K: Kind> Handler for HandlerOf<K> {
    ghost state = { λ handler. record { kind = K.kind; held = handler.held; commits = handler.commits } };

    fn kind(&self) -> HandlerKind {
        K::kind()
    }

    fn set(&mut self, alloc: Global, rest: &[u8], value: ValueView<'_>) -> Result<(), SetRefusal> {
        if !K::accepts(value.bytes()) {
            return Err(SetRefusal::Rejected);
        }
        match self.held.put(alloc, rest, value.bytes()) {
            Ok(()) => Ok(()),
            Err(_) => Err(SetRefusal::NoMemory),
        }
    }

    fn get(&self, rest: &[u8]) -> Option<&[u8]> {
        self.held.get(rest)
    }

    fn commit(&mut self) {
        self.commits = self.commits.saturating_add(1);
    }

    fn export_at(&self, i: usize) -> Option<(&[u8], &[u8])> {
        self.held.at(i)
    }

    fn commits(&self) -> u64 {
        self.commits
    }
}

/// The kind that accepts every value.
pub struct TableKind;

impl Kind for TableKind {
    ghost kind = { Table };

    fn kind() -> HandlerKind {
        HandlerKind::Table
    }

    fn accepts(_value: &[u8]) -> bool {
        true
    }
}

/// A handler that accepts every value.
pub type TableHandler = HandlerOf<TableKind>;

impl TableHandler {
    /// A handler that holds nothing and was never committed.
    pub fn new(alloc: Global) -> TableHandler
        ensures { ⟦<TableHandler as Handler>⟧.state result ≡ fresh Table }
    {
        HandlerOf::empty(alloc)
    }
}

/// The kind that accepts values of four bytes.
pub struct CounterKind;

impl Kind for CounterKind {
    ghost kind = { Counter };

    fn kind() -> HandlerKind {
        HandlerKind::Counter
    }

    fn accepts(value: &[u8]) -> bool {
        value.len() == 4
    }
}

/// A handler that accepts values of four bytes.
pub type CounterHandler = HandlerOf<CounterKind>;

impl CounterHandler {
    /// A handler that holds nothing and was never committed.
    pub fn new(alloc: Global) -> CounterHandler
        ensures { ⟦<CounterHandler as Handler>⟧.state result ≡ fresh Counter }
    {
        HandlerOf::empty(alloc)
    }
}

/// The kind that accepts values of one byte, at most 100.
pub struct LevelKind;

impl Kind for LevelKind {
    ghost kind = { Level };

    fn kind() -> HandlerKind {
        HandlerKind::Level
    }

    fn accepts(value: &[u8]) -> bool {
        value.len() == 1 && value[0] <= 100
    }
}

/// A handler that accepts values of one byte, at most 100.
pub type LevelHandler = HandlerOf<LevelKind>;

impl LevelHandler {
    /// A handler that holds nothing and was never committed.
    pub fn new(alloc: Global) -> LevelHandler
        ensures { ⟦<LevelHandler as Handler>⟧.state result ≡ fresh Level }
    {
        HandlerOf::empty(alloc)
    }
}
