// The trait of a handler.
ghost use Rattle.std.specs.Prelude.{◌^◌, ◌<◌, ◌≡◌, length, option_map};
ghost use Rattle.std.specs.FinMap as finite;
ghost use Rattle.handlers.specs.Held.{HandlerState, SetEnds, committed, pair_at, seen};

use std::alloc::Global;

/// The kind of a handler: which values it accepts.
#[derive(Clone, Copy, Debug, PartialEq, Eq)]
pub enum HandlerKind {
    /// Every value.
    Table,
    /// Values of four bytes.
    Counter,
    /// Values of one byte, at most 100.
    Level,
}

/// Why a handler did not take a value.
#[derive(Clone, Copy, Debug, PartialEq, Eq)]
pub enum SetRefusal {
    /// The kind does not accept it.
    Rejected,
    /// There was not enough memory.
    NoMemory,
}

/// A borrowed value.
#[derive(Clone, Copy)]
pub struct ValueView<'a> {
    bytes: &'a [u8],
}

impl<'a> ValueView<'a> {
    /// A view of these bytes.
    pub fn of(bytes: &'a [u8]) -> ValueView<'a>
        ensures { result.bytes.now ≡ bytes.now }
    {
        ValueView { bytes }
    }

    /// The bytes.
    pub fn bytes(&self) -> &'a [u8]
        ensures { result.now ≡ self.now.bytes.now }
    {
        self.bytes
    }

    /// How many bytes it has.
    pub fn len(&self) -> usize
        ensures { result ≡ length self.now.bytes.now }
    {
        self.bytes.len()
    }
}

/// A handler: it takes and gives the values of a subtree. The rest is what a name has
/// after the subtree.
pub trait Handler: Drop {
    /// Its kind, the values that it holds by rests, and how often it was committed.
    ghost state: { Self → HandlerState };

    /// Which values it accepts.
    fn kind(&self) -> HandlerKind
        ensures { result ≡ (state self.now).kind };

    /// Takes a value for a rest, if the kind accepts it.
    ///
    /// # Errors
    /// `Rejected` exactly if the kind does not accept the value; `NoMemory` only if it does.
    /// Nothing changes then.
    fn set(&mut self, alloc: Global, rest: &[u8], value: ValueView<'_>) -> Result<(), SetRefusal>
        ensures { SetEnds (state self.old) (state self.new) rest.now value.entry.bytes.now result };

    /// The value that it holds for a rest; `None` if it holds none.
    fn get(&self, rest: &[u8]) -> Option<&[u8]>
        ensures { option_map (λ value. value.now) result
            ≡ finite.get (state self.now).held rest.now };

    /// Counts one commit more. The count stays at 2^64 - 1.
    fn commit(&mut self)
        ensures { state self.new ≡ committed (state self.old) };

    /// The rest and value at place `i` in the byte order of rests; `None` if there are no
    /// more than `i`.
    fn export_at(&self, i: usize) -> Option<(&[u8], &[u8])>
        ensures pair { option_map seen result ≡ pair_at (state self.now).held i }
        ensures few { length (finite.entries (state self.now).held) < 2 ^ 64 };

    /// How often it was committed.
    fn commits(&self) -> u64
        ensures { result ≡ (state self.now).commits };
}
