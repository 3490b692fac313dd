// Vectors that contracts see as lists.
ghost use Rattle.std.specs.Prelude.{◌≡◌, List, ℕ, [], ◌∷◌, ◌++◌, IfOk, OnOk, OnErr};

use flash_sim::NoMemory;
use setting_name::Name;
use std::alloc::Global;
use std::marker::Model;

/// A list. Contracts see its items alone.
#[derive(Drop)]
pub struct ListOf<T> {
    items: Vec<T>,
}

impl<T> Model for ListOf<T> {
    ghost use Rattle.std.specs.Prelude.{List};

    ghost Value = { List T };

    ghost view = { λ list. list.items.items };
}

impl<T: Drop> ListOf<T> {
    /// An empty list. It takes no memory.
    pub fn new(alloc: Global) -> ListOf<T>
        ensures { result ≡ [] }
    {
        ListOf {
            items: Vec::new(alloc),
        }
    }

    /// A list of the items of a vector. It takes no memory.
    pub fn from_vec(items: Vec<T>) -> ListOf<T>
        ensures { result ≡ items.items }
    {
        ListOf { items }
    }

    /// Appends an item.
    ///
    /// # Errors
    /// `NoMemory`: the list is as before.
    pub fn push(&mut self, item: T) -> Result<(), NoMemory>
        ensures ok { OnOk result (self.new ≡ self.old ++ item ∷ []) }
        ensures err { OnErr result (self.new ≡ self.old) }
    {
        self.items.push(item)?;
        Ok(())
    }

    /// The items in order.
    pub fn as_slice(&self) -> &[T]
        ensures { result.now ≡ self.now }
    {
        self.items.as_slice()
    }
}

/// A byte string.
pub type Bytes = ListOf<u8>;

/// A copy of bytes.
///
/// # Errors
/// `NoMemory`.
pub fn copied(alloc: Global, bytes: &[u8]) -> Result<Bytes, NoMemory>
    ensures { IfOk result (λ copy. copy ≡ bytes.now) }
{
    let items = Vec::from_slice(alloc, bytes)?;
    Ok(Bytes::from_vec(items))
}

/// The label of an area.
pub type Label = ListOf<u8>;

/// A name with its value.
#[derive(Drop)]
pub struct Pair {
    pub name: Name,
    pub value: Bytes,
}

/// A list of names with their values.
pub type Pairs = ListOf<Pair>;

/// A setting that a load gave to the handler of a subtree: the rest of its name, its value, and
/// whether the handler took it.
#[derive(Drop)]
pub struct Give {
    pub subtree: Name,
    pub rest: Bytes,
    pub value: Bytes,
    pub taken: bool,
}

/// What a load gave, in order.
pub type Gives = ListOf<Give>;
