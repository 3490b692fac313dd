// Values by rests, in the byte order of the rests.
ghost use Rattle.std.specs.Prelude.{◌≡◌, ◌^◌, ◌<◌, length, OnOk, OnErr, IfOk, option_map, slice_get};
ghost use Rattle.std.specs.FinMap as finite;
ghost use Rattle.std.specs.Map.Iter.{deref_pair};
ghost use Rattle.handlers.specs.Held.{pair_at, seen};

use std::alloc::{AllocError, Global};
use std::collections::BTreeMap;
use std::marker::Model;

/// A map from rests to values.
#[derive(Drop)]
pub struct Pairs {
    pairs: BTreeMap<Vec<u8>, Vec<u8>>,
}

impl Model for Pairs {
    ghost use Rattle.std.specs.Prelude.{ℕ, List};
    ghost use Rattle.std.specs.Coded.{coded_list, coded_ℕ};
    ghost use Rattle.std.specs.FinMap as finite;
    ghost use Rattle.handlers.specs.Pairs.{Held, held_of, IsHeld};

    ghost Value = { Held };

    ghost coded = { finite.code (coded_list coded_ℕ) (coded_list coded_ℕ) };

    ghost view = { λ p. held_of p.pairs };

    ghost invariant = { λ p. IsHeld p.pairs };
}

impl Pairs {
    /// An empty map.
    pub fn new(alloc: Global) -> Pairs
        ensures { result ≡ finite.empty }
    {
        Pairs {
            pairs: BTreeMap::new(alloc),
        }
    }

    /// Gives a rest a value.
    ///
    /// # Errors
    /// `AllocError`: the map is as before.
    pub fn put(&mut self, alloc: Global, rest: &[u8], value: &[u8]) -> Result<(), AllocError>
        ensures ok { OnOk result (self.new ≡ finite.insert self.old rest.now value.now) }
        ensures err { OnErr result (self.new ≡ self.old) }
    {
        let rest = owned(alloc, rest)?;
        let value = owned(alloc, value)?;
        self.pairs.insert(rest, value)?;
        Ok(())
    }

    /// The value of a rest; `None` if it has none.
    pub fn get(&self, rest: &[u8]) -> Option<&[u8]>
        ensures { option_map (λ value. value.now) result ≡ finite.get self.now rest.now }
    {
        match self.pairs.get(rest) {
            Some(value) => Some(value.as_slice()),
            None => None,
        }
    }

    /// The rest and value at place `i` in the byte order of rests; `None` if there are no
    /// more than `i`.
    pub fn at(&self, i: usize) -> Option<(&[u8], &[u8])>
        ensures pair { option_map seen result ≡ pair_at self.now i }
        ensures few { length (finite.entries self.now) < 2 ^ 64 }
    {
        match nth_of(&self.pairs, i) {
            Some((rest, value)) => Some((rest.as_slice(), value.as_slice())),
            None => None,
        }
    }
}

fn nth_of(tree: &BTreeMap<Vec<u8>, Vec<u8>>, i: usize) -> Option<(&Vec<u8>, &Vec<u8>)>
    ensures pair { option_map deref_pair result ≡ slice_get tree.now.entries i }
    ensures few { length tree.now.entries < 2 ^ 64 }
{
    if i < tree.len() {
        tree.iter().nth(i)
    } else {
        None
    }
}

fn owned(alloc: Global, bytes: &[u8]) -> Result<Vec<u8>, AllocError>
    ensures { IfOk result (λ copy. copy.items ≡ bytes.now) }
{
    let mut copy = Vec::new(alloc);
    copy.extend_from_slice(bytes)?;
    Ok(copy)
}
