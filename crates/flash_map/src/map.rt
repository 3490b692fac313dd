// The areas of a flash, in order and by label.
ghost use Rattle.std.specs.Prelude.{◌≡◌, ◌↔◌, ◌+◌, false, [], ◌∷◌, ◌++◌, length, IsTrue, IfErr, OnOk, position, slice_get};
ghost use Rattle.std.specs.List.{list_any, All};
ghost use Rattle.std.specs.Option.{option_copied};
ghost use Rattle.std.specs.Slice.Iter.{iter_rest};
ghost use Rattle.flash_map.specs.Map.{has_label, shares_sector, HasVersion, IsInBank, Adds};
ghost use Rattle.flash_map.specs.declared.map.AddFault.TheVariants.{NoMemory};

use crate::Area;
use arrayvec::ArrayString;
use flash_sim::Bank;
use indexmap::IndexMap;
use std::alloc::{AllocFailed, Global};
use std::marker::Model;
use std::slice;

/// Why an area was not added: the first of these causes that holds.
#[derive(Clone, Copy, Debug, PartialEq, Eq)]
pub enum AddFault {
    /// Another area has that label.
    Exists,
    /// The bank is missing, the sectors are fewer than two, or they pass the bank's end.
    OutOfBank,
    /// A sector belongs to another area.
    Overlaps,
    /// Memory ran out; no other cause holds.
    NoMemory,
}

impl<T: Drop> From<AllocFailed<T>> for AddFault {
    ghost from_gives = { λ _ fault. fault ≡ NoMemory };

    fn from(_: AllocFailed<T>) -> Self {
        AddFault::NoMemory
    }
}

/// The areas of a flash. No two share a label. Contracts see the list of the areas, in the order in
/// which they were added.
#[derive(Drop)]
pub struct FlashMap {
    areas: IndexMap<ArrayString<8>, Area>,
}

impl Model for FlashMap {
    ghost use Rattle.std.specs.Prelude.{◌≡◌, List, map};
    ghost use Rattle.indexmap.specs.IndexMap.{keys, values};
    ghost use Rattle.flash_map.specs.declared.area.Area.{Area};

    ghost Value = { List Area };

    ghost view = { λ m. values m.areas };

    ghost invariant = { λ m. keys m.areas ≡ map (λ area. area.label) (values m.areas) };
}

impl FlashMap {
    /// A map of no areas. It allocates nothing.
    pub fn new(alloc: Global) -> FlashMap
        ensures { result ≡ [] }
    {
        FlashMap {
            areas: IndexMap::new(alloc),
        }
    }

    /// Adds an area behind the others. It must have at least two sectors, lie in its bank, one of
    /// `banks`, and share no label and no sector with the others. Its image version is theirs.
    ///
    /// # Errors
    /// The first cause of `AddFault` that holds. The map is as it was.
    pub fn add(&mut self, banks: &[Bank], area: Area) -> Result<(), AddFault>
        requires { All (HasVersion area.version) self.old }
        ensures { Adds banks.now self.old self.new area result }
    {
        if self.has_label(&area.label) {
            return Err(AddFault::Exists);
        }
        if !is_in_bank(banks, &area) {
            return Err(AddFault::OutOfBank);
        }
        if self.has_sector_of(&area) {
            return Err(AddFault::Overlaps);
        }
        self.put(area)
    }

    fn has_label(&self, label: &ArrayString<8>) -> bool
        ensures { result ≡ list_any (has_label label.now.bytes) self.now }
    {
        self.areas.contains_key(label)
    }

    // Adds an area whose label is new.
    fn put(&mut self, area: Area) -> Result<(), AddFault>
        requires new { list_any (has_label area.label.bytes) self.old ≡ false }
        ensures ok { OnOk result (self.new ≡ self.old ++ area ∷ []) }
        ensures err { IfErr result (λ fault. (fault ≡ NoMemory) × (self.new ≡ self.old)) }
    {
        self.areas.insert(area.label, area)?;
        Ok(())
    }

    // Whether a sector of the area belongs to one that is here.
    fn has_sector_of(&self, area: &Area) -> bool
        ensures { result ≡ list_any (shares_sector area.now) self.now }
    {
        self.areas.values().any(|other| shares_sector(area, other))
    }

    /// How many areas there are.
    pub fn len(&self) -> usize
        ensures { result ≡ length self.now }
    {
        self.areas.len()
    }

    /// The area at this index, counted from 0; `None` past the end.
    pub fn at(&self, index: usize) -> Option<&Area>
        ensures { option_copied result ≡ slice_get self.now index }
    {
        let (_, area) = self.areas.get_index(index)?;
        Some(area)
    }

    /// The areas in order.
    pub fn iter(&self) -> slice::Iter<'_, Area>
        ensures { iter_rest result ≡ self.now }
    {
        self.areas.values().as_slice().iter()
    }

    /// The index of the area with this label, if there is one.
    pub fn index_of(&self, label: &str) -> Option<usize>
        ensures { result ≡ position (has_label label.now) self.now }
    {
        self.areas
            .values()
            .position(|area| label == area.label.as_str())
    }
}

impl<'a> IntoIterator for &'a FlashMap {
    type Item = &'a Area;

    type IntoIter = slice::Iter<'a, Area>;

    ghost into_iter_gives = { λ map areas. iter_rest areas ≡ map.now };

    fn into_iter(self) -> Self::IntoIter {
        self.iter()
    }
}

// The number of the sector behind the area's last.
fn end_of(area: &Area) -> u64
    ensures { result ≡ area.now.first + area.now.sectors }
{
    u64::from(area.first) + u64::from(area.sectors)
}

fn is_in_bank(banks: &[Bank], area: &Area) -> bool
    ensures { IsTrue result ↔ IsInBank banks.now area.now }
{
    match banks.get(area.bank) {
        Some(bank) => { area.sectors >= 2 && end_of(area) <= u64::from(bank.count) }
        None => false,
    }
}

// Whether a sector belongs to both areas.
fn shares_sector(area: &Area, other: &Area) -> bool
    ensures { result ≡ shares_sector area.now other.now }
{
    area.bank == other.bank
        && u64::from(area.first) < end_of(other)
        && u64::from(other.first) < end_of(area)
}
