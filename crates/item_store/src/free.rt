// The least free id of a range, by one walk over the list that notes a bit for each candidate.
ghost use Rattle.std.specs.Prelude.{◌≡◌, ◌+◌, ◌<◌, ◌≤◌, ◌&&◌, ◌==◌, ℕ, [], not, true, if◌then◌else◌};
ghost use Rattle.item_store.specs.OnSector.{IsOpenAt};
ghost use Rattle.item_store.specs.declared.free.TheConstants.{MOST_CANDIDATES};
ghost use Rattle.item_store.specs.Free.{is_unmarked, HasMarks, HasTaken, IsFirstUnmarked, IsLeastFree};
ghost use Rattle.item_store.specs.Listed.{entries_on, items_on};
ghost use Rattle.item_store.specs.Seen.{has_bit};
ghost use Rattle.item_store.specs.Stands.{StandsOn};

use crate::bits::{has_bit, put_bit};
use crate::entry::{IdRange, Placed};
use crate::notes::Notes;
use crate::noting::note_all;
use crate::open_area::OpenArea;
use crate::sectors::SlotSectors;
use crate::store::Store;
use flash_sim::{Flash, Steps};
use std::sync::ledger::Ledger;

/// The most ids of a range.
pub const MOST_CANDIDATES: u32 = 512;

// A bit for each of them.
const BYTES: usize = 64;

/// A bit for each of `MOST_CANDIDATES` ids: whether it has an item.
#[derive(Drop)]
pub struct Marks {
    // the id of the first bit
    pub(crate) first: u64,
    pub(crate) bits: [u8; BYTES],
}

impl Marks {
    // None of the ids from `first` on has an item yet.
    fn new(first: u64) -> Marks
        ensures first { result.first ≡ first }
        ensures none { HasMarks first result [] }
    {
        Marks {
            first,
            bits: [0; BYTES],
        }
    }

    // Whether noting that an id has an item, or that it has none, changes no mark.
    fn is_moot(&self, id: u32, has_item: bool) -> bool
        ensures { result ≡ true → (n : ℕ) → n < MOST_CANDIDATES
            → has_bit self.now.bits n
            ≡ (if id == self.now.first + n then has_item else has_bit self.now.bits n) }
    {
        let id = id as u64;
        if id < self.first {
            return true;
        }
        let n = id - self.first;
        if n >= MOST_CANDIDATES as u64 {
            return true;
        }
        if has_bit(&self.bits, n as u32) {
            has_item
        } else {
            !has_item
        }
    }

    // Notes whether an id has an item, if it is one of these.
    fn note(&mut self, id: u32, has_item: bool)
        ensures first { self.new.first ≡ self.old.first }
        ensures bits { (n : ℕ) → n < MOST_CANDIDATES
            → has_bit self.new.bits n
            ≡ (if id == self.old.first + n then has_item else has_bit self.old.bits n) }
    {
        let id = u64::from(id);
        if id < self.first {
            return;
        }
        let n = id - self.first;
        if n >= u64::from(MOST_CANDIDATES) {
            return;
        }
        put_bit(&mut self.bits, n as u32, has_item);
    }
}

/// Which ids of a range have an item, and which of those a step above them.
#[derive(Drop)]
pub struct Taken {
    pub(crate) lower: Marks,
    pub(crate) upper: Marks,
}

impl Notes for Taken {
    ghost noted = { λ start limit taken placed. HasTaken start taken placed };

    fn is_moot(&self, id: u32, len: u32) -> bool {
        let has_item = len != 0;
        if !self.lower.is_moot(id, has_item) {
            return false;
        }
        self.upper.is_moot(id, has_item)
    }

    fn note(&mut self, placed: &Placed) {
        let has_item = placed.len != 0;
        self.lower.note(placed.id, has_item);
        self.upper.note(placed.id, has_item);
    }
}

impl Taken {
    // No id from `least` on has an item yet, and none that is a step above one.
    fn new(least: u32, step: u32) -> Taken
        ensures lower { result.lower.first ≡ least }
        ensures upper { result.upper.first ≡ least + step }
        ensures none { HasTaken result result [] }
    {
        let least = u64::from(least);
        Taken {
            lower: Marks::new(least),
            upper: Marks::new(least + u64::from(step)),
        }
    }

    // Whether neither the id so far above the least one nor the one a step above it has an item.
    fn is_free(&self, n: u32) -> bool
        requires { n < MOST_CANDIDATES }
        ensures { result ≡ is_unmarked self.now n }
    {
        !has_bit(&self.lower.bits, n) && !has_bit(&self.upper.bits, n)
    }

    // How far the least free id of the first `count` is above the least one of all.
    fn first_free(&self, count: u32) -> Option<u32>
        requires { count ≤ MOST_CANDIDATES }
        ensures { IsFirstUnmarked self.now count result }
    {
        for n in 0..count {
            if self.is_free(n) {
                return Some(n);
            }
        }
        None
    }
}

impl<T: SlotSectors> Store<T> {
    /// The least id of the range that has no item, and whose id `step` above it has none; `None` if
    /// there is none. The range has at most `MOST_CANDIDATES` ids. This takes one walk over the list.
    pub fn least_free<F: Flash, L: Ledger>(
        &self,
        flash: &F,
        ids: &IdRange,
        step: u32,
        steps: &mut Steps<L>,
    ) -> Option<u32>
        requires stands { StandsOn T.role T.format_of T.kept (F.device flash.now) self.now }
        requires range { ids.now.most < ids.now.least + MOST_CANDIDATES }
        ensures { IsLeastFree ids.now step
            (items_on T.format_of (F.device flash.now) self.now.area) result }
    {
        if ids.most < ids.least {
            return None;
        }
        let tops = self.cache.tops();
        let on = OpenArea {
            area: &self.area,
            current: self.current,
            opened: self.opened,
            tops,
        };
        let mut taken = Taken::new(ids.least, step);
        note_all(flash, &on, &mut taken, steps);
        match taken.first_free(ids.most - ids.least + 1) {
            Some(n) => Some(ids.least + n),
            None => None,
        }
    }
}
