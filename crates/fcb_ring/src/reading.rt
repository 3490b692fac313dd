// The records of a ring, one after the other.
ghost use Rattle.std.specs.Prelude.{◌≡◌, ◌+◌, ◌-◌, ◌%◌, ◌<◌, ◌≤◌, ◌==◌, Some, None, find, min, if◌then◌else◌};
ghost use Rattle.std.specs.Option.{ForSome};
ghost use Rattle.flash_map.specs.Area.{unit_of, sector_size};
ghost use Rattle.fcb_ring.specs.Changing.{body_at, begins_with, sector_list};
ghost use Rattle.fcb_ring.specs.Standing.{StandsOn, entries_on, IsListed, IsBodyOf, records_on, following_on, IsNext, IsNextWith, last_with, newest_to};

use crate::record::{RecordAt, last_checked, next_checked};
use crate::ring::Ring;
use crate::sequence::distance;
use flash_map::{geometry, padded, sector_view};
use flash_sim::{Flash, Steps};
use std::sync::ledger::Ledger;

impl Ring {
    /// The oldest of the used sectors, if there is one.
    pub fn oldest(&self) -> Option<u32>
        ensures { result ≡ (if self.now.used == 0 then None else Some self.now.oldest) }
    {
        (self.used > 0).then_some(self.oldest)
    }

    // How many sectors count, from the oldest on: the used ones, but not the newest if no sector is
    // free.
    fn counted(&self) -> u32
        requires { 0 < self.now.area.sectors }
        ensures { result ≡ min self.now.used (self.now.area.sectors - 1) }
    {
        self.used.min(self.area.sectors - 1)
    }

    /// The record after the given one, or the first of all if none is given; `None` at the end. The
    /// records are those that check, the oldest first.
    pub fn next<F: Flash, L: Ledger>(
        &self,
        flash: &F,
        after: Option<RecordAt>,
        steps: &mut Steps<L>,
    ) -> Option<RecordAt>
        requires stands { StandsOn (F.device flash.now) self.now }
        requires after { ForSome after (IsListed (F.device flash.now) self.now.area) }
        ensures next { IsNext (entries_on (F.device flash.now) self.now.area) after result }
        ensures listed { ForSome result (IsListed (F.device flash.now) self.now.area) }
    {
        self.next_with(flash, after, &[], steps)
    }

    /// The next of these records whose body begins with the given bytes, if there is one.
    pub fn next_with<F: Flash, L: Ledger>(
        &self,
        flash: &F,
        after: Option<RecordAt>,
        prefix: &[u8],
        steps: &mut Steps<L>,
    ) -> Option<RecordAt>
        requires stands { StandsOn (F.device flash.now) self.now }
        requires after { ForSome after (IsListed (F.device flash.now) self.now.area) }
        ensures next { IsNextWith (entries_on (F.device flash.now) self.now.area) prefix.now after
            result }
        ensures listed { ForSome result (IsListed (F.device flash.now) self.now.area) }
    {
        let unit = geometry(flash, &self.area).unit;
        match after {
            None => self.next_from(flash, 0, padded(unit, 8), prefix, steps),
            Some(record) => {
                let further = distance(
                    self.area.sectors as usize,
                    self.oldest as usize,
                    record.sector as usize,
                );
                let from = record.body + padded(unit, record.len) + unit;
                self.next_from(flash, further as u32, from, prefix, steps)
            }
        }
    }

    // The first record in one sector, from an offset on, whose body begins with the prefix.
    fn next_in<F: Flash, L: Ledger>(
        &self,
        flash: &F,
        place: u32,
        from: u32,
        prefix: &[u8],
        steps: &mut Steps<L>,
    ) -> Option<RecordAt>
        requires stands { StandsOn (F.device flash.now) self.now }
        requires place { place < self.now.area.sectors }
        requires aligned { from % unit_of (F.device flash.now) self.now.area ≡ 0 }
        requires within { from ≤ sector_size (F.device flash.now) self.now.area }
        ensures { let d = F.device flash.now in
            result
            ≡ find (begins_with d self.now.area prefix.now)
            (records_on d self.now.area place from) }
    {
        let unit = geometry(flash, &self.area).unit;
        let sector = sector_view(flash, &self.area, place, steps);
        match next_checked(sector, unit, from, prefix) {
            Some(record) => Some(RecordAt {
                sector: place,
                offset: record.offset,
                body: record.body,
                len: record.len,
            }),
            None => None,
        }
    }

    // The first such record from an offset on, in the sector so far behind the oldest, and in those
    // after it.
    fn next_from<F: Flash, L: Ledger>(
        &self,
        flash: &F,
        further: u32,
        from: u32,
        prefix: &[u8],
        steps: &mut Steps<L>,
    ) -> Option<RecordAt>
        requires stands { StandsOn (F.device flash.now) self.now }
        requires further { further ≤ self.now.area.sectors }
        requires aligned { from % unit_of (F.device flash.now) self.now.area ≡ 0 }
        requires within { from ≤ sector_size (F.device flash.now) self.now.area }
        ensures { let d = F.device flash.now in
            result
            ≡ find (begins_with d self.now.area prefix.now) (following_on d self.now further from) }
    {
        let header = padded(geometry(flash, &self.area).unit, 8);
        let mut at = further;
        let mut offset = from;
        while at < self.counted() {
            let found = self.next_in(flash, self.place(at), offset, prefix, steps);
            if found.is_some() {
                return found;
            }
            at += 1;
            offset = header;
        }
        None
    }

    // The last record in one sector whose body begins with the prefix, and has at most so many bytes.
    fn last_in<F: Flash, L: Ledger>(
        &self,
        flash: &F,
        place: u32,
        prefix: &[u8],
        most: usize,
        steps: &mut Steps<L>,
    ) -> Option<RecordAt>
        requires stands { StandsOn (F.device flash.now) self.now }
        requires place { place < self.now.area.sectors }
        ensures last { result
            ≡ last_with prefix.now most (sector_list (F.device flash.now) self.now.area place) }
        ensures sector { ForSome result (λ r. r.sector ≡ place) }
        ensures step { steps.new ≡ steps.old + 1 }
    {
        let unit = geometry(flash, &self.area).unit;
        let sector = sector_view(flash, &self.area, place, steps);
        match last_checked(sector, unit, prefix, most) {
            Some(record) => Some(RecordAt {
                sector: place,
                offset: record.offset,
                body: record.body,
                len: record.len,
            }),
            None => None,
        }
    }

    /// The last record that checks whose body begins with `prefix` and has at most `most` bytes,
    /// if there is one. It reads the newest sector first, and none before the one that has it: one
    /// step for each sector.
    pub fn last_with<F: Flash, L: Ledger>(
        &self,
        flash: &F,
        prefix: &[u8],
        most: usize,
        steps: &mut Steps<L>,
    ) -> Option<RecordAt>
        requires stands { StandsOn (F.device flash.now) self.now }
        ensures last { result
            ≡ last_with prefix.now most (entries_on (F.device flash.now) self.now.area) }
        ensures listed { ForSome result (IsListed (F.device flash.now) self.now.area) }
        ensures steps { steps.new ≡ steps.old + newest_to self.now result }
    {
        let mut left = self.counted();
        while left > 0 {
            left -= 1;
            let found = self.last_in(flash, self.place(left), prefix, most, steps);
            if found.is_some() {
                return found;
            }
        }
        None
    }

    /// The body of a record. It counts one step.
    pub fn body<'a, F: Flash, L: Ledger>(
        &self,
        flash: &'a F,
        r: &RecordAt,
        steps: &mut Steps<L>,
    ) -> &'a [u8]
        requires stands { StandsOn (F.device flash.now) self.now }
        requires record { IsListed (F.device flash.now) self.now.area r.now }
        ensures step { steps.new ≡ steps.old + 1 }
        ensures bytes { result.now ≡ body_at (F.device flash.now) self.now.area r.now }
        ensures body { IsBodyOf (F.device flash.now) self.now.area r.now result.now }
    {
        let sector = sector_view(flash, &self.area, r.sector, steps);
        let start = r.body as usize;
        &sector[start..start + r.len as usize]
    }
}
