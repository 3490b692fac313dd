// The bytes of one bank, whose erased sectors share one sector of FF.
ghost use Rattle.std.specs.Prelude.{◌≡◌, ℕ, ◌+◌, ◌*◌, ◌/◌, ◌%◌, ◌<◌, ◌≤◌, length, take, drop, replicate, slice_index, slice_range, vec_len, IfOk};
ghost use Rattle.flash_sim.specs.Sparse.{IsShaped};

use crate::flat_bytes::{fill, overwrite};
use crate::{Bank, Storage};
use std::alloc::{AllocError, Global};

/// One buffer: a sector of FF, which all erased sectors share, and behind it a place for each
/// sector. So an erase writes no byte.
#[derive(Drop)]
pub struct SparseBytes {
    // Bytes of a sector.
    size: usize,
    buffer: Vec<u8>,
    // Where the bytes of each sector start in the buffer: at its place, or at 0 if it is erased.
    starts: Vec<usize>,
    ghost shaped: { IsShaped size buffer.items starts.items },
}

impl SparseBytes {
    ghost use Rattle.flash_sim.specs.SparseBytes.{bytes_in};

    // Places for so many sectors of this size, with these bytes. Those that are all FF take none.
    fn with_places(
        alloc: Global,
        size: usize,
        count: usize,
        bytes: &[u8],
    ) -> Result<SparseBytes, AllocError>
        requires some { 0 < size }
        requires whole { length bytes.now ≡ count * size }
        ensures { IfOk result (λ it. (bytes_in it ≡ bytes.now) × (it.size ≡ size)) }
    {
        let mut buffer = vec![in alloc; 255u8; size]?;
        buffer.extend_from_slice(bytes)?;
        let mut starts = Vec::new(alloc);
        for sector in 0..count {
            starts.push(start_in(&buffer, (sector + 1) * size, size))?;
        }
        Ok(SparseBytes {
            size,
            buffer,
            starts,
        })
    }

    // Where the byte of this offset stands in the buffer. The rest of its sector stands behind it.
    fn place_of(&self, offset: usize) -> usize
        requires { offset < length (bytes_in self.now) }
        ensures room { result + self.now.size ≤ vec_len self.now.buffer + offset % self.now.size }
        ensures reads { (len : ℕ) → offset % self.now.size + len ≤ self.now.size
            → slice_range self.now.buffer.items result (result + len)
            ≡ slice_range (bytes_in self.now) offset (offset + len) }
    {
        self.starts[offset / self.size] + offset % self.size
    }

    // Gives an erased sector its place, which is filled with FF then.
    fn take_place(&mut self, sector: usize) -> usize
        requires { sector < length self.old.starts.items }
        ensures place { result ≡ (sector + 1) * self.old.size }
        ensures start { slice_index self.new.starts.items sector ≡ result }
        ensures count { length self.new.starts.items ≡ length self.old.starts.items }
        ensures size { self.new.size ≡ self.old.size }
        ensures same { bytes_in self.new ≡ bytes_in self.old }
    {
        let place = (sector + 1) * self.size;
        if self.starts[sector] == 0 {
            fill(&mut self.buffer, place, self.size);
            self.starts[sector] = place;
        }
        place
    }
}

impl Storage for SparseBytes {
    ghost use Rattle.flash_sim.specs.SparseBytes.{bytes_in};

    ghost held = { bytes_in };

    ghost sector_size = { λ it. it.size };

    fn new(alloc: Global, bank: &Bank, bytes: Vec<u8>) -> Result<SparseBytes, AllocError> {
        SparseBytes::with_places(alloc, bank.sector as usize, bank.count as usize, &bytes)
    }

    fn view(&self, offset: usize, len: usize) -> &[u8] {
        if len == 0 {
            return &[];
        }
        let at = self.place_of(offset);
        &self.buffer[at..at + len]
    }

    fn write(&mut self, offset: usize, bytes: &[u8]) {
        let at = self.take_place(offset / self.size) + offset % self.size;
        overwrite(&mut self.buffer, at, bytes);
    }

    fn erase(&mut self, sector: usize) {
        self.starts[sector] = 0;
    }

    fn to_vec(&self, alloc: Global) -> Result<Vec<u8>, AllocError> {
        let mut copy = Vec::new(alloc);
        for start in &self.starts {
            let end = *start + self.size;
            copy.extend_from_slice(&self.buffer[*start..end])?;
        }
        Ok(copy)
    }
}

// Where a sector starts whose place holds these bytes: nowhere else, or at the shared sector where
// they are all FF.
fn start_in(buffer: &[u8], place: usize, size: usize) -> usize
    requires { place + size ≤ length buffer.now }
    ensures shared { result ≡ 0 → (place ≡ 0 → ⊥)
        → take size (drop place buffer.now) ≡ replicate size 255 }
    ensures own { (result ≡ 0 → ⊥) → result ≡ place }
{
    if buffer[place..place + size].iter().all(|byte| *byte == 255) {
        0
    } else {
        place
    }
}
