// The bytes of one bank, one after another.
ghost use Rattle.std.specs.Prelude.{◌≡◌, ◌+◌, ◌≤◌, length, replicate, vec_len};
ghost use Rattle.flash_sim.specs.Device.{overwritten};

use crate::{Bank, Storage};
use std::alloc::{AllocError, Global};

/// Every byte of a bank, in its place.
#[derive(Drop)]
pub struct FlatBytes {
    // Bytes of a sector.
    size: usize,
    bytes: Vec<u8>,
}

pub(crate) fn overwrite(bank: &mut Vec<u8>, offset: usize, bytes: &[u8])
    requires { offset + length bytes.now ≤ vec_len bank.old }
    ensures { bank.new.items ≡ overwritten bank.old.items offset bytes.now }
{
    bank[offset..offset + bytes.len()].copy_from_slice(bytes);
}

pub(crate) fn fill(bank: &mut Vec<u8>, offset: usize, len: usize)
    requires { offset + len ≤ vec_len bank.old }
    ensures { bank.new.items ≡ overwritten bank.old.items offset (replicate len 255) }
{
    bank[offset..offset + len].fill(255);
}

impl Storage for FlatBytes {
    ghost held = { λ it. it.bytes.items };

    ghost sector_size = { λ it. it.size };

    fn new(_alloc: Global, bank: &Bank, bytes: Vec<u8>) -> Result<FlatBytes, AllocError> {
        Ok(FlatBytes {
            size: bank.sector as usize,
            bytes,
        })
    }

    fn view(&self, offset: usize, len: usize) -> &[u8] {
        &self.bytes[offset..offset + len]
    }

    fn write(&mut self, offset: usize, bytes: &[u8]) {
        overwrite(&mut self.bytes, offset, bytes);
    }

    fn erase(&mut self, sector: usize) {
        fill(&mut self.bytes, sector * self.size, self.size);
    }

    fn to_vec(&self, alloc: Global) -> Result<Vec<u8>, AllocError> {
        self.bytes.to_vec(alloc)
    }
}
