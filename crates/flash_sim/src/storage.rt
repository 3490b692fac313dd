// How the bytes of a bank are kept in memory.
ghost use Rattle.std.specs.Prelude.{◌≡◌, ℕ, ◌+◌, ◌*◌, ◌%◌, ◌<◌, ◌≤◌, List, length, replicate, slice_range, IfOk};
ghost use Rattle.flash_sim.specs.Bank.{capacity};
ghost use Rattle.flash_sim.specs.Device.{overwritten};

use crate::Bank;
use std::alloc::{AllocError, Global};

/// The bytes of one bank, in memory. Only `new` and `to_vec` allocate.
pub trait Storage: Drop {
    /// All its bytes.
    ghost held: { Self → List ℕ };

    /// How many bytes a sector has.
    ghost sector_size: { Self → ℕ };

    /// Keeps these bytes, which are those of the bank.
    ///
    /// # Errors
    /// `AllocError` if memory runs out.
    fn new(alloc: Global, bank: &Bank, bytes: Vec<u8>) -> Result<Self, AllocError>
        requires some { 0 < bank.now.sector }
        requires whole { length bytes.items ≡ capacity bank.now }
        ensures { IfOk result
            (λ it. (held it ≡ bytes.items) × (sector_size it ≡ bank.now.sector)) };

    /// Bytes of one sector, or none.
    fn view(&self, offset: usize, len: usize) -> &[u8]
        requires range { offset + len ≤ length (held self.now) }
        requires one_sector { offset % sector_size self.now + len ≤ sector_size self.now }
        ensures { result.now ≡ slice_range (held self.now) offset (offset + len) };

    /// Puts bytes into one sector.
    fn write(&mut self, offset: usize, bytes: &[u8])
        requires has_sector { offset < length (held self.old) }
        requires range { offset + length bytes.now ≤ length (held self.old) }
        requires one_sector { offset % sector_size self.old + length bytes.now
            ≤ sector_size self.old }
        ensures bytes { held self.new ≡ overwritten (held self.old) offset bytes.now }
        ensures size { sector_size self.new ≡ sector_size self.old };

    /// Makes all bytes of a sector FF.
    fn erase(&mut self, sector: usize)
        requires { (sector + 1) * sector_size self.old ≤ length (held self.old) }
        ensures bytes { let size = sector_size self.old in
            held self.new
            ≡ overwritten (held self.old) (sector * size) (replicate size 255) }
        ensures size { sector_size self.new ≡ sector_size self.old };

    /// A copy of all bytes.
    ///
    /// # Errors
    /// `AllocError` if memory runs out.
    fn to_vec(&self, alloc: Global) -> Result<Vec<u8>, AllocError>
        ensures { IfOk result (λ copy. copy.items ≡ held self.now) };
}
