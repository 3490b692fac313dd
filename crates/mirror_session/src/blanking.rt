// The replacement of an area by a blank one.
ghost use Rattle.std.specs.Prelude.{◌≡◌, [], ◌+◌, ◌<◌, ◌≤◌, length, replicate, OnErr, OnOk, slice_index_or, slice_set, vec_len};
ghost use Rattle.flash_map.specs.Lawful.{IsLawfulFor};
ghost use Rattle.flash_sim.specs.Contents.{contents};
ghost use Rattle.flash_sim.specs.Device.{overwritten};
ghost use Rattle.mirror_session.specs.LineDone.{blanked};

use flash_map::Area;
use flash_sim::{Bench, Flash, NoMemory};
use std::alloc::Global;

// Fills `len` bytes from offset `from` with FF.
fn erase_range(bytes: &mut Vec<u8>, from: usize, len: usize)
    requires { from + len ≤ vec_len bytes.old }
    ensures { bytes.new.items ≡ overwritten bytes.old.items from (replicate len 0xFF) }
{
    bytes[from..from + len].fill(0xFF);
}

// Fills `len` bytes of one bank, from offset `from`, with FF.
fn erase_in(banks: &mut Vec<Vec<u8>>, bank: usize, from: usize, len: usize)
    requires bank { bank < vec_len banks.old }
    requires range { from + len ≤ length (slice_index_or (contents banks.old.items) bank []) }
    ensures { let old = slice_index_or (contents banks.old.items) bank [] in
        contents banks.new.items
        ≡ slice_set (contents banks.old.items) bank (overwritten old from (replicate len 0xFF)) }
{
    let items = &mut banks[bank];
    erase_range(items, from, len);
}

// Loads the flash with the bytes that it has, except for those of the area, which are FF then. This
// drops a planned loss.
//
// # Errors
// `NoMemory`: the flash is as before.
pub(crate) fn blank_area<B: Bench>(
    alloc: Global,
    bench: &mut B,
    area: &Area,
) -> Result<(), NoMemory>
    requires { IsLawfulFor (B.device bench.old).banks area.now }
    ensures ok { OnOk result (B.device bench.new ≡ blanked (B.device bench.old) area.now) }
    ensures err { OnErr result (B.device bench.new ≡ B.device bench.old) }
{
    let mut bytes = bench.snapshot(alloc)?;
    let banks = Vec::from_slice(alloc, bench.banks())?;
    let size = banks[area.bank].sector as usize;
    let from = area.first as usize * size;
    erase_in(&mut bytes, area.bank, from, area.sectors as usize * size);
    bench.load(alloc, banks, bytes)
}
