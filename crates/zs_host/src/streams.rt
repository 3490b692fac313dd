// Reading a file to its end, and writing all of some bytes.
ghost use Rattle.std.specs.Prelude.{◌≡◌, ℕ, ◌≤◌, length, take};
ghost use Rattle.std.specs.Bool.{OnTrue, OnFalse};
ghost use Rattle.std.specs.Io.KnownBytes.{Appends};
ghost use Rattle.zs_host.specs.Streams.{ReadsToEnd};

use crate::HostFault;
use std::alloc::Global;
use std::io::{Read, Write};

/// The bytes that are left in a file, at most `limit` of them.
///
/// # Errors
/// `TooLong` if more are left. `Failed` if a read fails; no read is retried. `NoMemory`.
pub fn read_to_end<F: Read>(alloc: Global, file: &mut F, limit: usize) -> Result<Vec<u8>, HostFault>
    ensures { ReadsToEnd (F.remaining file.old) limit result }
{
    let mut out = Vec::new(alloc);
    let mut buffer = [0u8; 4096];
    for _ in 0..u64::MAX {
        let Ok(count) = file.read(&mut buffer) else {
            return Err(HostFault::Failed);
        };
        if count == 0 {
            return Ok(out);
        }
        out.extend_from_slice(&buffer[..count])?;
        if out.len() > limit {
            return Err(HostFault::TooLong);
        }
    }
    Err(HostFault::Failed)
}

/// Writes the bytes, and says whether all were written. If not, a prefix of them was. A write that
/// takes no byte ends the call.
pub fn write_all<W: Write>(writer: &mut W, bytes: &[u8]) -> bool
    ensures all { OnTrue result
        (Appends (W.contents writer.old) (W.contents writer.new) bytes.now) }
    ensures part { OnFalse result
        ((n : ℕ) × (n ≤ length bytes.now)
        × Appends (W.contents writer.old) (W.contents writer.new) (take n bytes.now)) }
{
    let mut at = 0;
    while at < bytes.len() {
        match writer.write(&bytes[at..]) {
            Ok(0) => return false,
            Ok(count) => at += count,
            Err(_) => return false,
        }
    }
    true
}
