// Real files and standard output.
ghost use Rattle.std.specs.Prelude.{◌≡◌, None};
ghost use Rattle.zs_host.specs.declared.host.HostFault.TheVariants.{Failed};
ghost use Rattle.zs_host.specs.Outside.{Outside, counted_fault};

use crate::streams::{read_to_end, write_all};
use crate::writing::write_file;
use crate::{Host, HostFault};
use std::alloc::Global;
use std::fs;
use std::io::{self, ErrorKind};
use std::rt::Files;

/// The system's files, and standard output. Contracts see nothing of what they hold. A regular file
/// is written under a new name and then renamed, so a failed write leaves the old file.
#[derive(Drop)]
pub struct RealHost<'a, R> {
    rt: &'a R,
    faults: u64,
}

impl<'a, R: Files + Print> RealHost<'a, R> {
    /// A host on this runtime, with a fault count of 0.
    pub fn new(rt: &'a R) -> RealHost<'a, R>
        ensures { result.faults ≡ 0 }
    {
        RealHost { rt, faults: 0 }
    }

    // Counts a fault.
    fn failed(&mut self) -> HostFault
        ensures fault { result ≡ Failed }
        ensures count { self.new.faults ≡ counted_fault self.old.faults }
    {
        self.faults = self.faults.saturating_add(1);
        HostFault::Failed
    }
}

impl<'a, R: Files + Print> Host for RealHost<'a, R> {
    ghost outside = { λ host. record { files = None; printed = None; faults = host.faults } };

    fn read_whole(
        &mut self,
        alloc: Global,
        name: &str,
        limit: usize,
    ) -> Result<Vec<u8>, HostFault> {
        let mut file = match fs::open(self.rt, name) {
            Ok(file) => file,
            Err(error) => {
                if error.kind() == ErrorKind::NotFound {
                    return Err(HostFault::Missing);
                }
                return Err(self.failed());
            }
        };
        match read_to_end(alloc, &mut file, limit) {
            Ok(bytes) => Ok(bytes),
            Err(HostFault::TooLong) => Err(HostFault::TooLong),
            Err(HostFault::NoMemory) => Err(HostFault::NoMemory),
            Err(HostFault::Failed) => Err(self.failed()),
            Err(HostFault::Missing) => unreachable!(),
        }
    }

    // A write that fails leaves the file as it was.
    fn write_whole(&mut self, alloc: Global, name: &str, bytes: &[u8]) -> Result<(), HostFault> {
        if write_file(self.rt, alloc, name, bytes)? {
            Ok(())
        } else {
            Err(self.failed())
        }
    }

    fn print(&mut self, _alloc: Global, bytes: &[u8]) -> Result<(), HostFault> {
        let mut writer = io::writer(self.rt);
        if write_all(&mut writer, bytes) {
            Ok(())
        } else {
            Err(self.failed())
        }
    }

    fn faults(&self) -> u64 {
        self.faults
    }
}
