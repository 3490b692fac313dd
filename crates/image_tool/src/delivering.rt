// The output of a command: what it prints, and the file that it writes.
ghost use Rattle.std.specs.Prelude.{◌≡◌};
ghost use Rattle.image_jobs.specs.Jobs.{file_of};
ghost use Rattle.image_jobs.specs.Refusals.{line_of};
ghost use Rattle.image_tool.specs.Report.{Delivers, DeliversOnly, Reports};
ghost use Rattle.image_tool.specs.Tool.{status_of};

use crate::status::Status;
use image_jobs::{Outcome, Refusal, refusal_line};
use std::alloc::Global;
use zs_host::{Host, HostFault};

/// Prints the text, and then writes the file, if there is one. The file is written only after all
/// of the text was printed. If the host fails or memory runs out, a part of the text may be
/// printed, or the file may hold anything; no other file changes.
#[inline(never)]
pub fn deliver<H: Host>(alloc: Global, host: &mut H, outcome: &Outcome<'_>) -> Status
    ensures delivers { Delivers (H.outside host.old) (H.outside host.new) outcome.now.text.items
        (file_of outcome.now.file) result }
    ensures files { DeliversOnly (file_of outcome.now.file) (H.outside host.old)
        (H.outside host.new) }
{
    match host.print(alloc, outcome.text.as_slice()) {
        Ok(()) => {}
        Err(HostFault::NoMemory) => return Status::NoMemory,
        Err(HostFault::Failed) => return Status::HostFault,
        Err(HostFault::Missing | HostFault::TooLong) => unreachable!(),
    }
    let Some(file) = &outcome.file else {
        return Status::Done;
    };
    match host.write_whole(alloc, file.name, file.bytes.as_slice()) {
        Ok(()) => Status::Done,
        Err(HostFault::NoMemory) => Status::NoMemory,
        Err(HostFault::Failed) => Status::HostFault,
        Err(HostFault::Missing | HostFault::TooLong) => unreachable!(),
    }
}

/// Prints a line, and returns the status. If the host fails or memory runs out, it returns that
/// instead, and a part of the line may be printed. Files stay.
pub fn report<H: Host>(alloc: Global, host: &mut H, line: &str, status: Status) -> Status
    ensures reports { Reports (H.outside host.old) (H.outside host.new) line.now status result }
    ensures files { (H.outside host.new).files ≡ (H.outside host.old).files }
{
    match host.print(alloc, line.as_bytes()) {
        Ok(()) => status,
        Err(HostFault::NoMemory) => Status::NoMemory,
        Err(HostFault::Failed) => Status::HostFault,
        Err(HostFault::Missing | HostFault::TooLong) => unreachable!(),
    }
}

fn status_of(refusal: &Refusal<'_>) -> Status
    ensures { result ≡ status_of refusal.now }
{
    match refusal {
        Refusal::BadSpec => Status::Usage,
        Refusal::NoFile { .. } => Status::NoFile,
        Refusal::BadFile { .. }
        | Refusal::NoLog
        | Refusal::NoItems
        | Refusal::NoMirror
        | Refusal::BadArea { .. }
        | Refusal::Unfit { .. } => Status::BadImage,
        Refusal::BadScript { .. } => Status::BadScript,
    }
}

/// Prints the line of the refusal, and returns its status, as `report` does.
pub fn refuse<H: Host>(alloc: Global, host: &mut H, refusal: &Refusal<'_>) -> Status
    ensures reports { Reports (H.outside host.old) (H.outside host.new) (line_of refusal.now)
        (status_of refusal.now) result }
    ensures files { (H.outside host.new).files ≡ (H.outside host.old).files }
{
    match refusal_line(alloc, refusal) {
        Ok(line) => report(alloc, host, line.as_str(), status_of(refusal)),
        Err(_) => Status::NoMemory,
    }
}
