// The top call of the program.
ghost use Rattle.std.specs.Prelude.{◌≡◌, ℕ, [], All, List, map};
ghost use Rattle.std.specs.String.{string_bytes};
ghost use Rattle.flash_sim.specs.Device.{Device};
ghost use Rattle.flash_map.specs.declared.area.Area.{Area as area};
ghost use Rattle.handlers.specs.Registry.{registered};
ghost use Rattle.image_file.specs.Lawful.{IsImage};
ghost use Rattle.session.specs.OnMap.{IsFresh, IsServedMap, kinds};
ghost use Rattle.command_words.specs.Commands.{IsCommand};
ghost use Rattle.command_words.specs.declared.commands.Command.{Command as command};
ghost use Rattle.image_file.specs.Format.{image_on};
ghost use Rattle.image_jobs.specs.Stages.{stores};
ghost use Rattle.image_tool.specs.Tasks.{Prepares};
ghost use Rattle.image_tool.specs.Tool.{TaskEnds, NoCommandEnds, ToolEnds, MayWrite, OnlyFile, any_stores, out_file};
ghost use Rattle.image_tool.specs.Worlds.{world};

use crate::delivering::{deliver, refuse, report};
use crate::status::Status;
use crate::tasks::{Task, task_of};
use any_backend::AnyBackend;
use backend_api::Backend;
use command_words::read_words;
use flash_sim::Bench;
use handlers::{Handler, Registry};
use image_jobs::{Outcome, Stop, USAGE, build, run_job};
use session_jobs::{run_item_job, run_log_job, run_mirror_job};
use std::alloc::Global;
use zs_host::Host;

// Carries out the task, and returns what is to be printed and written.
fn prepare<'a, K: Backend, H: Host, B: Bench>(
    alloc: Global,
    task: &Task<'a>,
    host: &mut H,
    bench: &mut B,
    pool: Vec<Box<dyn Handler>>,
    registry: &mut Registry,
) -> Result<Outcome<'a>, Stop<'a>>
    requires serves { (areas : List area) (d : Device) → IsImage (image_on areas d)
        → IsServedMap K.serves areas d }
    requires pool { All (IsFresh state) pool.items }
    requires registry { registered state registry.old ≡ [] }
    ensures { let k =
        stores K.contents K.room K.chance K.tears K.damage K.rests K.owes K.boot_units in
        let old = world (H.outside host.old) (B.device bench.old) (registered state registry.old) in
        let new = world (H.outside host.new) (B.device bench.new) (registered state registry.new) in
        Prepares k (kinds state pool.items) task.now old new result }
{
    match task {
        Task::Build { out, spec } => build(alloc, out, spec),
        Task::Settings(job) => run_job::<K, H, B>(alloc, job, host, bench, pool, registry),
        Task::Log { image, script, out } => run_log_job(alloc, image, script, out, host, bench),
        Task::Items { image, script, out } => run_item_job(alloc, image, script, out, host, bench),
        Task::Mirror { image, script, out } => {
            run_mirror_job(alloc, image, script, out, host, bench)
        }
    }
}

// Carries out a task and delivers its output, or prints the line of its refusal.
fn carry_out<K: Backend, H: Host, B: Bench>(
    alloc: Global,
    task: &Task<'_>,
    host: &mut H,
    bench: &mut B,
    pool: Vec<Box<dyn Handler>>,
    registry: &mut Registry,
) -> Status
    requires serves { (areas : List area) (d : Device) → IsImage (image_on areas d)
        → IsServedMap K.serves areas d }
    requires pool { All (IsFresh state) pool.items }
    requires registry { registered state registry.old ≡ [] }
    ensures ends { let k =
        stores K.contents K.room K.chance K.tears K.damage K.rests K.owes K.boot_units in
        let old = world (H.outside host.old) (B.device bench.old) (registered state registry.old) in
        let new = world (H.outside host.new) (B.device bench.new) (registered state registry.new) in
        TaskEnds k (kinds state pool.items) task.now old new result }
    ensures files { OnlyFile (out_file task.now) (H.outside host.old) (H.outside host.new) }
{
    match prepare::<K, H, B>(alloc, task, host, bench, pool, registry) {
        Ok(outcome) => deliver(alloc, host, &outcome),
        Err(Stop::Refused(refusal)) => refuse(alloc, host, &refusal),
        Err(Stop::HostFailed) => Status::HostFault,
        Err(Stop::NoMemory) => Status::NoMemory,
    }
}

/// Prints the usage line, for words that are no command or no text. Files stay.
pub fn no_words<H: Host>(alloc: Global, host: &mut H) -> Status
    ensures ends { NoCommandEnds (H.outside host.old) (H.outside host.new) result }
    ensures files { (H.outside host.new).files ≡ (H.outside host.old).files }
{
    report(alloc, host, USAGE, Status::Usage)
}

// The top call over any stores that serve the areas of every image.
fn serve<K: Backend, H: Host, B: Bench>(
    alloc: Global,
    words: &[String],
    host: &mut H,
    bench: &mut B,
    pool: Vec<Box<dyn Handler>>,
    registry: &mut Registry,
) -> Status
    requires serves { (areas : List area) (d : Device) → IsImage (image_on areas d)
        → IsServedMap K.serves areas d }
    requires pool { All (IsFresh state) pool.items }
    requires registry { registered state registry.old ≡ [] }
    ensures ends { let k =
        stores K.contents K.room K.chance K.tears K.damage K.rests K.owes K.boot_units in
        let said = map string_bytes words.now in
        let old = world (H.outside host.old) (B.device bench.old) (registered state registry.old) in
        let new = world (H.outside host.new) (B.device bench.new) (registered state registry.new) in
        ToolEnds k (kinds state pool.items) said old new result }
    ensures files { (c : command) → IsCommand (map string_bytes words.now) c
        → MayWrite c (H.outside host.old) (H.outside host.new) }
{
    match read_words(alloc, words) {
        Ok(Some(command)) => {
            let task = task_of(&command);
            carry_out::<K, H, B>(alloc, &task, host, bench, pool, registry)
        }
        Ok(None) => no_words(alloc, host),
        Err(_) => Status::NoMemory,
    }
}

/// Carries out the command that the words after the program's name give. The pool has handlers that
/// hold nothing and were never committed, and the registry has none.
///
/// `build OUT SPEC` writes the blank image of SPEC. `run IMAGE SCRIPT OUT` carries out the lines of
/// SCRIPT on the image, prints the texts of all answers, and then writes the image that is left.
/// `dump IMAGE` prints the settings of the image. `migrate IMAGE OUT` carries out `mount` and
/// `migrate` on the image, as `run` does. `gen OUT BACKEND N` carries out a generated script of N
/// lines on a blank image, prints its summary, and writes the image that is left. `log IMAGE SCRIPT
/// OUT` works as `run` on the application log that is the image's only area, `items IMAGE SCRIPT
/// OUT` on the numbered items of the image's only area, and `mirror IMAGE SCRIPT OUT` on the
/// settings that the image's two store areas hold between them.
///
/// A command that is refused prints one line and writes nothing. If the host fails or memory runs
/// out before anything is printed, the bench is as before, or as the lines have left it so far. No
/// file but OUT changes, however the command ends.
pub fn tool<H: Host, B: Bench>(
    alloc: Global,
    words: &[String],
    host: &mut H,
    bench: &mut B,
    pool: Vec<Box<dyn Handler>>,
    registry: &mut Registry,
) -> Status
    requires pool { All (IsFresh state) pool.items }
    requires registry { registered state registry.old ≡ [] }
    ensures ends { let said = map string_bytes words.now in
        let old = world (H.outside host.old) (B.device bench.old) (registered state registry.old) in
        let new = world (H.outside host.new) (B.device bench.new) (registered state registry.new) in
        ToolEnds any_stores (kinds state pool.items) said old new result }
    // Whatever the end, no other file changed.
    ensures files { (c : command) → IsCommand (map string_bytes words.now) c
        → MayWrite c (H.outside host.old) (H.outside host.new) }
{
    serve::<AnyBackend, H, B>(alloc, words, host, bench, pool, registry)
}
