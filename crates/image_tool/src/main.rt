//! The program `image_tool`: it runs scripts on images of flash, which may lose power
//! before any unit.
#![tactic(auto)]

ghost use Rattle.std.specs.Prelude.{◌≡◌, [], ◌∷◌, ◌++◌, All, OnOk, IfOk, map};
ghost use Rattle.std.specs.String.{string_bytes};
ghost use Rattle.std.specs.Process.{exit_status};
ghost use Rattle.handlers.specs.Held.{fresh};
ghost use Rattle.handlers.specs.Registry.{registered};
ghost use Rattle.session.specs.OnMap.{IsFresh, kinds};
ghost use Rattle.image_tool.specs.declared.status.Status.{Status as status};
ghost use Rattle.image_tool.specs.Exits.{ExitsOr, GivenExits, ProcessExits, words_in};
ghost use Rattle.image_tool.specs.Tool.{NoCommandEnds, ToolEnds, any_stores, exit_code};
ghost use Rattle.image_tool.specs.Worlds.{world};

mod delivering;
mod laws;
mod status;
mod tasks;
mod top;

use flash_sim::{Bench, SparseSim};
use handlers::{CounterHandler, Handler, HandlerKind, LevelHandler, Registry, TableHandler};
pub use laws::{
    areas_owe_alike, blanks_are_empty, blanks_are_lawful, blanks_owe_nothing,
    generated_is_carried_out, sound_is_carried_out,
};
pub use status::Status;
use std::alloc::{AllocError, Global};
use std::env::{self, Args};
use std::io::{self, ErrorKind};
use std::process::ExitCode;
use top::no_words;
pub use top::tool;
use zs_host::{Host, RealHost};

impl Status {
    // The exit code of the process.
    fn code(self) -> u8
        ensures { result ≡ exit_code self }
    {
        match self {
            Status::Done => 0,
            Status::Usage => 2,
            Status::BadScript => 3,
            Status::BadImage => 4,
            Status::HostFault => 5,
            Status::NoMemory => 6,
            Status::NoFile => 7,
        }
    }
}

// Appends a new handler of this kind to handlers that hold nothing.
fn add(
    pool: &mut Vec<Box<dyn Handler>>,
    _kind: HandlerKind,
    handler: Box<dyn Handler>,
) -> Result<(), AllocError>
    requires pool { All (IsFresh state) pool.old.items }
    requires handler { state handler ≡ fresh _kind }
    ensures fresh { OnOk result (All (IsFresh state) pool.new.items) }
    ensures behind { OnOk result
        (kinds state pool.new.items ≡ kinds state pool.old.items ++ _kind ∷ []) }
{
    match pool.push(handler) {
        Ok(()) => Ok(()),
        Err(_) => Err(AllocError),
    }
}

// The exit code after the command that the words are.
fn exit_after<H: Host, B: Bench>(
    alloc: Global,
    words: &[String],
    host: &mut H,
    bench: &mut B,
    pool: Vec<Box<dyn Handler>>,
    registry: &mut Registry,
) -> u8
    requires pool { All (IsFresh state) pool.items }
    requires registry { registered state registry.old ≡ [] }
    ensures { let said = map string_bytes words.now in
        let old = world (H.outside host.old) (B.device bench.old) (registered state registry.old) in
        let new = world (H.outside host.new) (B.device bench.new) (registered state registry.new) in
        (ends : status) × (result ≡ exit_code ends)
        × ToolEnds any_stores (kinds state pool.items) said old new ends }
{
    tool(alloc, words, host, bench, pool, registry).code()
}

// The exit code if the words are no text.
fn exit_without_words<H: Host>(alloc: Global, host: &mut H) -> u8
    ensures { (ends : status) × (result ≡ exit_code ends)
        × NoCommandEnds (H.outside host.old) (H.outside host.new) ends }
{
    no_words(alloc, host).code()
}

// Carries out the words with handlers of its own: four tables, two counters and two levels.
fn with_handlers<H: Host, B: Bench>(
    alloc: Global,
    words: &[String],
    host: &mut H,
    bench: &mut B,
) -> Result<u8, AllocError>
    ensures { ExitsOr (map string_bytes words.now) (H.outside host.old) (H.outside host.new)
        (B.device bench.old) (B.device bench.new) result }
{
    let mut registry = Registry::new(alloc);
    let mut pool = Vec::new(alloc);
    let table = Box::new(alloc, TableHandler::new(alloc))?;
    add(&mut pool, HandlerKind::Table, table)?;
    let table = Box::new(alloc, TableHandler::new(alloc))?;
    add(&mut pool, HandlerKind::Table, table)?;
    let table = Box::new(alloc, TableHandler::new(alloc))?;
    add(&mut pool, HandlerKind::Table, table)?;
    let table = Box::new(alloc, TableHandler::new(alloc))?;
    add(&mut pool, HandlerKind::Table, table)?;
    let counter = Box::new(alloc, CounterHandler::new(alloc))?;
    add(&mut pool, HandlerKind::Counter, counter)?;
    let counter = Box::new(alloc, CounterHandler::new(alloc))?;
    add(&mut pool, HandlerKind::Counter, counter)?;
    let level = Box::new(alloc, LevelHandler::new(alloc))?;
    add(&mut pool, HandlerKind::Level, level)?;
    let level = Box::new(alloc, LevelHandler::new(alloc))?;
    add(&mut pool, HandlerKind::Level, level)?;
    Ok(exit_after(alloc, words, host, bench, pool, &mut registry))
}

// Carries out the words behind the first one, which is the program's name.
fn start<H: Host, B: Bench>(
    alloc: Global,
    given: Args,
    host: &mut H,
    bench: &mut B,
) -> Result<u8, AllocError>
    ensures { ExitsOr (words_in given) (H.outside host.old) (H.outside host.new)
        (B.device bench.old) (B.device bench.new) result }
{
    let words = given.skip(1).collect::<Vec<String>>(alloc)?;
    with_handlers(alloc, words.as_slice(), host, bench)
}

// The exit code, for what the system gave as arguments.
fn code_for<H: Host, B: Bench>(
    alloc: Global,
    given: io::Result<Args>,
    host: &mut H,
    bench: &mut B,
) -> u8
    ensures { GivenExits given (H.outside host.old) (H.outside host.new)
        (B.device bench.old) (B.device bench.new) result }
{
    match given {
        Ok(words) => match start(alloc, words, host, bench) {
            Ok(code) => code,
            Err(_) => Status::NoMemory.code(),
        },
        Err(error) => {
            if error.kind() == ErrorKind::InvalidData {
                exit_without_words(alloc, host)
            } else {
                Status::NoMemory.code()
            }
        }
    }
}

// The exit code of the process, on the real host and an empty bench.
fn exit(rt: &HostRuntime, given: io::Result<Args>) -> ExitCode
    ensures { ProcessExits given (exit_status result) }
{
    let alloc = rt.alloc();
    let mut host = RealHost::new(rt);
    let code = code_for(alloc, given, &mut host, &mut SparseSim::new(alloc));
    ExitCode::from(code)
}

fn main(rt: HostRuntime) -> ExitCode {
    exit(&rt, env::args(&rt))
}
