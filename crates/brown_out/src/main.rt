//! A brown-out while a pairing key is saved, as a device lives through it: after the reset the key
//! from before is there, and the next save succeeds.
#![tactic(auto)]

ghost use Rattle.std.specs.Prelude.{◌≡◌, IfOk};
ghost use Rattle.std.specs.FinMap.{empty};
ghost use Rattle.flash_sim.specs.Sim.{device_of};
ghost use Rattle.handlers.specs.Held.{fresh};
ghost use Rattle.handlers.specs.Registry.{registered};
ghost use Rattle.handlers.specs.declared.handler.HandlerKind.TheVariants.{Table};
ghost use Rattle.petaqwen.specs.Ready.{AreServed, IsReady};

use petaqwen::{Board, Error, Handler, Name, SaveFault, SparseSim, Subsystem, TableHandler};
use std::alloc::Global;
use std::io;

// One partition for settings over NVS: four sectors of 4096 bytes, programmed in units of 4 bytes.
const LAYOUT: &str = "bank=erasing/4/4096/4,area=nvs/settings/0/0/4";

// What is seen until power is lost.
#[derive(Clone, Copy)]
struct Seen {
    // the first byte of the key, as the handler holds it
    key: Option<u8>,
    // whether power was lost while the next key was saved
    lost: bool,
}

// A new table holds nothing. `register` asks for that, and the proof takes it from here.
fn is_empty(_table: &Box<dyn Handler>)
    requires { state _table.now ≡ fresh Table }
    ensures { (state _table.now).held ≡ empty }
{}

// Gives the table a key of one byte, and saves it.
#[tactic(auto, using(petaqwen::proofs::Values::short_value))]
fn save_key(
    alloc: Global,
    settings: &mut Subsystem<SparseSim>,
    key: &Name,
    byte: u8,
) -> Result<(), Error>
    requires ready { IsReady (device_of settings.old.board.flash) settings.old.board.map
        settings.old.settings.backend
        (registered (λ b. (⟦<dyn Handler as Handler>⟧ b.vtable).state b.value)
        settings.old.registry) }
    ensures ready { IsReady (device_of settings.new.board.flash) settings.new.board.map
        settings.new.settings.backend
        (registered (λ b. (⟦<dyn Handler as Handler>⟧ b.vtable).state b.value)
        settings.new.registry) }
{
    settings.set(alloc, key, &[byte])?;
    settings.save(None).end?;
    Ok(())
}

fn held(settings: &Subsystem<SparseSim>, key: &Name) -> Result<Option<u8>, Error> {
    match settings.held(key)? {
        Some(value) => Ok(value.first().copied()),
        None => Ok(None),
    }
}

// Saves a key, and loses power while the next one is saved.
fn save_and_lose(
    alloc: Global,
    settings: &mut Subsystem<SparseSim>,
    key: &Name,
    table: Box<dyn Handler>,
) -> Result<Seen, Error>
    requires ready { IsReady (device_of settings.old.board.flash) settings.old.board.map
        settings.old.settings.backend (registered state settings.old.registry) }
    requires empty { (state table).held ≡ empty }
    ensures ready { IsReady (device_of settings.new.board.flash) settings.new.board.map
        settings.new.settings.backend (registered state settings.new.registry) }
{
    settings.register(Name::read(b"bt")?, table)?;
    save_key(alloc, settings, key, 1)?;
    let before = held(settings, key)?;

    // Power is lost after two more units.
    settings.lose_power_after(2);
    let end = save_key(alloc, settings, key, 2);
    Ok(Seen {
        key: before,
        lost: end == Err(Error::Save(SaveFault::PowerLost)),
    })
}

// Starts again: the key that was loaded, and the one that another save leaves.
fn load_and_save(
    alloc: Global,
    settings: &mut Subsystem<SparseSim>,
    key: &Name,
    table: Box<dyn Handler>,
) -> Result<(Option<u8>, Option<u8>), Error>
    requires ready { IsReady (device_of settings.old.board.flash) settings.old.board.map
        settings.old.settings.backend (registered state settings.old.registry) }
    requires empty { (state table).held ≡ empty }
    ensures ready { IsReady (device_of settings.new.board.flash) settings.new.board.map
        settings.new.settings.backend (registered state settings.new.registry) }
{
    settings.register(Name::read(b"bt")?, table)?;
    settings.load(alloc, None)?;
    let loaded = held(settings, key)?;
    save_key(alloc, settings, key, 2)?;
    let saved = held(settings, key)?;
    Ok((loaded, saved))
}

// A board after a power loss, and what was seen before it.
#[derive(Drop)]
struct Brownout {
    board: Board<SparseSim>,
    seen: Seen,
}

// Saves a key on a blank board, and loses power while the next one is saved.
fn first_life(alloc: Global, key: &Name) -> Result<Brownout, Error>
    ensures { IfOk result (λ b. AreServed (device_of b.board.flash).banks b.board.map) }
{
    let table: Box<dyn Handler> = Box::new(alloc, TableHandler::new(alloc))?;
    is_empty(&table);
    let mut settings = Subsystem::open(alloc, Board::blank(alloc, LAYOUT)?, "settings")?;
    let seen = save_and_lose(alloc, &mut settings, key, table);
    let board = settings.close();
    Ok(Brownout { board, seen: seen? })
}

// Starts again with power: the key that was loaded, and the one that another save leaves.
fn second_life(
    alloc: Global,
    key: &Name,
    board: Board<SparseSim>,
) -> Result<(Option<u8>, Option<u8>), Error>
    requires { AreServed (device_of board.flash).banks board.map }
{
    let mut board = board;
    board.restore_power();
    let table: Box<dyn Handler> = Box::new(alloc, TableHandler::new(alloc))?;
    is_empty(&table);
    let mut settings = Subsystem::open(alloc, board, "settings")?;
    let found = load_and_save(alloc, &mut settings, key, table);
    let _board = settings.close();
    found
}

// The answers of a whole story.
#[derive(Clone, Copy)]
struct Story {
    before: Option<u8>,
    lost: bool,
    after: Option<u8>,
    in_the_end: Option<u8>,
}

fn live_through(alloc: Global) -> Result<Story, Error> {
    let key = Name::read(b"bt/key")?;
    let Brownout { board, seen } = first_life(alloc, &key)?;
    let (after, in_the_end) = second_life(alloc, &key, board)?;
    Ok(Story {
        before: seen.key,
        lost: seen.lost,
        after,
        in_the_end,
    })
}

fn main(rt: HostRuntime) -> io::Result<()> {
    match live_through(rt.alloc()) {
        Ok(story) => {
            println!(rt; "the key before: {:?}", story.before)?;
            println!(rt; "power lost while another is saved: {}", story.lost)?;
            println!(rt; "the key after the reset: {:?}", story.after)?;
            println!(rt; "the key after another save: {:?}", story.in_the_end)
        }
        Err(error) => println!(rt; "brown_out: {error:?}"),
    }
}
