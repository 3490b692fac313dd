// A flash in memory that loses power exactly when its plan is used up.
ghost use Rattle.std.specs.Prelude.{◌≡◌, ◌+◌, ◌*◌, ◌/◌, ◌%◌, ◌<◌, ◌≤◌, ◌∷◌, length, map, min, IfOk, OnOk, OnErr, Option, Some, None, unwrap_or, [], slice_index, slice_index_or, slice_range, slice_set, replicate, vec_len};
ghost use Rattle.flash_sim.specs.Bank.{IsLawful};
ghost use Rattle.flash_sim.specs.BankBytes.{HaveSizes};
ghost use Rattle.flash_sim.specs.Contents.{contents};
ghost use Rattle.flash_sim.specs.Device.{overwritten};

use crate::{
    At, Bank, Bench, Flash, FlatBytes, Loss, NoMemory, PROGRAM_LIMIT, PowerLost, SparseBytes,
    Steps, Storage,
};
use arrayvec::ArrayVec;
use std::alloc::{AllocError, Global};
use std::sync::ledger::Ledger;

/// A flash in memory that keeps every byte.
pub type FlatSim = Sim<FlatBytes>;

/// A flash in memory whose erased sectors share one sector of FF, so an erase writes no byte. Of
/// all that change it, only `load` allocates.
pub type SparseSim = Sim<SparseBytes>;

/// A flash in memory. Its plan is known: power is lost exactly when it says.
#[derive(Drop)]
pub struct Sim<S: Storage> {
    banks: Vec<Bank>,
    // The bytes of each bank.
    stores: Vec<S>,
    is_on: bool,
    losses: u64,
    spent: u64,
    loads: u64,
    last_loss: Option<Loss>,
    plan: Option<u64>,
    ghost lawful: { IsLawful banks.items (map S.held stores.items) },
    ghost sized: { HaveSizes S.sector_size banks.items stores.items },
}

impl<S: Storage> Sim<S> {
    ghost use Rattle.std.specs.Prelude.{true};
    ghost use Rattle.flash_sim.specs.Device.{Never, cut};
    ghost use Rattle.flash_sim.specs.Sim.{device_of};

    /// A flash with no banks and no planned loss, with power on and all counts 0.
    pub fn new(alloc: Global) -> Sim<S>
        ensures { device_of result
            ≡ record {
              banks = [];
              bytes = [];
              is_on = true;
              losses = 0;
              spent = 0;
              loads = 0;
              last_loss = None;
              plan = Never;
            } }
    {
        Sim {
            banks: Vec::new(alloc),
            stores: Vec::new(alloc),
            is_on: true,
            losses: 0,
            spent: 0,
            loads: 0,
            last_loss: None,
            plan: None,
        }
    }

    // Power is lost at this call, after so many of its units.
    fn lose(&mut self, at: At, want: &[u8], done: u32)
        requires { length want.now ≤ PROGRAM_LIMIT }
        ensures { device_of self.new
            ≡ cut (device_of self.old)
            (record { at = at; want = record { items = want.now }; done = done }) }
    {
        self.is_on = false;
        self.losses = self.losses.saturating_add(1);
        self.last_loss = Some(Loss {
            at,
            want: want_of(want),
            done,
        });
        self.plan = None;
    }
}

fn want_of(bytes: &[u8]) -> ArrayVec<u8, PROGRAM_LIMIT>
    requires { length bytes.now ≤ PROGRAM_LIMIT }
    ensures { result.items ≡ bytes.now }
{
    let mut want = ArrayVec::new();
    let _fits = want.try_extend_from_slice(bytes);
    want
}

// How much of this work is done before the plan cuts it.
fn lasting(plan: Option<u64>, work: u64) -> u64
    ensures { result ≡ min work (unwrap_or plan work) }
{
    match plan {
        Some(left) if left < work => left,
        _ => work,
    }
}

// Writes these bytes into one sector of one bank.
fn write<S: Storage>(all: &mut Vec<S>, bank: usize, offset: usize, bytes: &[u8])
    requires bank { bank < vec_len all.old }
    requires has_sector { offset < length (slice_index_or (map S.held all.old.items) bank []) }
    requires range { offset + length bytes.now
        ≤ length (slice_index_or (map S.held all.old.items) bank []) }
    requires one_sector { let size = slice_index (map S.sector_size all.old.items) bank in
        offset % size + length bytes.now ≤ size }
    ensures bytes { let old = map S.held all.old.items in
        map S.held all.new.items
        ≡ slice_set old bank (overwritten (slice_index_or old bank []) offset bytes.now) }
    ensures sizes { map S.sector_size all.new.items ≡ map S.sector_size all.old.items }
{
    let store = &mut all[bank];
    store.write(offset, bytes);
}

// Erases a sector of one bank.
fn erase<S: Storage>(all: &mut Vec<S>, bank: usize, sector: usize)
    requires bank { bank < vec_len all.old }
    requires has_sector { (sector + 1) * slice_index (map S.sector_size all.old.items) bank
        ≤ length (slice_index_or (map S.held all.old.items) bank []) }
    ensures bytes { let size = slice_index (map S.sector_size all.old.items) bank in
        let old = map S.held all.old.items in
        map S.held all.new.items
        ≡ slice_set old bank
        (overwritten (slice_index_or old bank []) (sector * size) (replicate size 255)) }
    ensures sizes { map S.sector_size all.new.items ≡ map S.sector_size all.old.items }
{
    let store = &mut all[bank];
    store.erase(sector);
}

// Storages of these banks, which have these bytes.
fn stores_of<S: Storage>(
    alloc: Global,
    banks: &[Bank],
    bytes: Vec<Vec<u8>>,
) -> Result<Vec<S>, AllocError>
    requires { IsLawful banks.now (contents bytes.items) }
    ensures { IfOk result
        (λ all. (map S.held all.items ≡ contents bytes.items)
        × HaveSizes S.sector_size banks.now all.items) }
{
    let mut all = Vec::new(alloc);
    for (bank, held) in banks.iter().zip(bytes) {
        all.push(S::new(alloc, bank, held)?)?;
    }
    Ok(all)
}

fn copy_of<S: Storage>(alloc: Global, all: &Vec<S>) -> Result<Vec<Vec<u8>>, AllocError>
    ensures { IfOk result (λ copy. contents copy.items ≡ map S.held all.now.items) }
{
    let mut copy = Vec::new(alloc);
    for store in all {
        copy.push(store.to_vec(alloc)?)?;
    }
    Ok(copy)
}

impl<S: Storage> Flash for Sim<S> {
    ghost use Rattle.flash_sim.specs.Sim.{device_of};

    ghost device = { device_of };

    ghost is_lawful = { λ sim. sim.lawful };

    fn banks(&self) -> &[Bank] {
        &self.banks
    }

    fn is_on(&self) -> bool {
        self.is_on
    }

    fn losses(&self) -> u64 {
        self.losses
    }

    fn spent(&self) -> u64 {
        self.spent
    }

    fn last_loss(&self) -> Option<&Loss> {
        self.last_loss.as_ref()
    }

    fn loads(&self) -> u64 {
        self.loads
    }

    fn view<L: Ledger>(&self, at: At, len: u32, steps: &mut Steps<L>) -> &[u8] {
        steps.tick();
        self.stores[at.bank].view(at.offset as usize, len as usize)
    }

    fn program(&mut self, at: At, bytes: &[u8]) -> Result<(), PowerLost> {
        if !self.is_on {
            return Err(PowerLost);
        }
        let unit = self.banks[at.bank].unit as usize;
        let units = bytes.len() / unit;
        let done = lasting(self.plan, units as u64) as usize;
        write(
            &mut self.stores,
            at.bank,
            at.offset as usize,
            &bytes[..done * unit],
        );
        self.spent = self.spent.saturating_add(done as u64);
        if done < units {
            self.lose(at, bytes, done as u32);
            return Err(PowerLost);
        }
        self.plan = self.plan.map(|left| left - done as u64);
        Ok(())
    }

    fn erase(&mut self, bank: usize, sector: u32) -> Result<(), PowerLost> {
        if !self.is_on {
            return Err(PowerLost);
        }
        if lasting(self.plan, 1) < 1 {
            let offset = sector * self.banks[bank].sector;
            self.lose(At { bank, offset }, &[], 0);
            return Err(PowerLost);
        }
        erase(&mut self.stores, bank, sector as usize);
        self.spent = self.spent.saturating_add(1);
        self.plan = self.plan.map(|left| left - 1);
        Ok(())
    }
}

impl<S: Storage> Bench for Sim<S> {
    fn load(
        &mut self,
        alloc: Global,
        banks: Vec<Bank>,
        bytes: Vec<Vec<u8>>,
    ) -> Result<(), NoMemory> {
        let stores = stores_of(alloc, &banks, bytes)?;
        self.banks = banks;
        self.stores = stores;
        self.is_on = true;
        self.loads = self.loads.saturating_add(1);
        self.last_loss = None;
        self.plan = None;
        Ok(())
    }

    fn arm(&mut self, units: u64) {
        self.plan = Some(units);
    }

    fn disarm(&mut self) {
        self.plan = None;
    }

    fn restore(&mut self) {
        self.is_on = true;
    }

    fn snapshot(&self, alloc: Global) -> Result<Vec<Vec<u8>>, NoMemory> {
        copy_of(alloc, &self.stores).map_err(|_| NoMemory)
    }
}
