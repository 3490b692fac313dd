// A flash in memory that counts how often its bytes were looked at.
ghost use Rattle.flash_sim.specs.Sim.{device_of};

use flash_sim::{At, Bank, Bench, Flash, FlatSim, Loss, NoMemory, PowerLost, Steps};
use std::alloc::Global;
use std::cell::Cell;
use std::sync::ledger::Ledger;

/// A bench that counts its views.
pub(crate) trait Views: Bench {
    /// How many views it has given since it was made.
    fn views(&self) -> u64;
}

/// A `FlatSim` with a count of views.
#[derive(Drop)]
pub(crate) struct CountedSim {
    sim: FlatSim,
    views: Cell<u64>,
}

impl CountedSim {
    /// A flash with no banks and no view taken yet.
    pub(crate) fn new(alloc: Global) -> CountedSim {
        CountedSim {
            sim: FlatSim::new(alloc),
            views: Cell::new(0),
        }
    }
}

impl Flash for CountedSim {
    ghost device = { λ counted. device_of counted.sim };

    ghost is_lawful = { λ counted. counted.sim.lawful };

    fn banks(&self) -> &[Bank] {
        self.sim.banks()
    }

    fn is_on(&self) -> bool {
        self.sim.is_on()
    }

    fn losses(&self) -> u64 {
        self.sim.losses()
    }

    fn spent(&self) -> u64 {
        self.sim.spent()
    }

    fn last_loss(&self) -> Option<&Loss> {
        self.sim.last_loss()
    }

    fn loads(&self) -> u64 {
        self.sim.loads()
    }

    fn view<L: Ledger>(&self, at: At, len: u32, steps: &mut Steps<L>) -> &[u8] {
        self.views.set(self.views.get().saturating_add(1));
        self.sim.view(at, len, steps)
    }

    fn program(&mut self, at: At, bytes: &[u8]) -> Result<(), PowerLost> {
        self.sim.program(at, bytes)
    }

    fn erase(&mut self, bank: usize, sector: u32) -> Result<(), PowerLost> {
        self.sim.erase(bank, sector)
    }
}

impl Bench for CountedSim {
    fn load(
        &mut self,
        alloc: Global,
        banks: Vec<Bank>,
        bytes: Vec<Vec<u8>>,
    ) -> Result<(), NoMemory> {
        self.sim.load(alloc, banks, bytes)
    }

    fn arm(&mut self, units: u64) {
        self.sim.arm(units);
    }

    fn disarm(&mut self) {
        self.sim.disarm();
    }

    fn restore(&mut self) {
        self.sim.restore();
    }

    fn snapshot(&self, alloc: Global) -> Result<Vec<Vec<u8>>, NoMemory> {
        self.sim.snapshot(alloc)
    }
}

impl Views for CountedSim {
    fn views(&self) -> u64 {
        self.views.get()
    }
}
