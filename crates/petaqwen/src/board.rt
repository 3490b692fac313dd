// A flash with its partitions.
ghost use Rattle.std.specs.Prelude.{◌≡◌, ◌∷◌, [], true, Err, IfOk, IfErr};
ghost use Rattle.std.specs.Option.{option_copied};
ghost use Rattle.flash_sim.specs.Device.{loaded_once};
ghost use Rattle.flash_sim.specs.Sim.{device_of};
ghost use Rattle.image_file.specs.Format.{image_on};
ghost use Rattle.image_file.specs.Spec.{IsSpec, ReadsSpec};
ghost use Rattle.petaqwen.specs.Calls.{for_settings, labelled, partition};
ghost use Rattle.petaqwen.specs.Ready.{AreServed};

use flash_map::{Area, FlashMap, Role};
use flash_sim::{Bench, Flash, SparseSim};
use image_file::{SpecFault, lawful_use, read_spec};
use std::alloc::Global;

/// A flash with its partitions.
#[derive(Drop)]
pub struct Board<F: Flash> {
    pub(crate) flash: F,
    pub(crate) map: FlashMap,
}

impl Board<SparseSim> {
    /// A simulated flash that the word describes, such as
    /// `bank=erasing/4/4096/4,area=nvs/settings/0/0/4`: kind, unit and sector in bytes, number of
    /// sectors; then partitions by role, label, bank, first sector and number of sectors. All bytes
    /// are FF. Power is on, no loss is planned, and nothing was spent yet.
    ///
    /// # Errors
    /// `BadSpec` with the first item that is refused, counted from 1; `NoMemory`.
    pub fn blank(alloc: Global, word: &str) -> Result<Board<SparseSim>, SpecFault>
        ensures word { IfOk result
            (λ board. IsSpec word.now (image_on board.map (device_of board.flash))) }
        ensures sound { IfOk result (λ board. AreServed (device_of board.flash).banks board.map) }
        ensures fresh { IfOk result
            (λ board. device_of board.flash ≡ loaded_once (device_of board.flash)) }
        ensures refused { IfErr result (λ fault. ReadsSpec word.now (Err fault)) }
    {
        let image = read_spec(alloc, word)?;
        lawful_use();
        let mut flash = SparseSim::new(alloc);
        flash.load(alloc, image.banks, image.bytes)?;
        Ok(Board {
            flash,
            map: image.map,
        })
    }
}

impl<F: Flash> Board<F> {
    /// The flash.
    pub fn flash(&self) -> &F
        ensures { result.now ≡ self.now.flash }
    {
        &self.flash
    }

    /// The partitions.
    pub fn partitions(&self) -> &FlashMap
        ensures { result.now ≡ self.now.map }
    {
        &self.map
    }
}

impl<B: Bench> Board<B> {
    /// Turns power on again. All bytes stay, and so does a planned loss of power.
    pub fn restore_power(&mut self)
        requires sound { AreServed (B.device self.old.flash).banks self.old.map }
        ensures sound { AreServed (B.device self.new.flash).banks self.new.map }
        ensures map { self.new.map ≡ self.old.map }
        ensures flash { B.device self.new.flash
            ≡ record (B.device self.old.flash) { is_on = true } }
    {
        self.flash.restore();
    }
}

// The partition with this label, if it is one for settings.
pub fn partition(map: &FlashMap, label: &str) -> Option<Area>
    ensures { result ≡ partition map.now label.now }
{
    match labelled(map, label) {
        Some(area) => for_settings(area),
        None => None,
    }
}

fn labelled<'a>(map: &'a FlashMap, label: &str) -> Option<&'a Area>
    ensures { option_copied result ≡ labelled map.now label.now }
{
    match map.index_of(label) {
        Some(place) => map.at(place),
        None => None,
    }
}

fn for_settings(area: &Area) -> Option<Area>
    ensures { result ≡ for_settings area.now.role area.now }
{
    match area.role {
        Role::Sel => None,
        Role::Nvs => Some(*area),
        Role::Zms => Some(*area),
        Role::Fcb => Some(*area),
    }
}
