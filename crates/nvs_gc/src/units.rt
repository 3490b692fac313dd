// What the calls spend.
ghost use Rattle.std.specs.Prelude.{ℕ, List, Result};
ghost use Rattle.flash_sim.specs.Bank.{IsLawful};
ghost use Rattle.flash_sim.specs.Device.{Device};
ghost use Rattle.flash_sim.specs.declared.flash.PowerLost.{PowerLost};
ghost use Rattle.flash_map.specs.declared.area.Area.{Area};
ghost use Rattle.flash_map.specs.declared.faults.MountFault.{MountFault};
ghost use Rattle.flash_map.specs.declared.faults.WriteFault.{WriteFault};
ghost use Rattle.nvs_gc.specs.declared.nvs.Nvs.{Nvs};
ghost use Rattle.nvs_gc.specs.Ends.{MountEnds, RoundEnds, WriteEnds, DeleteEnds};
ghost use Rattle.nvs_gc.specs.Standing.{IsNvsArea, StandsOn};
ghost use Rattle.nvs_gc.specs.UnitTable.{RoundRow, MountRow, WriteRow, DeleteRow};

/// The table of units: what `close_and_collect`, `mount`, `write`, `write_changed` and `delete`
/// spend. The ends that these calls promise fix the numbers. The function does nothing; its
/// contract is the table.
pub fn units_by_row()
    ensures round { (old new : Device) (nvs : Nvs) (result : Result (Unit {0}) PowerLost)
        → IsLawful old.banks old.bytes → StandsOn old nvs
        → RoundEnds old new nvs.store.area nvs.store.current result
        → RoundRow old new nvs.store.area nvs.store.current result }
    ensures mount { (old new : Device) (area : Area) (result : Result Nvs MountFault)
        → IsLawful old.banks old.bytes → IsNvsArea old.banks area
        → MountEnds old new area result → MountRow old new area result }
    ensures write { (old new : Device) (area : Area) (id : ℕ) (bytes : List ℕ)
        (result : Result (Unit {0}) WriteFault)
        → WriteEnds old new area id bytes result → WriteRow old new area id bytes result }
    ensures delete { (old new : Device) (area : Area) (id : ℕ)
        (result : Result (Unit {0}) PowerLost)
        → IsLawful old.banks old.bytes → IsNvsArea old.banks area
        → DeleteEnds old new area id result → DeleteRow old new area id result }
{}
