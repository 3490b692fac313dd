// How blank areas read, and what cut commands leave to a mount. The functions do nothing; their
// contracts are the laws.
ghost use Rattle.any_backend.specs.Blank.{BlankIsEmpty, BlankIsUndamaged, BlankRests};
ghost use Rattle.any_backend.specs.Boot.{BootsWithinMounts, ErasingZmsBoots, FcbBoots, NvsBoots, RewritableZmsBoots};

use crate::backend::AnyBackend;
use backend_api::Backend;

/// A lawful area of any role but a selector's whose bytes are all FF shows no damage and reads as
/// no settings. A mount has nothing to do there.
pub fn blank_areas()
    ensures undamaged { BlankIsUndamaged }
    ensures empty { BlankIsEmpty }
    ensures rests { BlankRests }
{}

/// The most units and erases that a command that was cut leaves to the next mount, `boot_units`, as
/// a number. NVS: the units of a sector, two erases, and the units of a slot, which is eight bytes,
/// padded. ZMS: the units of a sector, 16 bytes each, and 6; on a rewritable bank twice the units
/// of a sector, and 8. FCB: one erase.
///
/// Take sectors of 4,096 bytes. An NVS sector at unit 4 has 1,024 units and a slot has 2, which
/// makes 1,028. A ZMS sector has 256 units, which makes 262, and 520 on a rewritable bank.
pub fn boot_units_by_role()
    ensures nvs { NvsBoots ⟦<AnyBackend as Backend>⟧.boot_units }
    ensures erasing { ErasingZmsBoots ⟦<AnyBackend as Backend>⟧.boot_units }
    ensures rewritable { RewritableZmsBoots ⟦<AnyBackend as Backend>⟧.boot_units }
    ensures fcb { FcbBoots ⟦<AnyBackend as Backend>⟧.boot_units }
{}

/// In a lawful area, what a cut command leaves to the next mount is at most what any mount may
/// spend, `foreign_units`.
pub fn boot_within_mount()
    ensures { BootsWithinMounts ⟦<AnyBackend as Backend>⟧.boot_units }
{}
