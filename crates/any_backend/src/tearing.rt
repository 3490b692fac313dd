// What the units before a power loss may spell.
ghost use Rattle.std.specs.Prelude.{◌≡◌};
ghost use Rattle.flash_map.specs.Lawful.{IsLawfulFor};
ghost use Rattle.flash_map.specs.On.{on};
ghost use Rattle.any_backend.specs.ByRole.{any_chance};

use backend_api::Backend;
use backend_fcb::FcbBackend;
use flash_map::{Area, Role};
use flash_sim::{Flash, Loss, Steps};
use std::sync::ledger::Ledger;

/// Whether the units that were programmed before this loss spell, by chance, another record than
/// the one that was being written. Only those of an FCB area can.
pub fn chance<F: Flash, L: Ledger>(
    flash: &F,
    area: &Area,
    loss: &Loss,
    steps: &mut Steps<L>,
) -> bool
    requires { IsLawfulFor (F.device flash.now).banks area.now }
    ensures { result ≡ on any_chance (F.device flash.now) area.now loss.now }
{
    match area.role {
        Role::Fcb => FcbBackend::chance(flash, area, loss, steps),
        Role::Nvs => false,
        Role::Zms => false,
        Role::Sel => false,
    }
}
