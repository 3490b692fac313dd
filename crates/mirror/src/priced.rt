// What a mirror needs of a backend, besides its calls.
ghost use Rattle.std.specs.Prelude.{◌≡◌, ◌≤◌, ◌^◌, ◌<◌, ℕ, List, Bool, false, true, None};
ghost use Rattle.std.specs.FinMap as finite;
ghost use Rattle.flash_sim.specs.Bank.{IsLawful};
ghost use Rattle.flash_sim.specs.Device.{Device};
ghost use Rattle.flash_map.specs.declared.area.Area.{Area as area_type};
ghost use Rattle.flash_map.specs.declared.area.Geometry.{Geometry};
ghost use Rattle.flash_map.specs.Area.{geometry_of};
ghost use Rattle.flash_map.specs.Lawful.{IsLawfulFor};
ghost use Rattle.flash_map.specs.On.{on, HoldsOn};
ghost use Rattle.flash_map.specs.declared.area.TheConstants.{LONG_VALUE_LIMIT};
ghost use Rattle.flash_sim.specs.declared.flash.Loss.{Loss as loss_type};
ghost use Rattle.backend_api.specs.Written.{is_blank_on};
ghost use Rattle.mirror.specs.Room.{Prices, IsMirrored, IsRoomBy};

use backend_api::Backend;
use flash_map::Area;
use flash_sim::Flash;
use setting_name::Name;

/// A backend whose `Room` follows from the lengths of names and values, and which never takes what
/// a power loss left for another record. Both hold on areas of the roles that can be mirrored.
pub trait Priced: Backend {
    /// The prices of an area with this geometry, from which its `Room` follows.
    ghost prices: { area_type → Geometry → Prices };

    /// What an item of this length costs, in bytes: its data and its entry.
    fn price<F: Flash>(flash: &F, area: &Area, length: u32) -> u64
        requires lawful { IsLawfulFor (F.device flash.now).banks area.now }
        requires role { IsMirrored area.now }
        requires short { length ≤ LONG_VALUE_LIMIT }
        ensures value { result
            ≡ (prices area.now (geometry_of (F.device flash.now) area.now)).price length }
        ensures small { result < 2 ^ 16 };

    /// What the count of names costs, in bytes; 0 if areas have none.
    fn counted<F: Flash>(flash: &F, area: &Area) -> u64
        requires lawful { IsLawfulFor (F.device flash.now).banks area.now }
        requires role { IsMirrored area.now }
        ensures value { result
            ≡ (prices area.now (geometry_of (F.device flash.now) area.now)).counted }
        ensures small { result < 2 ^ 16 };

    /// What a sector has for names and values, in bytes.
    fn cap<F: Flash>(flash: &F, area: &Area) -> u64
        requires lawful { IsLawfulFor (F.device flash.now).banks area.now }
        requires role { IsMirrored area.now }
        ensures value { result ≡ (prices area.now (geometry_of (F.device flash.now) area.now)).cap }
        ensures small { result < 2 ^ 16 };

    /// The class of a name. An area has at most `most` names of each class.
    fn class<F: Flash>(flash: &F, area: &Area, name: &Name) -> u32
        requires lawful { IsLawfulFor (F.device flash.now).banks area.now }
        requires role { IsMirrored area.now }
        ensures { result
            ≡ (prices area.now (geometry_of (F.device flash.now) area.now)).class name.now };

    /// How many names of one class an area may have.
    fn most<F: Flash>(flash: &F, area: &Area) -> u32
        requires lawful { IsLawfulFor (F.device flash.now).banks area.now }
        requires role { IsMirrored area.now }
        ensures { result ≡ (prices area.now (geometry_of (F.device flash.now) area.now)).most };

    // The `Room` of an area follows from its prices.
    ghost is_room: { (area : area_type) (geometry : Geometry) → IsMirrored area → IsRoomBy (Self.room area geometry) (prices area geometry) };

    // What a power loss left is never another record, so the command is done or not (`sides`).
    ghost never_chance: { (area : area_type) (geometry : Geometry) (sectors : List (List ℕ)) (loss : loss_type) → IsMirrored area → Self.chance area geometry sectors loss ≡ false };

    // A lawful area whose bytes are all FF is undamaged, and has no settings.
    ghost blank_reads: { (d : Device) (area : area_type) → IsLawful d.banks d.bytes → IsLawfulFor d.banks area → Self.serves area (geometry_of d area) → is_blank_on d area ≡ true → on Self.damage d area ≡ None };

    ghost blank_empty: { (d : Device) (area : area_type) → IsLawful d.banks d.bytes → IsLawfulFor d.banks area → Self.serves area (geometry_of d area) → is_blank_on d area ≡ true → on Self.contents d area ≡ finite.empty };

    // A mount has nothing to do there.
    ghost blank_rests: { (d : Device) (area : area_type) → IsLawful d.banks d.bytes → IsLawfulFor d.banks area
        → Self.serves area (geometry_of d area) → is_blank_on d area ≡ true → HoldsOn Self.rests d area };
}
