// Which ids items have.
ghost use Rattle.std.specs.Prelude.{◌≡◌, ℕ, ◌^◌, ◌≤◌};

/// Which ids items have.
#[derive(Clone, Copy)]
pub enum Ids {
    /// Ids of 16 bits, as in NVS: 0 to 65,534.
    Short,
    /// Ids of 32 bits, as in ZMS: 0 to 4,294,967,294.
    Long,
}

/// Short ids are below this one.
pub const SHORT_END: u64 = 0xFFFF;

/// Long ids are below this one.
pub const LONG_END: u64 = 0xFFFF_FFFF;

// The end of ids, as a type.
pub(crate) trait IdsEnd {
    ghost below: { ℕ };

    fn end() -> u64
        ensures value { result ≡ below }
        ensures small { result ≤ 2 ^ 32 };
}

pub(crate) struct ShortIds;

pub(crate) struct LongIds;

impl IdsEnd for ShortIds {
    ghost use Rattle.item_session.specs.declared.ids.Ids.TheVariants.{Short};
    ghost use Rattle.item_session.specs.Line.{ids_end};

    ghost below = { ids_end Short };

    fn end() -> u64 {
        SHORT_END
    }
}

impl IdsEnd for LongIds {
    ghost use Rattle.item_session.specs.declared.ids.Ids.TheVariants.{Long};
    ghost use Rattle.item_session.specs.Line.{ids_end};

    ghost below = { ids_end Long };

    fn end() -> u64 {
        LONG_END
    }
}
