// The names that a walk over the items has met.
ghost use Rattle.std.specs.Prelude.{◌≡◌, ℕ, List, true};
ghost use Rattle.named_items.specs.Seen.{hash, Saw};

// How many words of 32 bits a set has.
const WORDS: usize = 512;

/// The names that a walk has met, as far as 2 KiB can tell. Each name sets one bit of 16,384, by its
/// hash. So a name that the walk has not met may seem to be one that it has, but never the other
/// way round.
#[derive(Drop)]
pub(crate) struct SeenNames {
    words: [u32; WORDS],
}

impl SeenNames {
    /// No names.
    pub(crate) fn new() -> SeenNames {
        SeenNames { words: [0; WORDS] }
    }

    /// Adds a name. If the answer is `true`, it is new.
    pub(crate) fn insert(&mut self, name: &[u8]) -> bool
        ensures keeps { (other : List ℕ) → Saw self.old.words other → Saw self.new.words other }
        ensures adds { Saw self.new.words name.now }
        ensures is_new { result ≡ true → Saw self.old.words name.now → ⊥ }
    {
        let hash = hash(name);
        let at = (hash / 32) as usize % WORDS;
        let bit = hash % 32;
        let is_new = self.words[at] >> bit & 1 == 0;
        self.words[at] |= 1 << bit;
        is_new
    }
}

// The hash of these bytes, of 32 bits.
fn hash(bytes: &[u8]) -> u32
    ensures { result ≡ hash bytes.now }
{
    bytes.iter().fold(0, |hash, byte| {
        u32::wrapping_mul(hash, 31).wrapping_add(u32::from(*byte))
    })
}
