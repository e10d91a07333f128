ghost use Rattle.std.specs.Prelude.{◌≡◌, ◌<◌, ◌↔◌, ℕ, IsBitSet, IsTrue, true};
ghost use Rattle.pmem_file.specs.declared.part.Part.TheVariants.{All as AllWords, Words};

/// Which words of each eight are written.
#[derive(Clone, Copy, Debug)]
pub enum Part {
    All,
    /// Those whose bits are set, the first word by the lowest.
    Words(u8),
}

impl Part {
    /// Whether the word at this place of the eight is written.
    pub(crate) fn has(&self, place: usize) -> bool
        requires { place < 8 }
        ensures all { self.now ≡ AllWords → result ≡ true }
        ensures words { (set : ℕ) → self.now ≡ Words set → IsTrue result ↔ IsBitSet set place }
    {
        match *self {
            Part::All => true,
            Part::Words(set) => set >> place & 1 == 1,
        }
    }
}
