ghost use Rattle.std.specs.Prelude.{◌≤◌, ◌<◌};

use rand_core::utils::NextWord;
use rand_pcg::Pcg32;

/// Random numbers, the same from the same seed.
#[derive(Drop)]
pub struct Chance {
    generator: Pcg32,
}

impl Chance {
    pub fn new(seed: u64) -> Chance {
        Chance {
            generator: Pcg32::new(seed, 54),
        }
    }

    /// A number below this.
    pub fn below(&mut self, end: u32) -> u64
        requires { 0 < end }
        ensures { result < end }
    {
        u64::from(self.generator.next_word() % end)
    }
}
