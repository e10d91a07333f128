/// How much was played.
#[derive(Clone, Copy)]
pub struct Counts {
    pub lives: u64,
    pub steps: u64,
    /// How many lives and openings were stopped by a device that fails, and a crash.
    pub stops: u64,
}

impl Counts {
    pub fn none() -> Counts {
        Counts {
            lives: 0,
            steps: 0,
            stops: 0,
        }
    }
}
