use std::snapshot::Snapshot;

/// An unbounded number, which only clauses can read. It takes one byte.
#[derive(Drop)]
pub enum Tally {
    Zero,
    More(Snapshot<Tally>),
}

impl Tally {
    ghost use Rattle.std.specs.Prelude.{◌≡◌, ◌+◌};
    ghost use Rattle.pmem.specs.Tallies.{number_of};

    /// Adds one. The number has no bound.
    pub fn add(&mut self)
        ensures { number_of self.new ≡ number_of self.old + 1 }
    {
        let before = Snapshot::of(&*self);
        *self = Tally::More(before);
    }
}
