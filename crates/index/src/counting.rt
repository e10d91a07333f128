use crate::map::Index;

impl Index {
    ghost use Rattle.std.specs.Prelude.{◌≡◌, List, length};
    ghost use Rattle.base.specs.declared.key.Key.{Key};
    ghost use Rattle.index.specs.Counting.{AreLive};

    /// How many keys have a covered row: the length of a list with each of them once.
    pub fn live_count(&self) -> usize
        ensures { (keys : List Key) → AreLive keys self.now → result ≡ length keys }
    {
        self.live
    }
}
