use crate::level::{Level, Summed};
use std::alloc::{AllocError, Global};
use std::marker::Model;

/// A set of numbers below a limit: a bit for each number, 64 to a word, and three levels above, each with a bit for each word of
/// the level below that isn't 0. Up to 2^24 numbers each call looks at one or two words of each level; above, a search also looks
/// at the words of the highest level, one for each 2^24. Contracts see a truth value for each number.
#[derive(Drop)]
pub struct NumberSet {
    levels: Summed<Summed<Summed<Vec<u64>>>>,
    limit: usize,
    count: usize,
}

impl Model for NumberSet {
    ghost use Rattle.std.specs.Prelude.{Bool, List};
    ghost use Rattle.number_set.specs.Numbers.{members, HoldsMembers};

    ghost Value = { List Bool };

    ghost view = { λ s. members s.limit s.levels };

    ghost invariant = { λ s. HoldsMembers s.limit s.count s.levels };
}

impl NumberSet {
    ghost use Rattle.std.specs.Prelude.{◌≡◌, ◌<◌, ◌^◌, true, false, length, replicate, slice_set, IfOk, IfSome, IfNone};
    ghost use Rattle.number_set.specs.Numbers.{count_of, has, IsFirstFrom, IsNoneFrom};

    /// No number, of those below the limit.
    pub fn new(alloc: Global, limit: usize) -> Result<NumberSet, AllocError>
        requires { limit < 2 ^ 62 }
        ensures { IfOk result (λ set. set ≡ replicate limit false) }
    {
        let levels = Level::none(alloc, limit / 64 + 1)?;
        Ok(NumberSet {
            levels,
            limit,
            count: 0,
        })
    }

    /// How many numbers are in the set.
    #[inline(always)]
    pub fn count(&self) -> usize
        ensures { result ≡ count_of self.now }
    {
        self.count
    }

    /// Whether the number is in the set. No number from the limit on is.
    #[inline(always)]
    pub fn contains(&self, number: usize) -> bool
        ensures { result ≡ has self.now number }
    {
        self.levels.contains(number)
    }

    /// Puts the number in. The others are as before.
    #[inline(always)]
    pub fn insert(&mut self, number: usize)
        requires { number < length self.old }
        ensures { self.new ≡ slice_set self.old number true }
    {
        if !self.levels.contains(number) {
            self.levels.insert(number);
            self.count += 1;
        }
    }

    /// Takes the number out. The others are as before.
    #[inline(always)]
    pub fn remove(&mut self, number: usize)
        requires { number < length self.old }
        ensures { self.new ≡ slice_set self.old number false }
    {
        if self.levels.contains(number) {
            self.levels.remove(number);
            self.count -= 1;
        }
    }

    /// The lowest number of the set, from this one on.
    #[inline(always)]
    pub fn first_from(&self, number: usize) -> Option<usize>
        // None exactly if there is none (`IsFirstFrom`).
        ensures some { IfSome result (IsFirstFrom self.now number) }
        ensures none { IfNone result (IsNoneFrom self.now number) }
    {
        self.levels.lowest(number)
    }
}
