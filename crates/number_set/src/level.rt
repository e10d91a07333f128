//! Levels of bits: each has a bit for each word of the level below, set if that word isn't 0.

use crate::bits::{insert, lowest, lowest_bit, remove};
use std::alloc::{AllocError, Global};
use std::marker::Model;

/// A set of numbers as bits, 64 to a word.
pub(crate) trait Level: Drop {
    ghost use Rattle.std.specs.Prelude.{ℕ, List, ◌≡◌, ◌≢◌, ◌/◌, ◌^◌, ◌<◌, ◌≤◌, ◌||◌, ◌&&◌, not, false, nat_eq, length, replicate, IfSome, IfNone, IfOk};
    ghost use Rattle.number_set.specs.Bits.{is_in, IsLowest, IsClearFrom};

    /// The words.
    ghost words: { Self → List ℕ };

    /// This many words, with no bit set.
    fn none(alloc: Global, size: usize) -> Result<Self, AllocError>
        requires { size < 2 ^ 57 }
        ensures { IfOk result (λ level. words level ≡ replicate size 0) };

    /// Puts the number in.
    fn insert(&mut self, k: usize)
        requires { k / 64 < length (words self.old) }
        ensures is_in { (i : ℕ) → is_in (words self.new) i ≡ (nat_eq i k || is_in (words self.old) i) }
        ensures size { length (words self.new) ≡ length (words self.old) };

    /// Takes the number out.
    fn remove(&mut self, k: usize)
        requires { k / 64 < length (words self.old) }
        ensures is_in { (i : ℕ) → is_in (words self.new) i ≡ (is_in (words self.old) i && not (nat_eq i k)) }
        ensures size { length (words self.new) ≡ length (words self.old) };

    /// The lowest number, from this one on.
    fn lowest(&self, from: usize) -> Option<usize>
        requires { length (words self.now) < 2 ^ 57 }
        ensures some { IfSome result (IsLowest (words self.now) from) }
        ensures none { IfNone result (IsClearFrom (words self.now) from) };
}

// The highest level: a search looks at each of its words.
impl Level for Vec<u64> {
    ghost words = { λ v. v.items };

    fn none(alloc: Global, size: usize) -> Result<Vec<u64>, AllocError> {
        let words = vec![in alloc; 0; size]?;
        Ok(words)
    }

    #[inline(always)]
    fn insert(&mut self, k: usize) {
        insert(self.as_mut_slice(), k);
    }

    #[inline(always)]
    fn remove(&mut self, k: usize) {
        remove(self.as_mut_slice(), k);
    }

    #[inline(always)]
    fn lowest(&self, from: usize) -> Option<usize> {
        lowest(self.as_slice(), from)
    }
}

/// Words, and a level above them with a bit for each word that isn't 0: to find the lowest number from a given one on, a search looks at
/// one or two words of each level. Contracts see the words.
#[derive(Drop)]
pub(crate) struct Summed<S: Level> {
    words: Vec<u64>,
    summary: S,
}

impl<S: Level> Model for Summed<S> {
    ghost use Rattle.std.specs.Prelude.{ℕ, List};
    ghost use Rattle.number_set.specs.Bits.{IsSummed};

    ghost Value = { List ℕ };

    ghost view = { λ s. s.words.items };

    ghost invariant = { λ s. IsSummed s.words.items (S.words s.summary) };
}

impl<S: Level> Summed<S> {
    ghost use Rattle.std.specs.Prelude.{ℕ, ◌≡◌, ◌*◌, ◌≤◌, length, IfSome, IfNone};
    ghost use Rattle.number_set.specs.Bits.{is_in, IsLowest, IsClearFrom};

    /// Whether the number is in the set.
    #[inline(always)]
    pub(crate) fn contains(&self, k: usize) -> bool
        ensures { result ≡ is_in self.now k }
    {
        match self.words.get(k / 64) {
            Some(word) => *word >> (k % 64) & 1 == 1,
            None => false,
        }
    }

    // The lowest number of the words from this one on.
    fn lowest_of_words(&self, from: usize) -> Option<usize>
        requires { from ≤ length self.now }
        ensures some { IfSome result (IsLowest self.now (64 * from)) }
        ensures none { IfNone result (IsClearFrom self.now (64 * from)) }
    {
        match self.summary.lowest(from) {
            Some(at) => match lowest_bit(self.words[at], 0) {
                Some(bit) => Some(64 * at + bit as usize),
                None => None,
            },
            None => None,
        }
    }
}

impl<S: Level> Level for Summed<S> {
    ghost words = { λ s. s };

    fn none(alloc: Global, size: usize) -> Result<Summed<S>, AllocError> {
        let words = vec![in alloc; 0; size]?;
        let summary = S::none(alloc, size / 64 + 1)?;
        Ok(Summed { words, summary })
    }

    #[inline(always)]
    fn insert(&mut self, k: usize) {
        let was_empty = self.words[k / 64] == 0;
        insert(self.words.as_mut_slice(), k);
        if was_empty {
            self.summary.insert(k / 64);
        }
    }

    #[inline(always)]
    fn remove(&mut self, k: usize) {
        remove(self.words.as_mut_slice(), k);
        if self.words[k / 64] == 0 {
            self.summary.remove(k / 64);
        }
    }

    #[inline(always)]
    fn lowest(&self, from: usize) -> Option<usize> {
        let at = from / 64;
        if self.words.len() <= at {
            return None;
        }
        match lowest_bit(self.words[at], (from % 64) as u32) {
            Some(bit) => Some(64 * at + bit as usize),
            None => self.lowest_of_words(at + 1),
        }
    }
}
