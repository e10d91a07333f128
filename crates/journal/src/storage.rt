ghost use Rattle.std.specs.Prelude.{◌≡◌, ◌⊎◌, ℕ, ◌+◌, ◌-◌, ◌<◌, ◌≤◌, Bool, false, length, slice_index, Option, None, Some, IfSome, IsErr, IsNone, IsSome, OnOk};
ghost use Rattle.journal.specs.Files.{IsInRun};
ghost use Rattle.journal.specs.ReadBack.{IsReadBack, IsReadWord};

use std::io;

/// A place in which words are kept, numbered from 0 on.
pub trait Storage {
    /// A sync of what was written, which is made while the storage isn't at hand.
    type Pending: Drop;

    /// A word may be found with this value, once the process or the machine has stopped.
    ghost may_hold: { Self → ℕ → ℕ → Type 0 };

    /// A word has this value by what was written last: it is found so, once a sync has succeeded.
    ghost shows: { Self → ℕ → ℕ → Type 0 };

    /// Each write and each sync is refused: a sync is handed out, or one failed that was made apart.
    ghost refuses: { Self → Type 0 };

    /// Whether a sync that was handed out succeeded, once it was made.
    ghost came: { Self.Pending → Option Bool };

    /// Writes these words, the first as this one.
    fn write(&mut self, start: usize, words: &[u64]) -> io::Result<()>
        // From then on, also at Err, each of them may be found as it was or as it was to be, until a sync succeeds. Others may be
        // found as before.
        ensures found { (word x : ℕ) → may_hold self.new word x → may_hold self.old word x ⊎ IsInRun start words.now word x }
        ensures others { (word x : ℕ) → shows self.new word x → shows self.old word x ⊎ IsInRun start words.now word x }

        // At Ok the place shows what was written.
        ensures written { OnOk result ((word x : ℕ) → start ≤ word → word < start + length words.now → shows self.new word x → x ≡ slice_index words.now (word - start)) }

        // While all is refused it is an Err, stays so, and changes no word.
        ensures refused { refuses self.old → IsErr result × refuses self.new }
        ensures still { refuses self.old → (word x : ℕ) → (may_hold self.new word x → may_hold self.old word x) × (shows self.new word x → shows self.old word x) };

    /// Waits until what was written persists.
    fn sync(&mut self) -> io::Result<()>
        // No other words may be found than before, and at Ok only those that were written last.
        ensures found { (word x : ℕ) → may_hold self.new word x → may_hold self.old word x }
        ensures synced { OnOk result ((word x : ℕ) → may_hold self.new word x → shows self.old word x) }

        // While all is refused it is an Err, and stays so.
        ensures refused { refuses self.old → IsErr result × refuses self.new };

    /// Hands out a sync that another thread may make meanwhile, if it has one: the next one here takes no time then.
    fn hand_out(&mut self) -> Option<Self::Pending>
        // It changes no word.
        ensures found { (word x : ℕ) → may_hold self.new word x → may_hold self.old word x }
        ensures shown { (word x : ℕ) → shows self.new word x → shows self.old word x }

        // Until it is taken back all is refused, and no other is handed out.
        ensures out { IsSome result → refuses self.new }
        ensures once { refuses self.old → IsNone result × refuses self.new }

        // At None nothing is refused that wasn't before.
        ensures none { IsNone result → refuses self.new → refuses self.old }

        // What is handed out wasn't made yet.
        ensures fresh { IfSome result (λ pending. came pending ≡ None) };

    /// Makes a sync that was handed out, and waits until it ends.
    fn sync_apart(pending: &mut Self::Pending)
        // One that failed stays so, also if it is made again.
        ensures failed { came pending.old ≡ Some false → came pending.new ≡ Some false };

    /// Takes back what was handed out, with what came of it.
    fn take_back(&mut self, pending: Self::Pending)
        // It changes no word.
        ensures found { (word x : ℕ) → may_hold self.new word x → may_hold self.old word x }
        ensures shown { (word x : ℕ) → shows self.new word x → shows self.old word x }

        // If the sync failed, all is refused as before.
        ensures failed { came pending ≡ Some false → refuses self.old → refuses self.new };

    ghost shown_is_found: { (storage : Self) (word x : ℕ) → shows storage word x → may_hold storage word x };
}

/// Writes these words, and waits until they persist. Meanwhile, and also if it fails, each of them may be found as it was or as it
/// was to be; once it succeeded, as it was to be, and each other word as it was written last.
pub(crate) fn put<S: Storage>(storage: &mut S, start: usize, words: &[u64]) -> io::Result<()>
    ensures puts { (word x : ℕ) → S.may_hold storage.new word x → S.may_hold storage.old word x ⊎ IsInRun start words.now word x }
    ensures kept { OnOk result ((word x : ℕ) → start ≤ word → word < start + length words.now → S.may_hold storage.new word x → x ≡ slice_index words.now (word - start)) }
    ensures shown { OnOk result ((word x : ℕ) → S.may_hold storage.new word x → S.shows storage.old word x ⊎ IsInRun start words.now word x) }
{
    storage.write(start, words)?;
    storage.sync()
}

/// Writes back a file's journal and tail as they were read, behind an image of `words`, and waits until they persist. A sync
/// alone isn't enough: after one that failed, the system takes for written what no disk has.
pub fn write_back<S: Storage>(storage: &mut S, words: usize, file: &[u64]) -> io::Result<()>
    requires within { words + 8 ≤ length file.now }

    // Also at Err, each word may be found as before or, behind the image, as in this file.
    ensures puts { (word x : ℕ) → S.may_hold storage.new word x → S.may_hold storage.old word x ⊎ IsReadWord words file.now word x }

    // At Ok the journal and the tail are found only as in this file (`IsReadBack`), and a word in place only as it was written last.
    ensures back { OnOk result (IsReadBack (S.may_hold storage.new) words (length file.now - words - 8) file.now) }
    ensures place { OnOk result ((word x : ℕ) → word < words → S.may_hold storage.new word x → S.shows storage.old word x) }
{
    put(storage, words, &file[words..])
}
