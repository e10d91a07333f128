//! Nothing here can fail. The gate has already decided what a crash leaves, so what is kept in memory has to follow it: the
//! room for it was made at the puts and the draws.

ghost use Rattle.std.specs.Prelude.{◌≡◌, ◌<◌, ℕ, IsTrue, All};
ghost use Rattle.txn.specs.DrawnCommits.{are_numbered};
ghost use Rattle.dirty_table.specs.Touches.{has};
ghost use Rattle.session_steps.specs.Shows.{has_drawn_by};
ghost use Rattle.session_steps.specs.Covering.{HasRoom, AreKept, CoversWrites, CoversCommits, MarksReplaced, committed_by};

use crate::sessions::Sessions;
use collector::ReplacedSlots;
use dirty_table::SessionSet;
use index::Index;
use log_area::Record;
use txn::{DrawnCommit, WriteSet};

// Covers the versions of these writes, and marks the slots of those that they replace.
fn cover_writes(index: &mut Index, replaced: &mut ReplacedSlots, writes: &WriteSet)
    requires room { HasRoom index.old writes.now }
    requires kept { AreKept writes.now }
    ensures covers { CoversWrites writes.now index.old index.new }
    ensures marks { MarksReplaced replaced.old replaced.new index.old index.new }
{
    for write in writes.as_slice() {
        let newest = index.cover(write.key, write.place, write.slot);
        replaced.mark(newest);
    }
}

// Covers the versions of the commits that the record commits, and marks the slots of those that they replace. Returns the numbers of
// the sessions that drew them.
fn cover_commits(
    index: &mut Index,
    replaced: &mut ReplacedSlots,
    commits: &[DrawnCommit],
    ruling: &Record,
) -> SessionSet
    requires room { All (λ d. HasRoom index.old d.writes) commits.now }
    requires kept { All (λ d. AreKept d.writes) commits.now }
    requires numbered { IsTrue (are_numbered commits.now) }
    ensures index { CoversCommits (committed_by ruling.now commits.now) index.old index.new }
    ensures marks { MarksReplaced replaced.old replaced.new index.old index.new }
    ensures sessions { (n : ℕ) → has result n ≡ has_drawn_by (committed_by ruling.now commits.now) n }
{
    let mut sessions = SessionSet::none();
    for commit in commits {
        if ruling.commits(commit.timestamp) {
            sessions.insert(commit.session);
            cover_writes(index, replaced, &commit.writes);
        }
    }
    sessions
}

impl Sessions {
    ghost use Rattle.session_steps.specs.Covering.{left_by, MayCoverSome, Covers, ShowsCovered};

    /// Covers the drawn commits that the record commits, which rules from now on. It takes no memory.
    #[inline(always)]
    pub fn cover(&mut self, ruling: &Record)
        requires { ∥ MayCoverSome self.old ruling.now ∥₁ }

        // The drawn commits that the record commits are covered: the sessions show the covered state whenever the device upholds
        // it.
        ensures drawn { self.new.drawn.commits ≡ left_by ruling.now self.old.drawn.commits }
        ensures covers { Covers self.old self.new ruling.now }
        ensures shows { ShowsCovered self.old self.new ruling.now }
    {
        let commits = self.drawn.as_slice();
        let sessions = cover_commits(&mut self.index, &mut self.replaced, commits, ruling);
        self.dirty.forget(&sessions);
        self.numbers.record = *ruling;
        self.drawn
            .cover(&self.numbers.snapshot(), &mut self.transactions);
    }
}
