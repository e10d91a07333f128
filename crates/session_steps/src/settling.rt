//! An entry of the index is settled when its key has no version any more, and all who may still ask have seen the last commit that
//! wrote it. The entry then says no more than a missing one would, and is taken out: so the index grows with the keys that have
//! versions, and not with those that ever had one. A deletion of a key that has no row leaves an entry that no visit comes to. So
//! a step that adds entries also looks at some that are there, each in its turn.

ghost use Rattle.std.specs.Prelude.{◌≡◌, ◌+◌, nat_lt, if◌then◌else◌};
ghost use Rattle.snapshot.specs.Snapshots.{seen_by};
ghost use Rattle.session_steps.specs.Collecting.{all_cover};
ghost use Rattle.session_steps.specs.Settling.{is_settled, Settles};

use crate::collect::SnapshotsInUse;
use crate::sessions::Sessions;
use collector::Readers;
use index::{Entry, Index};

// Whether the entry is settled.
#[inline(always)]
fn is_settled(entry: &Entry, readers: &SnapshotsInUse<'_>) -> bool
    ensures { result ≡ is_settled (all_cover (seen_by readers.now.numbers.now.record) readers.now.transactions.now) entry.now }
{
    if entry.newest.is_some() || entry.drawn.is_some() {
        return false;
    }
    match entry.last {
        Some(timestamp) => readers.cover(timestamp),
        None => true,
    }
}

// Takes the entry at the place out if it is settled. Returns whether it was.
#[inline(always)]
fn settle_at(index: &mut Index, place: usize, readers: &SnapshotsInUse<'_>) -> bool
    ensures { Settles (all_cover (seen_by readers.now.numbers.now.record) readers.now.transactions.now) place index.old index.new result }
{
    let Some((key, entry)) = index.get(place) else {
        return false;
    };
    if !is_settled(&entry, readers) {
        return false;
    }
    index.remove(key, Some(place));
    true
}

impl Sessions {
    ghost use Rattle.std.specs.Prelude.{Bool};
    ghost use Rattle.session_steps.specs.Settling.{Tidies};

    /// Takes the entry at the place out, if there is a place and it is settled.
    #[inline(always)]
    pub(crate) fn settle(&mut self, place: Option<usize>)
        ensures { Tidies self.old self.new }
    {
        if let Some(place) = place {
            let readers = SnapshotsInUse {
                numbers: &self.numbers,
                transactions: &self.transactions,
            };
            settle_at(&mut self.index, place, &readers);
        }
    }

    /// Looks at this many entries, each in its turn, and takes out those that are settled.
    #[inline(never)]
    pub(crate) fn settle_next(&mut self, looks: usize)
        ensures { Tidies self.old self.new }
    {
        for _ in 0..looks {
            self.settle_one();
        }
    }

    // Looks at the next entry, and takes it out if it is settled: the last entry then moves to its place, and is the next one.
    fn settle_one(&mut self)
        ensures tidies { Tidies self.old self.new }
        ensures looks { (is_out : Bool) × Settles (all_cover (seen_by self.old.numbers.record) self.old.transactions) self.old.next_entry self.old.index self.new.index is_out }
    {
        let place = self.next_entry;
        let readers = SnapshotsInUse {
            numbers: &self.numbers,
            transactions: &self.transactions,
        };
        if settle_at(&mut self.index, place, &readers) {
            return;
        }
        self.next_entry = next_in(place, self.index.len());
    }
}

// The place after this one, of this many.
fn next_in(place: usize, count: usize) -> usize
    ensures { result ≡ (if nat_lt (place + 1) count then place + 1 else 0) }
{
    let next = place.saturating_add(1);
    if next < count { next } else { 0 }
}
