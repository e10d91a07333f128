//! Which commits a reader sees, and the numbers of a life that determine it.
#![tactic(auto)]

mod numbers;

ghost use Rattle.std.specs.Prelude.{◌≡◌, IsTrue};
ghost use Rattle.gap_list.specs.GapLists.{is_gap_list};

use base::Ts;
use base::longs::Longs;
use gap_list::GapList;
use log_area::Record;
pub use numbers::Numbers;
use std::marker::Model;

/// The commits that a record covers.
#[derive(Clone, Copy, PartialEq, Eq)]
pub struct Snapshot {
    persisted: Ts,
    gaps: GapList,
    longs: Longs,
}

impl Model for Snapshot {
    ghost use Rattle.snapshot.specs.Snapshots.{Seen};

    ghost Value = { Seen };

    ghost view = { λ s. record { persisted = s.persisted; gaps = s.gaps; longs = s.longs } };

    ghost inverse = { λ s. record { persisted = s.persisted; gaps = s.gaps; longs = s.longs } };
}

impl Snapshot {
    ghost use Rattle.base.specs.Records.{Record as RecordValue, is_committed};
    ghost use Rattle.snapshot.specs.Snapshots.{covers, seen_by};

    /// What a record with this persisted timestamp, these gaps and these long commits covers.
    pub fn new(persisted: Ts, gaps: GapList, longs: Longs) -> Snapshot
        ensures { result ≡ record { persisted = persisted; gaps = gaps; longs = longs } }
    {
        Snapshot {
            persisted,
            gaps,
            longs,
        }
    }

    /// Becomes a copy of `covered`. Usually neither has gaps or long commits, so no list is copied.
    #[inline(always)]
    pub fn set(&mut self, covered: &Covered<'_>)
        ensures { self.new ≡ covered.now }
    {
        set_gaps(&mut self.gaps, covered.record);
        set_longs(&mut self.longs, covered.record);
        self.persisted = covered.record.persisted();
    }

    /// The last timestamp that is covered, is in a gap or belongs to a long commit.
    pub fn persisted(&self) -> Ts
        ensures { result ≡ self.now.persisted }
    {
        self.persisted
    }

    /// The timestamps up to the persisted one that count for nothing.
    pub fn gaps(&self) -> GapList
        ensures { result ≡ self.now.gaps }
    {
        self.gaps
    }

    /// The long commits: drawn, at most the persisted timestamp, and not covered.
    pub fn longs(&self) -> Longs
        ensures { result ≡ self.now.longs }
    {
        self.longs
    }

    /// Whether the commit of this timestamp is covered.
    pub fn covers(&self, ts: Ts) -> bool
        // Exactly whether a record with these numbers commits the timestamp.
        ensures covers { result ≡ covers self.now ts }
        ensures of_record { (r : RecordValue) → self.now ≡ seen_by r → result ≡ is_committed r ts }
    {
        1 <= ts && ts <= self.persisted && !self.gaps.holds(ts) && !self.longs.contains(ts)
    }
}

/// What a record covers, borrowed from the record: it is copied once, into the place that keeps it.
#[derive(Drop)]
pub struct Covered<'a> {
    record: &'a Record,
}

impl<'a> Model for Covered<'a> {
    ghost use Rattle.std.specs.Prelude.{IsTrue};
    ghost use Rattle.gap_list.specs.GapLists.{is_gap_list};
    ghost use Rattle.snapshot.specs.Snapshots.{Seen, seen_by};

    ghost Value = { Seen };

    ghost view = { λ c. seen_by c.record.now };

    ghost invariant = { λ c. IsTrue (is_gap_list c.record.now.gaps) };
}

impl<'a> Covered<'a> {
    ghost use Rattle.snapshot.specs.Snapshots.{seen_by};

    /// What this record covers.
    #[inline(always)]
    pub fn by(ruling: &'a Record) -> Covered<'a>
        requires { IsTrue (is_gap_list ruling.now.gaps) }
        ensures { result ≡ seen_by ruling.now }
    {
        Covered { record: ruling }
    }

    /// A copy, in memory of its own.
    pub fn to_snapshot(&self) -> Snapshot
        ensures { result ≡ self.now }
    {
        Snapshot {
            persisted: self.record.persisted(),
            gaps: GapList::of(self.record.gaps()),
            longs: self.record.longs(),
        }
    }
}

// The gaps of the record.
#[inline(always)]
fn set_gaps(gaps: &mut GapList, ruling: &Record)
    requires { IsTrue (is_gap_list ruling.now.gaps) }
    ensures { gaps.new ≡ ruling.now.gaps }
{
    if gaps.gaps().as_slice().is_empty() && ruling.gaps().as_slice().is_empty() {
        return;
    }
    *gaps = GapList::of(ruling.gaps());
}

// And its long commits.
#[inline(always)]
fn set_longs(longs: &mut Longs, ruling: &Record)
    ensures { longs.new ≡ ruling.now.longs }
{
    if longs.as_slice().is_empty() && ruling.longs().as_slice().is_empty() {
        return;
    }
    *longs = ruling.longs();
}
