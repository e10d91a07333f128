ghost use Rattle.std.specs.Prelude.{◌≡◌, ◌≤◌, length, take, filter, map, IsTrue};
ghost use Rattle.txn.specs.DrawnCommits.{are_in_order, is_uncovered, place_of, with_stamp};

use crate::transactions::Transactions;
use crate::write_set::WriteSet;
use base::Ts;
use base::fault::Fault;
use base::longs::Longs;
use snapshot::Snapshot;
use std::alloc::Global;
use std::marker::Model;

/// A commit that is drawn and not covered.
#[derive(Drop)]
pub struct DrawnCommit {
    /// The number of the session that drew it.
    pub session: u8,
    pub timestamp: Ts,
    pub writes: WriteSet,
    /// How many of its writes are stamped, from the first on.
    pub stamped: usize,
}

impl DrawnCommit {
    ghost use Rattle.base.specs.Choosing.{is_stamped};
    ghost use Rattle.txn.specs.DrawnCommits.{plain_drawn};

    /// Whether all its writes are stamped.
    #[inline(always)]
    pub fn is_stamped(&self) -> bool
        ensures { result ≡ is_stamped (plain_drawn self.now) }
    {
        self.stamped == self.writes.len()
    }

    // One more of its writes is stamped, if it has the timestamp and one is left.
    #[inline(always)]
    fn stamp(&mut self, timestamp: Ts)
        ensures { self.new ≡ with_stamp timestamp self.old }
    {
        if self.timestamp == timestamp && self.stamped < self.writes.len() {
            self.stamped += 1;
        }
    }
}

/// The commits that are drawn and not covered, in the order in which they were drawn, that of their timestamps.
#[derive(Drop)]
pub struct DrawnCommits {
    commits: Vec<DrawnCommit>,
}

impl Model for DrawnCommits {
    ghost use Rattle.std.specs.Prelude.{vec_len, vec_capacity, ◌-◌, IsTrue};
    ghost use Rattle.txn.specs.InFlight.{InFlight};
    ghost use Rattle.txn.specs.DrawnCommits.{are_numbered, are_in_order};

    ghost Value = { InFlight };

    ghost view = { λ d. record { commits = d.commits.items; spare = vec_capacity d.commits - vec_len d.commits } };

    ghost invariant = { λ d. IsTrue (are_numbered d.commits.items) × IsTrue (are_in_order d.commits.items) };
}

impl DrawnCommits {
    ghost use Rattle.std.specs.Prelude.{◌≤◌, ◌<◌, ◌++◌, [], ◌∷◌, filter, length, option_copied, IfErr, IsTrue, OnOk, OnErr};
    ghost use Rattle.base.specs.declared.fault.Fault.TheVariants.{OutOfMemory};
    ghost use Rattle.base.specs.Choosing.{reach, passed_over};
    ghost use Rattle.txn.specs.DrawnCommits.{are_below, are_numbered, drawn_at, is_uncovered, plain_drawn};

    /// None is drawn.
    pub fn new(alloc: Global) -> DrawnCommits
        ensures { result.commits ≡ [] }
    {
        DrawnCommits {
            commits: Vec::new(alloc),
        }
    }

    /// The commits in the order of their draws, which is that of their timestamps. The sessions that drew them have numbers below
    /// 64.
    pub fn as_slice(&self) -> &[DrawnCommit]
        ensures commits { result.now ≡ self.now.commits }
        ensures numbered { IsTrue (are_numbered self.now.commits) }
    {
        self.commits.as_slice()
    }

    /// The commit of this timestamp.
    #[inline(always)]
    pub fn get(&self, timestamp: Ts) -> Option<&DrawnCommit>
        ensures { option_copied result ≡ drawn_at timestamp self.now.commits }
    {
        let commits = self.commits.as_slice();
        match commits.get(place(commits, timestamp)) {
            Some(commit) => {
                if commit.timestamp == timestamp {
                    Some(commit)
                } else {
                    None
                }
            }
            None => None,
        }
    }

    /// Makes room for one more, and changes nothing else.
    #[inline(always)]
    pub fn reserve(&mut self) -> Result<(), Fault>
        ensures commits { self.new.commits ≡ self.old.commits }
        ensures ok { OnOk result (0 < self.new.spare) }
        ensures fault { IfErr result (λ fault. fault ≡ OutOfMemory) }
        ensures err { OnErr result (self.new ≡ self.old) }
    {
        match self.commits.reserve(1) {
            Ok(()) => Ok(()),
            Err(_) => Err(Fault::OutOfMemory),
        }
    }

    /// Adds the commit that was drawn last; there is room for it.
    #[inline(always)]
    pub fn push(&mut self, commit: DrawnCommit)
        requires room { 0 < self.old.spare }
        requires last { IsTrue (are_below commit.timestamp self.old.commits) }
        requires numbered { commit.session < 64 }
        ensures { self.new.commits ≡ self.old.commits ++ commit ∷ [] }
    {
        self.commits.push_reserved(commit);
    }

    /// One more write of the commit of this timestamp is stamped, if one is left.
    #[inline(always)]
    pub fn stamp(&mut self, timestamp: Ts)
        ensures { self.new.commits ≡ map (with_stamp timestamp) self.old.commits }
    {
        stamp_in(self.commits.as_mut_slice(), timestamp);
    }

    /// Commits that the snapshot covers are no longer drawn, and no others, and transactions that begin may have their sets. The
    /// others keep their order.
    pub fn cover(&mut self, snapshot: &Snapshot, transactions: &mut Transactions)
        ensures commits { self.new.commits ≡ filter (is_uncovered snapshot.now) self.old.commits }
        ensures transactions { transactions.new ≡ transactions.old }
    {
        let kept = gather_uncovered(self.commits.as_mut_slice(), snapshot);
        hand_back(&mut self.commits, kept, transactions);
    }

    /// The timestamp up to which a record reaches that may pass over `most` commits that aren't stamped: that of the last
    /// commit that it may cover, and at least `persisted`.
    pub fn reach(&self, persisted: Ts, most: usize) -> Ts
        ensures { result ≡ reach most persisted (map plain_drawn self.now.commits) }
    {
        let mut reached = persisted;
        let mut unstamped = 0;
        for commit in self.commits.as_slice() {
            if !commit.is_stamped() {
                unstamped += 1;
            } else if unstamped <= most && commit.timestamp > reached {
                reached = commit.timestamp;
            }
        }
        reached
    }

    /// The timestamps of the commits that a record which reaches up to this one passes over: those that aren't stamped.
    pub fn passed_over(&self, reach: Ts) -> Longs
        requires { length (passed_over reach (map plain_drawn self.now.commits)) ≤ 12 }
        ensures { result ≡ passed_over reach (map plain_drawn self.now.commits) }
    {
        let mut longs = Longs::none();
        for commit in self.commits.as_slice() {
            if !commit.is_stamped() && commit.timestamp <= reach {
                longs.push(commit.timestamp);
            }
        }
        longs
    }
}

// Puts those that the snapshot doesn't cover before all others, in their order. Returns their number.
fn gather_uncovered(commits: &mut [DrawnCommit], snapshot: &Snapshot) -> usize
    ensures uncovered { take result commits.new ≡ filter (is_uncovered snapshot.now) commits.old }
    ensures within { result ≤ length commits.new }
{
    let mut kept = 0;
    for at in 0..commits.len() {
        let stays = !snapshot.covers(commits[at].timestamp);
        if stays {
            commits.swap(kept, at);
            kept += 1;
        }
    }
    kept
}

// Only the first `kept` stay. Transactions that begin may have the sets of the others.
fn hand_back(commits: &mut Vec<DrawnCommit>, kept: usize, transactions: &mut Transactions)
    ensures commits { commits.new.items ≡ take kept commits.old.items }
    ensures transactions { transactions.new ≡ transactions.old }
{
    while commits.len() > kept {
        if let Some(commit) = commits.pop() {
            transactions.keep(commit.writes);
        }
    }
}

// How many come before the first whose timestamp isn't below. Most requests are for the last commit.
#[inline(always)]
fn place(commits: &[DrawnCommit], timestamp: Ts) -> usize
    requires { IsTrue (are_in_order commits.now) }
    ensures { result ≡ place_of timestamp commits.now }
{
    match commits.last() {
        Some(last) => {
            if last.timestamp == timestamp {
                commits.len() - 1
            } else {
                commits.partition_point(|commit| commit.timestamp < timestamp)
            }
        }
        None => 0,
    }
}

// One more write of the commit of this timestamp is stamped, if there is one.
#[inline(always)]
fn stamp_in(commits: &mut [DrawnCommit], timestamp: Ts)
    requires { IsTrue (are_in_order commits.old) }
    ensures { commits.new ≡ map (with_stamp timestamp) commits.old }
{
    let at = place(commits, timestamp);
    if at < commits.len() {
        commits[at].stamp(timestamp);
    }
}
