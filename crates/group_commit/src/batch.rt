ghost use Rattle.std.specs.Prelude.{◌≡◌, ◌+◌, ◌-◌, ◌*◌, ◌^◌, ◌<◌, ◌≤◌, ◌&&◌, ◌||◌, ◌++◌, ◌∷◌, [], not, nat_eq, nat_lt, map, IsTrue, IfOk, OnOk, ℕ, length, vec_capacity};
ghost use Rattle.std.specs.List.{list_any};
ghost use Rattle.base.specs.Records.{is_committed};
ghost use Rattle.dirty_table.specs.Touches.{has};
ghost use Rattle.base.specs.Layout.{most_longs};
ghost use Rattle.base.specs.Choosing.{reach, is_chosen, chosen, standing_gaps, target_of, closing_record, batch_of, is_idle};
ghost use Rattle.txn.specs.DrawnCommits.{are_numbered, plain_drawn};
ghost use Rattle.txn.specs.WriteSets.{plain_writes};

use base::batch::{Batch, Commit};
use base::gap::Gaps;
use base::geometry::Geometry;
use base::key::Key;
use base::longs::Longs;
use base::row::Row;
use base::{NUMBER_LIMIT, Ts};
use dirty_table::SessionSet;
use log_area::Record;
use smallvec::SmallVec;
use snapshot::Numbers;
use std::alloc::{AllocError, Global};
use txn::{DrawnCommit, DrawnCommits, Write};

/// Whether the committer has nothing to do: exactly if the next record covers no drawn commit and isn't due for another reason.
/// It is due if half a window of timestamps isn't reserved, or if there is a swept gap.
#[inline(always)]
pub fn is_idle(numbers: &Numbers, swept: bool, drawn: &DrawnCommits) -> bool
    requires { numbers.now.next ≤ 2 ^ 62 }
    ensures { result ≡ is_idle numbers.now.geometry numbers.now.record numbers.now.next swept (map plain_drawn drawn.now.commits) }
{
    let ruling = &numbers.record;
    let reserved = ruling.dirty().saturating_sub(numbers.next);
    let window_is_short = reserved < (numbers.geometry.window() + 1) / 2;
    let has_swept_gaps = swept && !ruling.gaps().as_slice().is_empty();
    let reach = reach_of(numbers.geometry, ruling, drawn);
    !has_chosen(reach, drawn.as_slice()) && !(window_is_short || has_swept_gaps)
}

// The timestamp up to which the next record reaches.
fn reach_of(geometry: Geometry, ruling: &Record, drawn: &DrawnCommits) -> Ts
    ensures { result ≡ reach (most_longs geometry.version) ruling.now.persisted (map plain_drawn drawn.now.commits) }
{
    drawn.reach(ruling.persisted(), geometry.most_longs())
}

// Whether a record that reaches up to this timestamp covers the commit.
fn is_chosen(reach: Ts, commit: &DrawnCommit) -> bool
    ensures { result ≡ is_chosen reach (plain_drawn commit.now) }
{
    commit.is_stamped() && commit.timestamp <= reach
}

// Whether it covers one of these.
fn has_chosen(reach: Ts, drawn: &[DrawnCommit]) -> bool
    ensures { result ≡ list_any (λ d. is_chosen reach (plain_drawn d)) drawn.now }
{
    drawn.iter().any(|commit| is_chosen(reach, commit))
}

/// Whether a record may follow this one: its number is in range.
pub(crate) fn is_numbered(ruling: &Record) -> bool
    requires { ruling.now.gate < 2 ^ 62 }
    ensures { result ≡ nat_lt (ruling.now.gate + 1) (2 ^ 62) }
{
    ruling.gate() + 1 < NUMBER_LIMIT
}

/// The next record. It names the commits that it passes over.
#[inline(always)]
pub(crate) fn record_of(numbers: &Numbers, swept: bool, drawn: &DrawnCommits) -> Record
    requires numbered { numbers.now.record.gate < 2 ^ 62 }
    requires countable { numbers.now.next ≤ 2 ^ 62 }
    requires few { length (target_of numbers.now.geometry numbers.now.record numbers.now.next swept (map plain_drawn drawn.now.commits)).longs ≤ 12 }
    ensures { result ≡ target_of numbers.now.geometry numbers.now.record numbers.now.next swept (map plain_drawn drawn.now.commits) }
{
    let ruling = &numbers.record;
    let reach = reach_of(numbers.geometry, ruling, drawn);
    let dirty = numbers.next + numbers.geometry.window();
    let gaps = standing_gaps(ruling, swept);
    let longs = drawn.passed_over(reach);
    Record::new(ruling.gate() + 1, reach, dirty, gaps, longs)
}

/// The record that closing writes last: it persists all that is drawn, names no long commit, and reserves no timestamp.
pub(crate) fn closing_record(numbers: &Numbers, swept: bool) -> Record
    requires { numbers.now.record.gate < 2 ^ 62 }
    ensures { result ≡ closing_record (numbers.now.record.gate + 1) numbers.now.record numbers.now.next swept }
{
    let ruling = &numbers.record;
    let next = numbers.next;
    let gaps = standing_gaps(ruling, swept);
    let persisted = next.saturating_sub(1);
    Record::new(ruling.gate() + 1, persisted, next, gaps, Longs::none())
}

// The gaps that the next record names.
fn standing_gaps(ruling: &Record, swept: bool) -> Gaps
    ensures { result ≡ standing_gaps swept ruling.now }
{
    if swept { Gaps::none() } else { ruling.gaps() }
}

/// The batch of those drawn commits that `target` covers, which follows the record `ruling`. Its memory is taken
/// here.
#[inline(always)]
pub(crate) fn batch_of(
    alloc: Global,
    ruling: &Record,
    target: &Record,
    drawn: &[DrawnCommit],
) -> Result<Batch, AllocError>
    ensures { IfOk result (λ batch. batch ≡ batch_of ruling.now target.now (chosen target.now.persisted (map plain_drawn drawn.now))) }
{
    let commits = commits_of(alloc, target.persisted(), drawn)?;
    Ok(Batch::new(
        ruling.gate(),
        target.gate(),
        target.persisted(),
        target.longs(),
        commits,
    ))
}

// What each of the chosen ones wrote.
fn commits_of(alloc: Global, reach: Ts, drawn: &[DrawnCommit]) -> Result<Vec<Commit>, AllocError>
    ensures { IfOk result (λ commits. commits.items ≡ chosen reach (map plain_drawn drawn.now)) }
{
    let mut commits = Vec::with_capacity(alloc, drawn.len())?;
    for commit in drawn {
        if is_chosen(reach, commit) {
            add_commit(alloc, &mut commits, commit)?;
        }
    }
    Ok(commits)
}

// Adds the commit of a transaction that writes this; there is room for it. Most write one row. A row is large to pass on, so a single
// one is put where it stays.
#[inline(always)]
fn add_commit(
    alloc: Global,
    commits: &mut Vec<Commit>,
    drawn: &DrawnCommit,
) -> Result<(), AllocError>
    requires { length commits.old.items < vec_capacity commits.old }
    ensures ok { OnOk result (commits.new.items ≡ commits.old.items ++ (plain_drawn drawn.now).commit ∷ []) }
    ensures capacity { vec_capacity commits.new ≡ vec_capacity commits.old }
{
    let timestamp = drawn.timestamp;
    match drawn.writes.as_slice() {
        [one] => {
            let rows = SmallVec::from_buf(alloc, [(one.key, one.row)]);
            commits.push_reserved(Commit::new(timestamp, rows));
        }
        writes => {
            let rows = rows_of(alloc, writes)?;
            commits.push_reserved(Commit::new(timestamp, rows));
        }
    }
    Ok(())
}

// What these writes leave under their keys.
#[inline(always)]
fn rows_of(alloc: Global, writes: &[Write]) -> Result<SmallVec<(Key, Option<Row>), 1>, AllocError>
    ensures { IfOk result (λ rows. rows.items ≡ plain_writes writes.now) }
{
    let mut rows = SmallVec::with_capacity(alloc, writes.len())?;
    for write in writes {
        rows.push_reserved((write.key, write.row));
    }
    Ok(rows)
}

/// The sessions that drew these commits.
pub(crate) fn sessions_of(commits: &[DrawnCommit]) -> SessionSet
    requires { IsTrue (are_numbered commits.now) }
    ensures { (n : ℕ) → has result n ≡ list_any (λ d. nat_eq d.session n) commits.now }
{
    let mut sessions = SessionSet::none();
    for commit in commits {
        sessions.insert(commit.session);
    }
    sessions
}

// The sessions that drew those of the commits that the record commits.
pub(crate) fn sessions_committed_by(ruling: &Record, commits: &[DrawnCommit]) -> SessionSet
    requires { IsTrue (are_numbered commits.now) }
    ensures { (n : ℕ) → has result n ≡ list_any (λ d. nat_eq d.session n && is_committed ruling.now d.timestamp) commits.now }
{
    let mut sessions = SessionSet::none();
    for commit in commits {
        if ruling.commits(commit.timestamp) {
            sessions.insert(commit.session);
        }
    }
    sessions
}
