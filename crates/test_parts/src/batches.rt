//! Which drawn commits a batch takes, what its record says, and what closing takes.
ghost use Rattle.std.specs.Prelude.{◌≡◌, ◌<◌, ◌≤◌, ◌^◌, All, IfOk};
ghost use Rattle.txn.specs.DrawnCommits.{are_below};

use base::Ts;
use base::fault::Fault;
use base::gap::Gaps;
use base::geometry::Geometry;
use base::key::Key;
use base::longs::Longs;
use group_commit::{Cycle, is_idle};
use log_area::Record;
use snapshot::Numbers;
use std::alloc::Global;
use std::process::Abort;
use std::test::Fail;
use txn::{DrawnCommit, DrawnCommits, Write, WriteSet};

// A commit that deletes one key.
fn deletion(alloc: Global, session: u8, timestamp: Ts, stamped: usize) -> Result<DrawnCommit, Fault>
    ensures { IfOk result (λ commit. commit.session ≡ session) }
{
    let mut writes = WriteSet::new(alloc)?;
    if !writes.is_full() {
        writes.put(Write {
            key: Key {
                table: 1,
                key: timestamp,
            },
            row: None,
            slot: None,
            place: None,
        });
    }
    Ok(DrawnCommit {
        session,
        timestamp,
        writes,
        stamped,
    })
}

// Whether each commit has a timestamp below this one.
fn is_above(drawn: &DrawnCommits, timestamp: Ts) -> bool
    ensures { result ≡ are_below timestamp drawn.now.commits }
{
    drawn
        .as_slice()
        .iter()
        .all(|commit| commit.timestamp < timestamp)
}

// Adds a commit that was drawn after all others.
pub(crate) fn push(drawn: &mut DrawnCommits, commit: DrawnCommit) -> Result<(), Fault>
    requires { commit.session < 64 }
{
    drawn.reserve()?;
    if !is_above(drawn, commit.timestamp) {
        return Err(Fault::WrongState);
    }
    drawn.push(commit);
    Ok(())
}

// These commits, drawn in this order: of each the session, the timestamp and how many of its writes are stamped.
fn drawn_by(alloc: Global, commits: &[(u8, Ts, usize)]) -> Result<DrawnCommits, Fault>
    requires { All (λ commit. commit.0 < 64) commits.now }
{
    let mut drawn = DrawnCommits::new(alloc);
    for (session, timestamp, stamped) in commits {
        push(&mut drawn, deletion(alloc, *session, *timestamp, *stamped)?)?;
    }
    Ok(drawn)
}

// Begins a cycle over what is drawn, if that is no more than a record may pass over.
fn begin(alloc: Global, numbers: &Numbers, drawn: &DrawnCommits) -> Result<Cycle, Fault>
    requires numbered { numbers.now.record.gate < 2 ^ 62 }
    requires countable { numbers.now.next ≤ 2 ^ 62 }
{
    if drawn.as_slice().len() > Longs::LIMIT {
        return Err(Fault::WrongState);
    }
    Cycle::begin(alloc, numbers, false, drawn)
}

#[test]
fn a_batch_takes_the_stamped_commits(rt: HostRuntime) -> Result<(), Fail> {
    let numbers = Numbers {
        geometry: Geometry::new(4, 2, 4)?,
        record: Record::new(1, 4, 12, Gaps::none(), Longs::none()),
        next: 8,
    };
    assert!(rt; is_idle(&numbers, false, &DrawnCommits::new(rt.alloc())));
    let drawn = drawn_by(rt.alloc(), &[(2, 5, 1), (3, 6, 0), (4, 7, 0)])?;
    assert!(rt; !is_idle(&numbers, false, &drawn));
    let cycle = begin(rt.alloc(), &numbers, &drawn)?;
    assert!(rt; !cycle.is_done());
    let record = cycle.record();
    assert_eq!(rt; record.persisted(), 5);
    assert_eq!(rt; record.dirty(), 12);
    assert!(rt; record.longs().as_slice().is_empty());
    let batch = cycle.into_batch();
    assert_eq!(rt; batch.commits().len(), 1);
    assert_eq!(rt; batch.from(), 1);
    assert_eq!(rt; batch.stamp(), 2);
    assert_eq!(rt; batch.persisted(), 5);
    Ok(())
}

#[test]
fn a_close_takes_all_that_is_drawn(rt: HostRuntime) -> Result<(), Fail> {
    let numbers = Numbers {
        geometry: Geometry::new(4, 2, 4)?,
        record: Record::new(1, 4, 12, Gaps::none(), Longs::none()),
        next: 8,
    };
    let drawn = drawn_by(rt.alloc(), &[(2, 5, 1), (4, 7, 1)])?;
    let closing = Cycle::closing(rt.alloc(), &numbers, false, &drawn).record();
    assert_eq!(rt; closing.gate(), 2);
    assert_eq!(rt; closing.persisted(), 7);
    assert_eq!(rt; closing.dirty(), 8);
    Ok(())
}

#[test]
fn stamped_commits_are_covered_past_one_that_is_not(rt: HostRuntime) -> Result<(), Fail> {
    let numbers = Numbers {
        geometry: Geometry::new(8, 2, 4)?,
        record: Record::new(3, 0, 8, Gaps::none(), Longs::none()),
        next: 4,
    };
    let drawn = drawn_by(rt.alloc(), &[(2, 1, 0), (3, 2, 1), (4, 3, 1)])?;
    let cycle = begin(rt.alloc(), &numbers, &drawn)?;
    let record = cycle.record();
    assert_eq!(rt; record.persisted(), 3);
    assert_eq!(rt; record.dirty(), 8);
    assert_eq!(rt; record.longs().as_slice(), [1].as_slice());
    let batch = cycle.into_batch();
    assert_eq!(rt; batch.from(), 3);
    assert_eq!(rt; batch.commits().len(), 2);
    assert_eq!(rt; batch.longs().as_slice(), [1].as_slice());
    Ok(())
}

#[test]
fn a_commit_above_thirteen_unstamped_ones_waits(rt: HostRuntime) -> Result<(), Fail> {
    let numbers = Numbers {
        geometry: Geometry::new(64, 2, 64)?,
        record: Record::new(2, 0, 65, Gaps::none(), Longs::none()),
        next: 15,
    };
    let mut drawn = DrawnCommits::new(rt.alloc());
    for session in 2..16 {
        push(
            &mut drawn,
            deletion(rt.alloc(), session, Ts::from(session) - 1, 0)?,
        )?;
    }
    drawn.stamp(14);
    assert!(rt; is_idle(&numbers, false, &drawn));
    drawn.stamp(13);
    assert!(rt; !is_idle(&numbers, false, &drawn));
    Ok(())
}

// While commit 1 isn't stamped there is nothing to do, and a cycle that is begun anyway names it again.
fn assert_named_again(
    rt: &impl Abort,
    alloc: Global,
    numbers: &Numbers,
    drawn: &DrawnCommits,
) -> Result<(), Fault>
    requires numbered { numbers.now.record.gate < 2 ^ 62 }
    requires countable { numbers.now.next ≤ 2 ^ 62 }
{
    assert!(rt; is_idle(numbers, false, drawn));
    let again = begin(alloc, numbers, drawn)?;
    assert_eq!(rt; again.record().longs().as_slice(), [1].as_slice());
    assert_eq!(rt; again.into_batch().commits().len(), 0);
    Ok(())
}

#[test]
fn a_long_commit_is_named_until_it_is_stamped(rt: HostRuntime) -> Result<(), Fail> {
    let mut longs = Longs::none();
    longs.push(1);
    let numbers = Numbers {
        geometry: Geometry::new(8, 2, 4)?,
        record: Record::new(4, 3, 8, Gaps::none(), longs),
        next: 4,
    };
    let mut drawn = drawn_by(rt.alloc(), &[(2, 1, 0)])?;
    assert_named_again(&rt, rt.alloc(), &numbers, &drawn)?;
    drawn.stamp(1);
    assert!(rt; !is_idle(&numbers, false, &drawn));
    let cycle = begin(rt.alloc(), &numbers, &drawn)?;
    let record = cycle.record();
    assert_eq!(rt; record.persisted(), 3);
    assert_eq!(rt; record.dirty(), 8);
    let batch = cycle.into_batch();
    assert_eq!(rt; batch.from(), 4);
    assert_eq!(rt; batch.commits().len(), 1);
    assert!(rt; batch.longs().as_slice().is_empty());
    Ok(())
}
