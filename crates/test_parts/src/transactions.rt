//! Open transactions by the numbers of their sessions, and drawn commits until a record covers them.
use crate::batches::push;
use base::Ts;
use base::gap::Gaps;
use base::key::Key;
use base::longs::Longs;
use gap_list::GapList;
use log_area::Record;
use snapshot::{Covered, Snapshot};
use std::test::Fail;
use txn::{DrawnCommit, DrawnCommits, Transaction, Transactions, Write, WriteSet};

#[test]
fn a_session_takes_the_lowest_number_that_is_free(rt: HostRuntime) -> Result<(), Fail> {
    let mut transactions = Transactions::new(rt.alloc());
    let record = Record::new(1, 7, 9, Gaps::none(), Longs::none());
    let covered = Covered::by(&record);
    let first = transactions.begin(&covered)?;
    let second = transactions.begin(&covered)?;
    assert_eq!(rt; first, 2);
    assert_eq!(rt; second, 3);
    assert_eq!(rt; transactions.next_active(0), Some(2));
    transactions.write(
        first,
        Write {
            key: Key { table: 1, key: 5 },
            row: None,
            slot: None,
            place: None,
        },
    );
    match transactions.get(first) {
        Some(Transaction::Active { snapshot, writes }) => {
            assert_eq!(rt; snapshot.get().persisted(), 7);
            assert_eq!(rt; writes.len(), 1);
        }
        _ => assert!(rt; false),
    }
    assert_eq!(rt; transactions.draw(first, 8).len(), 1);
    assert!(rt; matches!(transactions.get(first), Some(Transaction::Drawn(8))));
    assert_eq!(rt; transactions.next_active(0), Some(3));
    assert_eq!(rt; transactions.next_active(4), None);
    transactions.set(first, Transaction::ReadOnly);
    transactions.end(first);
    assert!(rt; transactions.get(first).is_none());
    assert_eq!(rt; transactions.begin(&covered)?, 2);
    Ok(())
}

// What a record that reaches up to this timestamp passes over, if few commits are drawn.
fn passed_over(drawn: &DrawnCommits, reach: Ts) -> Longs {
    if drawn.as_slice().len() <= Longs::LIMIT {
        drawn.passed_over(reach)
    } else {
        Longs::none()
    }
}

#[test]
fn commits_are_covered_as_far_as_they_are_stamped(rt: HostRuntime) -> Result<(), Fail> {
    let mut drawn = DrawnCommits::new(rt.alloc());
    for (session, timestamp) in [(2, 8), (3, 9)] {
        let mut writes = WriteSet::new(rt.alloc())?;
        writes.put(Write {
            key: Key { table: 1, key: 5 },
            row: None,
            slot: None,
            place: None,
        });
        let commit = DrawnCommit {
            session,
            timestamp,
            writes,
            stamped: 0,
        };
        push(&mut drawn, commit)?;
    }
    assert_eq!(rt; drawn.reach(7, 0), 7);
    drawn.stamp(9);
    assert_eq!(rt; drawn.reach(7, 0), 7);
    assert_eq!(rt; drawn.reach(7, 1), 9);
    assert_eq!(rt; passed_over(&drawn, 9).as_slice(), [8].as_slice());
    assert!(rt; passed_over(&drawn, 7).as_slice().is_empty());
    drawn.stamp(8);
    assert_eq!(rt; drawn.reach(7, 0), 9);
    assert!(rt; drawn.as_slice()[0].is_stamped());
    let mut transactions = Transactions::new(rt.alloc());
    let snapshot = Snapshot::new(8, GapList::none(), Longs::none());
    drawn.cover(&snapshot, &mut transactions);
    assert!(rt; drawn.get(8).is_none());
    assert!(rt; drawn.get(9).is_some());
    assert_eq!(rt; drawn.reach(8, 0), 9);
    Ok(())
}
