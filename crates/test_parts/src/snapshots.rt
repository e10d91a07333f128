//! Which commits a snapshot covers.
use base::longs::Longs;
use gap_list::GapList;
use snapshot::Snapshot;
use std::test::Fail;

#[test]
fn commits_in_gaps_and_long_commits_are_not_covered(rt: HostRuntime) -> Result<(), Fail> {
    let mut gaps = GapList::none();
    gaps.add(2, 9)?;
    let mut longs = Longs::none();
    longs.push(12);
    let snapshot = Snapshot::new(18, gaps, longs);
    assert_eq!(rt; snapshot.persisted(), 18);
    assert!(rt; snapshot.gaps().holds(9));
    assert!(rt; snapshot.longs().contains(12));
    for (ts, covered) in [
        (0, false),
        (1, true),
        (2, false),
        (9, false),
        (10, true),
        (12, false),
        (13, true),
        (18, true),
        (19, false),
    ] {
        assert_eq!(rt; snapshot.covers(ts), covered, "{ts}");
    }
    Ok(())
}
