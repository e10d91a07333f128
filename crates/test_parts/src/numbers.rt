//! The timestamps that a record covers, and those that it reserves.
use base::gap::Gaps;
use base::geometry::Geometry;
use base::longs::Longs;
use log_area::Record;
use snapshot::Numbers;
use std::test::Fail;

#[test]
fn timestamps_are_drawn_up_to_the_dirty_one(rt: HostRuntime) -> Result<(), Fail> {
    let mut longs = Longs::none();
    longs.push(12);
    let mut numbers = Numbers {
        geometry: Geometry::new(16, 4, 64)?,
        record: Record::new(3, 18, 20, Gaps::none(), longs),
        next: 19,
    };
    let snapshot = numbers.snapshot();
    assert!(rt; snapshot.covers(18));
    assert!(rt; !snapshot.covers(12));
    assert!(rt; !snapshot.covers(19));
    assert!(rt; !numbers.is_window_full());
    assert!(rt; !numbers.is_near_limit());
    assert_eq!(rt; numbers.draw(), 19);
    assert!(rt; numbers.is_window_full());
    Ok(())
}
