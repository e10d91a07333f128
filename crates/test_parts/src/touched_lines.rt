//! The lines of a batch in the dirty table.
use dirty_table::{DirtyTable, SessionSet};
use std::test::Fail;

#[test]
fn lines_of_a_batch_come_each_once_by_rising_line(rt: HostRuntime) -> Result<(), Fail> {
    let mut table = DirtyTable::new(rt.alloc(), 9_000)?;
    table.touch(2, 8_999);
    table.touch(2, 9);
    table.touch(3, 9);
    table.touch(3, 64);
    table.touch(4, 11);
    let mut batch = SessionSet::none();
    batch.insert(2);
    batch.insert(3);
    assert!(rt; batch.contains(3));
    assert!(rt; !batch.contains(4));
    assert_eq!(rt; table.next(&batch, 0), Some(9));
    assert_eq!(rt; table.next(&batch, 10), Some(64));
    assert_eq!(rt; table.next(&batch, 65), Some(8_999));
    assert_eq!(rt; table.next(&batch, 9_000), None);
    table.forget(&batch);
    assert_eq!(rt; table.next(&batch, 0), None);
    assert!(rt; table.is_touched(4, 11));
    assert!(rt; !table.is_touched(2, 9));
    Ok(())
}
