//! What the index returns for a key.
use base::SlotNo;
use base::key::Key;
use index::Index;
use std::process::Abort;
use std::test::Fail;

const KEY: Key = Key { table: 1, key: 7 };

const OTHER: Key = Key { table: 2, key: 7 };

// The key's covered row is in the first of these slots, and a new version of it would link to the second.
fn assert_slots(rt: &impl Abort, index: &Index, live: Option<SlotNo>, link: Option<SlotNo>) {
    assert_eq!(rt; index.live(KEY, None), live);
    assert_eq!(rt; index.link(KEY, None), link);
}

#[test]
fn versions_of_a_key_from_draw_to_freeing(rt: HostRuntime) -> Result<(), Fail> {
    let mut index = Index::new(rt.alloc());
    index.reserve(OTHER, None)?;
    index.draw(OTHER, None, Some(5), 8);
    index.cover(OTHER, None, Some(5));
    index.reserve(KEY, None)?;
    assert_slots(&rt, &index, None, None);
    index.draw(KEY, None, Some(3), 9);
    assert_slots(&rt, &index, None, Some(3));
    assert_eq!(rt; index.entry(KEY, index.place(KEY)).last, Some(9));
    index.cover(KEY, index.place(KEY), Some(3));
    assert_slots(&rt, &index, Some(3), Some(3));
    index.draw(KEY, index.place(OTHER), None, 10);
    assert_slots(&rt, &index, Some(3), Some(3));
    index.cover(KEY, Some(99), None);
    assert_slots(&rt, &index, None, Some(3));
    index.forget(KEY, 2);
    assert_slots(&rt, &index, None, Some(3));
    index.forget(KEY, 3);
    assert_slots(&rt, &index, None, None);
    assert_eq!(rt; index.entry(KEY, None).last, Some(10));
    assert_eq!(rt; index.live(OTHER, index.place(KEY)), Some(5));
    index.remove(OTHER, index.place(KEY));
    assert_eq!(rt; index.len(), 1);
    assert_eq!(rt; index.place(OTHER), None);
    assert_eq!(rt; index.get(0), Some((KEY, index.entry(KEY, Some(1)))));
    assert_eq!(rt; index.entry(KEY, None).last, Some(10));
    Ok(())
}
