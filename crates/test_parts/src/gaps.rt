//! A list of gaps that is full, and one that is created and dropped.
use base::fault::Fault;
use base::gap::{Gap, Gaps};
use gap_list::GapList;
use std::test::Fail;

#[test]
fn ninth_gap_is_refused_until_two_are_joined(rt: HostRuntime) -> Result<(), Fail> {
    let mut list = GapList::none();
    for n in 0..8 {
        list.add(2 * n + 1, 2 * n + 1)?;
    }
    let full = list.gaps();
    assert_eq!(rt; full.as_slice().len(), 8);
    assert_eq!(rt; list.add(17, 17), Err(Fault::GapsFull));
    let same = list.gaps();
    assert!(rt; same == full);
    list.add(2, 2)?;
    let joined = list.gaps();
    assert_eq!(rt; joined.as_slice().len(), 7);
    assert_eq!(rt; joined.as_slice().first(), Some(&Gap { first: 1, last: 3 }));
    list.add(17, 17)?;
    let last = list.gaps();
    assert_eq!(rt; last.as_slice().len(), 8);
    assert!(rt; list.holds(17));
    assert!(rt; !list.holds(16));
    Ok(())
}

#[test]
fn a_list_is_made_of_gaps_and_dropped(rt: HostRuntime) {
    let mut gaps = Gaps::none();
    gaps.push(Gap { first: 2, last: 9 });
    let mut list = GapList::of(gaps);
    assert!(rt; list.holds(9));
    list.drop_all();
    assert!(rt; !list.holds(9));
}
