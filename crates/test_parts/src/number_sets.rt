//! A set of more than 2^24 numbers, so that each of its levels is searched.
use number_set::NumberSet;
use std::test::Fail;

#[test]
fn the_lowest_number_is_found_from_any_other(rt: HostRuntime) -> Result<(), Fail> {
    let limit: usize = "40000000".parse()?;
    assert!(rt; 39_999_999 < limit);
    assert!(rt; limit < 1 << 62);
    let mut set = NumberSet::new(rt.alloc(), limit)?;
    assert!(rt; set.first_from(0).is_none());
    set.insert(39_999_999);
    set.insert(4_097);
    set.insert(63);
    set.insert(63);
    assert_eq!(rt; set.count(), 3);
    assert!(rt; set.contains(4_097));
    assert!(rt; !set.contains(4_096));
    assert!(rt; set.first_from(0) == Some(63));
    assert!(rt; set.first_from(64) == Some(4_097));
    assert!(rt; set.first_from(4_098) == Some(39_999_999));
    assert!(rt; set.first_from(40_000_000).is_none());
    set.remove(4_097);
    assert!(rt; set.first_from(64) == Some(39_999_999));
    assert_eq!(rt; set.count(), 2);
    Ok(())
}
