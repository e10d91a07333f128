//! Free slots, and one that is returned.
use slot_alloc::SlotAlloc;
use std::test::Fail;

#[test]
fn a_slot_that_is_given_is_free(rt: HostRuntime) -> Result<(), Fail> {
    let mut slots = SlotAlloc::new(rt.alloc(), &[false, true, false])?;
    assert!(rt; slots.has_free());
    assert!(rt; slots.free_count() == 1);
    assert!(rt; !slots.is_free(0));
    assert!(rt; slots.is_free(1));
    assert!(rt; !slots.is_free(3));
    slots.give(0);
    assert!(rt; slots.free_count() == 2);
    assert!(rt; slots.is_free(0));
    assert!(rt; slots.is_free(1));
    assert!(rt; !slots.is_free(2));
    Ok(())
}
