//! The modelled device: what survives, faults, fuses and refused memory, with values that a person wrote down.
use crate::counts::assert_made;
use base::actor::Actor;
use base::fault::Fault;
use pmem::Pmem;
use pmem_model::{Choice, SimPmem};
use std::alloc::Global;
use std::process::Abort;

/// An operation on a device of two words.
#[derive(Clone, Copy)]
enum Operation {
    /// Of the value in the word.
    Store(usize, u64),
    /// Of the first line, by the actor.
    Flush(u8),
    Fence(u8),
}

fn operate(rt: &impl Abort, device: &mut SimPmem, operation: Operation) -> Result<(), Fault> {
    assert!(rt; device.words() == 2);
    match operation {
        Operation::Store(word, value) => device.store(word % 2, value),
        Operation::Flush(actor) => device.flush(Actor::new(actor % 64), 0),
        Operation::Fence(actor) => device.fence(Actor::new(actor % 64)),
    }
}

// Makes the operations, of which each fails or doesn't.
fn operate_each(rt: &impl Abort, device: &mut SimPmem, operations: &[(Operation, bool)]) {
    for (at, (operation, fails)) in operations.iter().enumerate() {
        let made = operate(rt, device, *operation);
        let want = if *fails { Err(Fault::Device) } else { Ok(()) };
        assert_eq!(rt; made, want, "operation {at}");
    }
}

// How many values of each word may survive. With one of each the device is at rest.
fn assert_survivors(rt: &impl Abort, device: &SimPmem, counts: [usize; 2]) {
    assert!(rt; device.words() == 2);
    assert_eq!(rt; [device.survivors(0), device.survivors(1)], counts);
    assert_eq!(rt; device.at_rest(), counts == [1, 1]);
}

// A crash leaves these words on a device that is at rest and has no history.
fn assert_left(
    rt: &impl Abort,
    device: &SimPmem,
    choice: &Choice,
    words: [u64; 2],
) -> Result<(), Fault> {
    let after = device.crash(choice)?;
    assert_survivors(rt, &after, [1, 1]);
    assert_made(rt, &after, (0, 0, 0));
    assert_eq!(rt; after.image()?.as_slice(), words.as_slice());
    Ok(())
}

// The choices of these numbers leave these words.
fn assert_each_left(
    rt: &impl Abort,
    alloc: Global,
    device: &SimPmem,
    choices: &[(&[u64], [u64; 2])],
) -> Result<(), Fault> {
    for (numbers, words) in choices {
        let Ok(numbers) = numbers.to_vec(alloc) else {
            return Err(Fault::OutOfMemory);
        };
        assert_left(rt, device, &Choice::Each(numbers), *words)?;
    }
    Ok(())
}

// Actor 0 flushed word 0 at 10 and has fenced. Actor 1 flushed it at 11, and word 1 at 20, and hasn't.
const TWO_ACTORS: &[(Operation, bool)] = &[
    (Operation::Store(0, 10), false),
    (Operation::Flush(0), false),
    (Operation::Store(0, 11), false),
    (Operation::Store(1, 20), false),
    (Operation::Flush(1), false),
    (Operation::Fence(0), false),
];

// What choices leave of that, and of each word the one beyond the last and the one that is missing.
const LEFT_BY_TWO: &[(&[u64], [u64; 2])] = &[
    (&[0, 0], [10, 2]),
    (&[1, 0], [11, 2]),
    (&[0, 1], [10, 20]),
    (&[1, 1], [11, 20]),
    (&[2, 5], [10, 20]),
    (&[], [10, 2]),
];

#[test]
fn crash_set_of_two_words(rt: HostRuntime) -> Result<(), Fault> {
    let mut device = SimPmem::from_words(rt.alloc(), &[1, 2])?;
    operate_each(&rt, &mut device, TWO_ACTORS);
    assert_made(&rt, &device, (3, 2, 1));
    assert_survivors(&rt, &device, [2, 2]);
    assert_each_left(&rt, rt.alloc(), &device, LEFT_BY_TWO)?;
    assert_left(&rt, &device, &Choice::Oldest, [10, 2])?;
    assert_left(&rt, &device, &Choice::Newest, [11, 20])?;
    operate_each(&rt, &mut device, &[(Operation::Fence(1), false)]);
    assert_survivors(&rt, &device, [1, 1]);
    assert_left(&rt, &device, &Choice::Oldest, [11, 20])
}

const BURNT: &[(Operation, bool)] = &[
    (Operation::Store(1, 8), false),
    (Operation::Flush(5), false),
    (Operation::Fence(5), true),
    (Operation::Store(1, 9), true),
];

const ONE_FAULT: &[(Operation, bool)] = &[
    (Operation::Fence(5), false),
    (Operation::Flush(5), true),
    (Operation::Flush(5), false),
];

// A crash leaves a device without the fuse: a store is made then.
#[test]
fn fuse_and_single_fault(rt: HostRuntime) -> Result<(), Fault> {
    let mut device = SimPmem::from_words(rt.alloc(), &[1, 2])?;
    device.set_fuse(Some(2));
    operate_each(&rt, &mut device, BURNT);
    assert_left(&rt, &device, &Choice::Newest, [1, 8])?;
    let mut after = device.crash(&Choice::Newest)?;
    operate_each(&rt, &mut after, &[(Operation::Store(0, 9), false)]);
    device.set_fuse(None);
    device.set_fault(Some(1));
    operate_each(&rt, &mut device, ONE_FAULT);
    assert_survivors(&rt, &device, [1, 1]);
    Ok(())
}

// Stores that find no memory fail the device, and their words keep their values. With memory reserved each is made.
fn store_each(rt: &impl Abort, alloc: Global, reserved: bool) -> Result<(), Fault> {
    let mut device = SimPmem::from_words(alloc, &[3; 2])?;
    if reserved {
        device.reserve(40)?;
    }
    let last = last_stored(rt, &mut device, reserved);
    assert_stored(rt, &mut device, last)
}

// Stores forty values in word 1, up to the first that finds no memory. The last that was stored.
fn last_stored(rt: &impl Abort, device: &mut SimPmem, reserved: bool) -> u64 {
    let mut last = 3;
    for value in 0..40 {
        if let Err(fault) = operate(rt, device, Operation::Store(1, value)) {
            assert!(rt; fault == Fault::Device && !reserved);
            return last;
        }
        last = value;
    }
    last
}

const FLUSHED: &[(Operation, bool)] = &[(Operation::Flush(0), false), (Operation::Fence(0), false)];

// Word 1 has this value, which a crash leaves once it is flushed.
fn assert_stored(rt: &impl Abort, device: &mut SimPmem, last: u64) -> Result<(), Fault> {
    assert_eq!(rt; device.image()?.as_slice(), [3, last].as_slice());
    assert_left(rt, device, &Choice::Oldest, [3, 3])?;
    operate_each(rt, device, FLUSHED);
    assert_left(rt, device, &Choice::Oldest, [3, last])
}

#[test]
fn refused_memory_is_reported(rt: HostRuntime) {
    for reserved in [false, true] {
        if let Err(fault) = store_each(&rt, rt.alloc(), reserved) {
            assert_eq!(rt; fault, Fault::OutOfMemory);
        }
    }
}
