use crate::counts::operations;
use crate::fixture::{device_after, fresh, leave, open, opened, step};
use crate::stories::{Opening, Shown};
use asks::{Story, steps};
use base::fault::Fault;
use base::gap::Gaps;
use base::step::{Note, Step};
use pmem::Pmem;
use pmem_model::{Choice, SimPmem};
use room::Room;
use std::alloc::Global;
use std::process::Abort;
use std::thread::Threads;

/// Lets the story's life stop after each number of operations, and opens what a crash may leave.
pub fn assert_each_stop<R: Threads + Sync + Abort>(
    rt: &R,
    alloc: Global,
    shown: &Shown,
) -> Result<(), Fault> {
    let story = &shown.story;
    let words = words_before(rt, alloc, story)?;
    let steps = steps(alloc, story.life)?;
    for fuse in 0..story.operations.saturating_add(1) {
        assert_stop(rt, alloc, shown, (&words, &steps), fuse)?;
    }
    Ok(())
}

// Lets the life stop after this many operations, and opens what a crash may leave.
fn assert_stop<R: Threads + Sync + Abort>(
    rt: &R,
    alloc: Global,
    shown: &Shown,
    life: (&[u64], &[Step]),
    fuse: u64,
) -> Result<(), Fault> {
    let (words, steps) = life;
    let device = SimPmem::from_words(alloc, words)?;
    let (device, covered) = stopped(rt, alloc, device, fuse, steps, shown.story.closes);
    assert!(rt; operations(&device) == fuse as u128, "fuse {fuse}");
    let gates = gates_after(rt, shown, fuse);
    assert!(rt; covered < gates.0, "fuse {fuse}");
    assert_each_choice(rt, alloc, &device, shown.openings, gates)
}

/// The words that the lives before the story leave.
pub fn words_before<R: Threads + Sync + Abort>(
    rt: &R,
    alloc: Global,
    story: &Story,
) -> Result<Vec<u64>, Fault> {
    let device = fresh(alloc, story.slots, 8)?;
    let mut words = device_after(rt, alloc, device, story.before)?.image()?;
    if let Some(version) = words.get_mut(1) {
        *version = story.version;
    }
    Ok(words)
}

// Opens what a crash may leave: of each word the oldest value, of each the newest, and of each word in turn the one while
// all others have the other. A word with one value left is skipped, since that is one of the first two.
fn assert_each_choice<R: Threads + Sync + Abort>(
    rt: &R,
    alloc: Global,
    device: &SimPmem,
    openings: &[Opening],
    gates: (u64, u64),
) -> Result<(), Fault> {
    let (oldest, newest) = gates;
    assert_left(
        rt,
        alloc,
        device,
        &Choice::Oldest,
        openings,
        (oldest, oldest),
    )?;
    assert_left(
        rt,
        alloc,
        device,
        &Choice::Newest,
        openings,
        (newest, newest),
    )?;
    for word in 0..device.words() {
        if device.survivors(word) > 1 {
            assert_apart(rt, alloc, device, word, openings, gates)?;
        }
    }
    Ok(())
}

// Opens what is left if this word alone has the oldest value, and if it alone has the newest.
fn assert_apart<R: Threads + Sync + Abort>(
    rt: &R,
    alloc: Global,
    device: &SimPmem,
    word: usize,
    openings: &[Opening],
    gates: (u64, u64),
) -> Result<(), Fault> {
    for keeps in [false, true] {
        let choice = apart(alloc, device, word, keeps)?;
        assert_left(rt, alloc, device, &choice, openings, gates)?;
    }
    Ok(())
}

// The newest value of one word and the oldest of all others, or the other way around.
fn apart(alloc: Global, device: &SimPmem, word: usize, newest: bool) -> Result<Choice, Fault> {
    let mut numbers = Vec::new(alloc);
    for other in 0..device.words() {
        let last = device.survivors(other).saturating_sub(1) as u64;
        let number = if (other == word) == newest { last } else { 0 };
        if numbers.push(number).is_err() {
            return Err(Fault::OutOfMemory);
        }
    }
    Ok(Choice::Each(numbers))
}

/// Opens a device on which only this many operations succeed, makes the steps up to the one that is refused, and closes
/// the room if that is asked. Returns what is left, and the stamp of the last commit that was acknowledged.
pub fn stopped<R: Threads + Sync + Abort>(
    rt: &R,
    alloc: Global,
    device: SimPmem,
    fuse: u64,
    steps: &[Step],
    closes: bool,
) -> (SimPmem, u64) {
    let mut device = device;
    device.set_fuse(Some(fuse));
    match open(rt, alloc, device) {
        Ok(room) => ended(rt, room, steps, closes),
        Err((fault, device)) => {
            assert!(rt; fault == Fault::Device);
            (device, 0)
        }
    }
}

fn ended(rt: &impl Abort, room: Room<SimPmem>, steps: &[Step], closes: bool) -> (SimPmem, u64) {
    let mut room = room;
    let covered = run(rt, &mut room, steps);
    if closes {
        (closed(rt, room), covered)
    } else {
        (room.into_device(), covered)
    }
}

fn closed(rt: &impl Abort, room: Room<SimPmem>) -> SimPmem {
    match room.close() {
        Ok(device) => device,
        Err((fault, device)) => {
            assert!(rt; matches!(fault, Fault::Device | Fault::Failed));
            device
        }
    }
}

// Makes the steps up to the one in which the device fails, after which each is refused. Returns the stamp of the last
// commit that was acknowledged.
fn run(rt: &impl Abort, room: &mut Room<SimPmem>, steps: &[Step]) -> u64 {
    let mut covered = 0;
    for made in steps {
        match step(room, *made) {
            Note::Covered(stamp) => covered = stamp,
            Note::Refused(fault) => {
                assert!(rt; fault == Fault::Device);
                assert!(rt; step(room, *made) == Note::Refused(Fault::Failed));
                return covered;
            }
            _ => {}
        }
    }
    covered
}

// The gates of the next opening after the oldest and after the newest values: one more for each record that rules.
fn gates_after(rt: &impl Abort, shown: &Shown, fuse: u64) -> (u64, u64) {
    let Some((first, _, _)) = shown.openings.first() else {
        panic!(rt; "no openings")
    };
    let (least, most) = shown.story.ruling(fuse);
    let gate = first.0;
    (
        gate.saturating_add(least as u64),
        gate.saturating_add(most as u64),
    )
}

/// Opens what a crash of this choice leaves. It has one of two gates, and shows what belongs to that gate.
pub fn assert_left<R: Threads + Sync + Abort>(
    rt: &R,
    alloc: Global,
    device: &SimPmem,
    choice: &Choice,
    openings: &[Opening],
    gates: (u64, u64),
) -> Result<(), Fault> {
    let mut room = opened(rt, alloc, device.crash(choice)?)?;
    assert_shows_one(rt, &mut room, openings, gates);
    leave(room);
    Ok(())
}

fn assert_shows_one(
    rt: &impl Abort,
    room: &mut Room<SimPmem>,
    openings: &[Opening],
    gates: (u64, u64),
) {
    let gate = room.status().gate;
    assert!(rt; gate == gates.0 || gate == gates.1, "gate {gate}");
    assert_shows(rt, room, opening_of(rt, openings, gate));
}

// The opening that has this gate.
fn opening_of<'a>(rt: &impl Abort, openings: &'a [Opening], gate: u64) -> &'a Opening {
    for opening in openings {
        let (numbers, _, _) = opening;
        if numbers.0 == gate {
            return opening;
        }
    }
    panic!(rt; "gate {gate}")
}

fn assert_shows(rt: &impl Abort, room: &mut Room<SimPmem>, opening: &Opening) {
    let (want, gaps, rows) = opening;
    let status = room.status();
    let numbers = (status.gate, status.persisted, status.dirty, status.next);
    assert!(rt; numbers == *want, "gate {}", want.0);
    assert_gaps(rt, &status.gaps, gaps);
    assert_rows(rt, room, rows);
}

fn assert_gaps(rt: &impl Abort, gaps: &Gaps, want: &[(u64, u64)]) {
    assert_eq!(rt; gaps.as_slice().len(), want.len());
    for (gap, want) in gaps.as_slice().iter().zip(want.iter()) {
        assert!(rt; gap.first == want.0 && gap.last == want.1);
    }
}

// A new session sees these rows in table 1, and no others.
fn assert_rows(rt: &impl Abort, room: &mut Room<SimPmem>, want: &[(u64, u8)]) {
    assert!(rt; step(room, Step::Begin) == Note::Began(2));
    let whole = Step::Scan {
        session: 2,
        table: 1,
        lo: 0,
        hi: u64::MAX,
    };
    let Note::Rows(rows) = step(room, whole) else {
        panic!(rt; "no rows")
    };
    assert_eq!(rt; rows.as_slice().len(), want.len());
    for ((key, row), (number, byte)) in rows.as_slice().iter().zip(want.iter()) {
        assert!(rt; key.key == *number && row.as_bytes() == [*byte].as_slice());
    }
}
