//! An image of 65,536 live slots, which several threads read: how many words of it a `Get` reads, and which bad slot is
//! reported.
use crate::fixture::{change, leave};
use base::actor::Actor;
use base::fault::Fault;
use base::key::Key;
use base::row::Row;
use base::step::{Reply, Step};
use image_check::check;
use pmem::Pmem;
use pmem_model::SimPmem;
use room::Room;
use std::alloc::Global;
use std::process::Abort;
use std::sync::Arc;
use std::sync::atomic::{AtomicU64, Ordering};
use std::thread::Threads;

// How many words were read.
type Count = Arc<AtomicU64, Global>;

/// A device that counts its loads.
#[derive(Drop)]
struct Counting<D: Pmem> {
    device: D,
    loads: Count,
}

impl<D: Pmem> Counting<D> {
    ghost use Rattle.std.specs.Prelude.{◌≡◌};

    fn new(device: D, loads: Count) -> Counting<D>
        ensures { result.device ≡ device }
    {
        Counting { device, loads }
    }
}

impl<D: Pmem> Pmem for Counting<D> {
    ghost state = { λ counting. D.state counting.device };

    ghost orderly = { λ counting. D.orderly counting.device };

    fn words(&self) -> usize {
        self.device.words()
    }

    fn load(&self, word: usize) -> u64 {
        self.loads.fetch_add(1, Ordering::SeqCst);
        self.device.load(word)
    }

    fn store(&mut self, word: usize, value: u64) -> Result<(), Fault> {
        self.device.store(word, value)
    }

    fn flush(&mut self, actor: Actor, line: usize) -> Result<(), Fault> {
        self.device.flush(actor, line)
    }

    fn fence(&mut self, actor: Actor) -> Result<(), Fault> {
        self.device.fence(actor)
    }
}

fn counter(alloc: Global) -> Result<Count, Fault> {
    match Arc::new(alloc, AtomicU64::new(0)) {
        Ok(loads) => Ok(loads),
        Err(_) => Err(Fault::OutOfMemory),
    }
}

fn shared(loads: &Count) -> Result<Count, Fault> {
    match loads.clone() {
        Ok(loads) => Ok(loads),
        Err(_) => Err(Fault::OutOfMemory),
    }
}

const SLOTS: u64 = 65_536;

// The superblock and the record of such an image. Read from its high byte down the first word is `WBL-PRF1`.
const FULL: &[(usize, u64)] = &[
    (0, 0x5742_4C2D_5052_4631),
    (1, 2),
    (2, SLOTS),
    (3, 2),
    (4, 8),
    (5, 72 + 8 * SLOTS),
    (40, 1),
    (41, 1),
    (42, 2),
];

// An image whose slots all hold a row of commit 1, each of the key of its own number.
fn full(alloc: Global) -> Result<Vec<u64>, Fault> {
    let Ok(mut words) = vec![in alloc; 0; 72] else {
        return Err(Fault::OutOfMemory);
    };
    change(&mut words, FULL);
    for slot in 0..SLOTS {
        let Ok(()) = words.extend_from_slice(&[1, 0, slot, 65_537, slot % 256, 0, 0, 0]) else {
            return Err(Fault::OutOfMemory);
        };
    }
    Ok(words)
}

// A room over such an image.
fn opened<R: Threads + Sync + Abort>(
    rt: &R,
    alloc: Global,
    loads: Count,
) -> Result<Room<Counting<SimPmem>>, Fault> {
    let words = full(alloc)?;
    let device = SimPmem::from_words(alloc, words.as_slice())?;
    assert!(rt; device.at_rest());
    match Room::open(rt, alloc, Counting::new(device, loads)) {
        Ok(room) => Ok(room),
        Err((fault, _device)) => Err(fault),
    }
}

// The row of the key of this number.
fn row_of(room: &mut Room<Counting<SimPmem>>, number: u64) -> Result<Row, Fault> {
    let reply = room.step(Step::Get {
        session: 2,
        key: Key {
            table: 1,
            key: number,
        },
    });
    match reply {
        Reply::Row(Some(row)) => Ok(row),
        _ => Err(Fault::Failed),
    }
}

// The row of a key is found by at most 64 loads.
fn assert_read(
    rt: &impl Abort,
    room: &mut Room<Counting<SimPmem>>,
    loads: &Count,
    number: u64,
) -> Result<(), Fault> {
    let before = loads.load(Ordering::SeqCst);
    let row = row_of(room, number)?;
    assert!(rt; row == Row::new(&[(number % 256) as u8])?);
    assert!(rt; loads.load(Ordering::SeqCst).saturating_sub(before) <= 64);
    Ok(())
}

fn assert_reads(
    rt: &impl Abort,
    room: &mut Room<Counting<SimPmem>>,
    loads: &Count,
) -> Result<(), Fault> {
    assert!(rt; matches!(room.step(Step::Begin), Reply::Began(2)));
    for n in 0..100 {
        assert_read(rt, room, loads, n * 655)?;
    }
    Ok(())
}

#[test]
fn get_reads_one_slot_of_many(rt: HostRuntime) -> Result<(), Fault> {
    let loads = counter(rt.alloc())?;
    let mut room = opened(&rt, rt.alloc(), shared(&loads)?)?;
    let read = assert_reads(&rt, &mut room, &loads);
    leave(room);
    read
}

// The fault of such an image with these words changed.
fn fault_of<R: Threads + Sync>(
    rt: &R,
    alloc: Global,
    changes: &[(usize, u64)],
) -> Result<Option<Fault>, Fault> {
    let mut words = full(alloc)?;
    change(&mut words, changes);
    match check(rt, alloc, words.as_slice()) {
        Ok(_) => Ok(None),
        Err(fault) => Ok(Some(fault)),
    }
}

// Slot 50,000 has a begin that no record commits.
const AHEAD: (usize, u64) = (400_072, 2);

// Slot 40,000 has the key of slot 3.
const SECOND: (usize, u64) = (320_074, 3);

const BAD: &[(&[(usize, u64)], Option<Fault>)] = &[
    (&[], None),
    (&[AHEAD], Some(Fault::Damaged(50_002))),
    (&[AHEAD, SECOND], Some(Fault::Damaged(40_002))),
];

#[test]
fn lowest_bad_slot_of_many_is_reported(rt: HostRuntime) -> Result<(), Fault> {
    for (changes, fault) in BAD {
        assert!(rt; fault_of(&rt, rt.alloc(), changes)? == *fault);
    }
    Ok(())
}
