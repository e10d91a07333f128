//! Lives over the words of a file with a journal: for each write and sync, lives in which it is the first to fail.
ghost use Rattle.std.specs.Prelude.{IfOk};
ghost use Rattle.pmem.specs.Words.{IsAtRest};
ghost use Rattle.pmem_file.specs.Traces.{device_of};

use base::actor::Actor;
use base::fault::Fault;
use base::geometry::Geometry;
use base::key::Key;
use base::row::Row;
use base::step::{Reply, Step};
use journal::{JournaledImages, extent_of, image_in};
use pmem::Pmem;
use pmem_file::{JournaledPmem, MemoryStorage, Nowhere, Part};
use recovery::format_new;
use room::Room;
use std::alloc::Global;
use std::io::ErrorKind;
use std::process::Abort;
use std::thread::Threads;
use sync_ahead::SyncAhead;

type Device = JournaledPmem<JournaledImages<MemoryStorage>>;

// The number of words in an image with four slots and two places.
const WORDS: usize = 104;

// An entry with all thirteen lines of the image fits, or with the lines of two commits.
const ROOM: usize = 136;

// More writes and syncs than any life makes.
const CALLS: usize = 160;

const COMMITS: u8 = 6;

// The superblock's first word: the letters WBL-PRF1.
const FIRST_WORD: u64 = 0x5742_4C2D_5052_4631;

const KEY: Key = Key { table: 1, key: 7 };

const OTHER: Key = Key { table: 1, key: 8 };

// Of each eight words of a write that fails, none are written, or every other one, or all.
const TORN: [Part; 4] = [
    Part::Words(0),
    Part::Words(0b0101_0101),
    Part::Words(0b1010_1010),
    Part::All,
];

// How far a life came, and what is found after it.
#[derive(Drop)]
struct Life {
    acknowledged: u8,
    found: Vec<u64>,
}

// A device at rest with the image that the storage stands for, or with a new image if the storage holds none.
fn opened(
    alloc: Global,
    storage: MemoryStorage,
    geometry: Geometry,
) -> Result<Device, MemoryStorage>
    ensures { IfOk result (λ device. IsAtRest (device_of device.trace)) }
{
    let mut device = match Device::of_storage(alloc, storage, WORDS, ROOM, 2) {
        Ok(device) => device,
        Err(unopened) => return Err(unopened.storage),
    };
    match format_new(&mut device, geometry) {
        Ok(_is_new) => Ok(device),
        Err(_fault) => Err(device.release()),
    }
}

// Opens the device, which is formatted if it is new, and commits the numbers after this one, up to the first that isn't acknowledged.
fn live<R: Threads + Sync>(
    rt: &R,
    alloc: Global,
    storage: MemoryStorage,
    before: u8,
) -> Result<Life, Fault> {
    let device = match opened(alloc, storage, Geometry::new(4, 2, 8)?) {
        Ok(device) => device,
        Err(storage) => return Ok(Life::ended(before, storage)),
    };
    let mut room = match open(rt, alloc, device) {
        Ok(room) => room,
        Err((_fault, device)) => return Ok(Life::ended(before, device.release())),
    };
    let acknowledged = commit_behind(&mut room, before)?;
    Ok(Life::ended(acknowledged, room.into_device().release()))
}

// Opens a room over the device. There is only this one call, since the contract of `Room::open` is long.
fn open<R: Threads + Sync, D: Pmem + Drop + Send + Sync>(
    rt: &R,
    alloc: Global,
    device: D,
) -> Result<Room<D>, (Fault, D)>
    requires at_rest { IsAtRest (D.state device) }
{
    Room::open(rt, alloc, device)
}

impl Life {
    fn ended(acknowledged: u8, storage: MemoryStorage) -> Life {
        Life {
            acknowledged,
            found: storage.into_words(),
        }
    }
}

// Commits the number under the key. Returns whether that was acknowledged.
fn commit(room: &mut Room<Device>, number: u8) -> Result<bool, Fault> {
    let session = 2;
    let row = Row::new(&[number])?;
    let put = Step::Put {
        session,
        key: KEY,
        row,
    };
    for step in [
        Step::Begin,
        put,
        Step::Draw { session },
        Step::Stamp { session },
    ] {
        room.step(step);
    }
    for _ in 0..64 {
        room.step(Step::Commit);
        sync_ahead(room)?;
    }
    let polled = room.step(Step::Poll { session });
    room.step(Step::End { session });
    for _ in 0..5 {
        room.step(Step::Collect);
    }
    Ok(matches!(polled, Reply::Committed(_)))
}

// Makes the sync that the next tick would wait for. Meanwhile another session writes, and is rolled back.
fn sync_ahead(room: &mut Room<Device>) -> Result<(), Fault> {
    let Some(mut pending) = room.begin_sync() else {
        return Ok(());
    };
    let session = 3;
    let row = Row::new(&[0])?;
    let put = Step::Put {
        session,
        key: OTHER,
        row,
    };
    for step in [Step::Begin, put, Step::Abort { session }] {
        room.step(step);
    }
    Device::sync(&mut pending);
    room.end_sync(pending);
    Ok(())
}

// The number that was committed last, or 0.
fn number_in<D: Pmem + Drop>(room: &Room<D>) -> Result<u8, Fault> {
    match room.tables()?.first() {
        Some((_key, row)) => Ok(row.as_bytes().first().copied().unwrap_or(0)),
        None => Ok(0),
    }
}

// Commits `COMMITS` numbers after this one, up to the first that isn't acknowledged. Returns the last one that is.
fn commit_behind(room: &mut Room<Device>, before: u8) -> Result<u8, Fault> {
    let mut acknowledged = before;
    for _ in 0..COMMITS {
        let number = acknowledged.saturating_add(1);
        if !commit(room, number)? {
            break;
        }
        acknowledged = number;
    }
    Ok(acknowledged)
}

// The number that is found when the device is opened.
fn number_on<R: Threads + Sync, D: Pmem + Drop + Send + Sync>(
    rt: &R,
    alloc: Global,
    device: D,
) -> Result<u8, Fault>
    requires at_rest { IsAtRest (D.state device) }
{
    match open(rt, alloc, device) {
        Ok(room) => number_of(room),
        Err((fault, _device)) => Err(fault),
    }
}

fn number_of<D: Pmem + Drop>(room: Room<D>) -> Result<u8, Fault> {
    number_in(&room)
}

// Opens what was found: it has all that was acknowledged, and at most the one commit after that.
fn assert_opens<R: Threads + Sync + Abort>(rt: &R, alloc: Global, life: Life) -> Result<(), Fault> {
    let acknowledged = life.acknowledged;
    let storage = MemoryStorage::new(life.found);
    let Ok(device) = Device::of_storage(alloc, storage, WORDS, ROOM, 2) else {
        return Err(Fault::OutOfMemory);
    };
    match number_on(rt, alloc, device) {
        Ok(found) => assert!(rt; found >= acknowledged && found - acknowledged <= 1),
        Err(fault) => assert!(rt; acknowledged == 0 && fault == Fault::NotFormatted),
    }
    Ok(())
}

fn zeros(alloc: Global) -> Result<Vec<u64>, Fault> {
    match vec![in alloc; 0; WORDS + ROOM + 8] {
        Ok(words) => Ok(words),
        Err(_) => Err(Fault::OutOfMemory),
    }
}

// What is found after a life in which no write or sync fails.
fn lived<R: Threads + Sync>(rt: &R, alloc: Global) -> Result<Vec<u64>, Fault> {
    Ok(live(rt, alloc, MemoryStorage::new(zeros(alloc)?), 0)?.found)
}

#[test]
fn each_failing_call_keeps_what_was_acknowledged(rt: HostRuntime) -> Result<(), Fault> {
    let alloc = rt.alloc();
    for calls in 0..CALLS {
        for torn in TORN {
            let storage = MemoryStorage::new(zeros(alloc)?).failing_after(calls, torn);
            let life = live(&rt, alloc, storage, 0)?;
            assert!(rt; life.acknowledged == COMMITS || calls < CALLS - 1);
            assert_opens(&rt, alloc, life)?;
        }
    }
    Ok(())
}

#[test]
fn so_does_each_failing_call_of_a_second_life(rt: HostRuntime) -> Result<(), Fault> {
    let alloc = rt.alloc();
    let before = lived(&rt, alloc)?;
    for calls in 0..CALLS {
        for torn in TORN {
            let Ok(words) = before.clone() else {
                return Err(Fault::OutOfMemory);
            };
            let storage = MemoryStorage::new(words).failing_after(calls, torn);
            let life = live(&rt, alloc, storage, COMMITS)?;
            assert!(rt; life.acknowledged == 2 * COMMITS || calls < CALLS - 1);
            assert_opens(&rt, alloc, life)?;
        }
    }
    Ok(())
}

// The number that is found in an image without a journal.
fn number_in_image<R: Threads + Sync>(rt: &R, alloc: Global, image: Vec<u64>) -> Result<u8, Fault> {
    match JournaledPmem::new(alloc, image, Nowhere, 2) {
        Ok(device) => number_on(rt, alloc, device),
        Err(_images) => Err(Fault::OutOfMemory),
    }
}

#[test]
fn a_closed_file_begins_with_its_image(rt: HostRuntime) -> Result<(), Fault> {
    let alloc = rt.alloc();
    let found = lived(&rt, alloc)?;
    let extent = extent_of(found.as_slice());
    let read = image_in(alloc, found.as_slice(), WORDS, ROOM);
    let Ok(device) = Device::of_storage(alloc, MemoryStorage::new(found), WORDS, ROOM, 2) else {
        return Err(Fault::OutOfMemory);
    };
    let places = device.places();
    let (Ok(storage), Ok(read)) = (device.into_storage(), read) else {
        return Err(Fault::OutOfMemory);
    };
    let mut closed = storage.into_words();
    closed.truncate(WORDS);
    assert!(rt; extent == Some((WORDS, ROOM)) && places == 2 && read == closed);
    let number = number_in_image(&rt, alloc, closed)?;
    assert!(rt; number == COMMITS);
    Ok(())
}

#[test]
fn a_device_says_why_a_call_failed(rt: HostRuntime) -> Result<(), Fault> {
    let alloc = rt.alloc();
    let storage = MemoryStorage::new(zeros(alloc)?).failing_after(6, Part::All);
    let Ok(mut device) = Device::of_storage(alloc, storage, WORDS, ROOM, 2) else {
        return Err(Fault::OutOfMemory);
    };
    let before = device.failure();
    let formatted = format_new(&mut device, Geometry::new(4, 2, 8)?);
    let failure = device.failure();
    assert!(rt; before.is_none() && formatted == Err(Fault::Device));
    assert!(rt; failure.map(|error| error.kind()) == Some(ErrorKind::StorageFull));
    let closed = device.into_storage();
    assert!(rt; closed.is_err());
    Ok(())
}

// A device at rest with the image that these words stand for, and the value of its first word. Only the first `calls` writes and syncs
// succeed.
fn at_rest(alloc: Global, words: Vec<u64>, calls: usize) -> Result<(Device, u64), Fault> {
    let storage = MemoryStorage::new(words).failing_after(calls, Part::Words(0));
    let Ok(device) = Device::of_storage(alloc, storage, WORDS, ROOM, 2) else {
        return Err(Fault::OutOfMemory);
    };
    if device.words() == 0 {
        return Err(Fault::BadGeometry);
    }
    let first = device.load(0);
    Ok((device, first))
}

// How many writes and syncs it takes to open a device with these words.
fn calls_to_open(alloc: Global, words: &Vec<u64>) -> Result<usize, Fault> {
    for calls in 0..CALLS {
        let Ok(words) = words.clone() else {
            return Err(Fault::OutOfMemory);
        };
        if at_rest(alloc, words, calls).is_ok() {
            return Ok(calls);
        }
    }
    Err(Fault::Device)
}

// A sync, two writes of the tail and two waits: of a file without entries the image isn't written.
const OPENING: usize = 5;

#[test]
fn a_sync_ahead_that_fails_is_reported_by_the_fence(rt: HostRuntime) -> Result<(), Fault> {
    let alloc = rt.alloc();
    let opening = calls_to_open(alloc, &zeros(alloc)?)?;
    assert!(rt; opening == OPENING);
    let opening = calls_to_open(alloc, &lived(&rt, alloc)?)?;
    // Once it is open, the image is written and synced.
    for after in [0, 1, 2] {
        let calls = opening.saturating_add(after);
        let (mut device, first) = at_rest(alloc, lived(&rt, alloc)?, calls)?;
        if device.words() > 0 {
            device.store(0, first ^ 1)?;
            device.flush(Actor::COMMITTER, 0)?;
        }
        let pending = device.begin_sync(Actor::COMMITTER);
        assert!(rt; pending.is_some() == (after > 0));
        if let Some(pending) = pending {
            device.end_sync(pending);
        }
        let fenced = device.fence(Actor::COMMITTER);
        assert!(rt; fenced.is_ok() == (after == 2));
        assert!(rt; device.failure().is_some() == (after < 2));
        let (_device, found) = at_rest(alloc, device.release().into_words(), CALLS)?;
        assert!(rt; found == if after == 0 { first } else { first ^ 1 });
    }
    Ok(())
}

// Stores a number of places in the superblock, and then its first word. Returns whether that was stored too.
fn is_named(device: &mut Device, places: u64) -> Result<bool, Fault> {
    if device.words() < 8 {
        return Err(Fault::BadGeometry);
    }
    device.store(3, places)?;
    Ok(device.store(0, FIRST_WORD).is_ok())
}

#[test]
fn an_image_names_no_other_places_than_its_device_has(rt: HostRuntime) -> Result<(), Fault> {
    let alloc = rt.alloc();
    let (mut device, _first) = at_rest(alloc, zeros(alloc)?, CALLS)?;
    let other = is_named(&mut device, 3)?;
    let own = is_named(&mut device, 2)?;
    let later = is_named(&mut device, 3);
    assert!(rt; !other && own && later == Err(Fault::Device));
    assert!(rt; device.places() == 2);
    Ok(())
}
