use asks::{Life, Past, steps};
use base::fault::Fault;
use base::geometry::Geometry;
use base::step::{Note, Step};
use pmem::Pmem;
use pmem_model::{Choice, SimPmem};
use recovery::format;
use room::Room;
use std::alloc::Global;
use std::process::Abort;
use std::thread::Threads;

/// The words of the fresh worked image: 4 slots, 2 places and a window of 8.
pub fn fresh_words() -> [u64; 104] {
    // Read from its high byte down the first is `WBL-PRF1`.
    let superblock = [0x5742_4C2D_5052_4631, 2, 4, 2, 8, 104];
    let mut words = [0; 104];
    words[..6].copy_from_slice(&superblock);
    words[40] = 1;
    words[42] = 1;
    words
}

/// Those words with changes: a word, and its value.
pub fn changed_words(changes: &[(usize, u64)]) -> [u64; 104] {
    let mut words = fresh_words();
    change(&mut words, changes);
    words
}

pub fn change(words: &mut [u64], changes: &[(usize, u64)]) {
    for (at, value) in changes {
        if let Some(word) = words.get_mut(*at) {
            *word = *value;
        }
    }
}

/// A device of this geometry that was formatted.
pub fn formatted(alloc: Global, geometry: Geometry) -> Result<SimPmem, Fault> {
    let Ok(zeros) = vec![in alloc; 0; geometry.words() as usize] else {
        return Err(Fault::OutOfMemory);
    };
    let mut device = SimPmem::from_words(alloc, &zeros)?;
    format(&mut device, geometry)?;
    Ok(device)
}

/// A device with this many slots, 2 places and this window, formatted and restarted: no operation is counted.
pub fn fresh(alloc: Global, slots: u64, window: u64) -> Result<SimPmem, Fault> {
    restarted(formatted(alloc, Geometry::new(slots, 2, window)?)?)
}

/// The device after a crash that leaves the oldest values.
pub fn restarted(device: SimPmem) -> Result<SimPmem, Fault> {
    device.crash(&Choice::Oldest)
}

/// The room of a device that is at rest, or the fault with the device.
pub fn open<R: Threads + Sync + Abort>(
    rt: &R,
    alloc: Global,
    device: SimPmem,
) -> Result<Room<SimPmem>, (Fault, SimPmem)> {
    assert!(rt; device.at_rest());
    Room::open(rt, alloc, device)
}

/// The room of a device that is at rest.
pub fn opened<R: Threads + Sync + Abort>(
    rt: &R,
    alloc: Global,
    device: SimPmem,
) -> Result<Room<SimPmem>, Fault> {
    match open(rt, alloc, device) {
        Ok(room) => Ok(room),
        Err((fault, _device)) => Err(fault),
    }
}

/// Drops a room: in one place, since each function that drops a room itself is long to prove.
pub fn leave<D: Pmem + Drop>(_room: Room<D>) {}

/// Makes a step, and notes its reply. A lack of memory for the note looks like that of a scan, which changes
/// nothing.
pub fn step(room: &mut Room<SimPmem>, step: Step) -> Note {
    match Note::of(&room.step(step)) {
        Ok(note) => note,
        Err(_) => Note::Refused(Fault::OutOfMemory),
    }
}

/// Makes a step, which has this reply.
pub fn assert_note(rt: &impl Abort, room: &mut Room<SimPmem>, made: Step, want: Note) {
    assert!(rt; step(room, made) == want);
}

/// Opens the device and makes the steps that are asked for, none of which is refused.
pub fn lived<R: Threads + Sync + Abort>(
    rt: &R,
    alloc: Global,
    device: SimPmem,
    life: Life,
) -> Result<SimPmem, Fault> {
    let steps = steps(alloc, life)?;
    let mut room = opened(rt, alloc, device)?;
    make_each(rt, &mut room, &steps);
    Ok(room.into_device())
}

/// Makes these steps, none of which is refused.
pub fn make_each(rt: &impl Abort, room: &mut Room<SimPmem>, steps: &[Step]) {
    for made in steps {
        let note = step(room, *made);
        assert!(rt; !matches!(note, Note::Refused(_)), "{note:?}");
    }
}

/// The device after these lives.
pub fn device_after<R: Threads + Sync + Abort>(
    rt: &R,
    alloc: Global,
    device: SimPmem,
    lives: &[Past],
) -> Result<SimPmem, Fault> {
    let mut device = device;
    for past in lives {
        device = device_after_life(rt, alloc, device, past)?;
    }
    Ok(device)
}

// The device after a life, and a crash that leaves the newest values or the oldest.
fn device_after_life<R: Threads + Sync + Abort>(
    rt: &R,
    alloc: Global,
    device: SimPmem,
    past: &Past,
) -> Result<SimPmem, Fault> {
    let (life, newest) = past;
    let device = lived(rt, alloc, device, life)?;
    if *newest {
        device.crash(&Choice::Newest)
    } else {
        restarted(device)
    }
}
