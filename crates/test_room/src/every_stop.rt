//! Lives that stop after each number of operations, and openings that stop three times.
use crate::crashes::{assert_each_stop, assert_left, stopped, words_before};
use crate::stories::{
    ABORTS_SHOWN, BATCH_SHOWN, CLOSE_SHOWN, FIRST_VERSION_SHOWN, NINE_GAPS_SHOWN, OPENING_SHOWN,
    REUSED_SLOT_SHOWN, SECOND_UPDATE_SHOWN, Shown, THIRD_UPDATE_SHOWN, UPDATE_SHOWN,
};
use base::fault::Fault;
use pmem::Pmem;
use pmem_model::{Choice, SimPmem};
use std::alloc::Global;
use std::process::Abort;
use std::thread::Threads;

#[test]
fn group_commit_is_whole_or_lost(rt: HostRuntime) -> Result<(), Fault> {
    assert_each_stop(&rt, rt.alloc(), &BATCH_SHOWN)
}

#[test]
fn close_is_whole_or_loses_all(rt: HostRuntime) -> Result<(), Fault> {
    assert_each_stop(&rt, rt.alloc(), &CLOSE_SHOWN)
}

#[test]
fn update_lost_before_is_never_seen(rt: HostRuntime) -> Result<(), Fault> {
    assert_each_stop(&rt, rt.alloc(), &ABORTS_SHOWN)
}

#[test]
fn update_is_lost(rt: HostRuntime) -> Result<(), Fault> {
    assert_each_stop(&rt, rt.alloc(), &UPDATE_SHOWN)
}

#[test]
fn update_is_lost_again(rt: HostRuntime) -> Result<(), Fault> {
    assert_each_stop(&rt, rt.alloc(), &SECOND_UPDATE_SHOWN)
}

#[test]
fn third_update_is_kept(rt: HostRuntime) -> Result<(), Fault> {
    assert_each_stop(&rt, rt.alloc(), &THIRD_UPDATE_SHOWN)
}

#[test]
fn reused_slot_never_shows_the_deleted_row(rt: HostRuntime) -> Result<(), Fault> {
    assert_each_stop(&rt, rt.alloc(), &REUSED_SLOT_SHOWN)
}

#[test]
fn opening_reserves_timestamps_once(rt: HostRuntime) -> Result<(), Fault> {
    assert_each_stop(&rt, rt.alloc(), &OPENING_SHOWN)
}

#[test]
fn opening_of_the_first_version_stores_the_version_first(rt: HostRuntime) -> Result<(), Fault> {
    assert_each_stop(&rt, rt.alloc(), &FIRST_VERSION_SHOWN)
}

#[test]
fn ninth_gap_is_swept_at_once_or_later(rt: HostRuntime) -> Result<(), Fault> {
    assert_each_stop(&rt, rt.alloc(), &NINE_GAPS_SHOWN)
}

/// Three openings, each with the number of its operations and whether its gate survives alone, or all else does, and the
/// gate of the fourth opening.
type Stops = (&'static [(u64, bool)], u64);

const STOPPED_OPENINGS: &[Stops] = &[
    (&[(36, true), (20, true), (0, true)], 4),
    (&[(36, false), (1, false), (35, false)], 4),
    (&[(38, false), (37, false), (38, false)], 4),
    (&[(12, true), (5, false), (38, true)], 5),
    (&[(38, false), (37, true), (38, false)], 5),
    (&[(37, true), (38, false), (37, true)], 6),
    (&[(37, true), (38, true), (37, true)], 7),
];

// The first opening sweeps, and so does each later one while no gate has survived: it stores again what is no longer
// there.
const STOPPED_SWEEPS: &[Stops] = &[
    (&[(1, true), (3, true), (41, true)], 20),
    (&[(1, false), (2, false), (39, false)], 20),
    (&[(42, false), (39, true), (12, true)], 21),
    (&[(43, true), (37, false), (38, true)], 22),
    (&[(42, true), (38, true), (37, true)], 23),
];

// This survivor of the first words of both places, and the other one of all other words.
fn gates_apart(alloc: Global, words: usize, newest: bool) -> Result<Choice, Fault> {
    let mut numbers = Vec::new(alloc);
    for word in 0..words {
        let is_gate = word == 8 || word == 40;
        if numbers.push(u64::from(is_gate == newest)).is_err() {
            return Err(Fault::OutOfMemory);
        }
    }
    Ok(Choice::Each(numbers))
}

// What is left after an image is opened three times, each time with a stop.
fn stopped_thrice<R: Threads + Sync + Abort>(
    rt: &R,
    alloc: Global,
    words: &[u64],
    stops: &[(u64, bool)],
) -> Result<SimPmem, Fault> {
    let mut device = SimPmem::from_words(alloc, words)?;
    for (fuse, newest) in stops {
        device = stopped_once(rt, alloc, device, *fuse, *newest)?;
    }
    Ok(device)
}

// What is left when opening stops after this many operations.
fn stopped_once<R: Threads + Sync + Abort>(
    rt: &R,
    alloc: Global,
    device: SimPmem,
    fuse: u64,
    newest: bool,
) -> Result<SimPmem, Fault> {
    let (left, _) = stopped(rt, alloc, device, fuse, &[], false);
    let choice = gates_apart(alloc, left.words(), newest)?;
    left.crash(&choice)
}

// Whichever of three stopped openings survive, the fourth shows what the story says for its gate.
fn assert_stops<R: Threads + Sync + Abort>(
    rt: &R,
    alloc: Global,
    shown: &Shown,
    table: &[Stops],
) -> Result<(), Fault> {
    let Shown { story, openings } = shown;
    let words = words_before(rt, alloc, story)?;
    for (stops, gate) in table {
        let device = stopped_thrice(rt, alloc, &words, stops)?;
        let gates = (*gate, *gate);
        assert_left(rt, alloc, &device, &Choice::Oldest, openings, gates)?;
    }
    Ok(())
}

#[test]
fn openings_stop_three_times(rt: HostRuntime) -> Result<(), Fault> {
    assert_stops(&rt, rt.alloc(), &OPENING_SHOWN, STOPPED_OPENINGS)
}

#[test]
fn sweeping_openings_stop_three_times(rt: HostRuntime) -> Result<(), Fault> {
    assert_stops(&rt, rt.alloc(), &NINE_GAPS_SHOWN, STOPPED_SWEEPS)
}
