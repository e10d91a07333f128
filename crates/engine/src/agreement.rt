//! Closing compares both ways: each receipt is an entry of the history, and each entry of a session has exactly one receipt. It
//! looks up each tick of the committer that a session was told of.
//! Only the type is known of a value that comes out of a lock. So nothing else says that the room under it made the steps of
//! these sessions.

ghost use Rattle.std.specs.Prelude.{◌≡◌, ◌↔◌, ◌<◌, IsTrue, IfSome, All, length};
ghost use Rattle.engine.specs.Receipts.{rises};
ghost use Rattle.engine.specs.Agreement.{is_of_session, IsEntry, count_at, receipts_in, IsOnceAt, Agrees, IsTold, AreTold};

use crate::halt::Halt;
use crate::origin::Origin;
use crate::session::Session;
use audited::Receipt;
use base::step::{Note, Step};
use pmem::Pmem;

/// Whether the receipts of these sessions are the list's session steps from the first place on.
pub fn agrees<D: Pmem + Drop, J: Origin, B: Drop>(
    entries: &[(Step, Note)],
    first: u64,
    sessions: &[Session<D, J, B>],
) -> bool
    ensures { IsTrue result ↔ Agrees entries.now first (receipts_in sessions.now) }
{
    for session in sessions {
        if !are_entries(entries, first, session.receipts()) {
            return false;
        }
    }
    for place in first..entries.len() as u64 {
        if !is_once_at(entries, sessions, place) {
            return false;
        }
    }
    true
}

/// Whether each tick of the committer that a session was told of is in the list, from the first place on.
pub fn are_told<D: Pmem + Drop, J: Origin, B: Drop>(
    entries: &[(Step, Note)],
    first: u64,
    sessions: &[Session<D, J, B>],
) -> bool
    ensures { IsTrue result ↔ AreTold entries.now first sessions.now }
{
    for session in sessions {
        if !is_told(entries, first, session.told()) {
            return false;
        }
    }
    true
}

// Whether the tick, if there is one, is in the list, from the first place on.
fn is_told(entries: &[(Step, Note)], first: u64, told: Option<Halt>) -> bool
    ensures { IsTrue result ↔ IfSome told (IsTold entries.now first) }
{
    match told {
        Some(halt) => is_halt(entries, first, &halt),
        None => true,
    }
}

// Whether the list's entry at its place is a tick of the committer that was refused with its fault.
fn is_halt(entries: &[(Step, Note)], first: u64, halt: &Halt) -> bool
    ensures { IsTrue result ↔ IsTold entries.now first halt.now }
{
    match entries.get(halt.place as usize) {
        Some((step, note)) => {
            first <= halt.place && step.is(&Step::Commit) && note.is(&Note::Refused(halt.fault))
        }
        None => false,
    }
}

// Whether each receipt is the list's entry at its place.
fn are_entries(entries: &[(Step, Note)], first: u64, receipts: &[Receipt]) -> bool
    ensures { IsTrue result ↔ All (IsEntry entries.now first) receipts.now }
{
    for receipt in receipts {
        if !is_entry(entries, first, receipt) {
            return false;
        }
    }
    true
}

// Whether the receipt is the list's entry at its place.
fn is_entry(entries: &[(Step, Note)], first: u64, receipt: &Receipt) -> bool
    ensures { IsTrue result ↔ IsEntry entries.now first receipt.now }
{
    match entries.get(receipt.place as usize) {
        Some((step, note)) => {
            first <= receipt.place
                && receipt.step.is(step)
                && receipt.note.is(note)
                && is_of_session(step)
        }
        None => false,
    }
}

// Whether a session makes such a step.
fn is_of_session(step: &Step) -> bool
    ensures { result ≡ is_of_session step.now }
{
    !matches!(step, Step::Commit | Step::Collect)
}

// Whether the entry at this place has exactly one receipt, if a session made it.
fn is_once_at<D: Pmem + Drop, J: Origin, B: Drop>(
    entries: &[(Step, Note)],
    sessions: &[Session<D, J, B>],
    place: u64,
) -> bool
    requires { place < length entries.now }
    ensures { IsTrue result ↔ IsOnceAt entries.now (receipts_in sessions.now) place }
{
    let (step, _) = &entries[place as usize];
    if is_of_session(step) {
        is_once(sessions, place)
    } else {
        true
    }
}

// Whether exactly one of all the receipts has this place.
fn is_once<D: Pmem + Drop, J: Origin, B: Drop>(sessions: &[Session<D, J, B>], place: u64) -> bool
    ensures { IsTrue result ↔ (count_at place (receipts_in sessions.now) ≡ 1) }
{
    let mut found = false;
    for session in sessions {
        let count = count_at(session.receipts(), place);
        if count > 1 {
            return false;
        }
        if count == 1 {
            if found {
                return false;
            }
            found = true;
        }
    }
    found
}

// How many of the receipts have this place: at most one, since places rise.
fn count_at(receipts: &[Receipt], place: u64) -> usize
    requires { IsTrue (rises 0 receipts.now) }
    ensures { result ≡ count_at place receipts.now }
{
    let at = receipts.partition_point(|r| r.place < place);
    match receipts.get(at) {
        Some(receipt) => { if receipt.place == place { 1 } else { 0 } }
        None => 0,
    }
}
