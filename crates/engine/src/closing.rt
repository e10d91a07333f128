//! The sessions are counted before the workers are asked to end. So if closing is refused for a missing session, nothing has
//! changed, and that session can go on.

ghost use Rattle.std.specs.Prelude.{◌≡◌, ◌↔◌, ◌≤◌, IsTrue, IsFalse, true, None, IfSome, IfNone};
ghost use Rattle.engine.specs.Agreement.{IsReturned};

use crate::agreement::{agrees, are_told};
use crate::locked::Locked;
use crate::origin::Origin;
use crate::session::Session;
use audited::Audited;
use pmem::Pmem;
use room::Status;

/// Asks the workers to end, exactly if no fewer sessions came back than were handed out. Otherwise all stays as it was.
pub fn may_close<D: Pmem + Drop, J: Origin>(locked: &mut Locked<D, J>, count: u64) -> bool
    ensures may { IsTrue result ↔ (locked.old.handed ≤ count) }
    ensures closing { IsTrue result → locked.new.workers ≡ record locked.old.workers { is_closing = true } }
    ensures refused { IsFalse result → locked.new ≡ locked.old }
    ensures handed { locked.new.handed ≡ locked.old.handed }
    ensures room { locked.new.audited ≡ locked.old.audited }

    // What else is under the lock stays.
    ensures halted { locked.new.halted ≡ locked.old.halted }
{
    if count < locked.handed {
        return false;
    }
    locked.workers.close();
    true
}

/// Takes the room out exactly if it was opened with these numbers and agrees with the sessions. Otherwise it stays there.
pub fn take_room<D: Pmem + Drop, J: Origin, B: Drop>(
    locked: &mut Locked<D, J>,
    opening: &Status,
    first: u64,
    sessions: &[Session<D, J, B>],
) -> Option<Audited<D>>
    ensures some { IfSome result (λ audited. (locked.old.audited ≡ Some audited) × IsReturned opening.now first sessions.now audited) }
    ensures none { IfNone result (IfSome locked.old.audited (λ audited. IsReturned opening.now first sessions.now audited → ⊥)) }
    ensures kept { IfNone result (locked.new.audited ≡ locked.old.audited) }

    // A room that is taken out is no longer there. What else is under the lock stays.
    ensures taken { IfSome result (λ _. locked.new.audited ≡ None) }
    ensures rest { (locked.new.handed ≡ locked.old.handed) × (locked.new.halted ≡ locked.old.halted) × (locked.new.workers ≡ locked.old.workers) }
{
    let Some(audited) = &locked.audited else {
        return None;
    };
    if is_returned(audited, opening, first, sessions) {
        locked.audited.take()
    } else {
        None
    }
}

// Whether the room was opened with these numbers, the receipts are its steps, and what ended the committer is in its history.
fn is_returned<D: Pmem + Drop, J: Origin, B: Drop>(
    audited: &Audited<D>,
    opening: &Status,
    first: u64,
    sessions: &[Session<D, J, B>],
) -> bool
    ensures { IsTrue result ↔ IsReturned opening.now first sessions.now audited.now }
{
    is_same(&audited.opening(), opening)
        && agrees(audited.history(), first, sessions)
        && are_told(audited.history(), first, sessions)
}

// Whether these are the same numbers.
fn is_same(one: &Status, other: &Status) -> bool
    ensures { IsTrue result ↔ (one.now ≡ other.now) }
{
    one.gate == other.gate
        && one.persisted == other.persisted
        && one.dirty == other.dirty
        && one.next == other.next
        && one.gaps.is(&other.gaps)
        && one.longs.is(&other.longs)
}
