//! What each call of a session, or a visit of the collector, returns, as the reply of its step. A reply has the size of the largest
//! there is, so it is made here, where it is returned, and not below.

ghost use Rattle.std.specs.Prelude.{◌≡◌};
ghost use Rattle.base.specs.Steps.{as_reply};
ghost use Rattle.session_steps.specs.Collecting.{as_reply as visited_reply};
ghost use Rattle.session_steps.specs.Replies.{began, read, scanned, done, drawn, stamped, polled};

use base::Ts;
use base::fault::Fault;
use base::row::Row;
use base::rows::Rows;
use base::step::Reply;
use collector::Visit;
use session_steps::CommitStatus;

// The number of a session that began.
#[inline(always)]
pub(crate) fn began(returned: Result<u8, Fault>) -> Reply
    ensures { result ≡ as_reply (began returned) }
{
    match returned {
        Ok(session) => Reply::Began(session),
        Err(fault) => Reply::Refused(fault),
    }
}

// The row that was read, if there is one.
#[inline(always)]
pub(crate) fn read(returned: Result<Option<Row>, Fault>) -> Reply
    ensures { result ≡ as_reply (read returned) }
{
    match returned {
        Ok(row) => Reply::Row(row),
        Err(fault) => Reply::Refused(fault),
    }
}

// The rows that were read.
#[inline(always)]
pub(crate) fn scanned(returned: Result<Rows, Fault>) -> Reply
    ensures { result ≡ as_reply (scanned returned) }
{
    match returned {
        Ok(rows) => Reply::Rows(rows),
        Err(fault) => Reply::Refused(fault),
    }
}

// That it is done.
#[inline(always)]
pub(crate) fn done(returned: Result<(), Fault>) -> Reply
    ensures { result ≡ as_reply (done returned) }
{
    match returned {
        Ok(()) => Reply::Done,
        Err(fault) => Reply::Refused(fault),
    }
}

// The timestamp that was drawn, or none if nothing was written.
#[inline(always)]
pub(crate) fn drawn(returned: Result<Option<Ts>, Fault>) -> Reply
    ensures { result ≡ as_reply (drawn returned) }
{
    match returned {
        Ok(Some(timestamp)) => Reply::Drawn(timestamp),
        Ok(None) => Reply::Done,
        Err(fault) => Reply::Refused(fault),
    }
}

// Whether the write that was stamped was the last.
#[inline(always)]
pub(crate) fn stamped(returned: Result<bool, Fault>) -> Reply
    ensures { result ≡ as_reply (stamped returned) }
{
    match returned {
        Ok(true) => Reply::Stamped,
        Ok(false) => Reply::More,
        Err(fault) => Reply::Refused(fault),
    }
}

// How far the commit has come; it is done if nothing was written.
#[inline(always)]
pub(crate) fn polled(returned: Result<CommitStatus, Fault>) -> Reply
    ensures { result ≡ as_reply (polled returned) }
{
    match returned {
        Ok(CommitStatus::Waiting) => Reply::Waiting,
        Ok(CommitStatus::Committed(timestamp)) => Reply::Committed(timestamp),
        Ok(CommitStatus::ReadOnly) => Reply::Done,
        Err(fault) => Reply::Refused(fault),
    }
}

// The slot that was visited, or that a sweep ended.
#[inline(always)]
pub(crate) fn visited(returned: Result<Visit, Fault>) -> Reply
    ensures { result ≡ visited_reply returned }
{
    match returned {
        Ok(Visit::Slot(slot)) => Reply::Visited(slot),
        Ok(Visit::SweepEnd) => Reply::SweepEnd,
        Err(fault) => Reply::Refused(fault),
    }
}
