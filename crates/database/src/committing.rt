//! What a thread does with the room in a turn of the database's lock: writes, the draw and the stamps before its commit waits, and
//! the poll and the end after that. No step of another thread comes in between, so each function says exactly which steps the
//! room makes.

ghost use Rattle.std.specs.Prelude.{◌≡◌, IfErr, IfOk, IfSome};
ghost use Rattle.database.specs.Obeys.{PutsCollecting, MakesWrite, StampsAll, Prepares, IsRefusedWhole, Finishes, Covers};
ghost use Rattle.std.specs.Prelude.{is_ok};
ghost use Rattle.base.specs.declared.step.Step.TheVariants.{Put};
ghost use Rattle.database.specs.Committing.{LeadsByWrites, BeginsWith};
ghost use Rattle.database.specs.Histories.{Logs, LogsOwn, LogsWrites, LogsPrepared, LogsStamps, made_if, ends_of, write_step, DrewNext};

use crate::error::CommitError;
use crate::opened::OpenedRoom;
use crate::steps::{abort, begin, collect, delete, draw, end, poll, put, stamp};
use base::Ts;
use base::fault::Fault;
use base::key::Key;
use base::row::Row;
use history::Origin;
use pmem::Pmem;
use std::sync::Wait;

/// Writes the row under the key. If no slot is free, it visits all of the collector's places and tries once more.
pub fn put_collecting<D: Pmem + Drop, J: Origin>(
    room: &mut OpenedRoom<D, J>,
    session: u8,
    key: Key,
    row: &Row,
) -> Result<(), Fault>
    // That one put of this session, key and row, and this put didn't lack a slot. Or a put that was refused with SlotsOut, then
    // visits of the collector, one for each slot and one that ends its round, and nothing else, then the put again. What is
    // returned is the last put's.
    ensures steps { PutsCollecting D.state room.old.room room.new.room session key row.now result }
    ensures ended { room.new.ended ≡ room.old.ended }

    // Of the session the history then has this put, if it was made, and nothing else.
    ensures log { LogsOwn session (made_if (is_ok result) (Put session key row.now)) room.old.log room.new.log }
{
    match put(room, session, key, row) {
        Ok(()) => Ok(()),
        Err(fault) => match fault {
            Fault::SlotsOut => {
                let places = room.geometry().slots().saturating_add(1);
                collect(room, places);
                put(room, session, key, row)
            }
            _ => Err(fault),
        },
    }
}

// Writes the row under the key, or deletes what is there.
fn write<D: Pmem + Drop, J: Origin>(
    room: &mut OpenedRoom<D, J>,
    session: u8,
    write: &(Key, Option<Row>),
) -> Result<(), Fault>
    ensures steps { MakesWrite D.state room.old.room room.new.room session write.now.0 write.now.1 result }
    ensures ended { room.new.ended ≡ room.old.ended }
    ensures log { LogsOwn session (made_if (is_ok result) (write_step session write.now)) room.old.log room.new.log }
{
    let (key, row) = write;
    match row {
        Some(row) => put_collecting(room, session, *key, row),
        None => delete(room, session, *key),
    }
}

/// Makes these writes in order, up to the first that is refused.
pub fn write_all<D: Pmem + Drop, J: Origin>(
    room: &mut OpenedRoom<D, J>,
    session: u8,
    writes: &[(Key, Option<Row>)],
) -> Result<(), Fault>
    // These writes of this session in their order, each as `put_collecting` or `delete` makes it, up to the first that was
    // refused, and no other step.
    ensures steps { LeadsByWrites D.state room.old.room room.new.room session writes.now result }
    ensures ended { room.new.ended ≡ room.old.ended }

    // Of the session the history then has these writes, or those that were made before the refusal, and nothing else.
    ensures log { LogsWrites session writes.now result room.old.log room.new.log }
{
    for one in writes {
        match write(room, session, one) {
            Ok(()) => {}
            Err(fault) => return Err(fault),
        }
    }
    Ok(())
}

/// Begins a transaction, makes these writes in it and returns its session's number. If one is refused, the transaction is
/// rolled back.
pub fn begin_with<D: Pmem + Drop, J: Origin>(
    room: &mut OpenedRoom<D, J>,
    writes: &[(Key, Option<Row>)],
) -> Result<u8, Fault>
    // A Begin, and such writes of its session. Or the Begin was refused with this fault, or one of the writes was, and the
    // session's abort comes after it.
    ensures steps { BeginsWith D.state room.old.room room.new.room writes.now result }
    ensures ended { room.new.ended ≡ room.old.ended }
{
    match begin(room) {
        Ok(session) => match write_all(room, session, writes) {
            Ok(()) => Ok(session),
            Err(fault) => {
                let _ = abort(room, session);
                Err(fault)
            }
        },
        Err(fault) => Err(fault),
    }
}

/// Draws a timestamp, stamps all keys and returns the timestamp. If nothing was written, it ends the transaction and returns
/// `None`.
pub fn prepare<D: Pmem + Drop, J: Origin, R: Wait>(
    rt: &R,
    room: &mut OpenedRoom<D, J>,
    session: u8,
) -> Result<Option<Ts>, CommitError>
    // At a timestamp the session's draw, which drew it, and its stamps to the last. At None its draw of nothing, and its end. At
    // Open the draw drew a timestamp, and the last stamp was refused with this fault. At Refused the draw or that end was. No
    // step of another session is in between.
    ensures steps { Prepares D.state room.old.room room.new.room session result }
    ensures ended { room.new.ended ≡ room.old.ended }

    // At Ok the history then has the session's draw and its stamps, or its draw and its end, and nothing else. The timestamp is
    // the one that was next.
    ensures log { LogsPrepared session result room.old.log room.new.log }
    ensures next { DrewNext J.opened room.old.log result }

    // At Refused the commits that are drawn, and those that are covered, are the same as before.
    ensures refused { IfErr result (IsRefusedWhole D.state room.old.room room.new.room) }
{
    match draw(room, session) {
        Ok(drawn) => match drawn {
            Some(timestamp) => match stamp_all(rt, room, session) {
                Ok(()) => Ok(Some(timestamp)),
                Err(fault) => Err(CommitError::Open(fault)),
            },
            None => match end(room, session) {
                Ok(()) => Ok(None),
                Err(fault) => Err(CommitError::Refused(fault)),
            },
        },
        Err(fault) => Err(CommitError::Refused(fault)),
    }
}

/// Stamps all keys of a transaction that has drawn.
pub fn stamp_all<D: Pmem + Drop, J: Origin, R: Wait>(
    rt: &R,
    room: &mut OpenedRoom<D, J>,
    session: u8,
) -> Result<(), Fault>
    // The session's stamps, and no other step. Each but the last left more keys, and the last of them reported that all keys are
    // stamped, or was refused for the fault that is returned.
    ensures stamps { StampsAll D.state room.old.room room.new.room session result }
    ensures ended { room.new.ended ≡ room.old.ended }
    ensures log { LogsStamps session room.old.log room.new.log }
{
    for _ in rt.forever() {
        match stamp(room, session) {
            Ok(is_whole) => {
                if is_whole {
                    return Ok(());
                }
            }
            Err(fault) => return Err(fault),
        }
    }
    unreachable!()
}

/// Ends the transaction once its commit is covered, and returns its timestamp. `None` if it isn't covered yet.
pub fn finish<D: Pmem + Drop, J: Origin>(
    room: &mut OpenedRoom<D, J>,
    session: u8,
) -> Result<Option<Ts>, Fault>
    // The timestamp is the one that a poll of this very session reported, and then the session is ended. At None the poll
    // reported that the commit isn't covered, and the room shows what it showed. At Err the poll or the end was refused with this
    // fault.
    ensures steps { Finishes D.state room.old.room room.new.room session result }
    ensures ended { room.new.ended ≡ room.old.ended }

    // If a timestamp is returned, the history then has the session's end, and otherwise nothing else.
    ensures log { Logs (ends_of session result) room.old.log room.new.log }

    // A timestamp that is returned is in the covered history of a state that the room shows then, so each crash from then on
    // leaves it.
    ensures covers { IfOk result (λ answer. IfSome answer (λ timestamp. Covers D.state room.old.room room.new.room timestamp)) }
{
    match poll(room, session) {
        Ok(polled) => match polled {
            Some(timestamp) => match end(room, session) {
                Ok(()) => Ok(Some(timestamp)),
                Err(fault) => Err(fault),
            },
            None => Ok(None),
        },
        Err(fault) => Err(fault),
    }
}
