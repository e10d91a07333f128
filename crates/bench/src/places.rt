use crate::engine::Load;
use crate::kinds::{begin, collect, cover, draw, end, put, stamp};
use base::fault::Fault;
use base::key::Key;
use pmem::Pmem;
use room::Room;

/// Deletes the row of the first key and frees its slot, which the rows of all other keys part from the next free one.
pub fn free_first_slot<D: Pmem + Drop>(room: &mut Room<D>, load: &Load) -> Result<(), Fault> {
    let session = begin(room)?;
    room.delete(session, load.order.in_turn().key(0, load.keys))?;
    draw(room, session)?;
    stamp(room, session)?;
    cover(room)?;
    end(room, session)?;
    collect(room)
}

/// Puts two rows and rolls them back, as often as the load has commits.
pub fn put_pairs<D: Pmem + Drop>(room: &mut Room<D>, load: &Load) -> Result<(), Fault> {
    for number in 0..load.commits {
        let session = begin(room)?;
        put(room, session, load.order.key(number, load.keys), number)?;
        let next = number.saturating_add(1);
        put(room, session, load.order.key(next, load.keys), next)?;
        room.abort(session)?;
    }
    Ok(())
}

/// Puts a row for which no slot is free, as often as the load has commits.
pub fn put_into_full<D: Pmem + Drop>(room: &mut Room<D>, load: &Load) -> Result<(), Fault> {
    for number in 0..load.commits {
        let session = begin(room)?;
        put_twice(room, session, load.order.key(number, load.keys))?;
        room.abort(session)?;
    }
    Ok(())
}

// As in a database, a put that is refused for lack of a slot is made once more after a round of the collector. That one is refused too.
fn put_twice<D: Pmem + Drop>(room: &mut Room<D>, session: u8, key: Key) -> Result<(), Fault> {
    let _ = put(room, session, key, 0);
    collect(room)?;
    match put(room, session, key, 0) {
        Err(Fault::SlotsOut) => Ok(()),
        Err(fault) => Err(fault),
        Ok(()) => Err(Fault::WrongState),
    }
}
