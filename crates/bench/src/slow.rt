use crate::kinds::{begin, collect, cover, draw, end, poll, put, stamp};
use base::fault::Fault;
use base::key::Key;
use pmem::Pmem;
use room::{CommitStatus, Room};

// The key that the slow transaction inserts.
const SLOW: Key = Key { table: 2, key: 0 };

/// Makes this many commits, one after the other, while a transaction that has drawn its timestamp before them never stamps. Returns how
/// many were covered before one had to wait.
pub fn covered_beside_a_slow_one<D: Pmem + Drop>(
    room: &mut Room<D>,
    commits: u64,
) -> Result<u64, Fault> {
    let slow = begin(room)?;
    put(room, slow, SLOW, 0)?;
    draw(room, slow)?;
    for number in 0..commits {
        collect(room)?;
        if !is_covered(room, number)? {
            return Ok(number);
        }
    }
    Ok(commits)
}

/// Updates one of eight keys, and ticks the committer until it has covered what it can. Returns whether the update is covered.
pub fn is_covered<D: Pmem + Drop>(room: &mut Room<D>, number: u64) -> Result<bool, Fault> {
    let session = begin(room)?;
    let key = Key {
        table: 1,
        key: number % 8,
    };
    put(room, session, key, number)?;
    draw(room, session)?;
    stamp(room, session)?;
    cover(room)?;
    match poll(room, session)? {
        CommitStatus::Committed(_) => {
            end(room, session)?;
            Ok(true)
        }
        _ => Ok(false),
    }
}
