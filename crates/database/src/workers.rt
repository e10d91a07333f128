//! Two workers: the committer covers what nobody leads, and the collector frees slots. Neither is joined, since a database that
//! kept the kit's thread handle couldn't be shared: each counts itself out under the lock as its last act.

ghost use Rattle.std.specs.Prelude.{◌≡◌, ◌⊎◌, IfErr};
ghost use Rattle.base.specs.declared.fault.Fault.TheVariants.{OutOfMemory, NoThread};

use crate::locked::{Locked, Shared};
use crate::turns;
use base::fault::Fault;
use history::Origin;
use roles::{Next, Turn};
use std::alloc::Global;
use std::sync::{Arc, MutexGuard, Wait};
use std::thread;
use std::thread::Threads;
use sync_ahead::SyncAhead;

/// Starts the committer and the collector. They wait for the room.
pub fn start_workers<
    R: Threads + Wait + Copy + Drop + Send + 'static,
    D: SyncAhead + Drop + Send + Sync + 'static,
    J: Origin + Send + Sync + 'static,
>(rt: &R, shared: &Arc<Shared<D, J>, Global>) -> Result<(), Fault>
where
    D::Pending: Send,
    ensures { IfErr result (λ fault. (fault ≡ OutOfMemory) ⊎ (fault ≡ NoThread)) }
{
    for duty in [Duty::Commit, Duty::Collect] {
        if let Err(fault) = spawn(rt, shared, duty) {
            shared.end_work(rt);
            return Err(fault);
        }
    }
    Ok(())
}

// What a worker does.
#[derive(Clone, Copy)]
enum Duty {
    Commit,
    Collect,
}

// Starts a worker. Nobody joins its thread, since a handle would bind the database to one thread: the worker counts itself out instead.
fn spawn<
    R: Threads + Wait + Copy + Drop + Send + 'static,
    D: SyncAhead + Drop + Send + Sync + 'static,
    J: Origin + Send + Sync + 'static,
>(rt: &R, shared: &Arc<Shared<D, J>, Global>, duty: Duty) -> Result<(), Fault>
where
    D::Pending: Send,
    ensures { IfErr result (λ fault. (fault ≡ OutOfMemory) ⊎ (fault ≡ NoThread)) }
{
    let Ok(own) = Arc::try_clone(shared) else {
        return Err(Fault::OutOfMemory);
    };
    let handle = *rt;
    shared.begin_working(rt);
    match thread::spawn(rt, move || work(&handle, &own, duty)) {
        Ok(worker) => {
            drop(worker);
            Ok(())
        }
        Err(_) => {
            shared.end_working(rt);
            Err(Fault::NoThread)
        }
    }
}

// One turn after another, until the database is closed. The lock is free between two turns.
fn work<R: Wait + Drop, D: SyncAhead + Drop, J: Origin>(
    rt: &R,
    shared: &Arc<Shared<D, J>, Global>,
    duty: Duty,
) {
    for _ in rt.forever() {
        let locked = shared.enter(rt);
        if locked.roles.is_closing {
            break;
        }
        match duty {
            Duty::Commit => commit(rt, shared, locked),
            Duty::Collect => collect(rt, shared, locked),
        }
    }
    shared.end_working(rt);
}

// A turn of the committer. The database may be closed while it syncs.
fn commit<'a, R: Wait, D: SyncAhead + Drop, J: Origin>(
    rt: &R,
    shared: &'a Shared<D, J>,
    locked: MutexGuard<'a, Locked<D, J>>,
) {
    let (mut locked, turn) = shared.take_over(rt, locked);
    shared.notify(rt, &mut locked, turn);
    let has_group = !locked.group.is_empty();
    match locked.roles.next_of_worker(turn, has_group) {
        Next::Again => shared.exit(locked),
        Next::Yield => {
            shared.exit(locked);
            thread::yield_now();
        }
        Next::Sleep => {
            shared.wake_replied(&mut locked);
            drop(shared.commits.wait(rt, locked));
        }
    }
}

// A turn of the collector, which sleeps if no round is due, or if its round may wait. Threads that wait for the lock get it between two turns.
fn collect<'a, R: Wait, D: SyncAhead + Drop, J: Origin>(
    rt: &R,
    shared: &'a Shared<D, J>,
    locked: MutexGuard<'a, Locked<D, J>>,
) {
    let mut locked = locked;
    match turns::collect(&mut locked) {
        Turn::Unfinished if !locked.may_round_wait() => {
            drop(locked);
            thread::yield_now();
        }
        // The record that drops swept gaps is due.
        Turn::Finished => shared.commits.notify_all(),
        _ => drop(shared.rounds.wait(rt, locked)),
    }
}
