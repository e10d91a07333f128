//! A thread asks under the lock before it sleeps, and what it asks for is changed only under the lock. So no call to wake is
//! missed. The board has a lock of its own, since its writer waits for readers, and no session is to wait for those.

use crate::halt::{Halt, Why};
use crate::locked::Locked;
use crate::origin::Origin;
use base::Ts;
use base::step::Reply;
use pmem::Pmem;
use roles::Duty;
use std::sync::{Condvar, Mutex, MutexGuard, Wait};
use std::thread;

/// What the threads share. The board is under a lock of its own, and no thread holds both.
#[derive(Drop)]
pub struct Shared<D: Pmem, J: Origin, B: Drop> {
    pub locked: Mutex<Locked<D, J>>,
    pub board: Mutex<B>,
    // The committer sleeps on it while no tick is due.
    ticks: Condvar,
    // The collector sleeps on it while no visit is due.
    visits: Condvar,
    // A worker that is refused memory again and again sleeps on it.
    woken: Condvar,
    // A session that waits for a commit sleeps on it, until a batch is covered, or nothing will be.
    moved: Condvar,
}

impl<D: Pmem + Drop, J: Origin, B: Drop> Shared<D, J, B> {
    ghost use Rattle.std.specs.Prelude.{◌≡◌, IfErr, MatchOption};
    ghost use Rattle.std.specs.Sync.Mutex.{mutex_guard_value};
    ghost use Rattle.machine.specs.Machine.{State};
    ghost use Rattle.room.specs.Room.{Shows};
    ghost use Rattle.roles.specs.Dues.{LeavesRest, enough_for};
    ghost use Rattle.engine.specs.Due.{delivered, due_after, wants_record};
    ghost use Rattle.engine.specs.Lending.{HasMade};
    ghost use Rattle.engine.specs.Origins.{HasHalted, IsWhy};

    /// The board, and no room yet.
    pub fn new(board: B) -> Shared<D, J, B> {
        Shared {
            locked: Mutex::new(Locked::new()),
            board: Mutex::new(board),
            ticks: Condvar::new(),
            visits: Condvar::new(),
            woken: Condvar::new(),
            moved: Condvar::new(),
        }
    }

    /// Takes the lock once the room is there and has made at least this many steps. It is and has, unless the engine was closed
    /// without the session that asks: then this waits forever.
    pub fn room<R: Wait>(&self, rt: &R, steps: u64) -> MutexGuard<'_, Locked<D, J>>
        ensures { HasMade steps (mutex_guard_value result).audited }
    {
        let mut locked = self.locked(rt);
        for _ in rt.forever() {
            if locked.has_made(steps) {
                return locked;
            }
            locked = self.moved.wait(rt, locked);
        }
        unreachable!()
    }

    // Takes the lock for a session, and wakes the workers that sleep.
    fn locked<R: Wait>(&self, rt: &R) -> MutexGuard<'_, Locked<D, J>> {
        let mut locked = self.locked.lock(rt);
        if locked.workers.wake() {
            self.woken.notify_all();
        }
        locked
    }

    /// Waits until the room has persisted the timestamp, even if it was long, or its device has failed. It makes no step and
    /// takes no memory. Fails if nothing will be persisted any more: the committer has ended, or was refused memory since the
    /// wait began, and too often in a row.
    pub fn wait_for<R: Wait>(&self, rt: &R, timestamp: Ts) -> Result<(), Why>
        ensures { IfErr result (IsWhy J.image) }
    {
        let mut locked = self.locked(rt);
        locked.workers.allow_a_try();
        for _ in rt.forever() {
            if let Some(over) = locked.waited(timestamp) {
                return over;
            }
            locked = self.moved.wait(rt, locked);
        }
        unreachable!()
    }

    /// Fails if the committer has ended, with the tick that ended it.
    pub fn ask<R: Wait>(&self, rt: &R) -> Result<(), Halt>
        ensures { IfErr result (HasHalted J.image) }
    {
        let locked = self.locked(rt);
        match locked.halted() {
            Some(halt) => Err(halt),
            None => Ok(()),
        }
    }

    /// Sleeps until the worker has something to do. Whether it has: it hasn't if the engine is being closed.
    pub fn wait_for_turn<R: Wait>(&self, rt: &R, duty: Duty) -> bool {
        let mut locked = self.locked.lock(rt);
        for _ in rt.forever() {
            if locked.workers.is_closing || locked.audited.is_none() {
                return false;
            }
            if locked.workers.is_due(duty) {
                return true;
            }
            locked = match duty {
                Duty::Commit => self.ticks.wait(rt, locked),
                Duty::Collect => self.visits.wait(rt, locked),
            };
        }
        unreachable!()
    }

    /// Notes the reply to a step, and wakes the threads that have to know.
    pub fn notify(&self, locked: &mut Locked<D, J>, reply: &Reply)
        // As for `Locked::note`, and all who have to know are notified.
        ensures due { MatchOption locked.old.audited (locked.new.workers.due ≡ delivered locked.old.workers.due)
            (λ audited. (q : State) → Shows D.state audited.room q → locked.new.workers.due ≡ delivered (due_after locked.old.workers.due reply.now (wants_record reply.now q.ruling q.next q.layout.window) (enough_for q.layout.slots))) }

        // What else is under the lock stays.
        ensures rest { LeavesRest locked.old.workers locked.new.workers }
        ensures room { locked.new.audited ≡ locked.old.audited }
        ensures handed { locked.new.handed ≡ locked.old.handed }
        ensures halted { locked.new.halted ≡ locked.old.halted }
    {
        locked.note(reply);
        let news = locked.workers.due.take_news();
        if news.committer {
            self.ticks.notify_all();
        }
        if news.collector {
            self.visits.notify_all();
        }
        if news.waiting {
            self.moved.notify_all();
        }
    }

    /// Whether the engine is being closed.
    pub fn is_closing<R: Wait>(&self, rt: &R) -> bool {
        let locked = self.locked.lock(rt);
        locked.workers.is_closing || locked.audited.is_none()
    }

    /// Lets a worker rest that was refused memory this often in a row. It yields, and after too many refusals it sleeps until a
    /// session takes the lock or the engine is being closed.
    pub fn rest<R: Wait>(&self, rt: &R, duty: Duty, refusals: u64) {
        let mut locked = self.locked.lock(rt);
        if !locked.workers.rests(duty, refusals) {
            drop(locked);
            thread::yield_now();
            return;
        }
        locked.workers.fall_asleep();
        drop(self.woken.wait(rt, locked));
    }

    /// Counts that the committer was refused memory for what it covered. Too many of these end a wait.
    pub fn count_refusal<R: Wait>(&self, rt: &R) {
        let mut locked = self.locked.lock(rt);
        locked.workers.refuse();
        self.moved.notify_all();
    }

    /// Wakes the workers, so that they see that the engine is being closed.
    pub fn wake(&self) {
        self.ticks.notify_all();
        self.visits.notify_all();
        self.woken.notify_all();
    }
}
