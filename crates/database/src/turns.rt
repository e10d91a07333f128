//! A turn of a worker under the database's lock. One of the committer has all ticks of its cycle, so a group costs one turn, and it
//! releases the lock for the sync alone. One of the collector has a fourth of a round's visits at most, so that sessions get in
//! between.

ghost use Rattle.std.specs.Prelude.{◌≡◌, ◌-◌, ◌^◌, min, IsTrue, is_some};
ghost use Rattle.base.specs.declared.step.Step.TheVariants.{Collect};
ghost use Rattle.roles.specs.declared.turn.Turn.TheVariants.{Stopped};
ghost use Rattle.database.specs.Obeys.{InRoom, Repeats, ended_of};
ghost use Rattle.database.specs.Ticking.{TicksOnce, LeavesRest, rows_written, covered_since};

use crate::locked::{Locked, Shared};
use crate::opened::OpenedRoom;
use base::batch::Batch;
use base::fault::Fault;
use base::step::Stage;
use history::Origin;
use pmem::Pmem;
use roles::Turn;
use room::{Tick, Visit};
use std::sync::{MutexGuard, Wait};
use sync_ahead::SyncAhead;

// A turn of the committer takes no more ticks than this, which is more than any cycle has: 62 commits of 32 keys each, in slots of eight
// lines.
const TICKS: u64 = 32_768;

// A turn of the collector makes a fourth of a round's visits, within these limits, besides those that change nothing. So a few turns end a
// round, however many threads wait for the lock, and sessions get in between.
const LEAST_VISITS: u64 = 64;

const MOST_VISITS: u64 = 1_024;

// A tick of the committer.
fn tick<D: Pmem + Drop, J: Origin>(locked: &mut Locked<D, J>) -> Turn
    // The room, if it is there, makes one tick, and no other step. What the tick was refused with is kept as the reason why the
    // committer has ended, and nothing else is. Lack of memory ends nothing. How often in a row it was refused memory is counted:
    // one more if it was, as before after another refusal, and none after any other reply. The rows that it covered are counted.
    // The turn is exactly what the reply to the tick makes of it (`turn_of`).
    ensures once { IsTrue (is_some locked.old.room) → TicksOnce D.state locked.old locked.new result }

    // The committer has ended if its turn says so.
    ensures stopped { result ≡ Stopped → IsTrue (is_some (ended_of locked.new.room)) }
{
    let Some(room) = &mut locked.room else {
        return Turn::Idle;
    };
    match room.tick() {
        Ok(tick) => locked.after_tick(tick),
        Err(fault) => locked.after_refusal(fault),
    }
}

// How many rows the commits of a batch have written or deleted.
fn rows_of(batch: &Batch) -> u64
    ensures { result ≡ min (rows_written batch.now.commits) (2 ^ 64 - 1) }
{
    let mut rows = 0_u64;
    for commit in batch.commits() {
        rows = rows.saturating_add(commit.writes().len() as u64);
    }
    rows
}

/// Visits of the collector, up to the end of a round at most.
pub fn collect<D: Pmem + Drop, J: Origin>(locked: &mut Locked<D, J>) -> Turn
    // The room makes visits, and no other step, and none of them ends the committer. The rows that were covered count on, and
    // from 0 once a round has ended.
    ensures visits { IsTrue (is_some locked.old.room) → InRoom (λ old new. Repeats D.state old new Collect) locked.old.room locked.new.room }
    ensures covered { locked.new.covered ≡ covered_since locked.old.covered result }
    ensures ended { ended_of locked.new.room ≡ ended_of locked.old.room }

    ensures counts { (locked.new.open ≡ locked.old.open) × (locked.new.refusals ≡ locked.old.refusals) }
    ensures rest { LeavesRest locked.old locked.new }
{
    if !locked.is_round_due() {
        return Turn::Idle;
    }
    let Some(room) = &mut locked.room else {
        return Turn::Idle;
    };
    let turn = visit_some(room);
    if matches!(turn, Turn::Finished) {
        locked.covered = 0;
    }
    turn
}

// A part of a round's visits, up to its end at most.
fn visit_some<D: Pmem + Drop, J: Origin>(room: &mut OpenedRoom<D, J>) -> Turn
    ensures visits { Repeats D.state room.old.room room.new.room Collect }
    ensures ended { room.new.ended ≡ room.old.ended }
{
    let visits = (room.geometry().slots() / 4).clamp(LEAST_VISITS, MOST_VISITS);
    for _ in 0..visits {
        let _ = room.pass(u64::MAX);
        match room.visit() {
            Ok(Visit::SweepEnd) => return Turn::Finished,
            Ok(Visit::Slot(_)) => {}
            Err(_) => return Turn::Stopped,
        }
    }
    Turn::Unfinished
}

impl<D: Pmem + Drop, J: Origin> Locked<D, J> {
    ghost use Rattle.std.specs.Prelude.{◌≡◌, ◌≢◌, IsSome, Ok};
    ghost use Rattle.base.specs.declared.fault.Fault.TheVariants.{OutOfMemory};
    ghost use Rattle.base.specs.declared.step.Reply.TheVariants.{Refused};
    ghost use Rattle.room.specs.declared.ticks.Tick.TheVariants.{Covered};
    ghost use Rattle.room.specs.Ticks.{as_reply as ticked};
    ghost use Rattle.roles.specs.declared.turn.Turn.TheVariants.{Stopped};
    ghost use Rattle.database.specs.Committing.{HasLackedMemory};
    ghost use Rattle.database.specs.Ticking.{LeavesRest, turn_of, refusals_after, covered_after, covered_in, rows_in};

    // The outcome of a tick that isn't refused.
    fn after_tick(&mut self, tick: Tick) -> Turn
        requires covers { tick ≡ Covered → IsSome (covered_in self.old.room) }

        // A turn is what the reply to its tick makes of it. The rows that the commits of a covered batch have written or deleted
        // are counted, and nothing else is. The room is as it was.
        ensures goes_on { result ≢ Stopped }
        ensures room { self.new.room ≡ self.old.room }
        ensures turn { result ≡ turn_of (ticked (Ok tick) (covered_in self.old.room)) }
        ensures refusals { self.new.refusals ≡ refusals_after self.old.refusals (ticked (Ok tick) (covered_in self.old.room)) }
        ensures covered { self.new.covered ≡ covered_after self.old.covered (ticked (Ok tick) (covered_in self.old.room)) }

        ensures open { self.new.open ≡ self.old.open }
        ensures rest { LeavesRest self.old self.new }
    {
        self.refusals = 0;
        match tick {
            Tick::Idle => Turn::Idle,
            Tick::Covered => {
                self.covered = self.covered.saturating_add(self.rows_covered());
                Turn::Finished
            }
            Tick::Reached(Stage::GateFlushed) => Turn::Flushed,
            Tick::Reached(_) => Turn::Unfinished,
        }
    }

    // How many rows the batch that was covered last has written or deleted.
    fn rows_covered(&self) -> u64
        ensures { result ≡ rows_in (covered_in self.now.room) }
    {
        let Some(room) = &self.room else {
            return 0;
        };
        match room.room.covered() {
            Some(batch) => rows_of(batch),
            None => 0,
        }
    }

    // The outcome of a tick that is refused: lack of memory passes, and nothing else does.
    fn after_refusal(&mut self, fault: Fault) -> Turn
        requires lacked { fault ≡ OutOfMemory → HasLackedMemory }

        // It is reported as the last turn only if the tick was refused, and not for lack of memory. Refusals in a row are counted
        // as `tick` says. The room is as it was.
        ensures room { self.new.room ≡ self.old.room }
        ensures stopped { result ≡ Stopped → fault ≢ OutOfMemory }
        ensures turn { result ≡ turn_of (Refused fault) }
        ensures refusals { self.new.refusals ≡ refusals_after self.old.refusals (Refused fault) }
        ensures covered { self.new.covered ≡ covered_after self.old.covered (Refused fault) }

        ensures open { self.new.open ≡ self.old.open }
        ensures rest { LeavesRest self.old self.new }
    {
        match fault {
            Fault::OutOfMemory => {
                self.refusals = self.refusals.saturating_add(1);
                Turn::LacksMemory
            }
            _ => Turn::Stopped,
        }
    }
}

impl<D: Pmem + Drop, J: Origin> Shared<D, J> {
    /// Replies to those who wait for their commit, and wakes others whom the turn concerns: threads that wait for another's commit,
    /// and the collector if a round is due, unless a sync wakes it. A thread that waits for its own commit sleeps on.
    pub fn notify<R: Wait>(&self, rt: &R, locked: &mut Locked<D, J>, turn: Turn) {
        if !turn.is_news() {
            return;
        }
        if locked.group.has_followers() {
            locked.answer_all(&mut self.enter_answers(rt));
        }
        self.moved.notify_all();
        if locked.is_round_due() && !locked.syncs_apart {
            self.rounds.notify_all();
        }
    }
}

impl<D: SyncAhead + Drop, J: Origin> Shared<D, J> {
    ghost use Rattle.std.specs.Prelude.{◌≡◌, IsTrue, is_some};
    ghost use Rattle.std.specs.Sync.Mutex.{mutex_guard_value};
    ghost use Rattle.roles.specs.declared.turn.Turn.TheVariants.{Stopped};

    /// The ticks of a thread that leads, up to the one that covers a batch. If a tick would sync, the sync is made before it, without the
    /// lock, so that others can read, write and stamp meanwhile. What they stamp belongs to the next batch.
    pub fn take_ticks<'a, R: Wait>(
        &'a self,
        rt: &R,
        locked: MutexGuard<'a, Locked<D, J>>,
    ) -> (MutexGuard<'a, Locked<D, J>>, Turn)
        ensures stopped { result.1 ≡ Stopped → IsTrue (is_some (ended_of (mutex_guard_value result.0).room)) }
    {
        let mut locked = locked;
        for _ in 0..TICKS {
            match tick(&mut locked) {
                Turn::Unfinished => {}
                Turn::Flushed => locked = self.sync_ahead(rt, locked),
                turn => return (locked, turn),
            }
        }
        self.moved.notify_all();
        (locked, Turn::Unfinished)
    }

    // Makes the sync that the next tick would wait for, if there is one.
    fn sync_ahead<'a, R: Wait>(
        &'a self,
        rt: &R,
        locked: MutexGuard<'a, Locked<D, J>>,
    ) -> MutexGuard<'a, Locked<D, J>> {
        let mut locked = locked;
        let Some(mut pending) = locked.begin_sync() else {
            return locked;
        };
        // The collector has the lock to itself now.
        if locked.is_round_due() {
            self.rounds.notify_all();
        }
        self.exit(locked);
        D::sync(&mut pending);
        let mut locked = self.enter(rt);
        locked.end_sync(pending);
        locked
    }
}

impl<D: SyncAhead + Drop, J: Origin> Locked<D, J> {
    // Hands out a sync, if the next tick would wait for one.
    fn begin_sync(&mut self) -> Option<D::Pending> {
        let Some(room) = &mut self.room else {
            return None;
        };
        let pending = room.begin_sync();
        self.syncs_apart = self.syncs_apart || pending.is_some();
        pending
    }

    // Takes it back. The room is there, since closing waits for the thread that syncs.
    fn end_sync(&mut self, pending: D::Pending) {
        if let Some(room) = &mut self.room {
            room.end_sync(pending);
        }
    }
}
