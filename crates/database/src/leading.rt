//! One thread leads a group: it makes the committer's ticks for all who wait, since it runs already and holds the lock. The
//! others sleep until their reply is there. The first to come watches, so that a group for which nobody else comes is led too.
//! `Roles` says which of the two roles is taken. A thread that takes a turn of the committer leads, also if the group is empty.

use crate::ending::Ending;
use crate::error::CommitError;
use crate::locked::{Locked, Shared};
use base::Ts;
use history::Origin;
use roles::{Next, Turn};
use std::sync::{MutexGuard, Wait};
use std::thread;
use std::time::Duration;
use sync_ahead::SyncAhead;

// How many microseconds a group waits while nobody comes, and how many times as long at most while others do.
const PATIENCE: u64 = 500;

const NAPS: u64 = 4;

impl<D: SyncAhead + Drop, J: Origin> Shared<D, J> {
    ghost use Rattle.database.specs.Committing.{IsAnsweredAt};

    /// Joins the group that is being formed, and waits until the session's commit with this timestamp is covered, or won't be. If the history is
    /// kept and the commit is covered, it also returns how the session ended. The last one to
    /// come leads the group: it makes the committer's ticks itself, so that nobody has to be woken for them. The first one watches, and leads if
    /// others don't come.
    pub fn wait<'a, R: Wait>(
        &'a self,
        rt: &R,
        locked: MutexGuard<'a, Locked<D, J>>,
        session: u8,
        timestamp: Ts,
    ) -> (Result<(), CommitError>, Option<Ending<J>>)
        ensures { IsAnsweredAt session timestamp result.0 }
    {
        let mut locked = locked;
        locked.group.join();
        let is_whole = locked.is_whole();
        if locked.roles.follows(is_whole) {
            if let Some(place) = self.reserve_answer(rt) {
                locked.group.follow(session, place);
                drop(locked);
                return self.take_answer(rt, session, timestamp, place);
            }
        }
        locked.refusals = 0;
        self.lead(rt, locked, session, timestamp)
    }

    fn reserve_answer<R: Wait>(&self, rt: &R) -> Option<usize> {
        self.enter_answers(rt).reserve()
    }

    // Sleeps until the reply is there.
    fn take_answer<R: Wait>(
        &self,
        rt: &R,
        session: u8,
        timestamp: Ts,
        place: usize,
    ) -> (Result<(), CommitError>, Option<Ending<J>>)
        ensures { IsAnsweredAt session timestamp result.0 }
    {
        let mut answers = self.enter_answers(rt);
        for _ in rt.forever() {
            let answer = answers.take(place, session, timestamp);
            if let Some(answer) = answer {
                let ending = answers.take_ending(place);
                return (answer, ending);
            }
            answers = self.answered.wait(rt, answers);
        }
        unreachable!()
    }

    // Waits for those who are about to commit, and covers the group, unless another thread has.
    fn lead<'a, R: Wait>(
        &'a self,
        rt: &R,
        locked: MutexGuard<'a, Locked<D, J>>,
        session: u8,
        timestamp: Ts,
    ) -> (Result<(), CommitError>, Option<Ending<J>>)
        ensures { IsAnsweredAt session timestamp result.0 }
    {
        let mut locked = self.gather(rt, locked);
        for _ in rt.forever() {
            let (answer, ending) = locked.answer_to_with_ending(session, timestamp);
            if let Some(answer) = answer {
                locked.group.leave(session);
                locked.leave();
                self.end_lead(locked);
                return (answer, ending);
            }
            locked = self.take_lead(rt, locked);
        }
        unreachable!()
    }

    // Waits until nobody is missing, or for a while.
    fn gather<'a, R: Wait>(
        &'a self,
        rt: &R,
        locked: MutexGuard<'a, Locked<D, J>>,
    ) -> MutexGuard<'a, Locked<D, J>> {
        let mut locked = locked;
        let before = locked.missing();
        if before == 0 || locked.roles.is_led() || !locked.group.may_grow() {
            return locked;
        }
        locked.roles.watch();
        let mut locked = self.watch(rt, locked);
        if locked.roles.end_watch() {
            let after = locked.missing();
            locked.group.grew(before, after);
        }
        locked
    }

    // Sleeps as long as others come, up to the longest wait of a group.
    fn watch<'a, R: Wait>(
        &'a self,
        rt: &R,
        locked: MutexGuard<'a, Locked<D, J>>,
    ) -> MutexGuard<'a, Locked<D, J>> {
        let mut locked = locked;
        for _ in 0..NAPS {
            let missing = locked.missing();
            locked = self.nap(rt, locked);
            if !locked.roles.is_watched() || locked.is_whole() || missing <= locked.missing() {
                break;
            }
        }
        locked
    }

    fn nap<'a, R: Wait>(
        &'a self,
        rt: &R,
        locked: MutexGuard<'a, Locked<D, J>>,
    ) -> MutexGuard<'a, Locked<D, J>> {
        let seen = self.moved.notifications();
        drop(locked);
        self.moved.sleep(rt, seen, Duration::from_micros(PATIENCE));
        self.locked(rt)
    }

    // A turn of the committer, unless another thread takes one. If there is nothing to do, another leads, and covers the commit with its
    // own.
    fn take_lead<'a, R: Wait>(
        &'a self,
        rt: &R,
        locked: MutexGuard<'a, Locked<D, J>>,
    ) -> MutexGuard<'a, Locked<D, J>> {
        let (mut locked, turn) = self.cover_group(rt, locked);
        self.notify(rt, &mut locked, turn);
        match turn.next_of_leader() {
            Next::Sleep => {
                self.recall(&mut locked, false);
                self.wait_moved(rt, locked)
            }
            Next::Yield => self.pass(rt, locked),
            Next::Again => locked,
        }
    }

    /// Lets other threads have the lock.
    pub fn pass<'a, R: Wait>(
        &'a self,
        rt: &R,
        locked: MutexGuard<'a, Locked<D, J>>,
    ) -> MutexGuard<'a, Locked<D, J>> {
        self.exit(locked);
        thread::yield_now();
        self.locked(rt)
    }

    /// Closes the group, if commits wait in it, and takes a turn of the committer, unless another thread leads.
    pub fn cover_group<'a, R: Wait>(
        &'a self,
        rt: &R,
        locked: MutexGuard<'a, Locked<D, J>>,
    ) -> (MutexGuard<'a, Locked<D, J>>, Turn) {
        let mut locked = locked;
        if !locked.roles.take() {
            return (locked, Turn::Busy);
        }
        let open = locked.open;
        if !locked.group.is_empty() {
            locked.group.close(open);
        }
        let (mut locked, turn) = self.take_ticks(rt, locked);
        locked.roles.end_turn();
        (locked, turn)
    }

    // Leaves those who came during the group's sync to the committer's worker, and wakes the threads that got replies.
    fn end_lead(&self, locked: MutexGuard<'_, Locked<D, J>>) {
        let mut locked = locked;
        let are_left = !locked.group.is_empty();
        self.recall(&mut locked, are_left);
        self.exit(locked);
    }

    /// A turn of the committer's worker. Those who wait and have nobody to lead them are a group, which the worker leads.
    pub fn take_over<'a, R: Wait>(
        &'a self,
        rt: &R,
        locked: MutexGuard<'a, Locked<D, J>>,
    ) -> (MutexGuard<'a, Locked<D, J>>, Turn) {
        if locked.group.is_empty() {
            return self.cover_group(rt, locked);
        }
        let locked = self.gather(rt, locked);
        self.cover_group(rt, locked)
    }
}
