//! One lock guards the room and the state of the commit protocol. Commits form a group (`group`) and wait
//! (`waiting`). One thread leads the group through the committer's ticks (`leading`, `turns`), and the workers take turns when
//! nobody does (`workers`). Who may act and who has to be woken is in `Roles`, which changes only under this lock, and only by its
//! own moves. A thread that holds this lock may take the one of `answers`, never the other way around.

ghost use Rattle.std.specs.Prelude.{◌<◌};
ghost use Rattle.database.specs.Committing.{HasLackedMemory};

use crate::answers::{Answers, answer_to};
use crate::committing::{begin_with, finish};
use crate::ending::Ending;
use crate::error::CommitError;
use crate::group::{Group, SESSIONS};
use crate::opened::OpenedRoom;
use crate::steps;
use crate::trace::Trace;
use base::Ts;
use base::fault::Fault;
use base::key::Key;
use base::row::Row;
use history::{Front, Origin};
use pmem::Pmem;
use roles::{Roles, enough_for_round, lacks_memory};
use std::alloc::{AllocError, Global};
use std::hint::spin_loop;
use std::sync::{Arc, Condvar, Mutex, MutexGuard, Wait};
use std::thread;

// How often a lock is tried before the thread yields, and how often it yields before it sleeps. There are pauses between two tries, since
// each try takes the lock's cache line away from its holder.
const LOOKS: u64 = 50;

const PAUSES: u64 = 4;

const YIELDS: u64 = 20;

/// What the lock guards.
#[derive(Drop)]
pub struct Locked<D: Pmem, J: Origin> {
    /// The commits that wait for their record. This field comes first: a thread that tries the lock pulls in the cache line behind the lock's
    /// word, so nothing that the holder often uses may be there.
    pub group: Group,
    /// Who leads or watches the group, and who has to be woken.
    pub roles: Roles,
    /// How many transactions are open, including those that wait for their commit.
    pub open: u64,
    /// This device can sync without the lock. A round of the collector then begins during a sync.
    pub syncs_apart: bool,
    /// How many rows the covered commits wrote or deleted since the collector's last round.
    pub covered: u64,
    /// How many ticks in a row were refused for lack of memory.
    pub refusals: u64,
    /// It is there from opening to closing.
    pub room: Option<OpenedRoom<D, J>>,
    ghost lacked_so: { 0 < refusals → HasLackedMemory },
}

impl<D: Pmem + Drop, J: Origin> Locked<D, J> {
    ghost use Rattle.std.specs.Prelude.{◌≡◌, ◌⊎◌, ◌<◌, ◌≤◌, ◌-◌, ◌↔◌, ℕ, Option, None, Some, Result, IsTrue, is_some, IfSome, IfNone};
    ghost use Rattle.machine.specs.Machine.{State};
    ghost use Rattle.base.specs.declared.fault.Fault.{Fault};
    ghost use Rattle.database.specs.declared.error.CommitError.{CommitError};
    ghost use Rattle.room.specs.Room.{Shows};
    ghost use Rattle.base.specs.declared.fault.Fault.TheVariants.{TimestampsOut};
    ghost use Rattle.base.specs.declared.step.Step.TheVariants.{Begin, Abort};
    ghost use Rattle.database.specs.Replies.{began_of, done_of};
    ghost use Rattle.std.specs.Option.{ForSome};
    ghost use Rattle.database.specs.Ended.{HasEnded};
    ghost use Rattle.database.specs.Obeys.{Obeys, InRoom, AnswersStep, ended_of};
    ghost use Rattle.database.specs.Ticking.{LeavesRest, LeavesCounts};
    ghost use Rattle.std.specs.Prelude.{is_ok};
    ghost use Rattle.database.specs.Histories.{Attends, EndsOnly, KnownIf, Logs, TookFree, made_if, answered_end, answered_end_to};
    ghost use Rattle.database.specs.Obeys.{log_in};
    ghost use Rattle.session_laws.specs.Logs.{IsQuietSince};
    ghost use Rattle.database.specs.Committing.{BeginsWith, AnswersBegunWith, IsAnswered, IsAnsweredAt, IsGivenUp, HasLackedMemory, IsLeftWaiting, IsWithoutAnswer, IsSettledUpTo, AnswersOnce, IsReadFor, most_refusals, open_after};

    /// Opens a transaction and returns its session's number.
    pub fn begin(&mut self) -> Result<u8, Fault>
        requires there { IsTrue (is_some self.old.room) }

        // What is under the lock makes this step and no other.
        ensures step { InRoom (λ old new. Obeys D.state old new Begin began_of result) self.old.room self.new.room }

        ensures made { AnswersStep Begin began_of result }

        // One more is open if one was begun, and otherwise as many as before. Whether and why the committer has ended stays as it
        // was.
        ensures ended { ended_of self.new.room ≡ ended_of self.old.room }
        ensures open { self.new.open ≡ open_after self.old.open result }

        // The history then has the begin, if it was made, and nothing else. The number is the one that was free.
        ensures log { Logs (made_if (is_ok result) Begin) (log_in self.old.room) (log_in self.new.room) }
        ensures free { TookFree J.opened (log_in self.old.room) result }

        ensures counts { LeavesCounts self.old self.new }
        ensures rest { LeavesRest self.old self.new }
    {
        let Some(room) = &mut self.room else {
            unreachable!()
        };
        let begun = steps::begin(room);
        if begun.is_ok() {
            self.open = self.open.saturating_add(1);
        }
        begun
    }

    /// Opens a transaction, makes these writes in it and returns its session's number. If one is refused, no transaction is open.
    pub fn begin_with(&mut self, writes: &[(Key, Option<Row>)]) -> Result<u8, Fault>
        requires there { IsTrue (is_some self.old.room) }

        // What is under the lock makes these steps and no other.
        ensures steps { InRoom (λ old new. BeginsWith D.state old new writes.now result) self.old.room self.new.room }

        ensures made { AnswersBegunWith writes.now result }

        // One more is open if one was begun, and otherwise as many as before. Whether and why the committer has ended stays as it
        // was.
        ensures ended { ended_of self.new.room ≡ ended_of self.old.room }
        ensures open { self.new.open ≡ open_after self.old.open result }

        ensures counts { LeavesCounts self.old self.new }
        ensures rest { LeavesRest self.old self.new }
    {
        let Some(room) = &mut self.room else {
            unreachable!()
        };
        let begun = begin_with(room, writes);
        if begun.is_ok() {
            self.open = self.open.saturating_add(1);
        }
        begun
    }

    /// A transaction is over. The room makes no step.
    pub fn leave(&mut self)
        ensures room { self.new.room ≡ self.old.room }
        ensures open { self.new.open ≡ self.old.open - 1 }
        ensures counts { LeavesCounts self.old self.new }
        ensures rest { LeavesRest self.old self.new }
    {
        self.open = self.open.saturating_sub(1);
    }

    /// Rolls back the transaction of this session.
    pub fn abort(&mut self, session: u8) -> Result<(), Fault>
        requires there { IsTrue (is_some self.old.room) }

        // What is under the lock makes this step and no other.
        ensures step { InRoom (λ old new. Obeys D.state old new (Abort session) done_of result) self.old.room self.new.room }

        ensures made { AnswersStep (Abort session) done_of result }

        // As many are open as before: `leave`, by which a transaction is over, makes no step. Whether and why the committer has
        // ended stays as it was.
        ensures ended { ended_of self.new.room ≡ ended_of self.old.room }
        ensures open { self.new.open ≡ self.old.open }

        ensures counts { LeavesCounts self.old self.new }
        ensures rest { LeavesRest self.old self.new }
    {
        let Some(room) = &mut self.room else {
            unreachable!()
        };
        steps::abort(room, session)
    }

    /// The reply to the session's commit, once there is one.
    pub fn answer(&mut self, session: u8) -> Option<Result<Ts, CommitError>>
        // The room makes a `finish` of this session and no other step, and what is returned is read off that: the timestamp, or
        // the refusal. If the commit isn't covered, it is the fault with which the committer has ended. If the committer hasn't
        // ended, it is OutOfMemory once the committer was refused memory more than a hundred times in a row, and otherwise
        // nothing. Whether and why the committer has ended stays as it was.
        ensures finish { IsTrue (is_some self.old.room) → AnswersOnce D.state self.old.room self.new.room self.new.refusals session result }
        ensures ended { ended_of self.new.room ≡ ended_of self.old.room }

        // If a timestamp is returned, the history then has the session's end, and otherwise nothing else.
        ensures log { Logs (answered_end session result) (log_in self.old.room) (log_in self.new.room) }

        // What became of the session's commit, as `Transaction::commit` says.
        ensures some { IfSome result (IsAnswered session) }

        // Nothing is returned only if the session's poll reported that its commit isn't covered, and the committer hasn't ended
        // and wasn't refused memory more than a hundred times in a row.
        ensures none { IsTrue (is_some self.old.room) → IfNone result (IsLeftWaiting session (ended_of self.new.room) self.new.refusals) }

        ensures open { self.new.open ≡ self.old.open }
        ensures counts { LeavesCounts self.old self.new }
        ensures rest { LeavesRest self.old self.new }
    {
        let Some(room) = &mut self.room else {
            return None;
        };
        match finish(room, session) {
            Ok(Some(timestamp)) => Some(Ok(timestamp)),
            Ok(None) => match self.given_up() {
                Some(error) => Some(Err(error)),
                None => None,
            },
            Err(fault) => Some(Err(CommitError::Open(fault))),
        }
    }

    /// The reply to the session's commit with this timestamp, once there is one.
    pub fn answer_to(&mut self, session: u8, timestamp: Ts) -> Option<Result<(), CommitError>>
        // As for `answer`, of the commit that drew this timestamp. Nothing is returned also if the session's own poll reported
        // another timestamp.
        ensures finish { IsTrue (is_some self.old.room) → (answer : Option (Result ℕ CommitError)) × AnswersOnce D.state self.old.room self.new.room self.new.refusals session answer × IsReadFor timestamp answer result }
        ensures ended { ended_of self.new.room ≡ ended_of self.old.room }
        ensures log { IfSome result (λ answer. Logs (answered_end_to session answer) (log_in self.old.room) (log_in self.new.room)) }
        ensures some { IfSome result (IsAnsweredAt session timestamp) }
        ensures none { IsTrue (is_some self.old.room) → IfNone result (IsWithoutAnswer session timestamp (ended_of self.new.room) self.new.refusals) }

        ensures open { self.new.open ≡ self.old.open }
        ensures counts { LeavesCounts self.old self.new }
        ensures rest { LeavesRest self.old self.new }
    {
        match self.answer(session) {
            Some(answer) => answer_to(timestamp, answer),
            None => None,
        }
    }

    /// The history so far, if that is asked for.
    pub fn known_if<R: Wait>(&self, rt: &R, is_kept: bool) -> Option<Front<J>>
        ensures { KnownIf is_kept (log_in self.now.room) result }
    {
        if is_kept { Some(self.known(rt)) } else { None }
    }

    /// The history so far. It waits forever if none is kept.
    pub fn known<R: Wait>(&self, rt: &R) -> Front<J>
        ensures { log_in self.now.room ≡ Some result }
    {
        if let Some(room) = &self.room {
            if let Some(log) = &room.log {
                return log.front();
            }
        }
        for _ in rt.forever() {}
        unreachable!()
    }

    /// Returns if what is known is all that the session has done, or nothing is known. It always is, since each call keeps what it has
    /// seen. Otherwise it waits forever.
    pub fn attend<R: Wait>(&self, rt: &R, session: u8, trace: &Option<Trace<J>>)
        ensures { Attends session trace.now (log_in self.now.room) }
    {
        let Some(trace) = trace else {
            return;
        };
        if let Some(room) = &self.room {
            if let Some(log) = &room.log {
                if log.is_quiet(session, &trace.seen) {
                    return;
                }
            }
        }
        for _ in rt.forever() {}
        unreachable!()
    }

    // How long the history was after the session's last step, if it is kept.
    fn last(&self, session: u8) -> Option<u64>
        ensures { IfSome result (λ at. IfSome (log_in self.now.room) (IsQuietSince session at)) }
    {
        let Some(room) = &self.room else {
            return None;
        };
        match &room.log {
            Some(log) => log.last(session),
            None => None,
        }
    }

    // The fault that ended the committer, in the run of the room that is there.
    fn ended(&self) -> Option<Fault>
        ensures ended { result ≡ ended_of self.now.room }
        ensures so { ForSome result HasEnded }
    {
        match &self.room {
            Some(room) => room.ended,
            None => None,
        }
    }

    // Why nobody waits any longer for a commit that isn't covered.
    fn given_up(&self) -> Option<CommitError>
        ensures some { IfSome result (IsGivenUp (ended_of self.now.room) self.now.refusals) }
        ensures none { IfNone result ((ended_of self.now.room ≡ None) × (self.now.refusals ≤ most_refusals)) }
    {
        match self.ended() {
            Some(Fault::TimestampsOut) => Some(CommitError::Refused(Fault::TimestampsOut)),
            Some(fault) => Some(CommitError::Open(fault)),
            None if self.lacks_memory() => Some(CommitError::Open(Fault::OutOfMemory)),
            None => None,
        }
    }

    /// How many commits the group that is being formed still expects.
    pub fn missing(&self) -> u64 {
        self.group.missing(self.open)
    }

    /// Whether it expects none.
    pub fn is_whole(&self) -> bool {
        self.missing() == 0
    }

    /// Whether the committer was refused memory too often.
    pub fn lacks_memory(&self) -> bool
        ensures often { IsTrue result ↔ (most_refusals < self.now.refusals) }
        ensures so { IsTrue result → HasLackedMemory }
    {
        lacks_memory(self.refusals)
    }

    /// Whether the committer has ended because no record number is left. Nothing that is drawn from then on is ever covered.
    pub fn lacks_numbers(&self) -> bool
        // Exactly if the committer of the room that is there has ended because no record number is left.
        ensures ended { IsTrue result ↔ (ended_of self.now.room ≡ Some TimestampsOut) }
        ensures so { IsTrue result → HasEnded TimestampsOut }
    {
        matches!(self.ended(), Some(Fault::TimestampsOut))
    }

    /// Replies to all whose commit is covered, or won't be, except the thread that leads.
    pub fn answer_all(&mut self, answers: &mut Answers<J>) {
        for session in 0..SESSIONS {
            if let Some(place) = self.group.place(session) {
                self.answer_at(answers, session, place);
            }
        }
    }

    // Replies to this session's commit, if it is covered or won't be.
    fn answer_at(&mut self, answers: &mut Answers<J>, session: u8, place: usize) {
        let (answer, ending) = self.answer_with_ending(session);
        if let Some(answer) = answer {
            self.group.leave(session);
            self.leave();
            self.roles.reply();
            answers.put(place, session, answer, ending);
        }
    }

    // The reply to the session's commit, once there is one, and how the session ended if it did.
    fn answer_with_ending(
        &mut self,
        session: u8,
    ) -> (Option<Result<Ts, CommitError>>, Option<Ending<J>>)
        ensures { IfSome result.0 (IsAnswered session) }
    {
        let last = self.last(session);
        let answer = self.answer(session);
        let ending = match answer {
            Some(Ok(_)) => self.ending(session, last),
            _ => None,
        };
        (answer, ending)
    }

    /// The reply to the session's commit with this timestamp, once there is one, and how the session ended if it did.
    pub fn answer_to_with_ending(
        &mut self,
        session: u8,
        timestamp: Ts,
    ) -> (Option<Result<(), CommitError>>, Option<Ending<J>>)
        ensures { IfSome result.0 (IsAnsweredAt session timestamp) }
    {
        let last = self.last(session);
        let answer = self.answer_to(session, timestamp);
        let ending = match answer {
            Some(Ok(())) => self.ending(session, last),
            _ => None,
        };
        (answer, ending)
    }

    // How the session ended, if the history up to there is kept.
    fn ending(&self, session: u8, last: Option<u64>) -> Option<Ending<J>>
        requires { IfSome last (λ at. IfSome (log_in self.now.room) (λ log. EndsOnly session at log)) }
    {
        let Some(room) = &self.room else {
            return None;
        };
        let Some(log) = &room.log else {
            return None;
        };
        match last {
            Some(at) => Some(Ending {
                session,
                at,
                front: log.front(),
            }),
            None => None,
        }
    }

    /// Whether each commit up to this timestamp is covered or abandoned.
    pub fn is_settled(&self, timestamp: Ts) -> bool
        // Exactly if the ruling record has come to the timestamp, or the committer has ended.
        ensures so { IsTrue result → IsSettledUpTo timestamp }
        ensures ended { IsTrue (is_some (ended_of self.now.room)) → IsTrue result }
        ensures exact { IfSome self.now.room (λ room. (q : State) → Shows D.state room.room q → IsTrue result ↔ (IsTrue (is_some room.ended) ⊎ (timestamp ≤ q.ruling.persisted))) }
    {
        if self.ended().is_some() {
            return true;
        }
        match &self.room {
            Some(room) => timestamp <= room.status().persisted,
            None => false,
        }
    }

    /// Whether a round of the collector is due: a fourth as many rows as there are slots, and at least one, were covered since the last
    /// one.
    pub fn is_round_due(&self) -> bool {
        match &self.room {
            Some(room) => enough_for_round(room.geometry().slots()) <= self.covered,
            None => false,
        }
    }

    // Whether the round is late: half as many rows as there are slots were covered since the last one.
    fn is_round_late(&self) -> bool {
        match &self.room {
            Some(room) => room.geometry().slots() / 2 <= self.covered,
            None => false,
        }
    }

    /// Whether the collector's round may wait for the next sync, during which it doesn't keep others from the lock.
    pub fn may_round_wait(&self) -> bool {
        self.syncs_apart && !self.roles.is_led() && !self.is_round_late()
    }
}

// Takes a lock that nobody holds for long, and sleeps only after it has tried for a while. A thread that sleeps earlier would have to be
// woken, and the lock would be idle until that thread runs.
fn enter<'a, T, R: Wait>(rt: &R, lock: &'a Mutex<T>) -> MutexGuard<'a, T> {
    for _ in 0..YIELDS {
        for _ in 0..LOOKS {
            if let Some(guard) = lock.try_lock() {
                return guard;
            }
            pause();
        }
        thread::yield_now();
    }
    lock.lock(rt)
}

fn pause() {
    for _ in 0..PAUSES {
        spin_loop();
    }
}

/// What the threads share.
#[derive(Drop)]
pub struct Shared<D: Pmem, J: Origin> {
    pub locked: Mutex<Locked<D, J>>,
    /// The committer's worker sleeps on it.
    pub commits: Condvar,
    /// The collector's worker sleeps on it.
    pub rounds: Condvar,
    /// A thread sleeps on it that waits for another's commit, for timestamps, or for the workers' end. It is notified when a batch is
    /// covered, the committer was refused, or a worker has ended.
    pub moved: Condvar,
    /// What became of commits that threads wait for.
    pub answers: Mutex<Answers<J>>,
    /// A thread that waits for its own commit sleeps on it, and holds the lock of `answers` before and after.
    pub answered: Condvar,
}

impl<D: Pmem + Drop, J: Origin> Shared<D, J> {
    ghost use Rattle.std.specs.Prelude.{IsTrue, is_some};
    ghost use Rattle.std.specs.Sync.Mutex.{mutex_guard_value};
    ghost use Rattle.base.specs.declared.step.Step.TheVariants.{Begin};
    ghost use Rattle.database.specs.Replies.{began_of};
    ghost use Rattle.database.specs.Obeys.{AnswersStep};
    ghost use Rattle.std.specs.Prelude.{Ok, Err, IfOk, IfErr};
    ghost use Rattle.database.specs.Histories.{BeginsAt};
    ghost use Rattle.database.specs.Opening.{IsFresh};

    /// There is no room yet.
    pub fn new(alloc: Global) -> Result<Arc<Shared<D, J>, Global>, AllocError> {
        let answers = Answers::new(alloc)?;
        let shared = Shared {
            locked: Mutex::new(Locked {
                group: Group::new(),
                roles: Roles::new(),
                open: 0,
                syncs_apart: false,
                covered: u64::MAX,
                refusals: 0,
                room: None,
            }),
            commits: Condvar::new(),
            rounds: Condvar::new(),
            moved: Condvar::new(),
            answers: Mutex::new(answers),
            answered: Condvar::new(),
        };
        match Arc::new(alloc, shared) {
            Ok(shared) => Ok(shared),
            Err(_) => Err(AllocError),
        }
    }

    /// Takes the lock.
    pub fn enter<R: Wait>(&self, rt: &R) -> MutexGuard<'_, Locked<D, J>> {
        enter(rt, &self.locked)
    }

    /// Releases the lock, and then wakes the threads that got replies, so that they don't wait for the lock.
    pub fn exit(&self, locked: MutexGuard<'_, Locked<D, J>>) {
        let mut locked = locked;
        let has_replied = locked.roles.take_replied();
        drop(locked);
        if has_replied {
            self.answered.notify_all();
        }
    }

    /// Wakes the threads that got replies, and sleeps until `moved` is notified.
    pub fn wait_moved<'a, R: Wait>(
        &'a self,
        rt: &R,
        locked: MutexGuard<'a, Locked<D, J>>,
    ) -> MutexGuard<'a, Locked<D, J>> {
        let mut locked = locked;
        self.wake_replied(&mut locked);
        self.moved.wait(rt, locked)
    }

    /// Wakes the threads that got replies, while the lock is held.
    pub fn wake_replied(&self, locked: &mut Locked<D, J>) {
        if locked.roles.take_replied() {
            self.answered.notify_all();
        }
    }

    /// Wakes the committer's worker, if it was told to wait, or if commits are left that nobody acts for.
    pub fn recall(&self, locked: &mut Locked<D, J>, are_left: bool) {
        if locked.roles.recall(are_left) {
            self.commits.notify_all();
        }
    }

    /// Takes the lock of `answers`.
    pub fn enter_answers<R: Wait>(&self, rt: &R) -> MutexGuard<'_, Answers<J>> {
        enter(rt, &self.answers)
    }

    /// Takes the lock once the room is there, as it is from opening to closing.
    pub fn locked<R: Wait>(&self, rt: &R) -> MutexGuard<'_, Locked<D, J>>
        ensures { IsTrue (is_some (mutex_guard_value result).room) }
    {
        let mut locked = self.enter(rt);
        for _ in rt.forever() {
            if locked.room.is_some() {
                return locked;
            }
            locked = self.moved.wait(rt, locked);
        }
        unreachable!()
    }

    /// Opens a transaction and returns its session's number, and the history up to its begin, if that is asked for.
    pub fn begin<R: Wait>(&self, rt: &R, is_kept: bool) -> Result<(u8, Option<Front<J>>), Fault>
        ensures ok { IfOk result (λ begun. AnswersStep Begin began_of (Ok begun.0)) }
        ensures err { IfErr result (λ fault. AnswersStep Begin began_of (Err fault)) }
        ensures begun { IfOk result (λ begun. BeginsAt J.opened is_kept begun.0 begun.1) }
    {
        let mut locked = self.locked(rt);
        match locked.begin() {
            Ok(session) => {
                let front = locked.known_if(rt, is_kept);
                Ok((session, front))
            }
            Err(fault) => Err(fault),
        }
    }

    /// Puts the room in as it was opened.
    pub fn put_in<R: Wait>(&self, rt: &R, room: OpenedRoom<D, J>)
        // The room is as the opening of some device leaves it. Whatever history that device's image stands for, the room shows
        // the state that the device opens as.
        requires opened { IsFresh D.state room.room }
    {
        let mut locked = self.locked.lock(rt);
        locked.room = Some(room);
        self.wake_workers();
    }

    /// Tells the workers to end, and waits until they have.
    pub fn end_work<R: Wait>(&self, rt: &R) {
        let mut locked = self.locked.lock(rt);
        locked.roles.close();
        self.wake_workers();
        for _ in rt.forever() {
            if locked.roles.have_ended() {
                return;
            }
            locked = self.moved.wait(rt, locked);
        }
    }

    /// Wakes the thread that watches a group, if the group is complete because another commit won't come.
    pub fn urge(&self, locked: &Locked<D, J>) {
        if locked.roles.is_watched() && locked.is_whole() {
            self.moved.notify_all();
        }
    }

    fn wake_workers(&self) {
        self.commits.notify_all();
        self.rounds.notify_all();
    }

    /// Counts a worker in before its thread is started, so that closing can't miss it.
    pub fn begin_working<R: Wait>(&self, rt: &R) {
        let mut locked = self.locked.lock(rt);
        locked.roles.begin_working();
    }

    /// Counts a worker out: no thread is joined, so closing waits until all are out.
    pub fn end_working<R: Wait>(&self, rt: &R) {
        let mut locked = self.locked.lock(rt);
        locked.roles.end_working();
        self.moved.notify_all();
    }

    /// Drops the room, if it is in. A worker that has ended may keep what is shared a moment longer, and with it the device.
    pub fn drop_room<R: Wait>(&self, rt: &R) {
        let mut locked = self.locked.lock(rt);
        let room = locked.room.take();
        drop(locked);
        drop(room);
    }

    /// Takes the room out.
    pub fn take_out<R: Wait>(&self, rt: &R) -> OpenedRoom<D, J> {
        let mut locked = self.locked.lock(rt);
        for _ in rt.forever() {
            if let Some(room) = locked.room.take() {
                return room;
            }
            locked = self.moved.wait(rt, locked);
        }
        unreachable!()
    }
}
