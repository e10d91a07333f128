//! No clause can name what a lock holds, so the type of what that lock holds carries its run. The run has all steps since the
//! device was opened, and among them the tick that ended the committer, if one has. Only steps change what the room shows.

ghost use Rattle.std.specs.Option.{ForSome};
ghost use Rattle.room.specs.Runs.{HasTaken};
ghost use Rattle.room_logs.specs.Logs.{HasLog};
ghost use Rattle.database.specs.Ended.{EndedAlong};

use crate::database::Report;
use base::Ts;
use base::fault::Fault;
use base::geometry::Geometry;
use base::key::Key;
use base::row::Row;
use base::step::Step;
use history::{Front, Log, Origin};
use pmem::Pmem;
use room::{Room, Status, Tick, Usage, Visit};
use std::sync::Wait;
use sync_ahead::SyncAhead;

/// The room of a device that was opened. It shows the end of a run from that opening: the thread that holds the lock extends the run by
/// steps, and in no other way.
#[derive(Drop)]
pub struct OpenedRoom<D: Pmem, J: Origin> {
    pub(crate) room: Room<D>,
    /// Why nothing more will be covered: the fault that the committer was refused with, in this very run.
    pub(crate) ended: Option<Fault>,
    /// Of every value: the room shows the end of a run from the opening of some device. If a fault is kept as the reason why the
    /// committer has ended, a tick in that run was refused with it.
    ghost run: { ∥ HasTaken D.state room (EndedAlong ended) ∥₁ },
    /// The history, if one is kept: the steps that the room has made since its device was opened, except for reads and polls.
    pub(crate) log: Option<Log<J>>,
    ghost logged: { ForSome log (λ log. ∥ HasLog D.state J.opened room log ∥₁) },
}

impl<D: Pmem + Drop, J: Origin> OpenedRoom<D, J> {
    ghost use Rattle.std.specs.Prelude.{◌≡◌, ◌≢◌, ◌≤◌, ◌-◌, None, Some, IsSome, Ok, Err};
    ghost use Rattle.base.specs.declared.fault.Fault.TheVariants.{OutOfMemory};
    ghost use Rattle.base.specs.declared.step.Step.TheVariants.{Commit, Collect};
    ghost use Rattle.machine.specs.Machine.{State};
    ghost use Rattle.session_steps.specs.Collecting.{as_reply as visited};
    ghost use Rattle.room.specs.declared.ticks.Tick.TheVariants.{Covered};
    ghost use Rattle.room.specs.Ticks.{as_reply as ticked};
    ghost use Rattle.room.specs.Room.{Leads, Shows, ShowsStatus, covered_by};
    ghost use Rattle.room.specs.Runs.{ComesTo};
    ghost use Rattle.room.specs.Usage.{ShowsUsage};
    ghost use Rattle.database.specs.Histories.{KnownIf, LogsQuiet};
    ghost use Rattle.database.specs.Obeys.{RepeatsTimes};
    ghost use Rattle.database.specs.Opening.{IsFresh};
    ghost use Rattle.database.specs.Reports.{ShowsReport};

    /// The room as it was opened, and its history, if one is kept.
    pub fn new(room: Room<D>, log: Option<Log<J>>) -> OpenedRoom<D, J>
        requires opened { IsFresh D.state room }
        requires logged { ForSome log (λ log. HasLog D.state J.opened room log) }
        ensures room { result.room ≡ room }
        ensures ended { result.ended ≡ None }
    {
        OpenedRoom {
            room,
            ended: None,
            log,
        }
    }

    /// A tick of the committer. If it is refused, the fault is kept, except for lack of memory, which passes.
    pub fn tick(&mut self) -> Result<Tick, Fault>
        // The room's step of this kind, with the reply that belongs to the result, as for `Room::advance`. After a tick that
        // covers a batch, the room has that batch.
        ensures step { Leads D.state self.old.room self.new.room Commit (ticked result (covered_by self.new.room)) }
        ensures covers { result ≡ Ok Covered → IsSome (covered_by self.new.room) }

        // What a tick was refused with is kept as the reason why the committer has ended, except lack of memory. Nothing else is.
        ensures ended { (fault : Fault) → result ≡ Err fault → fault ≢ OutOfMemory → self.new.ended ≡ Some fault }
        ensures goes_on { ((fault : Fault) → result ≡ Err fault → fault ≡ OutOfMemory) → self.new.ended ≡ self.old.ended }
    {
        let returned = self.room.advance();
        keep_end(&mut self.ended, &returned);
        note(&mut self.log, &returned, SmallStep::Commit);
        returned
    }

    /// A visit of the collector.
    pub fn visit(&mut self) -> Result<Visit, Fault>
        // The room's step of this kind, with the reply that belongs to the result, as for `Room::collect`.
        ensures step { Leads D.state self.old.room self.new.room Collect (visited result) }

        ensures ended { self.new.ended ≡ self.old.ended }
        ensures log { LogsQuiet self.old.log self.new.log }
    {
        let returned = self.room.collect();
        note(&mut self.log, &returned, SmallStep::Collect);
        returned
    }

    /// Visits of the collector that change nothing, made at once, this many at most. Returns how many.
    pub fn pass(&mut self, most: u64) -> u64
        // The room makes exactly as many visits as are returned, and no other step.
        ensures visits { RepeatsTimes D.state self.old.room self.new.room Collect result }
        ensures most { result ≤ most }

        ensures ended { self.new.ended ≡ self.old.ended }
        ensures log { LogsQuiet self.old.log self.new.log }
    {
        let passed = self.room.pass(most);
        note_visits(&mut self.log, passed);
        passed
    }

    /// The history so far, if that is asked for. It waits forever if none is kept.
    pub fn known_if<R: Wait>(&self, rt: &R, is_kept: bool) -> Option<Front<J>>
        ensures { KnownIf is_kept self.now.log result }
    {
        if !is_kept {
            return None;
        }
        if let Some(log) = &self.log {
            return Some(log.front());
        }
        for _ in rt.forever() {}
        unreachable!()
    }

    /// The layout of the device.
    pub fn geometry(&self) -> Geometry
        // Of each state that the room shows, and so of one that a run comes to.
        ensures shows { (q : State) → Shows D.state self.now.room q → result ≡ q.layout }
        ensures comes { ComesTo (λ q. result ≡ q.layout) }
    {
        self.room.geometry()
    }

    /// The numbers of the ruling record, its gaps and long commits, and the next timestamp.
    pub fn status(&self) -> Status
        // Of each state that the room shows, and so of one that a run comes to.
        ensures shows { (q : State) → Shows D.state self.now.room q → ShowsStatus q result }
        ensures comes { ComesTo (λ q. ShowsStatus q result) }
    {
        self.room.status()
    }

    /// The last timestamp that is drawn in each state that the room shows, or 0.
    pub fn last_drawn(&self) -> Ts
        ensures { (q : State) → Shows D.state self.now.room q → result ≡ q.next - 1 }
    {
        self.room.status().next.saturating_sub(1)
    }

    /// How the slots are used.
    pub fn usage(&self) -> Usage
        ensures { ComesTo (λ q. ShowsUsage q result) }
    {
        self.room.usage()
    }

    /// The layout, the numbers of the ruling record and how the slots are used.
    pub fn report(&self) -> Report
        ensures { ComesTo (λ q. ShowsReport q result) }
    {
        Report {
            layout: self.room.geometry(),
            numbers: self.room.status(),
            usage: self.room.usage(),
        }
    }

    /// The room, which is to be closed.
    pub fn into_room(self) -> Room<D>
        ensures room { result ≡ self.room }
        ensures run { ∥ HasTaken D.state result (EndedAlong self.ended) ∥₁ }
    {
        self.room
    }
}

ghost use Rattle.std.specs.Prelude.{◌≡◌, ◌≢◌, ◌⊎◌, ◌∷◌, [], Some, Err, is_ok, replicate};
ghost use Rattle.base.specs.declared.fault.Fault.TheVariants.{OutOfMemory};
ghost use Rattle.base.specs.declared.step.Step.TheVariants.{Commit, Collect, Put};
ghost use Rattle.database.specs.Histories.{Logs, made_if};
ghost use Rattle.database.specs.SmallSteps.{whole_step};

/// A step that has no row. A `Step` has room for one, so it is made only if a history is kept.
#[derive(Clone, Copy)]
pub enum SmallStep {
    Begin,
    Delete(u8, Key),
    Draw(u8),
    Stamp(u8),
    Abort(u8),
    End(u8),
    Commit,
    Collect,
}

impl SmallStep {
    fn step(self) -> Step
        ensures { result ≡ whole_step self }
    {
        match self {
            SmallStep::Begin => Step::Begin,
            SmallStep::Delete(session, key) => Step::Delete { session, key },
            SmallStep::Draw(session) => Step::Draw { session },
            SmallStep::Stamp(session) => Step::Stamp { session },
            SmallStep::Abort(session) => Step::Abort { session },
            SmallStep::End(session) => Step::End { session },
            SmallStep::Commit => Step::Commit,
            SmallStep::Collect => Step::Collect,
        }
    }
}

/// Adds a step to the history if it was made, and if one is kept.
#[inline(always)]
pub fn note<J: Origin, T>(log: &mut Option<Log<J>>, returned: &Result<T, Fault>, step: SmallStep)
    ensures { Logs (made_if (is_ok returned.now) (whole_step step)) log.old log.new }
{
    if log.is_some() && returned.is_ok() {
        add(log, &step.step());
    }
}

/// Adds a put, likewise.
#[inline(always)]
pub fn note_put<J: Origin>(
    log: &mut Option<Log<J>>,
    returned: &Result<(), Fault>,
    session: u8,
    key: Key,
    row: &Row,
)
    ensures { Logs (made_if (is_ok returned.now) (Put session key row.now)) log.old log.new }
{
    if log.is_some() && returned.is_ok() {
        let row = *row;
        add(log, &Step::Put { session, key, row });
    }
}

// Adds as many visits of the collector to the history, if one is kept.
fn note_visits<J: Origin>(log: &mut Option<Log<J>>, visits: u64)
    ensures { Logs (replicate visits Collect) log.old log.new }
{
    if log.is_none() {
        return;
    }
    for _added in 0..visits {
        add(log, &Step::Collect);
    }
}

// Adds a step to the history, if one is kept. A history that has grown past what is known of it isn't kept any more; that doesn't
// happen.
#[inline(always)]
fn add<J: Origin>(log: &mut Option<Log<J>>, step: &Step)
    ensures { Logs (step.now ∷ []) log.old log.new }
{
    let is_added = match log {
        Some(kept) => kept.add(step),
        None => return,
    };
    if !is_added {
        *log = None;
    }
}

// Keeps why the committer has ended, if a tick with this result ended it. Most ticks don't, and leave the place alone.
#[inline(always)]
fn keep_end(ended: &mut Option<Fault>, returned: &Result<Tick, Fault>)
    ensures ended { (fault : Fault) → returned.now ≡ Err fault → fault ≢ OutOfMemory → ended.new ≡ Some fault }
    ensures goes_on { ((fault : Fault) → returned.now ≡ Err fault → fault ≡ OutOfMemory) → ended.new ≡ ended.old }
    ensures either { (ended.new ≡ ended.old) ⊎ ((fault : Fault) × (returned.now ≡ Err fault) × (fault ≢ OutOfMemory) × (ended.new ≡ Some fault)) }
{
    match returned {
        Ok(_) => {}
        Err(Fault::OutOfMemory) => {}
        Err(fault) => *ended = Some(*fault),
    }
}

impl<D: SyncAhead + Drop, J: Origin> OpenedRoom<D, J> {
    ghost use Rattle.std.specs.Prelude.{◌≡◌};
    ghost use Rattle.machine.specs.Machine.{State};
    ghost use Rattle.room.specs.Room.{Shows, device_of};

    /// Hands out the sync that the next tick would wait for, if it can be made ahead of the tick. It isn't a step.
    pub fn begin_sync(&mut self) -> Option<D::Pending>
        // The device is as it was, the room shows what it showed, and whether and why the committer has ended stays as it was.
        ensures device { device_of D.state self.new.room ≡ device_of D.state self.old.room }
        ensures shows { (q : State) → Shows D.state self.old.room q → Shows D.state self.new.room q }
        ensures ended { self.new.ended ≡ self.old.ended }
        ensures log { self.new.log ≡ self.old.log }
    {
        self.room.begin_sync()
    }

    /// Takes the sync back, which isn't a step either.
    pub fn end_sync(&mut self, pending: D::Pending)
        // The device is as it was, the room shows what it showed, and whether and why the committer has ended stays as it was.
        ensures device { device_of D.state self.new.room ≡ device_of D.state self.old.room }
        ensures shows { (q : State) → Shows D.state self.old.room q → Shows D.state self.new.room q }
        ensures ended { self.new.ended ≡ self.old.ended }
        ensures log { self.new.log ≡ self.old.log }
    {
        self.room.end_sync(pending);
    }
}
