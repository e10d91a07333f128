//! Once an operation has failed, the device may hold any part of it, so each later step is refused before it reads or writes:
//! what a crash left then is still what the next opening finds.

ghost use Rattle.std.specs.Prelude.{◌≡◌, false};
ghost use Rattle.room.specs.Steps.{ShowsAs};

use crate::replies::{began, done, drawn, polled, read, scanned, stamped};
use crate::status::Status;
use crate::volatile::VolatileState;
use base::fault::Fault;
use base::geometry::Geometry;
use base::key::Key;
use base::row::Row;
use base::step::{Reply, Step};
use pmem::Pmem;
use std::alloc::Global;

/// A device that was opened, and all that is kept of it.
#[derive(Drop)]
pub struct Room<D: Pmem> {
    pub(crate) alloc: Global,
    pub(crate) device: D,
    pub(crate) volatile: VolatileState,
    pub(crate) failed: bool,
    ghost shown: { ∥ ShowsAs volatile (D.state device) failed ∥₁ },
}

impl<D: Pmem + Drop> Room<D> {
    ghost use Rattle.std.specs.Prelude.{List, IfOk, IfErr, OnErr, fold};
    ghost use Rattle.base.specs.Commits.{after, Lists};
    ghost use Rattle.machine.specs.Machine.{State, closing_gate};
    ghost use Rattle.base.specs.declared.fault.Fault.TheVariants.{OutOfMemory};
    ghost use Rattle.room.specs.Room.{Shows, Leads, RunsTo, ShowsStatus, covered_by, device_of, left_after};

    /// One step.
    #[inline(never)]
    pub fn step(&mut self, step: Step) -> Reply
        // For every state that the room shows there is a next state. Reply and next state are the plain machine's, and the room
        // shows the next state. Each image that a crash may leave since the step began, even if the device fails, has the state's
        // layout. It stands for the history before, for that with the pending batch, or for the history after, each under exactly
        // its own record. The reply is Device exactly if the failure count rose. No more operations were made than the step's
        // bound, and each flush and fence is of the step's session, or of the committer if it is a tick. A refusal for another
        // reason than a failing device, lack of memory included, leaves the device as it was. Once the gaps are swept, no image
        // that a crash may leave has a begin or an end in one of them.
        ensures step { Leads D.state self.old self.new step result }

        // A batch that a reply hands out waits no longer, and any other reply leaves what waits.
        ensures waits { covered_by self.new ≡ left_after (covered_by self.old) result }
    {
        match step {
            Step::Begin => began(self.begin()),
            Step::Get { session, key } => read(self.get(session, key)),
            Step::Scan {
                session,
                table,
                lo,
                hi,
            } => scanned(self.scan(session, table, lo, hi)),
            Step::Put { session, key, row } => done(self.put(session, key, &row)),
            Step::Delete { session, key } => done(self.delete(session, key)),
            Step::Draw { session } => drawn(self.draw(session)),
            Step::Stamp { session } => stamped(self.stamp(session)),
            Step::Poll { session } => polled(self.poll(session)),
            Step::Abort { session } => done(self.abort(session)),
            Step::End { session } => done(self.end(session)),
            Step::Commit => self.tick(),
            Step::Collect => self.visit(),
        }
    }

    /// Takes these steps, one after the other, and returns their replies.
    pub fn drive(&mut self, steps: &[Step]) -> Result<Vec<Reply>, Fault>
        // They are a run (`RunsTo`).
        ensures run { IfOk result (λ replies. (q : State) → Shows D.state self.old q → (states : List State) × RunsTo D.state self.old self.new steps.now replies.items q states) }

        // A batch that a reply hands out waits no longer.
        ensures waits { IfOk result (λ replies. covered_by self.new ≡ fold left_after (covered_by self.old) replies.items) }

        // It is refused only for lack of memory, and then nothing was done.
        ensures fault { IfErr result (λ fault. fault ≡ OutOfMemory) }
        ensures err { OnErr result (self.new ≡ self.old) }
    {
        let Ok(mut replies) = Vec::with_capacity(self.alloc, steps.len()) else {
            return Err(Fault::OutOfMemory);
        };
        for step in steps {
            replies.push_reserved(self.step(*step));
        }
        Ok(replies)
    }

    /// The number of the record that closing would write last, in every state that the room shows.
    pub fn closing_gate(&self) -> u64
        ensures { (q : State) → Shows D.state self.now q → result ≡ closing_gate q }
    {
        self.volatile.closing_gate()
    }

    /// The covered rows by rising key, even if the device has failed.
    pub fn tables(&self) -> Result<Vec<(Key, Row)>, Fault>
        // They are those of every state that the room shows. It is refused only for lack of memory.
        ensures ok { IfOk result (λ rows. (q : State) → Shows D.state self.now q → Lists rows.items (after q.history)) }
        ensures fault { IfErr result (λ fault. fault ≡ OutOfMemory) }
    {
        self.volatile.tables(self.alloc, &self.device)
    }

    /// The device as it is.
    pub fn into_device(self) -> D
        ensures { D.state result ≡ device_of D.state self }
    {
        self.device
    }

    /// The layout of every state that the room shows.
    pub fn geometry(&self) -> Geometry
        ensures { (q : State) → Shows D.state self.now q → result ≡ q.layout }
    {
        self.volatile.numbers().geometry
    }

    /// Gate, persisted, dirty, next, gaps and long commits of every state that the room shows. It takes no memory.
    pub fn status(&self) -> Status
        ensures { (q : State) → Shows D.state self.now q → ShowsStatus q result }
    {
        let numbers = self.volatile.numbers();
        Status {
            gate: numbers.record.gate(),
            persisted: numbers.record.persisted(),
            dirty: numbers.record.dirty(),
            next: numbers.next,
            gaps: numbers.record.gaps(),
            longs: numbers.record.longs(),
        }
    }
}
