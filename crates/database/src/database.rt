//! What callers see. A database holds its lock through an `Arc`, and so do its two workers, whose threads nobody joins: closing
//! waits until both have counted themselves out under the lock.

ghost use Rattle.std.specs.Prelude.{◌≡◌};

use crate::closing::close_room;
use crate::error::CommitError;
use crate::locked::Shared;
use crate::opened::OpenedRoom;
use crate::transaction::Transaction;
use crate::workers::start_workers;
use base::Ts;
use base::fault::Fault;
use base::geometry::Geometry;
use base::key::Key;
use base::row::Row;
use history::{Front, History, Log, Origin};
use pmem::Pmem;
use room::{Room, Status, Usage};
use std::alloc::Global;
use std::marker::Brand;
use std::sync::{Arc, Wait};
use std::thread::Threads;
use sync_ahead::SyncAhead;

/// Why a device couldn't be opened or closed, and the device.
#[derive(Drop)]
pub struct Refused<D> {
    pub fault: Fault,
    pub device: D,
}

/// What a database says about itself at one moment.
#[derive(Clone, Copy, Debug)]
pub struct Report {
    pub layout: Geometry,
    /// The numbers of the ruling record, its gaps and long commits, and the next timestamp.
    pub numbers: Status,
    pub usage: Usage,
}

/// What closing returns: the device, and the history up to there, if that is kept.
#[derive(Drop)]
pub struct Closed<D: Drop, J: Origin = Brand> {
    pub device: D,
    pub front: Option<Front<J>>,
}

/// A store of rows over a device, with a committer and a collector in threads of their own. Threads may share it. A drop ends both
/// workers, and leaves the device as a crash would: once it returns, the device is dropped too.
pub struct Database<D: Pmem + Drop, R: Wait + Drop, J: Origin = Brand> {
    pub(crate) rt: R,
    pub(crate) shared: Arc<Shared<D, J>, Global>,
    is_kept: bool,
    ghost kept: { is_kept ≡ J.kept },
}

impl<
    D: SyncAhead + Drop + Send + Sync + 'static,
    R: Threads + Wait + Copy + Drop + Send + Sync + 'static,
> Database<D, R> {
    ghost use Rattle.std.specs.Prelude.{◌≡◌, List, ℕ, None, IfOk, IfErr};
    ghost use Rattle.base.specs.Commits.{Commit};
    ghost use Rattle.base.specs.Images.{opening_fault};
    ghost use Rattle.base.specs.Stands.{Stands};
    ghost use Rattle.pmem.specs.Words.{IsAtRest, image_of};
    ghost use Rattle.database.specs.Opening.{IsOpeningRefusal, KeepsHistory};

    /// Opens a device at rest. Its history isn't kept: `run_kept` opens one whose history is.
    pub fn open(rt: R, alloc: Global, device: D) -> Result<Database<D, R>, Refused<D>>
    where
        D::Pending: Send,
        requires at_rest { IsAtRest (D.state device) }

        // At Ok the image has none of the faults that opening reports.
        ensures may_open { IfOk result (λ _. opening_fault (image_of (D.state device)) ≡ None) }

        // At Err NoThread or OutOfMemory, and the device is as it was. Or opening the room was refused with this fault.
        ensures fault { IfErr result (λ e. IsOpeningRefusal (D.state device) (D.state e.device) e.fault) }

        // At Err the device is as it was, or each crash meanwhile leaves the same history.
        ensures images { (history drawn : List Commit) (next : ℕ) → Stands (image_of (D.state device)) history drawn next
            → IfErr result (λ e. KeepsHistory (D.state device) (D.state e.device) history next) }
    {
        Database::<D, R, Brand>::open_with(rt, alloc, device, None)
    }
}

impl<
    D: SyncAhead + Drop + Send + Sync + 'static,
    R: Threads + Wait + Copy + Drop + Send + Sync + 'static,
    J: Origin + Send + Sync + 'static,
> Database<D, R, J> {
    ghost use Rattle.std.specs.Prelude.{◌≡◌, List, [], ℕ, None, IfOk, IfErr, is_some, true};
    ghost use Rattle.std.specs.Option.{ForSome};
    ghost use Rattle.base.specs.Commits.{Commit};
    ghost use Rattle.base.specs.Images.{opening_fault};
    ghost use Rattle.base.specs.Stands.{Stands};
    ghost use Rattle.pmem.specs.Words.{IsAtRest, image_of};
    ghost use Rattle.database.specs.Opening.{IsOpeningRefusal, KeepsHistory};

    /// Opens a device at rest, and keeps its history from then on.
    pub fn open_kept(
        rt: R,
        alloc: Global,
        device: D,
        history: History,
    ) -> Result<Database<D, R, J>, Refused<D>>
    where
        D::Pending: Send,
        requires at_rest { IsAtRest (D.state device) }
        requires kept { J.kept ≡ true }
        requires name { history ≡ J.book }
        requires opened { D.state device ≡ J.opened }

        // As for `open`.
        ensures may_open { IfOk result (λ _. opening_fault (image_of (D.state device)) ≡ None) }
        ensures fault { IfErr result (λ e. IsOpeningRefusal (D.state device) (D.state e.device) e.fault) }
        ensures images { (history drawn : List Commit) (next : ℕ) → Stands (image_of (D.state device)) history drawn next
            → IfErr result (λ e. KeepsHistory (D.state device) (D.state e.device) history next) }
    {
        Database::<D, R, J>::open_with(rt, alloc, device, Some(Log::new(history)))
    }

    // Opens a device at rest, with the history that is kept of it, if one is.
    fn open_with(
        rt: R,
        alloc: Global,
        device: D,
        log: Option<Log<J>>,
    ) -> Result<Database<D, R, J>, Refused<D>>
    where
        D::Pending: Send,
        requires at_rest { IsAtRest (D.state device) }
        requires log { ForSome log (λ log. (log ≡ []) × (D.state device ≡ J.opened)) }
        requires kept { is_some log ≡ J.kept }

        // At Ok the image has none of the faults that opening reports.
        ensures may_open { IfOk result (λ _. opening_fault (image_of (D.state device)) ≡ None) }

        // At Err NoThread or OutOfMemory, and the device is as it was. Or opening the room was refused with this fault.
        ensures fault { IfErr result (λ e. IsOpeningRefusal (D.state device) (D.state e.device) e.fault) }

        // At Err the device is as it was, or each crash meanwhile leaves the same history.
        ensures images { (history drawn : List Commit) (next : ℕ) → Stands (image_of (D.state device)) history drawn next
            → IfErr result (λ e. KeepsHistory (D.state device) (D.state e.device) history next) }
    {
        let Ok(shared) = Shared::new(alloc) else {
            return Err(Refused {
                fault: Fault::OutOfMemory,
                device,
            });
        };
        if let Err(fault) = start_workers(&rt, &shared) {
            return Err(Refused { fault, device });
        }
        let is_kept = log.is_some();
        match Room::open(&rt, alloc, device) {
            Ok(room) => {
                shared.put_in(&rt, OpenedRoom::new(room, log));
                Ok(Database {
                    rt,
                    shared,
                    is_kept,
                })
            }
            Err((fault, device)) => {
                shared.end_work(&rt);
                Err(Refused { fault, device })
            }
        }
    }
}

impl<D: Pmem + Drop, R: Wait + Drop, J: Origin> Drop for Database<D, R, J> {
    fn drop(self) {
        let Database {
            rt,
            shared,
            is_kept: _,
        } = self;
        shared.end_work(&rt);
        shared.drop_room(&rt);
    }
}

impl<D: SyncAhead + Drop, R: Wait + Drop, J: Origin> Database<D, R, J> {
    ghost use Rattle.std.specs.Prelude.{◌≡◌, Ok, Err, IfOk, IfErr};
    ghost use Rattle.base.specs.declared.step.Step.TheVariants.{Begin};
    ghost use Rattle.database.specs.Replies.{began_of};
    ghost use Rattle.database.specs.Obeys.{AnswersStep};
    ghost use Rattle.database.specs.Committing.{ReportsWritten, ReportsUnwritten};
    ghost use Rattle.database.specs.Histories.{ClosesAt, HasBegun};
    ghost use Rattle.room.specs.Room.{ShowsStatus};
    ghost use Rattle.room.specs.Runs.{ComesTo};
    ghost use Rattle.room.specs.Usage.{ShowsUsage};
    ghost use Rattle.database.specs.Reports.{ShowsReport};
    ghost use Rattle.database.specs.Closing.{ClosesRun, IsClosed, IsClosingRefused};

    /// Begins a transaction, which reads the rows that are committed now, and what it writes itself. 62 may be open.
    pub fn begin(&self) -> Result<Transaction<'_, D, R, J>, Fault>
        // A run ends in this call's Begin. Its reply has the number of the transaction's session, or the fault.
        ensures ok { IfOk result (λ transaction. AnswersStep Begin began_of (Ok transaction.session)) }
        ensures err { IfErr result (λ fault. AnswersStep Begin began_of (Err fault)) }

        // If the history is kept, the transaction knows it up to this Begin, and its session is the one that was free then. It has
        // made no step since.
        ensures begun { IfOk result (λ transaction. HasBegun J.opened J.kept transaction.session transaction.trace) }
    {
        match self.shared.begin(&self.rt, self.is_kept) {
            Ok((session, begun)) => Ok(Transaction::new(&self.rt, &self.shared, session, begun)),
            Err(fault) => Err(fault),
        }
    }

    /// Makes these writes in a transaction of their own, as `Transaction::write` does, and commits it, as `Transaction::commit`
    /// does. It takes the lock once before it waits. `Refused` means that nothing of them is kept.
    pub fn write(&self, writes: &[(Key, Option<Row>)]) -> Result<Option<Ts>, CommitError>
        // A run ends in a Begin and these writes of its session, all of which were made. What is returned says of its commit what
        // `Transaction::commit` says.
        ensures ok { IfOk result (ReportsWritten writes.now) }

        // `Refused`, and a run ends in a Begin that was refused with this fault. Or `Refused`, and a run ends in a Begin, the
        // writes of its session up to the first that was refused, with this fault, and its abort. Or a run ends in a Begin and
        // all these writes, and its commit wasn't acknowledged, as `Transaction::commit` says.
        ensures err { IfErr result (ReportsUnwritten writes.now) }
    {
        self.shared.write(&self.rt, writes)
    }

    /// The numbers of the ruling record, its gaps and long commits, and the next timestamp, of a state that a run comes to.
    pub fn status(&self) -> Status
        ensures { ComesTo (λ q. ShowsStatus q result) }
    {
        let locked = self.shared.locked(&self.rt);
        let Some(room) = &locked.room else {
            unreachable!()
        };
        room.status()
    }

    /// How many rows are committed, and how many slots hold no version, in a state that a run comes to. It takes the lock, and
    /// the time doesn't grow with the store.
    pub fn usage(&self) -> Usage
        ensures { ComesTo (λ q. ShowsUsage q result) }
    {
        let locked = self.shared.locked(&self.rt);
        let Some(room) = &locked.room else {
            unreachable!()
        };
        room.usage()
    }

    /// The layout, the numbers of the ruling record and how the slots are used, all at one moment. It takes the lock once.
    pub fn report(&self) -> Report
        ensures { ComesTo (λ q. ShowsReport q result) }
    {
        let locked = self.shared.locked(&self.rt);
        let Some(room) = &locked.room else {
            unreachable!()
        };
        room.report()
    }

    /// The layout of a state that a run comes to.
    pub fn geometry(&self) -> Geometry
        ensures { ComesTo (λ q. result ≡ q.layout) }
    {
        let locked = self.shared.locked(&self.rt);
        let Some(room) = &locked.room else {
            unreachable!()
        };
        room.geometry()
    }

    /// Ends the workers, covers all that was committed, and returns the device. No transaction is open then, since each borrows the
    /// database.
    pub fn close(self) -> Result<D, Refused<D>>
        // At Ok a device was opened when it was at rest, and steps were made since. Whatever history its image stands for, these
        // steps are a run of the plain machine from the state that it opened as, and the history only grew. A crash at any moment
        // since the opening left what one may leave within the opening, within a step or within closing. Each image that a crash
        // leaves now covers all that was covered and drawn.
        ensures ok { IfOk result (λ device. ∥ ClosesRun (D.state device) (IsClosed (D.state device)) ∥₁) }

        // At Err the same of the run and of what a crash leaves, and why closing was refused.
        ensures err { IfErr result (λ e. ∥ ClosesRun (D.state e.device) (IsClosingRefused (D.state e.device) e.fault) ∥₁) }
    {
        match self.close_known() {
            Ok(closed) => Ok(closed.device),
            Err(refused) => Err(refused),
        }
    }

    /// The same, and returns the history up to there, if that is kept.
    pub fn close_known(self) -> Result<Closed<D, J>, Refused<D>>
        // As for `close`.
        ensures ok { IfOk result (λ closed. ∥ ClosesRun (D.state closed.device) (IsClosed (D.state closed.device)) ∥₁) }
        ensures err { IfErr result (λ e. ∥ ClosesRun (D.state e.device) (IsClosingRefused (D.state e.device) e.fault) ∥₁) }

        // If the history is kept, what is returned can be made from whatever the device opened as. Each image that a crash leaves now
        // covers all that was covered and drawn in the state that it leads to.
        ensures history { IfOk result (λ closed. ClosesAt J.opened J.kept (D.state closed.device) closed.front) }
    {
        self.shared.end_work(&self.rt);
        let room = self.shared.take_out(&self.rt);
        let front = room.known_if(&self.rt, self.is_kept);
        match close_room(room) {
            Ok(device) => Ok(Closed { device, front }),
            Err(refused) => Err(refused),
        }
    }
}
