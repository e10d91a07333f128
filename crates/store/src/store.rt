//! Conflicts are normal if threads share a store, so `transact` tries again by itself, and callers don't need a loop each.
//! Transactions borrow the store, and closing takes it by value, so by the types none is open then.

ghost use Rattle.std.specs.Prelude.{◌≡◌, ℕ, IfSome, IfNone};
ghost use Rattle.std.specs.String.{string_bytes};
ghost use Rattle.base.specs.Layout.{row_limit};
ghost use Rattle.base.specs.declared.fault.Fault.TheVariants.{Damaged};
ghost use Rattle.pmem_file.specs.Devices.{failure_of, state_of};
ghost use Rattle.room.specs.Runs.{ComesTo};
ghost use Rattle.database.specs.Closing.{ClosesRun, IsClosingRefused};
ghost use Rattle.store.specs.Files.{IsRefusedWith, IsUnopened, ReportsFault, ReportsFound, ReportsLayout};
ghost use Rattle.store.specs.declared.error.StoreError.{StoreError};
ghost use Rattle.store.specs.Errors.{part_of};
ghost use Rattle.store.specs.Opening.{IsFindingError, IsOpeningError, IsClosingError};

use crate::closed::{Closed, close_file};
use crate::error::{Layout, Part, StoreError};
use crate::file::StoreFile;
use crate::files::{Device, Refusal, open_database};
use crate::reading::Snapshot;
use crate::status::Status;
use crate::transaction::{Transaction, put_error};
use base::Ts;
use base::fault::Fault;
use base::geometry::Geometry;
use base::key::Key;
use base::row::Row;
use database::{CommitError, Database, Front, Origin, Refused};
use std::alloc::Global;
use std::fs::File;
use std::marker::Brand;
use std::rt::Files;
use std::sync::Wait;
use std::thread::Threads;

/// The most transactions that one `transact` begins.
pub const TRIES: u64 = 1_000;

/// How a try ends, unless it fails with an error other than a conflict.
#[derive(Drop)]
pub enum Attempt<T, C> {
    // What the changes returned, and what their commit did.
    Committed(T, C),
    // Another commit of this key came first.
    Conflict(Key),
}

/// A store of rows in a file. Threads share it by reference. A drop leaves the file as a crash would: what was committed is kept.
#[derive(Drop)]
pub struct Store<R: Wait + Drop, J: Origin = Brand> {
    alloc: Global,
    name: String,
    database: Database<Device, R, J>,
    // It never changes, so a begin takes no lock for it.
    layout: Geometry,
    ghost laid_out: { ComesTo (λ q. layout ≡ q.layout) },
}

impl<R: Files<File = File> + Threads + Wait + Copy + Drop + Send + Sync + 'static> Store<R> {
    ghost use Rattle.std.specs.Prelude.{◌≡◌, IfOk, IfErr, OnOk};
    ghost use Rattle.std.specs.String.{string_bytes};
    ghost use Rattle.store.specs.Files.{OpensExisting, OpensLayout};
    ghost use Rattle.store.specs.Opening.{IsFindingError, IsOpeningError};

    /// Opens the file, which is created with this layout if it is missing or empty. It reads the whole file and waits for its
    /// syncs, but not for another process.
    pub fn open(
        rt: R,
        alloc: Global,
        name: &str,
        geometry: Geometry,
    ) -> Result<Store<R>, StoreError>
        // A device was opened that was at rest, whose image has the layout that was asked for and isn't refused.
        ensures ok { OnOk result (OpensLayout geometry) }

        // The store keeps the name.
        ensures name { IfOk result (λ store. string_bytes store.name ≡ name.now) }

        // At Err memory is lacking, or it is one of `File`, `OtherLayout`, `Damaged`, `NotOpened` and `Lost`, each of which names
        // the file. `OtherLayout` has the layout that was asked for and, as found, one that a device at rest has. `Lost` has the
        // cause for which a write or a sync of a file failed. `Damaged` names the part that opening a device of this layout
        // reports. `NotOpened` has a fault that isn't damage, and that `open_database` reports.
        ensures err { IfErr result (IsOpeningError name.now geometry) }
    {
        let name = String::from_str(alloc, name)?;
        match open_database(&rt, alloc, name.as_str(), geometry) {
            Ok(database) => Ok(over(alloc, name, database)),
            Err(refusal) => Err(not_opened(name, geometry, refusal)),
        }
    }

    /// Opens the store that the file holds, with the layout that it has: `status` says which. It creates no file, and it waits as
    /// `open` does.
    pub fn open_existing(rt: R, alloc: Global, name: &str) -> Result<Store<R>, StoreError>
        // A device was opened that was at rest, whose image has a layout and isn't refused.
        ensures ok { OnOk result OpensExisting }

        // The store keeps the name.
        ensures name { IfOk result (λ store. string_bytes store.name ≡ name.now) }

        // At Err memory is lacking, or it is one of `Missing`, `File`, `Damaged`, `NotOpened` and `Lost`, each of which names the
        // file. With `Damaged` and `NotOpened`, a device has a layout, and opening it is refused for this reason. `Damaged` names
        // the part of that layout.
        ensures err { IfErr result (IsFindingError name.now) }
    {
        StoreFile::find(&rt, alloc, name)?.open(rt, alloc)
    }
}

/// The store over this database.
pub fn over<R: Wait + Drop, J: Origin>(
    alloc: Global,
    name: String,
    database: Database<Device, R, J>,
) -> Store<R, J>
    ensures { result.name ≡ name }
{
    let layout = database.geometry();
    Store {
        alloc,
        name,
        database,
        layout,
    }
}

/// The error, with the name of the file and the layout that was asked for or found.
pub fn not_opened(name: String, geometry: Geometry, refusal: Refusal) -> StoreError
    requires layout { ReportsLayout geometry refusal }
    requires fault { ReportsFault geometry refusal }
    ensures opening { IsOpeningError (string_bytes name) geometry result }
    ensures finding { ReportsFound geometry refusal → IsFindingError (string_bytes name) result }
{
    match refusal {
        Refusal::File(cause) => StoreError::File { name, cause },
        Refusal::OtherLayout(found) => StoreError::OtherLayout {
            name,
            found: Layout { geometry: found },
            asked: Layout { geometry },
        },
        Refusal::Lost(cause) => StoreError::Lost { name, cause },
        Refusal::Fault(fault) => refused(name, geometry, fault),
    }
}

// The part that is damaged, or the other reason why opening is refused.
fn refused(name: String, geometry: Geometry, fault: Fault) -> StoreError
    requires why { IsUnopened geometry fault }
    ensures names { IsOpeningError (string_bytes name) geometry result }
    ensures finding { IsRefusedWith geometry fault → IsFindingError (string_bytes name) result }
    ensures part { (number : ℕ) → fault ≡ Damaged number → result ≡ StoreError.Damaged name (part_of geometry number) }
{
    match fault {
        Fault::Damaged(number) => StoreError::Damaged {
            name,
            part: Part::of(&geometry, number),
        },
        fault => StoreError::NotOpened { name, fault },
    }
}

impl<R: Wait + Drop> Store<R> {
    ghost use Rattle.std.specs.Prelude.{IfOk, IfErr};
    ghost use Rattle.store.specs.Trying.{CommitsWithin, FailsWithin, Fails, EndsTry};

    /// Makes the changes in one transaction and commits it. It returns what the changes return, and the timestamp, or `None` if
    /// nothing was written. After a conflict it tries again, on the rows as the other commit left them. After any other error,
    /// including the changes' own, nothing is kept, unless the error is `Unknown`. It waits for a sync of the file, as a commit
    /// does.
    pub fn transact<T: Drop, F: Drop + FnMut(&mut Transaction<'_, R>) -> Result<T, StoreError>>(
        &self,
        changes: F,
    ) -> Result<(T, Option<Ts>), StoreError>
        // The changes may be called.
        requires callable { F.IsAlwaysCallable changes }

        // The changes were called once for each try, a thousand at most, each time on a transaction that was begun for it. In
        // each try but the last, the draw of its session was refused for a conflict. By then what was drawn is covered, or the
        // committer has ended, or a tick was refused memory. In the last try the changes returned the value that is returned, and
        // the session's commit returned the timestamp, as `Transaction::commit` says.
        ensures ok { IfOk result (λ done. CommitsWithin F.step (λ lent. lent.now.snapshot.reads.session) 1000 changes done.0 done.1) }

        // After some such tries in vain, or none, no transaction was begun. Or the changes returned this error, and the session's
        // abort was made. Or its commit was refused, but not for a conflict. Or all tries that were allowed were in vain, the
        // last one on the key of `GivenUp`.
        ensures err { IfErr result (FailsWithin F.step (λ lent. lent.now.snapshot.reads.session) 1000 changes) }
    {
        self.transact_within(TRIES, changes)
    }

    /// The same with at most this many tries instead of a thousand. If the number is 0, it tries once.
    pub fn transact_within<
        T: Drop,
        F: Drop + FnMut(&mut Transaction<'_, R>) -> Result<T, StoreError>,
    >(&self, tries: u64, mut changes: F) -> Result<(T, Option<Ts>), StoreError>
        requires callable { F.IsAlwaysCallable changes }

        // As for `transact`.
        ensures ok { IfOk result (λ done. CommitsWithin F.step (λ lent. lent.now.snapshot.reads.session) tries changes done.0 done.1) }
        ensures err { IfErr result (FailsWithin F.step (λ lent. lent.now.snapshot.reads.session) tries changes) }
    {
        for _made in 1..tries {
            match self.attempt(&mut changes) {
                Ok(Attempt::Committed(value, timestamp)) => return Ok((value, timestamp)),
                Ok(Attempt::Conflict(_)) => {}
                Err(error) => return Err(error),
            }
        }
        match self.attempt(&mut changes) {
            Ok(Attempt::Committed(value, timestamp)) => Ok((value, timestamp)),
            Ok(Attempt::Conflict(key)) => Err(StoreError::GivenUp { tries, key }),
            Err(error) => Err(error),
        }
    }

    // One try: makes the changes in a transaction of their own, and commits it.
    fn attempt<T: Drop, F: Drop + FnMut(&mut Transaction<'_, R>) -> Result<T, StoreError>>(
        &self,
        changes: &mut F,
    ) -> Result<Attempt<T, Option<Ts>>, StoreError>
        requires callable { F.IsAlwaysCallable changes.old }
        ensures callable { F.IsAlwaysCallable changes.new }
        ensures ok { IfOk result (λ attempt. EndsTry F.step (λ lent. lent.now.snapshot.reads.session) changes.old attempt changes.new) }
        ensures err { IfErr result (Fails F.step (λ lent. lent.now.snapshot.reads.session) changes.old) }
    {
        let mut transaction = self.begin()?;
        match changes(&mut transaction) {
            Ok(value) => match transaction.commit() {
                Ok(timestamp) => Ok(Attempt::Committed(value, timestamp)),
                Err(error) => match error {
                    StoreError::Conflict(key) => Ok(Attempt::Conflict(key)),
                    error => Err(error),
                },
            },
            Err(error) => {
                let _ = transaction.abort();
                Err(error)
            }
        }
    }
}

impl<R: Wait + Drop, J: Origin> Store<R, J> {
    ghost use Rattle.std.specs.Prelude.{◌≡◌, ◌-◌, Ok, Err, IfOk, IfErr, OnOk};
    ghost use Rattle.std.specs.String.{string_bytes};
    ghost use Rattle.base.specs.Layout.{row_limit};
    ghost use Rattle.base.specs.declared.step.Step.TheVariants.{Begin};
    ghost use Rattle.room.specs.Runs.{ComesTo};
    ghost use Rattle.database.specs.Histories.{HasBegun};
    ghost use Rattle.database.specs.Replies.{began_of};
    ghost use Rattle.database.specs.Committing.{ReportsWritten};
    ghost use Rattle.store.specs.Answers.{Answers, IsUnwritten};
    ghost use Rattle.store.specs.Opening.{IsCovered, IsClosingError};
    ghost use Rattle.store.specs.Closed.{IsClosedAs};
    ghost use Rattle.store.specs.Status.{ShowsStore};

    /// Begins a transaction, which reads the rows that are committed now, and what it writes itself. At most 62 transactions and snapshots
    /// can be open: another one is refused with `TooManyTransactions`. It waits as a read does.
    pub fn begin(&self) -> Result<Transaction<'_, R, J>, StoreError>
        // A run ends in this call's Begin, and its reply has the number of the session.
        ensures ok { IfOk result (λ transaction. Answers Begin began_of (Ok transaction.snapshot.reads.session)) }

        // If the history is kept, the transaction knows it up to this Begin, and its session is the one that was free then. It has
        // made no step since.
        ensures begun { IfOk result (λ transaction. HasBegun J.opened J.kept transaction.snapshot.reads.session transaction.snapshot.reads.trace) }

        // The transaction knows the greatest length of a row in a state that a run comes to.
        ensures limit { IfOk result (λ transaction. ComesTo (λ q. transaction.row_limit ≡ row_limit q.layout.version)) }

        // A run ends in this call's Begin, and its reply has the fault from which the error is made.
        ensures err { IfErr result (λ error. Answers Begin began_of (Err error)) }
    {
        Ok(Transaction {
            snapshot: self.read()?,
            row_limit: self.layout.row_limit(),
        })
    }

    /// A snapshot of the rows that are committed now, which can be read until it is dropped. It counts among the 62 too. It waits as a
    /// read does.
    pub fn read(&self) -> Result<Snapshot<'_, R, J>, StoreError>
        // A run ends in this call's Begin. Its reply has the number of the session, or the fault from which the error is made.
        ensures ok { IfOk result (λ snapshot. Answers Begin began_of (Ok snapshot.reads.session)) }
        ensures err { IfErr result (λ error. Answers Begin began_of (Err error)) }

        // As for `begin`.
        ensures begun { IfOk result (λ snapshot. HasBegun J.opened J.kept snapshot.reads.session snapshot.reads.trace) }
    {
        Ok(Snapshot {
            alloc: self.alloc,
            reads: self.database.begin()?,
        })
    }

    /// Makes these writes in a transaction of their own, as `Transaction::write` does, and commits it, as `Transaction::commit` does. It waits
    /// as a read does, and then for a sync of the file.
    pub fn write(&self, writes: &[(Key, Option<Row>)]) -> Result<Option<Ts>, StoreError>
        // As `Database::write` says. The error for TooLong has the greatest length of a row.
        ensures ok { IfOk result (ReportsWritten writes.now) }
        ensures err { IfErr result (IsUnwritten writes.now) }
    {
        match self.database.write(writes) {
            Ok(timestamp) => Ok(timestamp),
            Err(CommitError::Refused(fault)) => Err(put_error(self.layout.row_limit(), fault)),
            Err(CommitError::Open(fault)) => Err(StoreError::Unknown(fault)),
        }
    }

    /// The layout of the store.
    pub fn layout(&self) -> Geometry
        // That of a state that a run comes to.
        ensures { ComesTo (λ q. result ≡ q.layout) }
    {
        self.layout
    }

    /// The layout of the store, how far it has come, and how full it is, all at one moment. The time that it takes doesn't grow with
    /// the store.
    pub fn status(&self) -> Status
        // All of one state that a run comes to: its layout, the number and the timestamp of the ruling record, and how many long
        // commits and gaps it names. Also how many rows are covered, how many slots hold no version, and how many commits may
        // still be made. That is the lesser of two: how many timestamps may be drawn (the machine refuses a draw within two
        // windows of the last one), and how many records may follow.
        ensures shows { ComesTo (λ q. ShowsStore q result) }

        // How many slots aren't free.
        ensures versions { result.versions ≡ result.slots - result.free }
    {
        Status::of(&self.database.report())
    }

    /// The name of the store's file.
    pub fn name(&self) -> &str
        ensures { result.now ≡ string_bytes self.now.name }
    {
        self.name.as_str()
    }

    /// Covers all that was committed, and closes the file. It waits for the store's two threads to end, and for the last syncs.
    /// No transaction is open, since each borrows the store.
    pub fn close(self) -> Result<(), StoreError>
        // All that was covered and drawn since a device was opened is covered on it, whatever a crash leaves, as
        // `Database::close` says.
        ensures ok { OnOk result IsCovered }

        // `Lost` or `NotClosed`, which names the file. With `NotClosed`, closing a device that was opened is refused for its
        // fault, and no write or sync of its file failed. With `Lost`, either closing is refused and a write or a sync failed for
        // this cause, or all is covered and closing the file itself failed.
        ensures err { IfErr result (IsClosingError (string_bytes self.name)) }
    {
        match self.close_known() {
            Ok(_) => Ok(()),
            Err(error) => Err(error),
        }
    }

    /// The same, and returns the file's account, and the history up to there, if that is kept.
    pub fn close_known(self) -> Result<Closed<J>, StoreError>
        // As for `close`.
        ensures covered { OnOk result IsCovered }
        ensures err { IfErr result (IsClosingError (string_bytes self.name)) }

        // By its account the file was cut to one image, and is found as nothing else. If the history is kept, what is returned can be
        // made from whatever the device opened as. That image covers all that was covered and drawn in the state that it leads to.
        ensures file { IfOk result (λ closed. IsClosedAs J.opened J.kept closed.account closed.front) }
    {
        let Store { name, database, .. } = self;
        match database.close_known() {
            Ok(closed) => close_file(name, closed),
            Err(Refused { fault, device }) => Err(not_closed(name, device, fault)),
        }
    }
}

// If a write or a sync of the file failed, the cause. Otherwise the fault with which closing was refused; then the file is closed.
fn not_closed(name: String, device: Device, fault: Fault) -> StoreError
    requires refused { ∥ ClosesRun (state_of device) (IsClosingRefused (state_of device) fault) ∥₁ }
    ensures names { IsClosingError (string_bytes name) result }

    // If closing is refused, it is `Lost` and the cause exactly if a write or a sync of the file failed, and otherwise
    // `NotClosed` and the fault.
    ensures lost { IfSome (failure_of device) (λ cause. result ≡ StoreError.Lost name cause) }
    ensures fault { IfNone (failure_of device) (result ≡ StoreError.NotClosed name fault) }
{
    match device.failure() {
        Some(cause) => StoreError::Lost { name, cause },
        None => {
            let _ = device.close();
            StoreError::NotClosed { name, fault }
        }
    }
}
