ghost use Rattle.std.specs.Prelude.{◌≡◌, ◌≢◌, ◌⊎◌, [], true, false, All, IfErr, IfOk, IsTrue, MatchBool, OnOk};
ghost use Rattle.base.specs.declared.fault.Fault.TheVariants.{OutOfMemory, WrongState};
ghost use Rattle.base.specs.declared.step.Note.TheVariants.{Refused};
ghost use Rattle.engine.specs.declared.phase.Phase.TheVariants.{Idle};
ghost use Rattle.engine.specs.Calls.{ReportsLast};
ghost use Rattle.engine.specs.Origins.{Knows};
ghost use Rattle.workload.specs.Load.{EndsInPut, GivesUp, IsRefusedWith, Makes, MakesNone, MakesOne, ReportsNothing, Works, may_pass};
ghost use Rattle.workload.specs.Tasks.{AllWork, AreFresh};

use crate::task::Task;
use base::fault::Fault;
use base::key::Key;
use base::row::Row;
use engine::{Origin, Phase, Session};
use pmem::Pmem;
use std::sync::Wait;
use std::thread::{Threads, for_each_mut, yield_now};

/// Lets each session make its commits in a thread of its own.
pub fn commit_all<
    T: Threads + Wait + Sync,
    D: Pmem + Drop + Send + Sync,
    J: Origin + Send + Sync,
    B: Drop + Send,
>(rt: &T, tasks: &mut [Task<D, J, B>], commits: u64)
    requires fresh { AreFresh tasks.old }
    ensures { AllWork J.image commits tasks.new }
{
    let threads = tasks.len().max(1);
    let make = |key: usize, task: &mut Task<D, J, B>|
        requires { task.now.session.receipts.items ≡ [] }
        ensures { Works (Knows J.image task.exit.now.session.told) commits task.exit.now.session.receipts.items task.exit.now.fault }
    { work(rt, task, key as u64, commits) };
    for_each_mut(rt, tasks, threads, &make);
}

// Makes the commits of one thread, and keeps the fault that ended it.
fn work<T: Wait, D: Pmem + Drop, J: Origin, B: Drop>(
    rt: &T,
    task: &mut Task<D, J, B>,
    key: u64,
    commits: u64,
)
    requires fresh { task.old.session.receipts.items ≡ [] }
    ensures { Works (Knows J.image task.new.session.told) commits task.new.session.receipts.items task.new.fault }
{
    task.fault = match make_commits(rt, &mut task.session, key, commits) {
        Ok(()) => None,
        Err(fault) => Some(fault),
    };
}

// Puts the numbers from 1 on under this key of table 1, each in a commit.
fn make_commits<T: Wait, D: Pmem + Drop, J: Origin, B: Drop>(
    rt: &T,
    session: &mut Session<D, J, B>,
    key: u64,
    commits: u64,
) -> Result<(), Fault>
    requires fresh { session.old.receipts.items ≡ [] }

    // As many commits as were asked for are acknowledged and drawn, and no transaction is open then.
    ensures ok { OnOk result (Makes commits session.new.receipts.items) }

    // The thread's last step was refused with this fault, or its session was told that the committer ended with it. Or, of
    // WrongState, the thread's last commit reported that nothing was written, and ended its transaction.
    ensures err { IfErr result (GivesUp (Knows J.image session.new.told) session.new.receipts.items) }
{
    let key = Key { table: 1, key };
    for made in 0..commits {
        let row = row_of(made + 1);
        match make_commit(rt, session, key, row) {
            Ok(()) => {}
            Err(fault) => return Err(fault),
        }
    }
    Ok(())
}

// The number as a row of 8 bytes, the least first.
fn row_of(number: u64) -> Row {
    match Row::new(&number.to_le_bytes()) {
        Ok(row) => row,
        Err(_) => unreachable!(),
    }
}

// Puts the row in a commit, and tries again after faults that may pass.
fn make_commit<T: Wait, D: Pmem + Drop, J: Origin, B: Drop>(
    rt: &T,
    session: &mut Session<D, J, B>,
    key: Key,
    row: Row,
) -> Result<(), Fault>
    // One commit more is acknowledged and drawn, and no transaction is open then.
    ensures ok { OnOk result (MakesOne session.old.phase session.old.receipts.items session.new.receipts.items) }
    ensures closed { OnOk result (session.new.phase ≡ Idle) }

    // As for `make_commits`.
    ensures err { IfErr result (GivesUp (Knows J.image session.new.told) session.new.receipts.items) }
{
    for _ in rt.forever() {
        match attempt(rt, session, key, row) {
            Ok(is_made) => {
                if is_made {
                    return Ok(());
                }
            }
            Err(fault) => return Err(fault),
        }
        yield_now();
    }
    unreachable!()
}

// Tries to put the row in a commit. Whether it is made: it isn't after a fault that may pass.
fn attempt<T: Wait, D: Pmem + Drop, J: Origin, B: Drop>(
    rt: &T,
    session: &mut Session<D, J, B>,
    key: Key,
    row: Row,
) -> Result<bool, Fault>
    // If it is made, one commit more is acknowledged and drawn, and no transaction is open then. Otherwise none is.
    ensures ok { IfOk result (λ made. MatchBool made (MakesOne session.old.phase session.old.receipts.items session.new.receipts.items)
        (MakesNone session.old.phase session.old.receipts.items session.new.phase session.new.receipts.items)) }
    ensures closed { IfOk result (λ made. IsTrue made → session.new.phase ≡ Idle) }

    // As for `make_commits`.
    ensures err { IfErr result (GivesUp (Knows J.image session.new.told) session.new.receipts.items) }
{
    match try_commit(rt, session, key, row) {
        Ok(()) => Ok(true),
        Err(fault) => match step_back(rt, session, fault) {
            Ok(()) => Ok(false),
            Err(why) => Err(why),
        },
    }
}

// Puts the row, unless an earlier try did, and asks for the commit. Fails with `WrongState` if that reported that nothing was
// written.
fn try_commit<T: Wait, D: Pmem + Drop, J: Origin, B: Drop>(
    rt: &T,
    session: &mut Session<D, J, B>,
    key: Key,
    row: Row,
) -> Result<(), Fault>
    // One commit more is acknowledged and drawn, and no transaction is open then. At a fault that may pass none is.
    ensures ok { OnOk result (MakesOne session.old.phase session.old.receipts.items session.new.receipts.items) }
    ensures closed { OnOk result (session.new.phase ≡ Idle) }
    ensures none { IfErr result (λ fault. may_pass fault ≡ true → MakesNone session.old.phase session.old.receipts.items session.new.phase session.new.receipts.items) }

    // As for `make_commits`.
    ensures err { IfErr result (λ fault. (fault ≡ OutOfMemory) ⊎ (((fault ≡ WrongState) × ReportsNothing session.new.receipts.items) ⊎ IsRefusedWith (Knows J.image session.new.told) session.new.receipts.items fault)) }
{
    match begin_once(rt, session, key, row) {
        Ok(()) => match session.commit(rt) {
            Ok(committed) => match committed {
                Some(_) => Ok(()),
                None => Err(Fault::WrongState),
            },
            Err(fault) => Err(fault),
        },
        Err(fault) => Err(fault),
    }
}

// Begins a transaction with the row, unless one is there.
fn begin_once<T: Wait, D: Pmem + Drop, J: Origin, B: Drop>(
    rt: &T,
    session: &mut Session<D, J, B>,
    key: Key,
    row: Row,
) -> Result<(), Fault>
    ensures none { MakesNone session.old.phase session.old.receipts.items session.new.phase session.new.receipts.items }
    ensures is_open { OnOk result (session.new.phase ≢ Idle) }
    ensures err { IfErr result (λ fault. (fault ≡ OutOfMemory) ⊎ ReportsLast session.new.receipts.items (Refused fault)) }
{
    if matches!(session.phase(), Phase::Idle) {
        begin_with(rt, session, key, row)
    } else {
        Ok(())
    }
}

// Begins a transaction, and puts the row.
fn begin_with<T: Wait, D: Pmem + Drop, J: Origin, B: Drop>(
    rt: &T,
    session: &mut Session<D, J, B>,
    key: Key,
    row: Row,
) -> Result<(), Fault>
    requires { session.old.phase ≡ Idle }

    // A transaction that is begun has this row under this key: its last step is that put, which was done.
    ensures put { OnOk result (EndsInPut key row session.new.receipts.items) }

    ensures none { MakesNone session.old.phase session.old.receipts.items session.new.phase session.new.receipts.items }
    ensures is_open { OnOk result (session.new.phase ≢ Idle) }
    ensures err { IfErr result (λ fault. (fault ≡ OutOfMemory) ⊎ ReportsLast session.new.receipts.items (Refused fault)) }
{
    match session.begin(rt) {
        Ok(()) => session.put(rt, key, row),
        Err(fault) => Err(fault),
    }
}

// After a fault that may pass, aborts the transaction, unless its timestamp is drawn or the window is full. Then only its
// commit is asked again. Fails with any other fault.
fn step_back<T: Wait, D: Pmem + Drop, J: Origin, B: Drop>(
    rt: &T,
    session: &mut Session<D, J, B>,
    fault: Fault,
) -> Result<(), Fault>
    ensures ok { OnOk result ((may_pass fault ≡ true) × MakesNone session.old.phase session.old.receipts.items session.new.phase session.new.receipts.items) }
    ensures err { IfErr result (λ why. (may_pass why ≡ false) × (((why ≡ fault) × (session.new.receipts.items ≡ session.old.receipts.items) × (session.new.told ≡ session.old.told)) ⊎ ReportsLast session.new.receipts.items (Refused why))) }
{
    if !may_pass(fault) {
        return Err(fault);
    }
    if matches!(fault, Fault::WindowFull) {
        return Ok(());
    }
    give_up(rt, session)
}

// Aborts the transaction, if its timestamp isn't drawn yet.
fn give_up<T: Wait, D: Pmem + Drop, J: Origin, B: Drop>(
    rt: &T,
    session: &mut Session<D, J, B>,
) -> Result<(), Fault>
    ensures ok { OnOk result (MakesNone session.old.phase session.old.receipts.items session.new.phase session.new.receipts.items) }
    ensures err { IfErr result (λ why. (may_pass why ≡ false) × ReportsLast session.new.receipts.items (Refused why)) }
{
    for _ in rt.forever() {
        match session.phase() {
            Phase::Active(_) => match session.abort(rt) {
                Ok(()) => return Ok(()),
                Err(fault) => {
                    if !may_pass(fault) {
                        return Err(fault);
                    }
                }
            },
            _ => return Ok(()),
        }
        yield_now();
    }
    unreachable!()
}

// Whether the fault may pass while the other threads go on.
fn may_pass(fault: Fault) -> bool
    ensures { result ≡ may_pass fault }
{
    matches!(
        fault,
        Fault::SlotsOut | Fault::Conflict(_) | Fault::WindowFull | Fault::OutOfMemory
    )
}
