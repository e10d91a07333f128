ghost use Rattle.std.specs.Prelude.{◌≡◌, ◌<◌, ◌≤◌, false, Some, IfOk, IfErr, OnErr};
ghost use Rattle.txn.specs.Transactions.{transaction_at};
ghost use Rattle.txn.specs.declared.transaction.Transaction.TheVariants.{Active as IsActiveWith};
ghost use Rattle.session_steps.specs.Steps.{IsBarred, is_active, is_one_of, bar_of};

use base::fault::Fault;
use snapshot::Snapshot;
use txn::{Transaction, Transactions, WriteSet};

/// What an Active session reads and has written.
#[derive(Clone, Copy)]
pub struct Active<'a> {
    pub snapshot: &'a Snapshot,
    pub writes: &'a WriteSet,
}

/// A session's transaction isn't one that the step applies to. `bar` says which fault that is, when it is needed: a fault has room
/// for a key, and would be moved from call to call.
#[derive(Clone, Copy)]
pub struct Barred;

/// What bars a session whose transaction isn't one that the step applies to.
#[inline(always)]
pub fn bar(transactions: &Transactions, session: u8) -> Fault
    ensures { result ≡ bar_of (transaction_at transactions.now session) }
{
    match transactions.get(session) {
        None => Fault::NoSession,
        Some(_) => Fault::WrongState,
    }
}

/// The session of this number, if it is Active.
#[inline(always)]
pub fn find_active(transactions: &Transactions, session: u8) -> Result<Active<'_>, Barred>
    ensures ok { IfOk result (λ found. transaction_at transactions.now session ≡ Some (IsActiveWith found.snapshot.now found.writes.now)) }
    ensures within { IfOk result (λ found. (2 ≤ session) × (session < 64)) }
    ensures barred { OnErr result (is_one_of is_active (transaction_at transactions.now session) ≡ false) }
{
    match transactions.get(session) {
        None => Err(Barred),
        Some(Transaction::Active { snapshot, writes }) => Ok(Active {
            snapshot: snapshot.get(),
            writes,
        }),
        Some(Transaction::Drawn(_)) => Err(Barred),
        Some(Transaction::ReadOnly) => Err(Barred),
    }
}

/// The session of this number, if it is Active.
#[inline(always)]
pub fn active_in(transactions: &Transactions, session: u8) -> Result<Active<'_>, Fault>
    ensures ok { IfOk result (λ found. transaction_at transactions.now session ≡ Some (IsActiveWith found.snapshot.now found.writes.now)) }
    ensures within { IfOk result (λ found. (2 ≤ session) × (session < 64)) }
    ensures fault { IfErr result (λ fault. IsBarred is_active (transaction_at transactions.now session) fault) }
{
    match transactions.get(session) {
        None => Err(Fault::NoSession),
        Some(Transaction::Active { snapshot, writes }) => Ok(Active {
            snapshot: snapshot.get(),
            writes,
        }),
        Some(Transaction::Drawn(_)) => Err(Fault::WrongState),
        Some(Transaction::ReadOnly) => Err(Fault::WrongState),
    }
}
