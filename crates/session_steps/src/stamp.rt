//! A stamp makes two stores and waits for neither: no reader counts a timestamp before the record that covers it, and the cycle
//! that writes this record flushes and fences both lines before its gate. A batch takes in only commits that are stamped whole,
//! so a crash between two stamps of a commit shows none of it.

ghost use Rattle.std.specs.Prelude.{◌≡◌, ◌++◌, false, nat_lt, length, IsTrue, IfErr, IfSome, IfNone, OnErr, OnOk};
ghost use Rattle.base.specs.Layout.{total_words};
ghost use Rattle.base.specs.declared.fault.Fault.TheVariants.{Device as DeviceFault};
ghost use Rattle.pmem.specs.Trace.{Runs, StopsWithin};
ghost use Rattle.version_slot.specs.Operations.{begin_operations, end_operations};
ghost use Rattle.session_steps.specs.Giving.{fits_slot};
ghost use Rattle.session_steps.specs.Stamping.{IsNextIn};

use crate::active::{Barred, bar};
use crate::sessions::Sessions;
use base::fault::Fault;
use base::geometry::Geometry;
use base::{SlotNo, Ts};
use pmem::Pmem;
use txn::{DrawnCommit, Transaction, Write};
use version_slot::{stamp_begin, stamp_end};

/// The next write of a commit that isn't stamped whole.
#[derive(Clone, Copy)]
pub struct Unstamped<'a> {
    pub timestamp: Ts,
    pub write: &'a Write,
    /// Whether none is left after it.
    pub is_last: bool,
}

impl Sessions {
    ghost use Rattle.std.specs.Prelude.{Some, IfOk};
    ghost use Rattle.base.specs.declared.step.SessionStep.TheVariants.{Stamp};
    ghost use Rattle.txn.specs.Transactions.{transaction_at};
    ghost use Rattle.txn.specs.declared.transaction.Transaction.TheVariants.{Drawn};
    ghost use Rattle.session_steps.specs.Stamping.{IsNextOf, is_unstamped};
    ghost use Rattle.session_steps.specs.Replies.{stamped};
    ghost use Rattle.session_steps.specs.Steps.{HoldsSomeOn, TakesOn, is_one_of};

    // The write that the session of this number stamps next.
    #[inline(always)]
    fn unstamped(&self, session: u8) -> Result<Unstamped<'_>, Barred>
        ensures at { IfOk result (λ next. transaction_at self.now.transactions session ≡ Some (Drawn next.timestamp)) }
        ensures next { IfOk result (λ next. IsNextOf self.now.drawn.commits next) }
        ensures barred { OnErr result (is_one_of (is_unstamped self.now.drawn.commits) (transaction_at self.now.transactions session) ≡ false) }
    {
        match self.transactions.get(session) {
            None => Err(Barred),
            Some(Transaction::Active { .. }) => Err(Barred),
            Some(Transaction::Drawn(timestamp)) => match self.drawn.get(*timestamp) {
                Some(commit) => match next_of(*timestamp, commit) {
                    Some(next) => Ok(next),
                    None => Err(Barred),
                },
                None => Err(Barred),
            },
            Some(Transaction::ReadOnly) => Err(Barred),
        }
    }

    /// Stamps one more write of a session's commit. Returns whether it was the last.
    #[inline(never)]
    pub fn stamp<D: Pmem>(&mut self, device: &mut D, session: u8) -> Result<bool, Fault>
        requires shown { ∥ HoldsSomeOn self.old (D.state device.old) ∥₁ }
        ensures step { TakesOn self.old self.new (D.state device.old) (D.state device.new) (Stamp session) (stamped result) }
    {
        let next = match self.unstamped(session) {
            Ok(next) => next,
            Err(_) => return Err(bar(&self.transactions, session)),
        };
        let timestamp = next.timestamp;
        let is_last = next.is_last;
        let geometry = self.numbers.geometry;
        let ended = self.index.live(next.write.key, next.write.place);
        match stamp_write(device, geometry, next.write.slot, ended, timestamp) {
            Ok(()) => {
                self.drawn.stamp(timestamp);
                if is_last { Ok(true) } else { Ok(false) }
            }
            // The only possible fault, made again here, so that none is passed on from each store.
            Err(_) => Err(Fault::Device),
        }
    }
}

// The next write of a commit, if one is left.
#[inline(always)]
fn next_of(timestamp: Ts, commit: &DrawnCommit) -> Option<Unstamped<'_>>
    ensures some { IfSome result (λ next. IsNextIn commit.now next.write.now next.is_last) }
    ensures timestamp { IfSome result (λ next. next.timestamp ≡ timestamp) }
    ensures none { IfNone result (nat_lt commit.now.stamped (length commit.now.writes) ≡ false) }
{
    let len = commit.writes.len();
    match commit.writes.get(commit.stamped) {
        Some(write) => Some(Unstamped {
            timestamp,
            write,
            is_last: commit.stamped + 1 == len,
        }),
        None => None,
    }
}

// Stores a timestamp in the begin of a write's version, and in the end of the version that it ends, if it has these.
#[inline(always)]
fn stamp_write<D: Pmem>(
    device: &mut D,
    geometry: Geometry,
    own: Option<SlotNo>,
    ended: Option<SlotNo>,
    timestamp: Ts,
) -> Result<(), Fault>
    requires own { IsTrue (fits_slot geometry.slots own) }
    requires ended { IsTrue (fits_slot geometry.slots ended) }
    requires device { (D.state device.old).words ≡ total_words geometry }
    ensures ok { OnOk result (Runs (begin_operations geometry own timestamp ++ end_operations geometry ended timestamp) (D.state device.old) (D.state device.new)) }
    ensures err { OnErr result (StopsWithin (begin_operations geometry own timestamp ++ end_operations geometry ended timestamp) (D.state device.old) (D.state device.new)) }
    ensures fault { IfErr result (λ fault. fault ≡ DeviceFault) }
{
    match stamp_own(device, geometry, own, timestamp) {
        Ok(()) => {}
        Err(fault) => return Err(fault),
    }
    match stamp_ended(device, geometry, ended, timestamp) {
        Ok(()) => Ok(()),
        Err(fault) => Err(fault),
    }
}

// Stores a timestamp in the begin of a slot, if there is one.
#[inline(always)]
fn stamp_own<D: Pmem>(
    device: &mut D,
    geometry: Geometry,
    own: Option<SlotNo>,
    timestamp: Ts,
) -> Result<(), Fault>
    requires own { IsTrue (fits_slot geometry.slots own) }
    requires device { (D.state device.old).words ≡ total_words geometry }
    ensures ok { OnOk result (Runs (begin_operations geometry own timestamp) (D.state device.old) (D.state device.new)) }
    ensures err { OnErr result (StopsWithin (begin_operations geometry own timestamp) (D.state device.old) (D.state device.new)) }
    ensures fault { IfErr result (λ fault. fault ≡ DeviceFault) }
    ensures size { (D.state device.new).words ≡ (D.state device.old).words }
{
    match own {
        Some(slot) => stamp_begin(device, geometry, slot, timestamp),
        None => Ok(()),
    }
}

// Stores a timestamp in the end of a slot, if there is one.
#[inline(always)]
fn stamp_ended<D: Pmem>(
    device: &mut D,
    geometry: Geometry,
    ended: Option<SlotNo>,
    timestamp: Ts,
) -> Result<(), Fault>
    requires ended { IsTrue (fits_slot geometry.slots ended) }
    requires device { (D.state device.old).words ≡ total_words geometry }
    ensures ok { OnOk result (Runs (end_operations geometry ended timestamp) (D.state device.old) (D.state device.new)) }
    ensures err { OnErr result (StopsWithin (end_operations geometry ended timestamp) (D.state device.old) (D.state device.new)) }
    ensures fault { IfErr result (λ fault. fault ≡ DeviceFault) }
{
    match ended {
        Some(slot) => stamp_end(device, geometry, slot, timestamp),
        None => Ok(()),
    }
}
