ghost use Rattle.std.specs.Prelude.{ℕ, ◌≡◌, ◌≤◌, ◌<◌, if◌then◌else◌, nat_eq, [], length, Some, IfSome, IfOk, IfErr};
ghost use Rattle.dirty_table.specs.Touches.{has};
ghost use Rattle.base.specs.declared.fault.Fault.TheVariants.{OutOfMemory};
ghost use Rattle.txn.specs.Tables.{entry_at};
ghost use Rattle.txn.specs.Transactions.{is_active};

use crate::held::HeldSnapshot;
use crate::transaction::Transaction;
use crate::write::Write;
use crate::write_set::WriteSet;
use base::Ts;
use base::fault::Fault;
use dirty_table::SessionSet;
use slab::Slab;
use snapshot::Covered;
use std::alloc::Global;
use std::marker::Model;
use std::mem;

/// The open transactions, each under the number of its session: at most 62, from 2.
#[derive(Drop)]
pub struct Transactions {
    slab: Slab<Transaction>,
    places: [Option<usize>; 62],
    // The numbers of those that are Active, so that a loop over these looks at no other.
    active: SessionSet,
    // Each number below this one has a session.
    first: u8,
    // Sets whose transactions ended, for those that begin. There is room for them from the first begin on.
    ended: Vec<WriteSet>,
    // And their snapshots, in the same way.
    held: Vec<HeldSnapshot>,
    alloc: Global,
}

impl Model for Transactions {
    ghost use Rattle.std.specs.Prelude.{List, Option};
    ghost use Rattle.txn.specs.declared.transaction.Transaction.{Transaction};

    ghost Value = { List (Option Transaction) };

    ghost use Rattle.std.specs.Prelude.{◌≤◌};
    ghost use Rattle.txn.specs.Tables.{listed, IsTable, AreTaken};
    ghost use Rattle.txn.specs.Transactions.{AreMarked};

    ghost view = { λ t. listed t.slab t.places };

    ghost invariant = { λ t. IsTable t.slab t.places × AreMarked t.active (listed t.slab t.places) × AreTaken t.first t.places × (2 ≤ t.first) };
}

// The lowest number that a session may have.
const FIRST: u8 = 2;

// How many sessions may be open.
const MOST: u8 = 62;

// The place of the session of this number.
#[inline(always)]
fn place_of(places: &[Option<usize>; 62], number: u8) -> Option<usize>
    requires { length places.now ≡ 62 }
    ensures place { result ≡ entry_at places.now number }
    ensures within { IfSome result (λ place. (2 ≤ number) × (number < 64)) }
{
    if number < FIRST || number >= FIRST + MOST {
        return None;
    }
    places[(number - FIRST) as usize]
}

// Notes whether the transaction of this number is Active.
#[inline(always)]
fn mark(active: &mut SessionSet, number: u8, transaction: &Transaction)
    requires { number < 64 }
    ensures { (n : ℕ) → has active.new n ≡ (if nat_eq n number then is_active (Some transaction.now) else has active.old n) }
{
    match transaction {
        Transaction::Active { .. } => active.insert(number),
        Transaction::Drawn(_) => active.remove(number),
        Transaction::ReadOnly => active.remove(number),
    }
}

// A set without writes: one whose transaction ended, or a new one.
fn empty_set(ended: &mut Vec<WriteSet>, alloc: Global) -> Result<WriteSet, Fault>
    ensures set { IfOk result (λ writes. writes ≡ []) }
    ensures fault { IfErr result (λ fault. fault ≡ OutOfMemory) }
{
    if let Some(mut writes) = ended.pop() {
        writes.clear();
        return Ok(writes);
    }
    if ended.reserve(MOST as usize).is_err() {
        return Err(Fault::OutOfMemory);
    }
    WriteSet::new(alloc)
}

// Keeps a set whose transaction ended, if there is room.
#[inline(always)]
fn keep(ended: &mut Vec<WriteSet>, writes: WriteSet) {
    if ended.len() < ended.capacity() {
        ended.push_reserved(writes);
    }
}

// Holds the snapshot in the memory of a released one, or in new memory.
#[inline(always)]
fn hold(
    held: &mut Vec<HeldSnapshot>,
    alloc: Global,
    covered: &Covered<'_>,
) -> Result<HeldSnapshot, Fault>
    ensures held { IfOk result (λ holds. holds ≡ covered.now) }
    ensures fault { IfErr result (λ fault. fault ≡ OutOfMemory) }
{
    if let Some(mut holds) = held.pop() {
        holds.set(covered);
        return Ok(holds);
    }
    if held.reserve(MOST as usize).is_err() {
        return Err(Fault::OutOfMemory);
    }
    HeldSnapshot::new(alloc, covered)
}

// Releases a snapshot, whose memory is kept if there is room.
#[inline(always)]
fn give_up(held: &mut Vec<HeldSnapshot>, snapshot: HeldSnapshot) {
    if held.len() < held.capacity() {
        held.push_reserved(snapshot);
    }
}

// Keeps the set of a transaction that ended, and its snapshot, if it has them.
#[inline(always)]
fn keep_of(
    ended: &mut Vec<WriteSet>,
    held: &mut Vec<HeldSnapshot>,
    transaction: Option<Transaction>,
) {
    if let Some(Transaction::Active { snapshot, writes }) = transaction {
        give_up(held, snapshot);
        keep(ended, writes);
    }
}

impl Transactions {
    ghost use Rattle.std.specs.Prelude.{◌⊎◌, false, [], None, IsSome, IfNone, option_copied};
    ghost use Rattle.base.specs.declared.fault.Fault.TheVariants.{SessionsFull, OutOfMemory};
    ghost use Rattle.std.specs.Prelude.{List};
    ghost use Rattle.snapshot.specs.Snapshots.{Seen};
    ghost use Rattle.txn.specs.declared.write.Write.{Write};
    ghost use Rattle.txn.specs.declared.transaction.Transaction.TheVariants.{Active, Drawn};
    ghost use Rattle.txn.specs.WriteSets.{HasRoomFor, with_write_at};
    ghost use Rattle.txn.specs.Transactions.{transaction_at, is_active, Sets, IsLowestFree, IsFull, IsNextActive};

    /// None is open.
    pub fn new(alloc: Global) -> Transactions
        ensures { (n : ℕ) → transaction_at result n ≡ None }
    {
        Transactions {
            slab: Slab::new(alloc),
            places: [None; 62],
            active: SessionSet::none(),
            first: FIRST,
            ended: Vec::new(alloc),
            held: Vec::new(alloc),
            alloc,
        }
    }

    // The lowest number that no session has.
    fn free(&self) -> Option<u8>
        ensures some { IfSome result (λ n. IsLowestFree self.now n) }
        ensures none { IfNone result (IsFull self.now) }
    {
        for number in self.first..FIRST + MOST {
            if self.places[(number - FIRST) as usize].is_none() {
                return Some(number);
            }
        }
        None
    }

    /// The transaction of this number. Numbers are from 2 to 63.
    #[inline(always)]
    pub fn get(&self, number: u8) -> Option<&Transaction>
        // The transaction of that number, and of no other.
        ensures transaction { option_copied result ≡ transaction_at self.now number }
        ensures within { IfSome result (λ transaction. (2 ≤ number) × (number < 64)) }
    {
        let place = place_of(&self.places, number)?;
        self.slab.get(place)
    }

    /// The lowest number of an Active transaction, from this number on.
    #[inline(always)]
    pub fn next_active(&self, from: u8) -> Option<u8>
        // None exactly if there is none (`IsNextActive`).
        ensures some { IfSome result (λ n. IsNextActive self.now from n) }
        ensures none { IfNone result ((n : ℕ) → from ≤ n → is_active (transaction_at self.now n) ≡ false) }
    {
        self.active.next(from)
    }

    /// Opens a transaction that reads what is covered. Its memory is taken here.
    pub fn begin(&mut self, covered: &Covered<'_>) -> Result<u8, Fault>
        // The lowest free number from 2.
        ensures number { IfOk result (λ n. IsLowestFree self.old n) }

        // Under it a transaction reads the snapshot and has written nothing.
        ensures opened { IfOk result (λ n. Sets self.old self.new n (Some (Active covered.now []))) }

        // SessionsFull exactly if 62 are open, and otherwise OutOfMemory. At a refusal nothing changes.
        ensures same { IfErr result (λ fault. self.new ≡ self.old) }
        ensures fault { IfErr result (λ fault. (fault ≡ SessionsFull) × IsFull self.old ⊎ (fault ≡ OutOfMemory) × ((n : ℕ) × IsLowestFree self.old n)) }
    {
        let Some(number) = self.free() else {
            return Err(Fault::SessionsFull);
        };
        let writes = match empty_set(&mut self.ended, self.alloc) {
            Ok(writes) => writes,
            Err(fault) => return Err(fault),
        };
        let snapshot = match hold(&mut self.held, self.alloc, covered) {
            Ok(snapshot) => snapshot,
            Err(fault) => return Err(fault),
        };
        match self.slab.insert(Transaction::Active { snapshot, writes }) {
            Ok(key) => {
                self.places[(number - FIRST) as usize] = Some(key);
                self.active.insert(number);
                self.first = number + 1;
                Ok(number)
            }
            Err(_) => Err(Fault::OutOfMemory),
        }
    }

    /// Replaces the state of an open transaction by another one. No other transaction changes.
    pub fn set(&mut self, number: u8, transaction: Transaction)
        requires { IsSome (transaction_at self.old number) }
        ensures { Sets self.old self.new number (Some transaction) }
    {
        if let Some(place) = place_of(&self.places, number) {
            if let Some(found) = self.slab.get_mut(place) {
                mark(&mut self.active, number, &transaction);
                let before = mem::replace(found, transaction);
                keep_of(&mut self.ended, &mut self.held, Some(before));
            }
        }
    }

    /// Ends an open transaction: its number is free. No other transaction changes.
    pub fn end(&mut self, number: u8)
        requires { IsSome (transaction_at self.old number) }
        ensures { Sets self.old self.new number None }
    {
        if let Some(place) = place_of(&self.places, number) {
            let ended = self.slab.try_remove(place);
            keep_of(&mut self.ended, &mut self.held, ended);
            self.places[(number - FIRST) as usize] = None;
            self.active.remove(number);
            self.first = self.first.min(number);
        }
    }

    /// Keeps the set of a commit that is no longer drawn, for a transaction that begins. No transaction changes.
    pub fn keep(&mut self, writes: WriteSet)
        ensures { self.new ≡ self.old }
    {
        keep(&mut self.ended, writes);
    }

    /// An Active transaction draws this timestamp. Its writes are moved out.
    #[inline(always)]
    pub fn draw(&mut self, number: u8, timestamp: Ts) -> WriteSet
        requires { (snapshot : Seen) × (writes : List Write) × (transaction_at self.old number ≡ Some (Active snapshot writes)) }

        // The writes are handed over, the transaction has drawn the timestamp, and no other changes.
        ensures writes { (snapshot : Seen) × (transaction_at self.old number ≡ Some (Active snapshot result)) }
        ensures drawn { Sets self.old self.new number (Some (Drawn timestamp)) }
    {
        let Some(place) = place_of(&self.places, number) else {
            unreachable!()
        };
        let Some(found) = self.slab.get_mut(place) else {
            unreachable!()
        };
        let (snapshot, writes) = found.draw(timestamp);
        give_up(&mut self.held, snapshot);
        self.active.remove(number);
        writes
    }

    /// Writes in place, for an Active transaction with room for it. No other transaction changes.
    #[inline(always)]
    pub fn write(&mut self, number: u8, write: Write)
        requires { (snapshot : Seen) × (writes : List Write) × (transaction_at self.old number ≡ Some (Active snapshot writes)) × HasRoomFor write.key writes }
        ensures { (snapshot : Seen) (writes : List Write) → transaction_at self.old number ≡ Some (Active snapshot writes) → Sets self.old self.new number (Some (Active snapshot (with_write_at write writes))) }
    {
        if let Some(place) = place_of(&self.places, number) {
            if let Some(found) = self.slab.get_mut(place) {
                found.write(write);
            }
        }
    }
}
