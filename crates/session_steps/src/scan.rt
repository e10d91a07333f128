ghost use Rattle.std.specs.Prelude.{◌≡◌, ◌≤◌, ◌+◌, ℕ, Bool, true, false, length, IfOk, if◌then◌else◌};
ghost use Rattle.std.specs.Result.{OnOk};
ghost use Rattle.std.specs.BTreeMap.{get};
ghost use Rattle.base.specs.declared.key.Key.{Key as KeyValue};
ghost use Rattle.base.specs.Keys.{key_eq};
ghost use Rattle.base.specs.Commits.{Lists, Tables, overlaid};
ghost use Rattle.base.specs.Layout.{total_words};
ghost use Rattle.pmem.specs.Words.{image_of};
ghost use Rattle.txn.specs.WriteSets.{plain_writes};
ghost use Rattle.index.specs.Entries.{key_cmp};
ghost use Rattle.index.specs.Walking.{AreLinked};
ghost use Rattle.index.specs.Reading.{CountsAs, ShowsTables, HasRows, contains, ranged};

use crate::active::active_in;
use crate::sessions::Sessions;
use base::fault::Fault;
use base::key::Key;
use base::row::Row;
use base::rows::Rows;
use index::{KeyRange, listed};
use pmem::Pmem;
use snapshot::Snapshot;
use std::alloc::AllocError;
use std::collections::BTreeMap;
use txn::{Write, WriteSet};

impl Sessions {
    ghost use Rattle.base.specs.declared.step.SessionStep.TheVariants.{Scan};
    ghost use Rattle.session_steps.specs.Shows.{Hidden};
    ghost use Rattle.session_steps.specs.Replies.{scanned};
    ghost use Rattle.session_steps.specs.Steps.{HoldsOn, HoldsSomeOn, Goes};

    /// The rows that the session sees at the keys of the table from lo to hi, both included.
    #[inline(never)]
    pub fn scan<D: Pmem>(
        &self,
        device: &D,
        session: u8,
        table: u16,
        lo: u64,
        hi: u64,
    ) -> Result<Rows, Fault>
        requires shown { ∥ HoldsSomeOn self.now (D.state device.now) ∥₁ }
        ensures step { (h : Hidden) → HoldsOn self.now h (D.state device.now) → Goes self.now self.now (Scan session table lo hi) (scanned result) h }
    {
        let active = match active_in(&self.transactions, session) {
            Ok(active) => active,
            Err(fault) => return Err(fault),
        };
        let range = KeyRange::Within { table, lo, hi };
        match self.seen_rows(device, active.snapshot, active.writes, range) {
            Ok(rows) => Ok(Rows::new(rows)),
            Err(_) => Err(Fault::OutOfMemory),
        }
    }

    // The rows of the snapshot in the range, with the session's own writes laid over them.
    fn seen_rows<D: Pmem>(
        &self,
        device: &D,
        snapshot: &Snapshot,
        writes: &WriteSet,
        range: KeyRange,
    ) -> Result<Vec<(Key, Row)>, AllocError>
        requires device { (D.state device.now).words ≡ total_words self.now.numbers.geometry }
        ensures { IfOk result (λ rows. (counts : ℕ → Bool) (tables : Tables) → CountsAs counts snapshot.now self.now.numbers.geometry (image_of (D.state device.now)) → AreLinked snapshot.now (image_of (D.state device.now)) self.now.index → ShowsTables counts self.now.numbers.geometry (image_of (D.state device.now)) tables → Lists rows.items (ranged range (overlaid (plain_writes writes.now) tables))) }
    {
        let geometry = self.numbers.geometry;
        let seen = self
            .index
            .rows_by_key(self.alloc, device, geometry, snapshot, range);
        let mut rows = match seen {
            Ok(rows) => rows,
            Err(fault) => return Err(fault),
        };
        match lay_over(&mut rows, writes, range) {
            Ok(()) => {}
            Err(fault) => return Err(fault),
        }
        match listed(self.alloc, rows) {
            Ok(list) => Ok(list),
            Err(fault) => Err(fault),
        }
    }
}

// Lays the writes in the range over the rows. Each takes at most one row away.
pub(crate) fn lay_over(
    rows: &mut BTreeMap<Key, Row>,
    writes: &WriteSet,
    range: KeyRange,
) -> Result<(), AllocError>
    ensures rows { OnOk result ((tables : Tables) → HasRows rows.old (ranged range tables) → HasRows rows.new (ranged range (overlaid (plain_writes writes.now) tables))) }
    ensures count { OnOk result (length rows.old.entries ≤ length rows.new.entries + length writes.now) }
{
    for write in writes.as_slice() {
        match lay_within(rows, write, range) {
            Ok(()) => {}
            Err(fault) => return Err(fault),
        }
    }
    Ok(())
}

// Lays the write over the rows, if its key is in the range.
fn lay_within(
    rows: &mut BTreeMap<Key, Row>,
    write: &Write,
    range: KeyRange,
) -> Result<(), AllocError>
    ensures inside { contains range write.now.key ≡ true → OnOk result ((k : KeyValue) → get key_cmp rows.new k ≡ (if key_eq write.now.key k then write.now.row else get key_cmp rows.old k)) }
    ensures outside { contains range write.now.key ≡ false → OnOk result (rows.new ≡ rows.old) }
    ensures count { OnOk result (length rows.old.entries ≤ length rows.new.entries + 1) }
{
    if range.contains(write.key) {
        lay(rows, write.key, write.row)
    } else {
        Ok(())
    }
}

// Puts the row in at the key, or takes out what is there.
fn lay(rows: &mut BTreeMap<Key, Row>, key: Key, row: Option<Row>) -> Result<(), AllocError>
    ensures row { OnOk result ((k : KeyValue) → get key_cmp rows.new k ≡ (if key_eq key k then row else get key_cmp rows.old k)) }
    ensures count { OnOk result (length rows.old.entries ≤ length rows.new.entries + 1) }
{
    match row {
        Some(row) => match rows.insert(key, row) {
            Ok(_) => Ok(()),
            Err(_) => Err(AllocError),
        },
        None => {
            rows.remove(&key);
            Ok(())
        }
    }
}
