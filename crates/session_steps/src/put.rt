//! A put clears before it fills. A free slot may still hold a begin that the ruling record commits, of a version that was
//! replaced and collected: with a new key and row behind it, a crash would show a row that nobody committed. So 0 is sure to
//! survive in the begin before any other word of the slot is stored; after that these need no order, since nobody reads a slot
//! whose begin is 0. A slot that the session already has was cleared when it was taken, and is filled again as it is.

ghost use Rattle.std.specs.Prelude.{◌≡◌, ◌≢◌, None, Some, IfErr};
ghost use Rattle.base.specs.declared.fault.Fault.TheVariants.{OutOfMemory};

use crate::active::active_in;
use crate::giving::own_key;
use crate::sessions::Sessions;
use base::SlotNo;
use base::actor::Actor;
use base::fault::Fault;
use base::key::Key;
use base::row::Row;
use pmem::Pmem;
use txn::Write;
use version_slot::{Version, fill};

impl Sessions {
    ghost use Rattle.std.specs.Prelude.{◌≤◌, ◌<◌, ℕ, false, length};
    ghost use Rattle.base.specs.Layout.{row_limit};
    ghost use Rattle.base.specs.declared.step.SessionReply.TheVariants.{Done};
    ghost use Rattle.base.specs.declared.step.SessionStep.TheVariants.{Put};
    ghost use Rattle.index.specs.Entries.{entry_at, head_of};
    ghost use Rattle.pmem.specs.Words.{value_of};
    ghost use Rattle.slot_alloc.specs.Free.{lowest_free};
    ghost use Rattle.version_slot.specs.Words.{IsVersion, slot_at};
    ghost use Rattle.session_steps.specs.Giving.{IsReady};
    ghost use Rattle.session_steps.specs.Replies.{done};
    ghost use Rattle.session_steps.specs.Steps.{HoldsSomeOn, TakesOn};

    /// Writes a row that a slot holds: in the slot that the session has for the key, or else in the lowest free one.
    #[inline(never)]
    pub fn put<D: Pmem>(
        &mut self,
        device: &mut D,
        session: u8,
        key: Key,
        row: &Row,
    ) -> Result<(), Fault>
        requires shown { ∥ HoldsSomeOn self.old (D.state device.old) ∥₁ }
        ensures step { TakesOn self.old self.new (D.state device.old) (D.state device.new) (Put session key row.now) (done result) }

        // It is never refused for lack of memory.
        ensures memory { IfErr result (λ fault. fault ≢ OutOfMemory) }
    {
        let active = match active_in(&self.transactions, session) {
            Ok(active) => active,
            Err(fault) => return Err(fault),
        };
        if row.as_bytes().len() > self.numbers.geometry.row_limit() {
            return Err(Fault::TooLong);
        }
        let own = own_key(active.writes, key);
        if own.is_full {
            return Err(Fault::WriteSetFull);
        }
        match own.slot {
            Some(slot) => self.fill_own(device, session, slot, key, row),
            None => self.fill_taken(device, session, key, row),
        }
    }

    // Writes a row in the slot that the session has for the key.
    fn fill_own<D: Pmem>(
        &mut self,
        device: &mut D,
        session: u8,
        slot: SlotNo,
        key: Key,
        row: &Row,
    ) -> Result<(), Fault>
        requires shown { ∥ HoldsSomeOn self.old (D.state device.old) ∥₁ }
        requires ready { IsReady self.old.transactions session key (Some slot) }
        requires row { length row.now ≤ row_limit self.old.numbers.geometry.version }
        ensures step { TakesOn self.old self.new (D.state device.old) (D.state device.new) (Put session key row.now) (done result) }
        ensures memory { IfErr result (λ fault. fault ≢ OutOfMemory) }

        // At Done the words of the slot hold the key, the row, and a link to the newest version of the key that the index knows,
        // or none. The slot is the session's own for the key, or the lowest that was free. What reads need of it holds of each
        // state that is shown (`Links`).
        ensures link { done result ≡ Done → IsVersion self.old.numbers.geometry (slot_at self.old.numbers.geometry slot (value_of (D.state device.new)))
            (record { key = key; row = row.now; previous = head_of (entry_at self.old.index key) }) }
    {
        let found = self.index.known(key);
        let version = Version {
            key,
            row: *row,
            previous: found.link,
        };
        match fill(device, self.numbers.geometry, slot, &version) {
            Ok(()) => {
                self.transactions
                    .write(session, row_write(&version, slot, found.place));
                Ok(())
            }
            Err(fault) => Err(fault),
        }
    }

    // Writes a row in the lowest free slot, which stays free if the device fails.
    #[inline(always)]
    fn fill_taken<D: Pmem>(
        &mut self,
        device: &mut D,
        session: u8,
        key: Key,
        row: &Row,
    ) -> Result<(), Fault>
        requires shown { ∥ HoldsSomeOn self.old (D.state device.old) ∥₁ }
        requires ready { IsReady self.old.transactions session key None }
        requires within { (2 ≤ session) × (session < 64) }
        requires row { length row.now ≤ row_limit self.old.numbers.geometry.version }
        ensures step { TakesOn self.old self.new (D.state device.old) (D.state device.new) (Put session key row.now) (done result) }
        ensures memory { IfErr result (λ fault. fault ≢ OutOfMemory) }

        // At Done the words of the slot hold the key, the row, and a link to the newest version of the key that the index knows,
        // or none. The slot is the session's own for the key, or the lowest that was free. What reads need of it holds of each
        // state that is shown (`Links`).
        ensures link { done result ≡ Done → (slot : ℕ) × (lowest_free self.old.slots ≡ Some slot)
            × IsVersion self.old.numbers.geometry (slot_at self.old.numbers.geometry slot (value_of (D.state device.new)))
            (record { key = key; row = row.now; previous = head_of (entry_at self.old.index key) }) }
    {
        let geometry = self.numbers.geometry;
        let found = self.index.known(key);
        let version = Version {
            key,
            row: *row,
            previous: found.link,
        };
        let slot = match self.slots.take(device, geometry, Actor::session(session)) {
            Ok(slot) => slot,
            Err(fault) => return Err(fault),
        };
        match fill(device, geometry, slot, &version) {
            Ok(()) => {
                self.transactions
                    .write(session, row_write(&version, slot, found.place));
                Ok(())
            }
            Err(fault) => {
                self.slots.give(slot);
                Err(fault)
            }
        }
    }
}

// The write of a version that is in the slot.
#[inline(always)]
fn row_write(version: &Version, slot: SlotNo, place: Option<usize>) -> Write
    ensures { result ≡ record { key = version.now.key; row = Some version.now.row; slot = Some slot; place = place } }
{
    Write {
        key: version.key,
        row: Some(version.row),
        slot: Some(slot),
        place,
    }
}
