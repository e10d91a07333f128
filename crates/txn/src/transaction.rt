use crate::held::HeldSnapshot;
use crate::write::Write;
use crate::write_set::WriteSet;
use base::Ts;
use std::mem;

/// An open transaction.
#[derive(Drop)]
pub enum Transaction {
    /// It reads its snapshot, and may write.
    Active {
        snapshot: HeldSnapshot,
        writes: WriteSet,
    },
    /// It has drawn this timestamp.
    Drawn(Ts),
    /// It ended its work without a write.
    ReadOnly,
}

impl Transaction {
    ghost use Rattle.std.specs.Prelude.{◌≡◌, List};
    ghost use Rattle.snapshot.specs.Snapshots.{Seen};
    ghost use Rattle.txn.specs.declared.write.Write.{Write};
    ghost use Rattle.txn.specs.declared.transaction.Transaction.TheVariants.{Active, Drawn};
    ghost use Rattle.txn.specs.WriteSets.{HasRoomFor, with_write_at};

    // Writes in place, if it is Active.
    #[inline(always)]
    pub(crate) fn write(&mut self, write: Write)
        requires { (snapshot : Seen) (writes : List Write) → self.old ≡ Active snapshot writes → HasRoomFor write.key writes }
        ensures { (snapshot : Seen) (writes : List Write) → self.old ≡ Active snapshot writes → self.new ≡ Active snapshot (with_write_at write writes) }
    {
        match self {
            Transaction::Active { writes, .. } => writes.put(write),
            _ => {}
        }
    }

    // An Active one draws this timestamp. What it read and its writes are moved out.
    #[inline(always)]
    pub(crate) fn draw(&mut self, timestamp: Ts) -> (HeldSnapshot, WriteSet)
        requires { (snapshot : Seen) × (writes : List Write) × (self.old ≡ Active snapshot writes) }
        ensures parts { self.old ≡ Active result.0 result.1 }
        ensures drawn { self.new ≡ Drawn timestamp }
    {
        match mem::replace(self, Transaction::Drawn(timestamp)) {
            Transaction::Active { snapshot, writes } => (snapshot, writes),
            _ => unreachable!(),
        }
    }
}
