ghost use Rattle.std.specs.Prelude.{◌≡◌, IsTrue, length};
ghost use Rattle.std.specs.Bool.{OnFalse};
ghost use Rattle.txn.specs.WriteSets.{HasRoomFor};
ghost use Rattle.session_steps.specs.Giving.{fits_slot, fits_writes, given, own_of, is_full_of, ReleasesSlots};

use base::SlotNo;
use base::key::Key;
use slot_alloc::SlotAlloc;
use txn::WriteSet;

/// Makes the slots of a transaction's versions free.
pub fn release(slots: &mut SlotAlloc, writes: &WriteSet)
    requires { IsTrue (fits_writes (length slots.old) writes.now) }
    ensures { ReleasesSlots writes.now slots.old slots.new }
{
    for write in writes.as_slice() {
        if let Some(slot) = write.slot {
            slots.give(slot);
        }
    }
}

/// Makes a slot free, if there is one.
pub fn give(slots: &mut SlotAlloc, slot: Option<SlotNo>)
    requires { IsTrue (fits_slot (length slots.old) slot) }
    ensures { slots.new ≡ given slot slots.old }
{
    if let Some(slot) = slot {
        slots.give(slot);
    }
}

/// What the writes of a transaction say about a key that it is to write.
#[derive(Clone, Copy)]
pub struct OwnKey {
    /// The slot of its version of the key.
    pub slot: Option<SlotNo>,
    /// Whether the writes are as many as they may be, and none is of the key.
    pub is_full: bool,
}

/// The key among the writes of a transaction, found once.
#[inline(always)]
pub fn own_key(writes: &WriteSet, key: Key) -> OwnKey
    ensures slot { result.slot ≡ own_of key writes.now }
    ensures full { result.is_full ≡ is_full_of key writes.now }
    ensures room { OnFalse result.is_full (HasRoomFor key writes.now) }
{
    match writes.find(key) {
        Some(write) => OwnKey {
            slot: write.slot,
            is_full: false,
        },
        None => OwnKey {
            slot: None,
            is_full: writes.is_full(),
        },
    }
}
