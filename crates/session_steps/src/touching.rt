//! Lines are noted at the draw and not at the put, since only then is it certain which version a write ends. It takes no memory:
//! the table has a place for each line of the device, as a draw has no way back once it has its timestamp.

ghost use Rattle.std.specs.Prelude.{◌≡◌, ◌*◌, ◌<◌, ◌≤◌, true, [], length, All, IsTrue};
ghost use Rattle.std.specs.List.{flat_map};
ghost use Rattle.std.specs.Option.{option_map_or};
ghost use Rattle.base.specs.declared.key.Key.{Key as KeyValue};
ghost use Rattle.base.specs.Layout.{total_words};
ghost use Rattle.dirty_table.specs.Touches.{Touches};
ghost use Rattle.index.specs.Entries.{entry_at, has_room, KeepsRoom};
ghost use Rattle.txn.specs.WriteSets.{write_of};
ghost use Rattle.session_steps.specs.Drawing.{fits_touched, own_lines, ended_lines, touched_lines, drawn_entry};
ghost use Rattle.session_steps.specs.Giving.{fits_slot};

use base::geometry::Geometry;
use base::{SlotNo, Ts};
use dirty_table::DirtyTable;
use index::Index;
use txn::WriteSet;

/// Notes in the index that each of the keys was drawn with this timestamp. The session touches the lines of its writes: all of
/// each version that they make, and the first of each that they end.
#[inline(always)]
pub fn draw_writes(
    dirty: &mut DirtyTable,
    index: &mut Index,
    session: u8,
    geometry: Geometry,
    writes: &WriteSet,
    timestamp: Ts,
)
    requires keys { All (λ write. has_room index.old write.key ≡ true) writes.now }
    requires fits { IsTrue (fits_touched geometry index.old writes.now) }
    requires session { session < 64 }
    requires sized { total_words geometry ≤ 8 * length dirty.old }
    ensures lines { Touches session (flat_map (touched_lines geometry index.old) writes.now) dirty.old dirty.new }
    ensures entries { (key : KeyValue) → entry_at index.new key ≡ drawn_entry (write_of key writes.now) timestamp (entry_at index.old key) }
    ensures rooms { KeepsRoom index.old index.new }
{
    for write in writes.as_slice() {
        let ended = index.draw(write.key, write.place, write.slot, timestamp);
        touch_own(dirty, session, geometry, write.slot);
        touch_ended(dirty, session, geometry, ended);
    }
}

// Touches all lines of the version in the slot, if there is one.
fn touch_own(dirty: &mut DirtyTable, session: u8, geometry: Geometry, slot: Option<SlotNo>)
    requires fits { IsTrue (fits_slot geometry.slots slot) }
    requires session { session < 64 }
    requires sized { total_words geometry ≤ 8 * length dirty.old }
    ensures { Touches session (option_map_or (own_lines geometry) slot []) dirty.old dirty.new }
{
    if let Some(slot) = slot {
        let first = geometry.slot_line(slot) as u64;
        for part in 0..geometry.slot_lines() {
            dirty.touch(session, first + part as u64);
        }
    }
}

// Touches the first line of the version in the slot, if there is one.
fn touch_ended(dirty: &mut DirtyTable, session: u8, geometry: Geometry, slot: Option<SlotNo>)
    requires fits { IsTrue (fits_slot geometry.slots slot) }
    requires session { session < 64 }
    requires sized { total_words geometry ≤ 8 * length dirty.old }
    ensures { Touches session (option_map_or (ended_lines geometry) slot []) dirty.old dirty.new }
{
    if let Some(slot) = slot {
        dirty.touch(session, geometry.slot_line(slot) as u64);
    }
}
