ghost use Rattle.std.specs.Prelude.{◌≡◌, IfOk, IsTrue, map};
ghost use Rattle.std.specs.BTreeMap.{IsOrdered, get};
ghost use Rattle.base.specs.Keys.{is_rising, lookup_key};
ghost use Rattle.base.specs.declared.key.Key.{Key as KeyValue};
ghost use Rattle.recovery.specs.Slots.{key_cmp};
ghost use Rattle.image_check.specs.Checked.{last_at};

use base::key::Key;
use base::row::Row;
use std::alloc::{AllocError, Global};
use std::collections::BTreeMap;

// The rows by rising key. For each key only the last one stays.
pub fn by_rising_key(alloc: Global, rows: Vec<(Key, Row)>) -> Result<Vec<(Key, Row)>, AllocError>
    ensures rising { IfOk result (λ sorted. IsTrue (is_rising (map (λ row. row.0) sorted.items))) }
    ensures same { IfOk result (λ sorted. (key : KeyValue) → lookup_key sorted.items key ≡ last_at rows.items key) }
{
    let tables = mapped(alloc, rows)?;
    let sorted = listed(alloc, tables)?;
    Ok(sorted)
}

fn mapped(alloc: Global, rows: Vec<(Key, Row)>) -> Result<BTreeMap<Key, Row>, AllocError>
    ensures { IfOk result (λ tables. (key : KeyValue) → get key_cmp tables key ≡ last_at rows.items key) }
{
    let mut tables = BTreeMap::new(alloc);
    for (key, row) in rows {
        let Ok(_) = tables.insert(key, row) else {
            return Err(AllocError);
        };
    }
    Ok(tables)
}

fn listed(alloc: Global, tables: BTreeMap<Key, Row>) -> Result<Vec<(Key, Row)>, AllocError>
    ensures same { IfOk result (λ rows. rows.items ≡ tables.entries) }
    ensures ordered { IfOk result (λ rows. IsOrdered key_cmp tables) }
{
    tables.into_iter().collect(alloc)
}
