use answering::MOST_ROWS;
use base::key::Key;
use base::row::Row;
use std::sync::Wait;
use store::{Snapshot, StoreError};

const FIRST_KEY: Key = Key { table: 0, key: 0 };

const LAST_KEY: Key = Key {
    table: u16::MAX,
    key: u64::MAX,
};

/// What is left of all tables.
#[derive(Clone, Copy)]
pub struct AllPages {
    // The key to go on at, unless the last one was reached.
    first: Option<Key>,
}

impl AllPages {
    pub fn new() -> AllPages {
        AllPages {
            first: Some(FIRST_KEY),
        }
    }

    /// The next rows by rising key, or `None` at the end. There may be no rows before the end, too.
    pub fn next<R: Wait + Drop>(
        &mut self,
        snapshot: &Snapshot<'_, R>,
    ) -> Result<Option<Vec<(Key, Row)>>, StoreError> {
        let Some(first) = self.first else {
            return Ok(None);
        };
        let page = snapshot.page(first, LAST_KEY, MOST_ROWS)?;
        self.first = key_behind(page.reached);
        Ok(Some(page.rows.into_items()))
    }
}

// The key behind this one: of its table, or the first of the next one.
fn key_behind(key: Key) -> Option<Key> {
    let Key { table, key } = key;
    match key.checked_add(1) {
        Some(next) => Some(Key { table, key: next }),
        None => match table.checked_add(1) {
            Some(next) => Some(Key {
                table: next,
                key: 0,
            }),
            None => None,
        },
    }
}
