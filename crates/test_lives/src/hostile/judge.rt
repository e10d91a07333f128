use crate::hostile::life::{leave, opened};
use asks::Table;
use base::fault::Fault;
use base::key::Key;
use base::row::Row;
use image_check::check;
use pmem_model::SimPmem;
use room::Room;
use std::alloc::Global;
use std::thread::Threads;

/// What was looked at, and what was found to be wrong.
#[derive(Clone, Copy)]
pub struct Counts {
    pub stops: u64,
    pub images: u64,
    pub openings: u64,
    /// Images that lack what was acknowledged.
    pub lost: u64,
    /// Images that hold what they mustn't, or don't open, or of which a check reports something else; and stops with other
    /// numbers.
    pub wrong: u64,
}

/// The tables of which an image may hold one.
#[derive(Clone, Copy)]
pub struct Allowed<'a> {
    /// Those that have all that was acknowledged.
    pub kept: &'a [Table],
    /// Those that the stop may leave.
    pub now: &'a [Table],
}

impl Counts {
    pub fn none() -> Counts {
        Counts {
            stops: 0,
            images: 0,
            openings: 0,
            lost: 0,
            wrong: 0,
        }
    }

    /// Counts one more as wrong, unless this holds.
    pub fn expect(&mut self, holds: bool) {
        if !holds {
            self.wrong = self.wrong.saturating_add(1);
        }
    }
}

/// Judges an image that a crash may leave: checking and opening find the same rows, which are one of the tables.
pub fn judge<R: Threads + Sync>(
    rt: &R,
    alloc: Global,
    words: &[u64],
    allowed: &Allowed,
    counts: &mut Counts,
) {
    counts.images = counts.images.saturating_add(1);
    match rows_of(rt, alloc, words) {
        Ok(rows) => {
            counts.expect(is_one_of(&rows, allowed.now));
            if !is_one_of(&rows, allowed.kept) {
                counts.lost = counts.lost.saturating_add(1);
            }
        }
        Err(_) => counts.expect(false),
    }
}

// The rows that opening the words finds, and a check too.
fn rows_of<R: Threads + Sync>(
    rt: &R,
    alloc: Global,
    words: &[u64],
) -> Result<Vec<(Key, Row)>, Fault> {
    let checked = check(rt, alloc, words)?;
    let (gate, rows) = opened_rows(rt, alloc, words)?;
    if gate == checked.gate.saturating_add(1) && rows.as_slice() == checked.rows.as_slice() {
        Ok(rows)
    } else {
        Err(Fault::WrongState)
    }
}

/// The gate and the rows of the words, once they are opened.
pub fn opened_rows<R: Threads + Sync>(
    rt: &R,
    alloc: Global,
    words: &[u64],
) -> Result<(u64, Vec<(Key, Row)>), Fault> {
    match opened(rt, alloc, SimPmem::from_words(alloc, words)?) {
        Ok(room) => {
            let shown = gate_and_rows(&room);
            leave(room);
            shown
        }
        Err((fault, _device)) => Err(fault),
    }
}

fn gate_and_rows(room: &Room<SimPmem>) -> Result<(u64, Vec<(Key, Row)>), Fault> {
    let rows = room.tables()?;
    Ok((room.status().gate, rows))
}

fn is_one_of(rows: &[(Key, Row)], tables: &[Table]) -> bool {
    for table in tables {
        if is_table(rows, table) {
            return true;
        }
    }
    false
}

fn is_table(rows: &[(Key, Row)], table: Table) -> bool {
    for ((key, row), (number, byte)) in rows.iter().zip(table.iter()) {
        if key.table != 1 || key.key != *number || !is_row(row, *byte) {
            return false;
        }
    }
    rows.len() == table.len()
}

// Is it one such byte, or 96 of them?
fn is_row(row: &Row, byte: u8) -> bool {
    let bytes = row.as_bytes();
    bytes == [byte].as_slice() || bytes == [byte; 96].as_slice()
}
