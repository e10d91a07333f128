use crate::help::{Word, find_word};
use crate::input::{Line, text_of};
use crate::numbers::parse_number;
use crate::unreadable::Unreadable;
use crate::words::{parse_key_and_row, split_line};
use anyhow::anyhow;
use base::fault::Fault;
use base::key::Key;
use base::row::Row;
use std::alloc::Global;

/// The most puts in a transaction.
pub const MOST_PUTS: u64 = 32;

/// What a line means to a load.
#[derive(Clone, Copy)]
pub enum LoadLine {
    /// A row to put.
    Row(Key, Row),
    Begin,
    Commit,
    /// The end of a list of this many rows.
    End(u64),
    /// Any other line that dump or wbl check prints, or a line without words.
    Other,
}

/// What a line means to a load.
pub fn read_load_line(alloc: Global, line: Line<'_>) -> Result<LoadLine, Unreadable> {
    let text = text_of(line)?;
    match split_line(alloc, text) {
        Ok(words) => parse_load_words(words.as_slice()),
        Err(_) => Err(Unreadable::Fault(Fault::OutOfMemory)),
    }
}

fn parse_load_words(words: &[&str]) -> Result<LoadLine, Unreadable> {
    let Some((name, rest)) = words.split_first() else {
        return Ok(LoadLine::Other);
    };
    match (find_word(name), rest) {
        (Some(Word::Put), [table, key, row]) => parse_put(table, key, row),
        (Some(Word::Begin), []) => Ok(LoadLine::Begin),
        (Some(Word::Commit), []) => Ok(LoadLine::Commit),
        (Some(_), _) => Err(wrong_load_words()),
        (None, _) => parse_other(name, rest),
    }
}

// A line that begins with a table's number, or with a word that wbl prints.
fn parse_other(name: &str, rest: &[&str]) -> Result<LoadLine, Unreadable> {
    match (name, rest) {
        ("ready" | "closed", []) | ("sound", _) => Ok(LoadLine::Other),
        ("end", [rows]) => Ok(LoadLine::End(parse_number("load", "end", rows)?)),
        (table, [key, row]) => parse_put(table, key, row),
        _ => Err(wrong_load_words()),
    }
}

fn parse_put(table: &str, key: &str, row: &str) -> Result<LoadLine, Unreadable> {
    let (key, row) = parse_key_and_row("load", table, key, row)?;
    Ok(LoadLine::Row(key, row))
}

fn wrong_load_words() -> Unreadable {
    Unreadable::Words(anyhow!("load: expected put TABLE KEY ROW, or TABLE KEY ROW"))
}
