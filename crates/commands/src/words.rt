use crate::command::{Command, Range, Request};
use crate::help::{Word, find_word, topic_of};
use crate::input::{Line, first_word, text_of};
use crate::numbers::{parse_key, parse_number, parse_table};
use crate::rows::parse_row;
use crate::unreadable::Unreadable;
use anyhow::{Error, anyhow, bail};
use base::fault::Fault;
use base::key::Key;
use base::row::Row;
use std::alloc::{AllocError, Global};
use std::str;
use strsim::osa_distance;

// A word that becomes `begin` by this many edits may be a misspelling of it.
const MOST_EDITS: usize = 2;

/// The words of a line. Everything from the first quotation mark on is one word, the last.
pub fn split_line<'a>(alloc: Global, line: &'a str) -> Result<Vec<&'a str>, AllocError> {
    let Some((start, _)) = line.split_once('"') else {
        return line.split_whitespace().collect(alloc);
    };
    let mut words: Vec<&str> = start.split_whitespace().collect(alloc)?;
    if let Some(text) = line.strip_prefix(start) {
        words.push(text)?;
    }
    Ok(words)
}

/// The command that a line spells, or `None` for a line without words.
pub fn parse_line(alloc: Global, line: Line<'_>) -> Result<Option<Command>, Unreadable> {
    let text = text_of(line)?;
    let Ok(words) = split_line(alloc, text) else {
        return Err(Unreadable::Fault(Fault::OutOfMemory));
    };
    if words.is_empty() {
        return Ok(None);
    }
    Ok(Some(parse_words(words.as_slice())?))
}

/// Whether the first word of the line is `begin` in any case, or may be a misspelling of it.
pub fn may_begin(alloc: Global, line: Line<'_>) -> bool {
    match str::from_utf8(first_word(line)) {
        Ok(word) => is_near_begin(alloc, word).unwrap_or(true),
        Err(_) => true,
    }
}

fn is_near_begin(alloc: Global, word: &str) -> Result<bool, AllocError> {
    let word = word.to_ascii_lowercase(alloc)?;
    Ok(osa_distance(alloc, word.as_str(), "begin")? <= MOST_EDITS)
}

/// The command that these words spell.
pub fn parse_words(words: &[&str]) -> Result<Command, Unreadable> {
    let Some((name, arguments)) = words.split_first() else {
        return Err(Unreadable::Words(anyhow!("no command: help lists the commands")));
    };
    match find_word(name) {
        Some(word) => parse_command(word, arguments),
        None => Err(Unreadable::Unknown(unknown_word(name))),
    }
}

// What is printed about a first word that isn't the name of a command.
fn unknown_word(name: &str) -> Error {
    if name.eq_ignore_ascii_case("check") {
        anyhow!(
            "check: each opening looks at every record and slot; wbl check FILE reads a closed store"
        )
    } else if name.eq_ignore_ascii_case("end") {
        anyhow!("end is not a command: it ends a list, and load takes what dump prints")
    } else if name.contains(' ') {
        anyhow!(
            "unknown command {name:?}: give its words one by one, without quotation marks around all"
        )
    } else {
        anyhow!("unknown command {name:?}: help lists the commands")
    }
}

fn parse_command(word: Word, arguments: &[&str]) -> Result<Command, Unreadable> {
    match (word, arguments) {
        (Word::Load, []) => Ok(Command::Load),
        (Word::Quit, []) => Ok(Command::Quit),
        (Word::Help, []) => Ok(Command::Help(None)),
        (Word::Help, [word]) => Ok(parse_help(word)?),
        (Word::Timing, [word]) => Ok(parse_timing(word)?),
        _ => Ok(Command::Ask(parse_request(word, arguments)?)),
    }
}

fn parse_help(word: &str) -> Result<Command, Error> {
    match find_word(word) {
        Some(word) => Ok(Command::Help(Some(word))),
        None => bail!("help: unknown command {word:?}: help lists the commands"),
    }
}

fn parse_timing(word: &str) -> Result<Command, Error> {
    if word.eq_ignore_ascii_case("on") {
        Ok(Command::Timing(true))
    } else if word.eq_ignore_ascii_case("off") {
        Ok(Command::Timing(false))
    } else {
        Err(wrong_words(Word::Timing))
    }
}

fn parse_request(word: Word, arguments: &[&str]) -> Result<Request, Unreadable> {
    match (word, arguments) {
        (Word::Put, [table, key, row]) => parse_put(table, key, row),
        (Word::Del, [table, key]) => Ok(parse_delete(table, key)?),
        (Word::Get, [table, key]) => Ok(parse_get(table, key)?),
        (Word::Scan, _) => Ok(Request::Scan(parse_scan(arguments)?)),
        (Word::Count, [table]) => Ok(parse_count(table)?),
        (_, []) => Ok(parse_word(word)?),
        _ => Err(Unreadable::Words(wrong_words(word))),
    }
}

fn parse_put(table: &str, key: &str, row: &str) -> Result<Request, Unreadable> {
    let (key, row) = parse_key_and_row("put", table, key, row)?;
    Ok(Request::Put { key, row })
}

/// A key and the row under it.
pub fn parse_key_and_row(
    command: &str,
    table: &str,
    key: &str,
    row: &str,
) -> Result<(Key, Row), Unreadable> {
    let key = parse_key(command, table, key)?;
    let row = parse_row(command, row)?;
    Ok((key, row))
}

fn parse_delete(table: &str, key: &str) -> Result<Request, Error> {
    let key = parse_key("del", table, key)?;
    Ok(Request::Delete { key })
}

fn parse_get(table: &str, key: &str) -> Result<Request, Error> {
    let key = parse_key("get", table, key)?;
    Ok(Request::Get { key })
}

fn parse_count(table: &str) -> Result<Request, Error> {
    let table = parse_table("count", table)?;
    Ok(Request::Count { table })
}

// A request of one word.
fn parse_word(word: Word) -> Result<Request, Error> {
    match word {
        Word::Tables => Ok(Request::Tables),
        Word::Dump => Ok(Request::Dump),
        Word::Stat => Ok(Request::Status),
        Word::Begin => Ok(Request::Begin),
        Word::Commit => Ok(Request::Commit),
        Word::Abort => Ok(Request::Abort),
        _ => Err(wrong_words(word)),
    }
}

// What is wrong with words that begin with this one.
fn wrong_words(word: Word) -> Error {
    match topic_of(word) {
        Some(topic) if topic.form == topic.name => anyhow!("{} takes no other words", topic.name),
        Some(topic) => anyhow!("{}: expected {}", topic.name, topic.form),
        None => anyhow!("help lists the commands"),
    }
}

// The words of a scan, which can come in any order, except for the numbers.
#[derive(Clone, Copy)]
struct ScanWords<'a> {
    // TABLE, LO and HI, and how many of them were read.
    numbers: [Option<&'a str>; 3],
    count: usize,
    limit: u64,
    is_reverse: bool,
    awaits_limit: bool,
}

fn parse_scan(words: &[&str]) -> Result<Range, Error> {
    let mut scan = ScanWords {
        numbers: [None; 3],
        count: 0,
        limit: u64::MAX,
        is_reverse: false,
        awaits_limit: false,
    };
    for word in words {
        scan.take(word)?;
    }
    scan.range()
}

impl<'a> ScanWords<'a> {
    fn take(&mut self, word: &'a str) -> Result<(), Error> {
        if self.awaits_limit {
            self.limit = parse_number("scan", "--limit", word)?;
            self.awaits_limit = false;
        } else if word.eq_ignore_ascii_case("--limit") {
            self.awaits_limit = true;
        } else if word.eq_ignore_ascii_case("--reverse") {
            self.is_reverse = true;
        } else {
            self.push(word)?;
        }
        Ok(())
    }

    fn push(&mut self, word: &'a str) -> Result<(), Error> {
        let count = self.count;
        let Some(number) = self.numbers.get_mut(count) else {
            return Err(wrong_words(Word::Scan));
        };
        *number = Some(word);
        self.count = count.saturating_add(1);
        Ok(())
    }

    fn range(&self) -> Result<Range, Error> {
        let [Some(table), lo, hi] = self.numbers else {
            return Err(wrong_words(Word::Scan));
        };
        if self.awaits_limit {
            return Err(wrong_words(Word::Scan));
        }
        Ok(Range {
            table: parse_table("scan", table)?,
            lo: parse_end("LO", lo, 0)?,
            hi: parse_end("HI", hi, u64::MAX)?,
            limit: self.limit,
            is_reverse: self.is_reverse,
        })
    }
}

// The first or the last key of a scan, or the default if the word is missing.
fn parse_end(name: &str, word: Option<&str>, default: u64) -> Result<u64, Error> {
    match word {
        Some(word) => parse_number("scan", name, word),
        None => Ok(default),
    }
}
