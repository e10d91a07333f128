ghost use Rattle.std.specs.Prelude.{◌≡◌, ◌^◌, ◌<◌, ◌≤◌, IfOk, IfErr, length, take, option_and_then};
ghost use Rattle.command_line.specs.Lines.{bare_command, command_of, key_step, spelled_key_step, line_of, count_of, crash_of, key_of, one_word_command, put_command, put_of, scan_step, four_word_command, session_step, texts, words_of, is_skipped, has_outer_space, IsPut, SpellsPut};
ghost use Rattle.command_line.specs.Numbers.{number_below};
ghost use Rattle.command_line.specs.declared.line.LineFault.TheVariants.{NotACommand, OutOfMemory};

use crate::command::{Command, Survivor};
use crate::number::{middle_number, number, small_number};
use crate::row_text::row;
use base::key::Key;
use base::row::Row;
use base::step::SessionStep;
use std::alloc::Global;
use thiserror::Error;

/// Why a line isn't read as a command.
#[derive(Clone, Copy, Debug, Error)]
pub enum LineFault {
    #[error("not a command")]
    NotACommand,
    #[error("out of memory")]
    OutOfMemory,
}

/// The command that a line of a script spells, or `None` for a line that is empty or begins with
/// `#`. The line has no line feed.
pub fn parse_line(alloc: Global, line: &[u8]) -> Result<Option<Command>, LineFault>
    // The command that the line spells, or none for one that is skipped.
    ensures ok { IfOk result (λ read. line_of line.now ≡ Some read) }

    // NotACommand only for a line that doesn't spell one.
    ensures refused { IfErr result (λ fault. fault ≡ NotACommand → line_of line.now ≡ None) }

    // OutOfMemory only for a line that spells a put: other lines take no memory.
    ensures memory { IfErr result (λ fault. fault ≡ OutOfMemory → SpellsPut line.now) }
{
    if is_skipped(line) {
        return Ok(None);
    }
    if has_outer_space(line) {
        return Err(LineFault::NotACommand);
    }
    let (words, count) = first_words(line);
    match command(alloc, &words[..count]) {
        Ok(command) => Ok(Some(command)),
        Err(fault) => Err(fault),
    }
}

/// Is the line empty, or does it begin with `#`?
pub(crate) fn is_skipped(line: &[u8]) -> bool
    ensures { result ≡ is_skipped line.now }
{
    match line.first() {
        Some(first) => *first == b'#',
        None => true,
    }
}

/// Is there a space before the first word or after the last?
pub(crate) fn has_outer_space(line: &[u8]) -> bool
    requires { 0 < length line.now }
    ensures { result ≡ has_outer_space line.now }
{
    line[0] == b' ' || line[line.len() - 1] == b' '
}

/// One more word than a command has.
pub(crate) const MOST_WORDS: usize = 6;

/// The first words of a line, and how many there are.
pub(crate) fn first_words<'a>(line: &'a [u8]) -> ([&'a [u8]; MOST_WORDS], usize)
    ensures count { result.1 ≤ 6 }
    ensures words { texts (take result.1 result.0) ≡ take 6 (words_of line.now) }
{
    let mut words: [&[u8]; MOST_WORDS] = [b"".as_slice(); MOST_WORDS];
    let mut count = 0;
    for word in line
        .split(|byte| *byte == b' ')
        .filter(|word| !word.is_empty())
        .take(MOST_WORDS)
    {
        words[count] = word;
        count += 1;
    }
    (words, count)
}

/// The command that some words spell.
pub(crate) fn command(alloc: Global, words: &[&[u8]]) -> Result<Command, LineFault>
    ensures ok { IfOk result (λ command. command_of (texts words.now) ≡ Some command) }
    ensures refused { IfErr result (λ fault. fault ≡ NotACommand → command_of (texts words.now) ≡ None) }
    ensures memory { IfErr result (λ fault. fault ≡ OutOfMemory → IsPut (command_of (texts words.now))) }
{
    match words {
        [] => Err(LineFault::NotACommand),
        [name] => bare(name).ok_or(LineFault::NotACommand),
        [name, argument] => with_one_word(name, argument).ok_or(LineFault::NotACommand),
        [_, _, _] => Err(LineFault::NotACommand),
        [name, session, table, key] => {
            let step = with_key(name, session, table, key).ok_or(LineFault::NotACommand)?;
            Ok(Command::Step(step))
        }
        [name, session, table, key, last] => {
            with_four_words(alloc, name, session, table, key, last)
        }
        _ => Err(LineFault::NotACommand),
    }
}

fn bare(name: &[u8]) -> Option<Command>
    ensures { result ≡ bare_command name.now }
{
    if name == b"begin".as_slice() {
        Some(Command::Step(SessionStep::Begin))
    } else if name == b"cycle".as_slice() {
        Some(Command::Cycle)
    } else {
        None
    }
}

fn with_one_word(name: &[u8], argument: &[u8]) -> Option<Command>
    ensures { result ≡ one_word_command name.now argument.now }
{
    if name == b"commit".as_slice() {
        let ticks = count(argument)?;
        Some(Command::Commit { ticks })
    } else if name == b"collect".as_slice() {
        let visits = count(argument)?;
        Some(Command::Collect { visits })
    } else if name == b"crash".as_slice() {
        crash(argument)
    } else {
        let step = of_session(name, small_number(argument)?)?;
        Some(Command::Step(step))
    }
}

fn of_session(name: &[u8], session: u8) -> Option<SessionStep>
    ensures { result ≡ session_step name.now session }
{
    if name == b"draw".as_slice() {
        Some(SessionStep::Draw { session })
    } else if name == b"stamp".as_slice() {
        Some(SessionStep::Stamp { session })
    } else if name == b"poll".as_slice() {
        Some(SessionStep::Poll { session })
    } else if name == b"abort".as_slice() {
        Some(SessionStep::Abort { session })
    } else if name == b"end".as_slice() {
        Some(SessionStep::End { session })
    } else {
        None
    }
}

// A number that is at least 1.
fn count(word: &[u8]) -> Option<u64>
    ensures { result ≡ count_of word.now }
{
    match number(word)? {
        0 => None,
        count => Some(count),
    }
}

fn crash(word: &[u8]) -> Option<Command>
    ensures { result ≡ crash_of word.now }
{
    if word == b"oldest".as_slice() {
        Some(Command::Crash {
            keeps: Survivor::Oldest,
        })
    } else if word == b"newest".as_slice() {
        Some(Command::Crash {
            keeps: Survivor::Newest,
        })
    } else {
        None
    }
}

fn key_of(table: &[u8], key: &[u8]) -> Option<Key>
    ensures { result ≡ key_of table.now key.now }
{
    let table = middle_number(table)?;
    let key = number(key)?;
    Some(Key { table, key })
}

fn with_key(name: &[u8], session: &[u8], table: &[u8], key: &[u8]) -> Option<SessionStep>
    ensures { result ≡ spelled_key_step name.now session.now table.now key.now }
{
    let session = small_number(session)?;
    let key = key_of(table, key)?;
    of_key(name, session, key)
}

fn of_key(name: &[u8], session: u8, key: Key) -> Option<SessionStep>
    ensures { result ≡ key_step name.now session key }
{
    if name == b"get".as_slice() {
        Some(SessionStep::Get { session, key })
    } else if name == b"delete".as_slice() {
        Some(SessionStep::Delete { session, key })
    } else {
        None
    }
}

fn with_four_words(
    alloc: Global,
    name: &[u8],
    session: &[u8],
    table: &[u8],
    key: &[u8],
    last: &[u8],
) -> Result<Command, LineFault>
    ensures ok { IfOk result (λ command. four_word_command name.now session.now table.now key.now last.now ≡ Some command) }
    ensures refused { IfErr result (λ fault. fault ≡ NotACommand → four_word_command name.now session.now table.now key.now last.now ≡ None) }
    ensures memory { IfErr result (λ fault. fault ≡ OutOfMemory → IsPut (four_word_command name.now session.now table.now key.now last.now)) }
{
    if name == b"scan".as_slice() {
        let step = scan(session, table, key, last).ok_or(LineFault::NotACommand)?;
        return Ok(Command::Step(step));
    }
    put(alloc, name, session, table, key, last)
}

fn scan(session: &[u8], table: &[u8], lo: &[u8], hi: &[u8]) -> Option<SessionStep>
    ensures { result ≡ scan_step session.now table.now lo.now hi.now }
{
    let session = small_number(session)?;
    let table = middle_number(table)?;
    let lo = number(lo)?;
    let hi = number(hi)?;
    Some(SessionStep::Scan {
        session,
        table,
        lo,
        hi,
    })
}

fn put(
    alloc: Global,
    name: &[u8],
    session: &[u8],
    table: &[u8],
    key: &[u8],
    bytes: &[u8],
) -> Result<Command, LineFault>
    ensures ok { IfOk result (λ command. put_command name.now session.now table.now key.now bytes.now ≡ Some command) }
    ensures refused { IfErr result (λ fault. fault ≡ NotACommand → put_command name.now session.now table.now key.now bytes.now ≡ None) }
    ensures memory { IfErr result (λ fault. fault ≡ OutOfMemory → IsPut (put_command name.now session.now table.now key.now bytes.now)) }
{
    if name != b"put".as_slice() {
        return Err(LineFault::NotACommand);
    }
    let session = small_number(session).ok_or(LineFault::NotACommand)?;
    let key = key_of(table, key).ok_or(LineFault::NotACommand)?;
    match row(alloc, bytes) {
        Ok(row) => Ok(put_of(session, key, row.as_slice())),
        Err(fault) => Err(fault),
    }
}

// A put of these bytes.
fn put_of(session: u8, key: Key, bytes: &[u8]) -> Command
    ensures { result ≡ put_of session key bytes.now }
{
    match Row::new(bytes) {
        Ok(row) => Command::Step(SessionStep::Put { session, key, row }),
        Err(_) => Command::LongRow,
    }
}
