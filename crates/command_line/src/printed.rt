ghost use Rattle.std.specs.Prelude.{◌≡◌, ◌++◌, ◌∷◌, [], IfOk, OnOk, codes, decimal};
ghost use Rattle.std.specs.String.{string_bytes};
ghost use Rattle.std.specs.Io.KnownBytes.{Appends};
ghost use Rattle.command_line.specs.Rows.{row_text};
ghost use Rattle.command_line.specs.Texts.{end_line, entry_text, gaps_text, longs_text, rows_text, refused_text, survivor_text, text_of};

use crate::command::Survivor;
use base::Ts;
use base::fault::Fault;
use base::gap::Gap;
use base::key::Key;
use base::row::Row;
use std::alloc::{AllocError, Global};
use std::io;
use std::io::Write;

/// A line that the program prints.
#[derive(Clone, Copy)]
pub enum Printed<'a> {
    /// An image was opened: its ruling gate, persisted and dirty timestamp, the next timestamp and
    /// the gaps.
    Opened {
        gate: u64,
        persisted: u64,
        dirty: u64,
        next: u64,
        gaps: &'a [Gap],
    },
    /// The image that closing leaves.
    Closed {
        gate: u64,
        persisted: u64,
        dirty: u64,
    },
    Formatted {
        words: u64,
    },
    /// An image is sound: the gate, the timestamps, the gaps and the long commits of its ruling record.
    Sound {
        gate: u64,
        persisted: u64,
        dirty: u64,
        gaps: &'a [Gap],
        longs: &'a [Ts],
    },
    /// A row of an image, with its key.
    Entry {
        key: Key,
        row: &'a [u8],
    },
    /// How many rows an image has.
    End {
        rows: usize,
    },
    /// Rows, a line each, and then how many there are.
    Rows(&'a [(Key, Row)]),
    Session(u8),
    Row(&'a [u8]),
    NoRow,
    Done,
    Drawn(u64),
    More,
    Stamped,
    Waiting,
    Committed(u64),
    Idle,
    Tick,
    Covered(u64),
    /// The collector visited this slot.
    Visited(u64),
    SweepEnd,
    Stopped(Survivor),
    /// A life of a script begins. Its number counts from 1.
    Life(usize),
    /// It is over.
    LifeStopped,
    /// The room that threads worked on is closed.
    ThreadsClosed,
    Refused(Fault),
    /// The number of a line that isn't a command, from 1.
    NotACommand {
        line: u64,
    },
    FileFault,
}

/// Appends the line and a line feed to a writer whose bytes are known.
pub fn print<W: Write>(alloc: Global, out: &mut W, line: &Printed) -> io::Result<()>
    ensures { OnOk result (Appends (W.contents out.old) (W.contents out.new) (text_of line.now ++ 10 ∷ [])) }
{
    let mut text = text(alloc, line)?;
    text.push('\n')?;
    out.write_all(text.as_bytes())
}

/// The line, byte for byte, without a line feed.
pub fn text(alloc: Global, line: &Printed) -> Result<String, AllocError>
    ensures { IfOk result (λ text. string_bytes text ≡ text_of line.now) }
{
    match *line {
        Printed::Opened {
            gate,
            persisted,
            dirty,
            next,
            gaps,
        } => {
            let gaps = gaps_text(alloc, gaps)?;
            format!(in alloc; "opened gate {gate} p {persisted} d {dirty} next {next} gaps{gaps}")
        }
        Printed::Closed {
            gate,
            persisted,
            dirty,
        } => format!(in alloc; "closed gate {gate} p {persisted} d {dirty}"),
        Printed::Formatted { words } => format!(in alloc; "formatted {words} words"),
        Printed::Sound {
            gate,
            persisted,
            dirty,
            gaps,
            longs,
        } => {
            let gaps = gaps_text(alloc, gaps)?;
            let longs = longs_text(alloc, longs)?;
            format!(in alloc; "sound gate {gate} p {persisted} d {dirty} gaps{gaps}{longs}")
        }
        Printed::Entry { key, row } => entry_line(alloc, key, row),
        Printed::End { rows } => end_line(alloc, rows),
        Printed::Rows(rows) => rows_text(alloc, rows),
        Printed::Session(session) => format!(in alloc; "session {session}"),
        Printed::Row(bytes) => row_line(alloc, bytes),
        Printed::NoRow => String::from_str(alloc, "none"),
        Printed::Done => String::from_str(alloc, "done"),
        Printed::Drawn(timestamp) => format!(in alloc; "drawn {timestamp}"),
        Printed::More => String::from_str(alloc, "more"),
        Printed::Stamped => String::from_str(alloc, "stamped"),
        Printed::Waiting => String::from_str(alloc, "waiting"),
        Printed::Committed(timestamp) => format!(in alloc; "committed {timestamp}"),
        Printed::Idle => String::from_str(alloc, "idle"),
        Printed::Tick => String::from_str(alloc, "tick"),
        Printed::Covered(gate) => format!(in alloc; "covered {gate}"),
        Printed::Visited(slot) => format!(in alloc; "slot {slot}"),
        Printed::SweepEnd => String::from_str(alloc, "sweep end"),
        Printed::Stopped(keeps) => stopped_line(alloc, keeps),
        Printed::Life(number) => format!(in alloc; "life {number}"),
        Printed::LifeStopped => String::from_str(alloc, "stopped"),
        Printed::ThreadsClosed => String::from_str(alloc, "closed"),
        Printed::Refused(fault) => refused_line(alloc, fault),
        Printed::NotACommand { line } => format!(in alloc; "line {line}: not a command"),
        Printed::FileFault => String::from_str(alloc, "file fault"),
    }
}

fn row_line(alloc: Global, bytes: &[u8]) -> Result<String, AllocError>
    ensures { IfOk result (λ text. string_bytes text ≡ codes "row " ++ row_text bytes.now) }
{
    let row = row_text(alloc, bytes)?;
    format!(in alloc; "row {row}")
}

fn entry_line(alloc: Global, key: Key, bytes: &[u8]) -> Result<String, AllocError>
    ensures { IfOk result (λ text. string_bytes text ≡ entry_text key bytes.now) }
{
    let table = key.table;
    let number = key.key;
    let row = row_text(alloc, bytes)?;
    format!(in alloc; "{table} {number} {row}")
}

fn end_line(alloc: Global, rows: usize) -> Result<String, AllocError>
    ensures { IfOk result (λ text. string_bytes text ≡ end_line rows) }
{
    format!(in alloc; "end {rows}")
}

fn rows_text(alloc: Global, rows: &[(Key, Row)]) -> Result<String, AllocError>
    ensures { IfOk result (λ text. string_bytes text ≡ rows_text rows.now) }
{
    let mut lines = String::new(alloc);
    for (key, row) in rows {
        let entry = entry_line(alloc, *key, row.as_bytes())?;
        lines.push_str(entry.as_str())?;
        lines.push('\n')?;
    }
    let end = end_line(alloc, rows.len())?;
    lines.push_str(end.as_str())?;
    Ok(lines)
}

fn row_text(alloc: Global, bytes: &[u8]) -> Result<String, AllocError>
    ensures { IfOk result (λ text. string_bytes text ≡ row_text bytes.now) }
{
    if bytes.is_empty() {
        return String::from_str(alloc, "-");
    }
    hex::encode(alloc, bytes)
}

fn stopped_line(alloc: Global, keeps: Survivor) -> Result<String, AllocError>
    ensures { IfOk result (λ text. string_bytes text ≡ codes "stopped " ++ survivor_text keeps) }
{
    match keeps {
        Survivor::Oldest => String::from_str(alloc, "stopped oldest"),
        Survivor::Newest => String::from_str(alloc, "stopped newest"),
    }
}

fn gaps_text(alloc: Global, gaps: &[Gap]) -> Result<String, AllocError>
    ensures { IfOk result (λ text. string_bytes text ≡ gaps_text gaps.now) }
{
    if gaps.is_empty() {
        return String::from_str(alloc, " -");
    }
    let mut text = String::new(alloc);
    for gap in gaps {
        let first = gap.first;
        let last = gap.last;
        let next = format!(in alloc; " {first}-{last}")?;
        text.push_str(next.as_str())?;
    }
    Ok(text)
}

fn longs_text(alloc: Global, longs: &[Ts]) -> Result<String, AllocError>
    ensures { IfOk result (λ text. string_bytes text ≡ longs_text longs.now) }
{
    if longs.is_empty() {
        return Ok(String::new(alloc));
    }
    let mut text = String::from_str(alloc, " longs")?;
    for long in longs {
        let next = format!(in alloc; " {long}")?;
        text.push_str(next.as_str())?;
    }
    Ok(text)
}

fn refused_line(alloc: Global, fault: Fault) -> Result<String, AllocError>
    ensures { IfOk result (λ text. string_bytes text ≡ refused_text fault) }
{
    let number = fault.number();
    let text = fault.text();
    format!(in alloc; "refused {number} {text}")
}
