ghost use Rattle.std.specs.Prelude.{◌≡◌, IfOk, IfErr};
ghost use Rattle.command_line.specs.Lines.{texts};
ghost use Rattle.command_line.specs.Scripts.{IsScriptPut, SpellsScriptPut, close_line, command_line_of, fuse_of, geometry_line, life_line, line_of_words, named_geometry, named_life, own_line, script_line_of, survivor_of};
ghost use Rattle.command_line.specs.declared.line.LineFault.TheVariants.{NotACommand, OutOfMemory};

use crate::command::{Command, Survivor};
use crate::line::{LineFault, command, first_words, has_outer_space, is_skipped};
use crate::number::number;
use std::alloc::Global;

/// A line of a script of lives.
#[derive(Drop)]
pub enum ScriptLine {
    /// The numbers of the image that is formatted.
    Geometry {
        slots: u64,
        places: u64,
        window: u64,
    },
    /// A life begins. Its device fails after this many operations, or doesn't.
    Life {
        fuse: Option<u64>,
        keeps: Survivor,
    },
    /// A life ends by closing.
    Close,
    Command(Command),
}

/// What a line of a script spells: a geometry, the beginning of a life, a `close`, or a command other than `cycle` and `crash`.
/// `None` for a line that is empty or begins with `#`. The line has no line feed.
pub fn parse_script_line(alloc: Global, line: &[u8]) -> Result<Option<ScriptLine>, LineFault>
    // As for `parse_line`.
    ensures ok { IfOk result (λ read. script_line_of line.now ≡ Some read) }
    ensures refused { IfErr result (λ fault. fault ≡ NotACommand → script_line_of line.now ≡ None) }
    ensures memory { IfErr result (λ fault. fault ≡ OutOfMemory → SpellsScriptPut line.now) }
{
    if is_skipped(line) {
        return Ok(None);
    }
    if has_outer_space(line) {
        return Err(LineFault::NotACommand);
    }
    let (words, count) = first_words(line);
    match read_words(alloc, &words[..count]) {
        Ok(line) => Ok(Some(line)),
        Err(fault) => Err(fault),
    }
}

fn read_words(alloc: Global, words: &[&[u8]]) -> Result<ScriptLine, LineFault>
    ensures ok { IfOk result (λ line. line_of_words (texts words.now) ≡ Some line) }
    ensures refused { IfErr result (λ fault. fault ≡ NotACommand → line_of_words (texts words.now) ≡ None) }
    ensures memory { IfErr result (λ fault. fault ≡ OutOfMemory → IsScriptPut (line_of_words (texts words.now))) }
{
    match own_line(words) {
        Some(Some(line)) => Ok(line),
        Some(None) => Err(LineFault::NotACommand),
        None => match read_command(alloc, words) {
            Ok(line) => Ok(line),
            Err(fault) => Err(fault),
        },
    }
}

// A line that only scripts have: `geometry`, `life` or `close`. `None` if it begins with another word, and `Some(None)` if what follows
// the word is wrong.
fn own_line(words: &[&[u8]]) -> Option<Option<ScriptLine>>
    ensures { result ≡ own_line (texts words.now) }
{
    match words {
        [] => None,
        [name] => close_line(name),
        [_, _] => None,
        [name, fuse, keeps] => named_life(name, fuse, keeps),
        [name, slots, places, window] => named_geometry(name, slots, places, window),
        _ => None,
    }
}

fn close_line(name: &[u8]) -> Option<Option<ScriptLine>>
    ensures { result ≡ close_line name.now }
{
    if name == b"close".as_slice() {
        Some(Some(ScriptLine::Close))
    } else {
        None
    }
}

fn named_life(name: &[u8], fuse: &[u8], keeps: &[u8]) -> Option<Option<ScriptLine>>
    ensures { result ≡ named_life name.now fuse.now keeps.now }
{
    if name == b"life".as_slice() {
        Some(life_line(fuse, keeps))
    } else {
        None
    }
}

fn named_geometry(
    name: &[u8],
    slots: &[u8],
    places: &[u8],
    window: &[u8],
) -> Option<Option<ScriptLine>>
    ensures { result ≡ named_geometry name.now slots.now places.now window.now }
{
    if name == b"geometry".as_slice() {
        Some(geometry_line(slots, places, window))
    } else {
        None
    }
}

fn read_command(alloc: Global, words: &[&[u8]]) -> Result<ScriptLine, LineFault>
    ensures ok { IfOk result (λ line. command_line_of (texts words.now) ≡ Some line) }
    ensures refused { IfErr result (λ fault. fault ≡ NotACommand → command_line_of (texts words.now) ≡ None) }
    ensures memory { IfErr result (λ fault. fault ≡ OutOfMemory → IsScriptPut (command_line_of (texts words.now))) }
{
    match command(alloc, words)? {
        Command::Cycle | Command::Crash { .. } => Err(LineFault::NotACommand),
        command => Ok(ScriptLine::Command(command)),
    }
}

fn life_line(fuse: &[u8], keeps: &[u8]) -> Option<ScriptLine>
    ensures { result ≡ life_line fuse.now keeps.now }
{
    let fuse = fuse_of(fuse)?;
    let keeps = survivor_of(keeps)?;
    Some(ScriptLine::Life { fuse, keeps })
}

fn fuse_of(word: &[u8]) -> Option<Option<u64>>
    ensures { result ≡ fuse_of word.now }
{
    if word == b"-".as_slice() {
        return Some(None);
    }
    let operations = number(word)?;
    Some(Some(operations))
}

fn survivor_of(word: &[u8]) -> Option<Survivor>
    ensures { result ≡ survivor_of word.now }
{
    if word == b"oldest".as_slice() {
        Some(Survivor::Oldest)
    } else if word == b"newest".as_slice() {
        Some(Survivor::Newest)
    } else {
        None
    }
}

fn geometry_line(slots: &[u8], places: &[u8], window: &[u8]) -> Option<ScriptLine>
    ensures { result ≡ geometry_line slots.now places.now window.now }
{
    let slots = number(slots)?;
    let places = number(places)?;
    let window = number(window)?;
    Some(ScriptLine::Geometry {
        slots,
        places,
        window,
    })
}
