ghost use Rattle.std.specs.Prelude.{◌≡◌, ◌≢◌, ◌⊎◌, [], false, true, None, IfSome};
ghost use Rattle.std.specs.Io.KnownBytes.{Appends};
ghost use Rattle.command_line.specs.Help.{GetsHelp, MayGetHelp};
ghost use Rattle.command_line.specs.Lines.{texts};
ghost use Rattle.command_line.specs.Words.{GivesNothing};
ghost use Rattle.console.specs.Kept.{IfReadsNoInput, writes_file};
ghost use Rattle.console.specs.Refusals.{status_of};
ghost use Rattle.program.specs.Exits.{HasStatus, IfBadWords, IfFileFault, IsBadWords, IsHelp, NameFile, NameWritten, ObeyLines, ReadInput, WriteNoFile, file_of, obeys_lines};
ghost use Rattle.program.specs.declared.running.Diagnostic.TheVariants.{Nothing as NothingPrinted};

use crate::files::{Target, find, name_of};
use crate::heard::Heard;
use base::fault::Fault;
use base::geometry::Geometry;
use command_line::orders::{Order, WordFault};
use command_line::printed::{Printed, print};
use command_line::words::order;
use console::ended::Ended;
use console::execute::execute;
use console::format::fresh_file;
use console::stop::Stop;
use standard_streams::LastLine;
use std::alloc::Global;
use std::fs::File;
use std::io;
use std::io::{ErrorKind, Read, Write};
use std::rt::Files;
use std::sync::Wait;
use std::thread::Threads;

/// The exit status if a file or memory failed.
const FAILED: u8 = 1;

/// The exit status of bad words.
const BAD_WORDS: u8 = 2;

/// What the program ends with.
#[derive(Drop)]
pub struct Exit<'a> {
    pub status: u8,
    pub diagnostic: Diagnostic<'a>,
    /// The file that would have been written, and is as it was.
    pub unwritten: Option<&'a str>,
}

/// What is printed on standard error at the end.
#[derive(Drop)]
pub enum Diagnostic<'a> {
    Nothing,
    /// What is wrong with the words.
    BadWords(String),
    /// The input couldn't be read, or the output couldn't be written, for this reason.
    Broken(io::Error),
    /// The file couldn't be read or written, for this reason.
    FileFault { file: &'a str, reason: io::Error },
}

/// Does what the words ask for. Without words it runs the input on a fresh image, and keeps nothing.
pub fn run_words<
    'a,
    H: Files<File = File> + Threads + Wait + Copy + Drop + Send + Sync + 'static,
    R: Read,
    W: Write,
>(rt: &H, alloc: Global, words: &'a [&'a str], input: &mut R, output: &mut W) -> Exit<'a>
    // 2 if the words are bad, 1 if a file, the input or the output failed, and otherwise at most 2 (`HasStatus`).
    ensures status { HasStatus result.diagnostic result.status }

    // A status of 0 leaves no file unwritten.
    ensures written { result.status ≡ 0 → result.unwritten ≡ None }

    // A file that is reported as failing is the one that the words name. So is one that was to be written and stays as it was,
    // and then the order is one that writes it (`NameFile`, `NameWritten`).
    ensures file { IfFileFault (NameFile (texts words.now)) result.diagnostic }
    ensures unwritten { IfSome result.unwritten (λ name. NameWritten (texts words.now) name.now) }

    // If neither a file nor the input nor the output is reported as failing, a run that fails names the file that it was to
    // write. If it names none, its words give no order, or one that writes no file (`WriteNoFile`).
    ensures named { result.status ≢ 0 → result.diagnostic ≡ NothingPrinted → result.unwritten ≡ None → WriteNoFile (texts words.now) }

    // If nothing is reported as failing, a status of 2 is of no words, or of an order that runs lines: a run, or lives
    // (`ObeyLines`).
    ensures lines { result.status ≡ 2 → result.diagnostic ≡ NothingPrinted → ObeyLines (texts words.now) }

    // Only words that give no order, and don't ask for help alone, are bad. Then neither is the input read nor the output
    // written.
    ensures bad_words { IfBadWords ((texts words.now ≢ []) × GivesNothing (texts words.now) × (GetsHelp (texts words.now) → ⊥) × (input.new ≡ input.old) × (output.new ≡ output.old)) result.diagnostic }

    // No words, and those of a run, alone read the input (`ReadInput`).
    ensures unread { (input.new ≡ input.old) ⊎ ReadInput (texts words.now) }

    // Words that give no order end with 0 only if they may get help.
    ensures help { texts words.now ≢ [] → GivesNothing (texts words.now) → result.status ≡ 0 → MayGetHelp (texts words.now) }
{
    if words.is_empty() {
        return run_fresh(rt, alloc, input, output);
    }
    match order(alloc, words) {
        Ok(order) => obey(rt, alloc, &order, input, output),
        Err(fault) => report_words(fault, output),
    }
}

fn run_fresh<'a, H: Threads + Wait + Copy + Drop + Send + Sync + 'static, R: Read, W: Write>(
    rt: &H,
    alloc: Global,
    input: &mut R,
    output: &mut W,
) -> Exit<'a>
    ensures status { HasStatus result.diagnostic result.status }
    ensures unwritten { result.unwritten ≡ None }
    ensures file { IfFileFault (λ _. ⊥) result.diagnostic }
    ensures bad_words { IfBadWords ⊥ result.diagnostic }
{
    let file = match Geometry::new(4, 2, 8).and_then(|geometry| fresh_file(alloc, geometry)) {
        Ok(file) => file,
        Err(fault) => return refuse(alloc, fault, None, output),
    };
    let order = Order::Run { file: "" };
    let mut input = Heard::new(input);
    let mut output = Heard::new(output);
    let ended = execute(rt, alloc, &order, file.as_slice(), &mut input, &mut output);
    Exit {
        status: ended.status,
        diagnostic: diagnostic_of(ended.stopped, input.failure.or(output.failure)),
        unwritten: None,
    }
}

// Finds FILE, does the work, and replaces FILE with the result. The line that reports success is held back until that has happened.
fn obey<
    'a,
    H: Files<File = File> + Threads + Wait + Copy + Drop + Send + Sync + 'static,
    R: Read,
    W: Write,
>(rt: &H, alloc: Global, order: &Order<'a>, input: &mut R, output: &mut W) -> Exit<'a>
    ensures status { HasStatus result.diagnostic result.status }
    ensures written { result.status ≡ 0 → result.unwritten ≡ None }
    ensures file { IfFileFault (λ name. file_of order.now ≡ name) result.diagnostic }
    ensures unwritten { IfSome result.unwritten (λ name. (file_of order.now ≡ name.now) × (writes_file order.now ≡ true)) }
    ensures named { result.status ≢ 0 → result.diagnostic ≡ NothingPrinted → result.unwritten ≡ None → writes_file order.now ≡ false }
    ensures lines { result.status ≡ 2 → result.diagnostic ≡ NothingPrinted → obeys_lines order.now ≡ true }
    ensures unread { IfReadsNoInput order.now (input.new ≡ input.old) }
    ensures bad_words { IfBadWords ⊥ result.diagnostic }
{
    let name = name_of(order);
    let found = match find(rt, alloc, order) {
        Ok(found) => found,
        Err(reason) => return fail(alloc, name, reason, output),
    };
    let unwritten = found.target.is_some().then_some(name);
    let Ok(mut held) = LastLine::new(alloc, Heard::new(output)) else {
        return refuse(alloc, Fault::OutOfMemory, unwritten, output);
    };
    let mut input = Heard::new(input);
    let Ended {
        status,
        file,
        stopped,
    } = execute(
        rt,
        alloc,
        order,
        found.bytes.as_slice(),
        &mut input,
        &mut held,
    );
    if let (Some(bytes), Some(target)) = (&file, &found.target) {
        return put(rt, alloc, name, target, bytes.as_slice(), held);
    }
    let failure = input.failure.or(held.output().failure);
    let said = say(held);
    if status == 0 {
        return said;
    }
    Exit {
        status,
        diagnostic: diagnostic_of(stopped, failure),
        unwritten,
    }
}

// Replaces FILE with these bytes, and then reports that the work is done.
fn put<'a, H: Files<File = File>, W: Write + Drop>(
    rt: &H,
    alloc: Global,
    name: &'a str,
    target: &Target,
    bytes: &[u8],
    held: LastLine<W>,
) -> Exit<'a>
    ensures status { HasStatus result.diagnostic result.status }
    ensures written { result.status ≡ 0 → result.unwritten ≡ None }
    ensures reason { result.status ≢ 0 → result.diagnostic ≢ NothingPrinted }
    ensures file { IfFileFault (λ at. at ≡ name.now) result.diagnostic }
    ensures unwritten { IfSome result.unwritten (λ at. at.now ≡ name.now) }
    ensures bad_words { IfBadWords ⊥ result.diagnostic }
{
    let folder = match target.replace(rt, alloc, bytes) {
        Ok(folder) => folder,
        Err(reason) => {
            let failed = fail(alloc, name, reason, &mut held.give_up());
            return Exit {
                status: failed.status,
                diagnostic: failed.diagnostic,
                unwritten: Some(name),
            };
        }
    };
    match folder.sync_all() {
        Ok(()) => say(held),
        Err(reason) => fail(alloc, name, reason, &mut held.give_up()),
    }
}

fn say<'a, W: Write + Drop>(held: LastLine<W>) -> Exit<'a>
    ensures status { HasStatus result.diagnostic result.status }
    ensures reason { result.status ≢ 0 → result.diagnostic ≢ NothingPrinted }
    ensures unwritten { result.unwritten ≡ None }
    ensures file { IfFileFault (λ _. ⊥) result.diagnostic }
    ensures bad_words { IfBadWords ⊥ result.diagnostic }
{
    match held.finish() {
        Ok(_) => Exit {
            status: 0,
            diagnostic: Diagnostic::Nothing,
            unwritten: None,
        },
        Err(error) => Exit {
            status: FAILED,
            diagnostic: Diagnostic::Broken(error),
            unwritten: None,
        },
    }
}

// A refusal, and a line that isn't a command, are printed on the output.
fn diagnostic_of<'a>(stopped: Option<Stop>, failure: Option<io::Error>) -> Diagnostic<'a>
    ensures status { HasStatus result (status_of stopped) }
    ensures file { IfFileFault (λ _. ⊥) result }
    ensures bad_words { IfBadWords ⊥ result }
{
    match (stopped, failure) {
        (Some(Stop::Broken(kind)), Some(error)) if error.kind() == kind => Diagnostic::Broken(
            error,
        ),
        (Some(Stop::Broken(kind)), _) => Diagnostic::Broken(io::Error::from(kind)),
        _ => Diagnostic::Nothing,
    }
}

// Prints why the work wasn't begun. This file stays as it was.
fn refuse<'a, W: Write>(
    alloc: Global,
    fault: Fault,
    unwritten: Option<&'a str>,
    output: &mut W,
) -> Exit<'a>
    ensures status { HasStatus result.diagnostic result.status }
    ensures failed { result.status ≡ 1 }
    ensures unwritten { result.unwritten ≡ unwritten.entry }
    ensures file { IfFileFault (λ _. ⊥) result.diagnostic }
    ensures bad_words { IfBadWords ⊥ result.diagnostic }
{
    let diagnostic = match print(alloc, output, &Printed::Refused(fault)) {
        Ok(()) => Diagnostic::Nothing,
        Err(error) => Diagnostic::Broken(error),
    };
    Exit {
        status: FAILED,
        diagnostic,
        unwritten,
    }
}

// Reports that a file failed. If the output fails too, the file is reported.
fn fail<'a, W: Write>(alloc: Global, file: &'a str, reason: io::Error, output: &mut W) -> Exit<'a>
    ensures status { HasStatus result.diagnostic result.status }
    ensures failed { result.status ≡ 1 }
    ensures reason { result.diagnostic ≢ NothingPrinted }
    ensures unwritten { result.unwritten ≡ None }
    ensures file { IfFileFault (λ at. at ≡ file.now) result.diagnostic }
    ensures bad_words { IfBadWords ⊥ result.diagnostic }
{
    let _ = print(alloc, output, &Printed::FileFault);
    Exit {
        status: FAILED,
        diagnostic: Diagnostic::FileFault { file, reason },
        unwritten: None,
    }
}

// Prints the help that was asked for, or reports what is wrong with the words.
fn report_words<'a, W: Write>(fault: WordFault, output: &mut W) -> Exit<'a>
    ensures status { HasStatus result.diagnostic result.status }
    ensures reason { result.status ≢ 0 → result.diagnostic ≢ NothingPrinted }
    ensures unwritten { result.unwritten ≡ None }
    ensures file { IfFileFault (λ _. ⊥) result.diagnostic }
    ensures bad_words { IfBadWords (IsBadWords fault × (output.new ≡ output.old)) result.diagnostic }
    ensures help { result.status ≡ 0 → IsHelp fault }
{
    match fault {
        WordFault::Help(text) => show_help(text.as_str(), output),
        WordFault::BadWords(text) => Exit {
            status: BAD_WORDS,
            diagnostic: Diagnostic::BadWords(text),
            unwritten: None,
        },
        WordFault::OutOfMemory(_) => Exit {
            status: FAILED,
            diagnostic: Diagnostic::Broken(io::Error::from(ErrorKind::OutOfMemory)),
            unwritten: None,
        },
    }
}

fn show_help<'a, W: Write>(text: &str, output: &mut W) -> Exit<'a>
    ensures status { HasStatus result.diagnostic result.status }
    ensures reason { result.status ≢ 0 → result.diagnostic ≢ NothingPrinted }
    ensures unwritten { result.unwritten ≡ None }
    ensures file { IfFileFault (λ _. ⊥) result.diagnostic }
    ensures bad_words { IfBadWords ⊥ result.diagnostic }
    ensures shown { result.status ≡ 0 → Appends (W.contents output.old) (W.contents output.new) text.now }
{
    match output.write_all(text.as_bytes()) {
        Ok(()) => Exit {
            status: 0,
            diagnostic: Diagnostic::Nothing,
            unwritten: None,
        },
        Err(error) => Exit {
            status: FAILED,
            diagnostic: Diagnostic::Broken(error),
            unwritten: None,
        },
    }
}
