use crate::opening::open_store;
use crate::shell::{Outcome, answer_command, answer_lines};
use answering::Failure;
use base::fault::Fault;
use clap::error::ErrorKind;
use commands::help::Word;
use commands::{Command, Options, Unreadable, command_line, read_options};
use printing::{Manner, Output, Terminals};
use std::alloc::Global;
use std::fs::File;
use std::io;
use std::rt::{Clock, Files};
use std::sync::Wait;
use std::thread::Threads;
use store::{OpenError, StoreError, standard_layout};

const DONE: u8 = 0;

const FAILED: u8 = 1;

const BAD_WORDS: u8 = 2;

const REFUSED: u8 = 3;

/// Does what the words of the command line say. Returns the exit status.
pub fn obey_words<
    R: Input
        + Print
        + Eprint
        + Clock
        + Files<File = File>
        + Threads
        + Wait
        + Copy
        + Drop
        + Send
        + Sync
        + 'static,
>(rt: &R, alloc: Global, words: &[String], terminals: Terminals) -> u8 {
    let command_line = match command_line(alloc) {
        Ok(command_line) => command_line,
        Err(error) => return report_failed(rt, &io::Error::from(error)),
    };
    let matches = match command_line.try_get_matches_from(words) {
        Ok(matches) => matches,
        Err(error) => return refuse_words(rt, &error),
    };
    let options = match read_options(&matches, &standard_layout()) {
        Ok(options) => options,
        Err(error) => return report_bad_words(rt, &error),
    };
    let manner = Manner::of(terminals, options.command.is_none(), options.is_text);
    if let Some(given) = &options.command {
        if let Command::Help(word) = given.command {
            return explain(rt, manner, word);
        }
        if given.is_doubtful {
            warn_of_row(rt, words);
        }
    }
    serve(rt, alloc, &options, manner)
}

/// Says that the words can't be read. Returns the exit status.
pub fn report_failed(rt: &impl Eprint, error: &io::Error) -> u8 {
    let _ = eprintln!(rt; "kv: {error}");
    FAILED
}

fn report_bad_words(rt: &impl Eprint, error: &Unreadable) -> u8 {
    let _ = eprintln!(rt; "kv: {error}");
    BAD_WORDS
}

// Says how the row, which is the last word, was read, since it may have been meant differently.
fn warn_of_row(rt: &impl Eprint, words: &[String]) {
    if let Some(row) = words.last() {
        let _ = eprintln!(rt;
            "kv: {row} was read as bytes, two hexadecimal digits each; text needs quotation marks, which a shell takes away: '\"{row}\"'"
        );
    }
}

// Says what is wrong with the words of the command line, or prints the help. Returns the exit status.
fn refuse_words(rt: &(impl Print + Eprint), error: &clap::Error) -> u8 {
    if error.kind() == ErrorKind::OutOfMemory {
        let _ = eprintln!(rt; "kv: out of memory");
        return FAILED;
    }
    let _ = error.print(rt);
    if error.use_stderr() { BAD_WORDS } else { DONE }
}

// Explains a command, or lists them. Returns the exit status.
fn explain(rt: &(impl Print + Eprint), manner: Manner, word: Option<Word>) -> u8 {
    let output = Output { rt, manner };
    match output.help(word) {
        Ok(()) => DONE,
        Err(error) => report_failed(rt, &error),
    }
}

// Opens the file, runs the command or each line of the input, and closes the file. Returns the exit status.
fn serve<
    R: Input
        + Print
        + Eprint
        + Clock
        + Files<File = File>
        + Threads
        + Wait
        + Copy
        + Drop
        + Send
        + Sync
        + 'static,
>(rt: &R, alloc: Global, options: &Options<'_>, manner: Manner) -> u8 {
    let store = match open_store(rt, alloc, options) {
        Ok(store) => store,
        Err(failure) => return fail(rt, options.file, &failure),
    };
    let answered = match &options.command {
        Some(given) => answer_command(rt, alloc, &store, manner, &given.command),
        None => answer_lines(rt, alloc, &store, manner, options.bails),
    };
    match store.close() {
        Ok(()) => end(rt, options, answered),
        Err(error) => fail_close(rt, options.file, error, answered),
    }
}

// Says that the file is closed, or why no more lines were run. Returns the exit status.
fn end(
    rt: &(impl Print + Eprint),
    options: &Options<'_>,
    answered: Result<Outcome, Failure>,
) -> u8 {
    match say_closed(rt, options, answered) {
        Ok(true) => REFUSED,
        Ok(false) => DONE,
        Err(failure) => fail(rt, options.file, &failure),
    }
}

// Says that the file is closed, unless it was opened for one command. Returns whether a line was refused.
fn say_closed(
    rt: &impl Print,
    options: &Options<'_>,
    answered: Result<Outcome, Failure>,
) -> Result<bool, Failure> {
    let outcome = answered?;
    if options.command.is_none() {
        println!(rt; "closed").map_err(Failure::Output)?;
    }
    Ok(outcome.was_refused)
}

// Says why the store couldn't be used to the end. Returns the exit status.
fn fail(rt: &impl Eprint, name: &str, failure: &Failure) -> u8 {
    let _ = eprintln!(rt; "kv: {name}: {failure}");
    match failure {
        Failure::HasLayout { .. } => BAD_WORDS,
        Failure::File(OpenError::Trailing { length, .. }) => {
            let _ = eprintln!(rt; "kv: truncate -s {length} {name} cuts them off");
            FAILED
        }
        _ => FAILED,
    }
}

// Says why the store isn't closed, and what is kept, unless a line was refused for the same reason. Returns the exit status.
fn fail_close(
    rt: &impl Eprint,
    name: &str,
    error: StoreError,
    answered: Result<Outcome, Failure>,
) -> u8 {
    let cause = match Failure::from(error) {
        Failure::Lost(cause) if cause.kind() == io::ErrorKind::NotFound => {
            return fail(rt, name, &Failure::Unlinked);
        }
        cause => cause,
    };
    if !is_told(&answered, &cause) {
        let stop = answered.err().unwrap_or(Failure::AtClose);
        let _ = eprintln!(rt; "kv: {name}: {cause}: {stop}");
    }
    FAILED
}

// Whether a line was refused for the same reason: no timestamps or record numbers are left.
fn is_told(answered: &Result<Outcome, Failure>, cause: &Failure) -> bool {
    let is_spent = matches!(answered, Ok(outcome) if outcome.is_spent);
    is_spent && matches!(cause, Failure::Fault(Fault::TimestampsOut))
}
