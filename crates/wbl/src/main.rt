//! The program wbl: the process around what the words ask for.
#![tactic(auto)]

use program::{Diagnostic, Exit, run_words};
use standard_streams::reserve;
use std::alloc::Global;
use std::io::ErrorKind;
use std::process::ExitCode;
use std::{env, io};

/// The exit status of words that aren't text.
const NO_TEXT: u8 = 2;

/// The exit status if there is no memory for the words.
const FAILED: u8 = 1;

fn main(rt: HostRuntime) -> ExitCode {
    let alloc = rt.alloc();
    let _reserved = match reserve(&rt) {
        Ok(reserved) => reserved,
        Err(reason) => return fail(&rt, reason),
    };
    let words = match words_given(&rt, alloc) {
        Ok(words) => words,
        Err(reason) => return fail(&rt, reason),
    };
    let Ok(words) = words
        .iter()
        .map(|word| word.as_str())
        .collect::<Vec<&str>>(alloc)
    else {
        return fail(&rt, io::Error::from(ErrorKind::OutOfMemory));
    };
    let exit = run_words(
        &rt,
        alloc,
        words.as_slice(),
        &mut rt.reader(),
        &mut io::writer(&rt),
    );
    let _ = print_diagnostic(&rt, &exit);
    ExitCode::from(exit.status)
}

// The words after the program's name, or why they can't be read.
fn words_given(rt: &HostRuntime, alloc: Global) -> io::Result<Vec<String>> {
    Ok(env::args(rt)?.skip(1).collect::<Vec<String>>(alloc)?)
}

// Prints why there are no words, which takes no memory, and how the process then ends.
fn fail(rt: &impl Eprint, reason: io::Error) -> ExitCode {
    if reason.kind() == ErrorKind::InvalidData {
        let _ = eprint!(rt; "error: an argument is no text in UTF-8\n");
        return ExitCode::from(NO_TEXT);
    }
    let _ = eprint!(rt; "error: {reason}\n");
    ExitCode::from(FAILED)
}

// Printing on standard error takes no memory.
fn print_diagnostic(rt: &impl Eprint, exit: &Exit) -> io::Result<()> {
    match &exit.diagnostic {
        Diagnostic::Nothing => {}
        Diagnostic::BadWords(text) => eprint!(rt; "{text}")?,
        Diagnostic::Broken(reason) => eprint!(rt; "error: {reason}\n")?,
        Diagnostic::FileFault { file, reason } => eprint!(rt; "error: {file}: {reason}\n")?,
    }
    match exit.unwritten {
        Some(file) => eprint!(rt; "{file} was not written\n"),
        None => Ok(()),
    }
}
