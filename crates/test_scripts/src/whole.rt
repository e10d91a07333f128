use anyhow::{Error, bail};
use program::{Diagnostic, Exit, run_words};
use std::alloc::Global;
use std::fs::File;
use std::rt::Files;
use std::sync::Wait;
use std::thread::Threads;
use std::{io, str};

/// Runs the program, and prints what it prints and how it ended.
pub fn run_program<
    H: Files<File = File> + Print + Threads + Wait + Copy + Drop + Send + Sync + 'static,
>(rt: &H, alloc: Global, words: &[&str], input: &str) -> Result<(), Error> {
    let exit = run_words(rt, alloc, words, &mut input.as_bytes(), &mut io::writer(rt));
    print_exit(rt, &exit)
}

/// Runs the program while another has the file open and locked, and prints what it prints and how it ended.
pub fn run_beside<
    H: Files<File = File> + Print + Threads + Wait + Copy + Drop + Send + Sync + 'static,
>(rt: &H, alloc: Global, held: &str, words: &[&str], input: &str) -> Result<(), Error> {
    let file = File::open(rt, held)?;
    if file.try_lock().is_err() {
        bail!("{held} is locked");
    }
    run_program(rt, alloc, words, input)
}

/// Runs the program, and prints which lines of the input are in what it prints, and how it ended.
pub fn ask_program<
    H: Files<File = File> + Print + Threads + Wait + Copy + Drop + Send + Sync + 'static,
>(rt: &H, alloc: Global, words: &[&str], input: &str) -> Result<(), Error> {
    let mut output = Vec::new(alloc);
    let exit = run_words(rt, alloc, words, &mut b"".as_slice(), &mut output);
    let printed = str::from_utf8(output.as_slice())?;
    for line in input.lines() {
        let said = if printed.contains(line) {
            "says"
        } else {
            "doesn't say"
        };
        println!(rt; "{said} {line}")?;
    }
    if printed.is_empty() {
        println!(rt; "says nothing")?;
    }
    print_exit(rt, &exit)
}

fn print_exit<H: Print>(rt: &H, exit: &Exit) -> Result<(), Error> {
    match &exit.diagnostic {
        Diagnostic::Nothing => {}
        Diagnostic::BadWords(text) if text.is_empty() => println!(rt; "bad words without a text")?,
        Diagnostic::BadWords(_) => println!(rt; "bad words on standard error")?,
        Diagnostic::Broken(reason) => println!(rt; "{reason} on standard error")?,
        Diagnostic::FileFault { file, reason } => println!(rt;
            "{file}: {reason} on standard error"
        )?,
    }
    if let Some(file) = exit.unwritten {
        println!(rt; "{file} was not written on standard error")?;
    }
    println!(rt; "status {}", exit.status)?;
    Ok(())
}
