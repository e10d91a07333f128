//! A program that runs scripts, and prints the result of each.
//!
//! A file `.lives` is a script of whole lives, each on a device of its own, which the subcommand `lives` plays. A file
//! `.script` says what `wbl` has to do with one file. A command of it begins with `$`, and the lines after it are its input.
//! `beside FILE program` runs while another process has FILE locked. With `torn wbl` the input fails after these lines, and
//! with `short N wbl` the output fails after N bytes. The file of `wbl` is kept in memory, and those of `program` are in the
//! folder where this program runs.
#![tactic(auto)]

mod failing;
mod image;
mod whole;

use crate::failing::{Short, Torn};
use crate::image::{print_bytes, print_words, set_words};
use crate::whole::{ask_program, run_beside, run_program};
use anyhow::Error;
use command_line::orders::{Order, WordFault};
use command_line::words::order;
use console::ended::Ended;
use console::execute::execute;
use console::stop::Stop;
use std::alloc::Global;
use std::fs::File;
use std::io::{Read, Write};
use std::rt::Files;
use std::sync::Wait;
use std::thread::Threads;
use std::{env, fs, io};

fn main(rt: HostRuntime) -> Result<(), Error> {
    let alloc = rt.alloc();
    let names: Vec<String> = env::args(&rt)?.skip(1).collect(alloc)?;
    for name in names.as_slice() {
        println!(rt; "== {name}")?;
        if name.as_str().ends_with(".lives") {
            let text = fs::read(&rt, name.as_str())?;
            play_lives(&rt, alloc, name.as_str(), text.as_slice());
            continue;
        }
        let script = fs::read_to_string(&rt, name.as_str())?;
        let mut file = Vec::new(alloc);
        for part in script.as_str().split('$').skip(1) {
            println!(rt; "${}", part.lines().next().unwrap_or(""))?;
            obey(&rt, alloc, part, &mut file)?;
        }
    }
    Ok(())
}

// Plays the lives of a script, as the subcommand does.
fn play_lives<H: Print + Threads + Wait + Copy + Drop + Send + Sync + 'static>(
    rt: &H,
    alloc: Global,
    name: &str,
    text: &[u8],
) {
    let order = Order::Lives { file: name };
    let mut input: &[u8] = &[];
    execute(rt, alloc, &order, text, &mut input, &mut io::writer(rt));
}

// Runs a command with its input.
fn obey<
    H: AllocGlobal
        + Files<File = File>
        + Print
        + Threads
        + Wait
        + Copy
        + Drop
        + Send
        + Sync
        + 'static,
>(rt: &H, alloc: Global, part: &str, file: &mut Vec<u8>) -> Result<(), Error> {
    let (command, input) = part.split_once('\n').unwrap_or((part, ""));
    let words: Vec<&str> = command
        .split(' ')
        .filter(|word| !word.is_empty())
        .collect(alloc)?;
    match words.as_slice() {
        ["words", first, count] => print_words(rt, alloc, file.as_slice(), first, count),
        ["bytes", first, count] => print_bytes(rt, file.as_slice(), first, count),
        ["set", changes @ ..] => set_words(alloc, file, changes),
        ["length", bytes] => Ok(file.resize(bytes.parse::<usize>()?, 0)?),
        ["text"] => Ok(*file = Vec::from_slice(alloc, input.as_bytes())?),
        ["more", times] => add_text(file, input, times),
        ["save", name] => Ok(fs::write(rt, *name, file.as_slice())?),
        ["load", name] => Ok(*file = fs::read(rt, *name)?),
        ["program", words @ ..] => run_program(rt, alloc, words, input),
        ["beside", held, "program", words @ ..] => run_beside(rt, alloc, held, words, input),
        ["ask", words @ ..] => ask_program(rt, alloc, words, input),
        ["wbl", words @ ..] => {
            let mut input = input.as_bytes();
            execute_words(rt, alloc, words, &mut input, &mut io::writer(rt), file)
        }
        ["torn", "wbl", words @ ..] => {
            let rest = input.as_bytes();
            let mut input = Torn { rest };
            execute_words(rt, alloc, words, &mut input, &mut io::writer(rt), file)
        }
        ["short", bytes, "wbl", words @ ..] => {
            let left = bytes.parse::<usize>()?;
            let mut output = Short { left };
            execute_words(rt, alloc, words, &mut input.as_bytes(), &mut output, file)
        }
        _ => Ok(println!(rt; "not a command")?),
    }
}

// Adds the input to the file, this many times.
fn add_text(file: &mut Vec<u8>, input: &str, times: &str) -> Result<(), Error> {
    for _ in 0..times.parse::<usize>()? {
        file.extend_from_slice(input.as_bytes())?;
    }
    Ok(())
}

// Does what the words after the program's name ask for.
fn execute_words<
    H: Print + Threads + Wait + Copy + Drop + Send + Sync + 'static,
    R: Read,
    W: Write,
>(
    rt: &H,
    alloc: Global,
    words: &[&str],
    input: &mut R,
    output: &mut W,
    file: &mut Vec<u8>,
) -> Result<(), Error> {
    match order(alloc, words) {
        Ok(order) => execute_order(rt, alloc, &order, input, output, file),
        Err(fault) => report_words(rt, fault),
    }
}

// Does the work of a subcommand, and prints how it ended if it failed.
fn execute_order<
    H: Print + Threads + Wait + Copy + Drop + Send + Sync + 'static,
    R: Read,
    W: Write,
>(
    rt: &H,
    alloc: Global,
    order: &Order,
    input: &mut R,
    output: &mut W,
    file: &mut Vec<u8>,
) -> Result<(), Error> {
    let Ended {
        status,
        file: left,
        stopped,
    } = execute(rt, alloc, order, file.as_slice(), input, output);
    if let Some(left) = left {
        *file = left;
    }
    if status != 0 {
        println!(rt; "status {status}")?;
    }
    match stopped {
        Some(Stop::Broken(reason)) => Ok(println!(rt; "broken: {reason}")?),
        _ => Ok(()),
    }
}

fn report_words<H: Print>(rt: &H, fault: WordFault) -> Result<(), Error> {
    let text = match fault {
        WordFault::Help(_) => "help",
        WordFault::BadWords(_) => "bad words",
        WordFault::OutOfMemory(_) => "out of memory",
    };
    println!(rt; "{text}")?;
    Ok(())
}
