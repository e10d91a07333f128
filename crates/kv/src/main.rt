//! A key-value store in a file. It runs a command, or the lines of standard input, and prints what they return. Once `committed` is
//! printed, a change is durable.
#![tactic(auto)]

mod all_pages;
mod answers;
mod load;
mod opening;
mod shell;
mod work;

use crate::work::{obey_words, report_failed};
use printing::Terminals;
use std::alloc::Global;
use std::io::IsTerminal;
use std::process::ExitCode;
use std::rt::Env;
use std::{env, io};

fn main(rt: HostRuntime) -> ExitCode {
    let alloc = rt.alloc();
    let terminals = Terminals {
        input: rt.stdin().is_terminal(),
        output: rt.stdout().is_terminal(),
        error: rt.stderr().is_terminal(),
    };
    let status = match read_words(&rt, alloc) {
        Ok(words) => obey_words(&rt, alloc, words.as_slice(), terminals),
        Err(error) => report_failed(&rt, &error),
    };
    ExitCode::from(status)
}

// The words of the command line.
fn read_words(rt: &(impl Env + AllocGlobal), alloc: Global) -> io::Result<Vec<String>> {
    Ok(env::args(rt)?.collect(alloc)?)
}
