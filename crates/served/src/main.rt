//! Serves the store in a file to another program: `served PREFIX` reads the requests of channel N from the file PREFIXN.in and writes the
//! replies to PREFIXN.out, which are pipes. The first frame of channel 0 says which store to open, and how many other channels there are.
//! Each of these has a thread of its own, up to the end of its requests. Then the store is closed, and a frame on channel 0 says how that
//! ended. `served -` has one channel, on its standard streams. Without words it says that.
#![tactic(auto)]

mod channel;
mod opening;

use anyhow::{Error, bail};
use channel::{Channel, open_channels};
use opening::{Opened, close, open};
use serving::serve;
use std::alloc::Global;
use std::fs::File;
use std::io::{Read, Write};
use std::rt::Files;
use std::sync::Wait;
use std::thread::{Threads, map_vec};
use std::{env, io};
use store::Store;

const WORDS: &str = "served PREFIX, or served -";

fn main(rt: HostRuntime) -> Result<(), Error> {
    let alloc = rt.alloc();
    let words: Vec<String> = env::args(&rt)?.skip(1).collect(alloc)?;
    let words: Vec<&str> = words.iter().map(|word| word.as_str()).collect(alloc)?;
    match words.as_slice() {
        [] => println!(rt; "{WORDS}")?,
        ["-"] => serve_streams(&rt, alloc, &mut rt.reader(), &mut io::writer(&rt))?,
        [prefix] => serve_files(&rt, alloc, prefix)?,
        _ => bail!("the words are {WORDS}"),
    }
    Ok(())
}

// Serves one channel, whose frames come between those of channel 0.
fn serve_streams<
    R: Files<File = File> + Threads + Wait + Copy + Drop + Send + Sync + 'static,
    I: Read,
    O: Write,
>(rt: &R, alloc: Global, input: &mut I, output: &mut O) -> io::Result<()> {
    let Some(Opened { store, .. }) = open(rt, alloc, input, output)? else {
        return Ok(());
    };
    let served = serve(alloc, &store, input, output);
    close(alloc, store, output)?;
    served
}

// Serves the channels of these files. All of them are opened before any is served.
fn serve_files<R: Files<File = File> + Threads + Wait + Copy + Drop + Send + Sync + 'static>(
    rt: &R,
    alloc: Global,
    prefix: &str,
) -> io::Result<()> {
    let mut control = Channel::open(rt, alloc, prefix, 0)?;
    let Some(opened) = open(rt, alloc, &mut control.input, &mut control.output)? else {
        return Ok(());
    };
    let Opened { store, channels } = opened;
    let served = match open_channels(rt, alloc, prefix, channels as u64) {
        Ok(channels) => serve_channels(rt, &store, channels),
        Err(error) => Err(error),
    };
    close(alloc, store, &mut control.output)?;
    served
}

// Serves each channel in a thread of its own. The error is that of the first channel that failed.
fn serve_channels<R: Threads + Wait + Drop + Send + Sync>(
    rt: &R,
    store: &Store<R>,
    channels: Vec<Channel>,
) -> io::Result<()> {
    let ended = map_vec(rt, channels, &|channel: Channel| channel.serve(store));
    for one in ended? {
        one?;
    }
    Ok(())
}
