use serving::serve;
use std::alloc::Global;
use std::fs::{File, OpenOptions};
use std::io;
use std::io::Read;
use std::rt::Files;
use std::sync::Wait;
use store::Store;

// How many bytes are skipped at once.
const ROOM: usize = 64;

/// The files of a channel.
#[derive(Drop)]
pub struct Channel {
    alloc: Global,
    pub input: File,
    pub output: File,
}

impl Channel {
    /// Opens the files of the channel of this number. If they are named pipes, it waits until the other side has opened them.
    pub fn open<R: Files<File = File>>(
        rt: &R,
        alloc: Global,
        prefix: &str,
        number: u64,
    ) -> io::Result<Channel> {
        let requests = format!(in alloc; "{prefix}{number}.in")?;
        let replies = format!(in alloc; "{prefix}{number}.out")?;
        let mut reading = OpenOptions::new();
        reading.read(true);
        let mut writing = OpenOptions::new();
        writing.write(true);
        Ok(Channel {
            alloc,
            input: reading.open(rt, requests.as_str())?,
            output: writing.open(rt, replies.as_str())?,
        })
    }

    /// Serves its requests up to their end. What still comes after a failure is read too, so that the other side never writes to a
    /// channel that nobody reads.
    pub fn serve<R: Wait + Drop>(mut self, store: &Store<R>) -> io::Result<()> {
        let served = serve(self.alloc, store, &mut self.input, &mut self.output);
        skip_rest(&mut self.input);
        served
    }
}

/// Opens the channels from 1 to this number.
pub fn open_channels<R: Files<File = File>>(
    rt: &R,
    alloc: Global,
    prefix: &str,
    count: u64,
) -> io::Result<Vec<Channel>> {
    let mut channels = Vec::new(alloc);
    for index in 0..count {
        channels.push(Channel::open(rt, alloc, prefix, index.saturating_add(1))?)?;
    }
    Ok(channels)
}

// Reads up to the end of the requests.
fn skip_rest(input: &mut File) {
    let mut bytes = [0; ROOM];
    for _ in 0..u64::MAX {
        match input.read(&mut bytes) {
            Ok(0) | Err(_) => break,
            Ok(_) => {}
        }
    }
}
