use requests::{Answer, AskedLayout, Opening, receive_opening, send};
use serving::{status_of, text_of};
use std::alloc::Global;
use std::fs::File;
use std::io;
use std::io::{Read, Write};
use std::rt::Files;
use std::sync::Wait;
use std::thread::Threads;
use store::{Geometry, Store, StoreError};

/// A store that is open, and how many channels ask it.
#[derive(Drop)]
pub struct Opened<R: Wait + Drop> {
    pub store: Store<R>,
    pub channels: u16,
}

/// Opens the store that the first frame of channel 0 names, and replies how that ended. `None` if it isn't opened.
pub fn open<
    R: Files<File = File> + Threads + Wait + Copy + Drop + Send + Sync + 'static,
    I: Read,
    O: Write,
>(rt: &R, alloc: Global, input: &mut I, output: &mut O) -> io::Result<Option<Opened<R>>> {
    let Some(opening) = receive_opening(alloc, input)? else {
        send(alloc, output, &Answer::Misuse)?;
        return Ok(None);
    };
    match open_store(rt, alloc, &opening) {
        Ok(store) => {
            send(alloc, output, &Answer::Done)?;
            Ok(Some(Opened {
                store,
                channels: opening.channels,
            }))
        }
        Err(error) => {
            send(alloc, output, &refusal(alloc, &error))?;
            Ok(None)
        }
    }
}

fn open_store<R: Files<File = File> + Threads + Wait + Copy + Drop + Send + Sync + 'static>(
    rt: &R,
    alloc: Global,
    opening: &Opening,
) -> Result<Store<R>, StoreError> {
    let name = opening.name.as_str();
    let geometry = match opening.layout {
        AskedLayout::Existing => return Store::open_existing(*rt, alloc, name),
        AskedLayout::Narrow(asked) => Geometry::new(asked.slots, asked.places, asked.window)?,
        AskedLayout::Wide(asked) => Geometry::wide(asked.slots, asked.places, asked.window)?,
        AskedLayout::Large(lines, asked) => Geometry::large(
            lines,
            asked.slots,
            asked.places,
            asked.window,
        )?,
    };
    Store::open(*rt, alloc, name, geometry)
}

/// Closes the store, and says how that ended.
pub fn close<R: Wait + Drop, O: Write>(
    alloc: Global,
    store: Store<R>,
    output: &mut O,
) -> io::Result<()> {
    match store.close() {
        Ok(()) => send(alloc, output, &Answer::Done),
        Err(error) => send(alloc, output, &refusal(alloc, &error)),
    }
}

fn refusal(alloc: Global, error: &StoreError) -> Answer {
    Answer::Refused(status_of(error), text_of(alloc, error))
}
