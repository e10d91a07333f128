use std::fs::File;
use std::io;
use std::os::fd::AsRawFd;
use std::rt::Files;

/// How many descriptors are standard input, output and error.
const STANDARD: i32 = 3;

/// Holds the numbers of the standard streams that the process was started without.
#[derive(Drop)]
pub struct Reserved {
    held: [Option<File>; 3],
}

/// Takes each number below 3 that is free, so that no file opened later gets it: what is printed would go into that file.
/// It is called before anything is opened, and its result is kept until the process ends. An input that was closed then has
/// no bytes, and an output that was closed fails.
pub fn reserve<R: Files<File = File>>(rt: &R) -> io::Result<Reserved> {
    let mut held = [None, None, None];
    for slot in &mut held {
        let file = File::open(rt, "/dev/null")?;
        if file.as_raw_fd() >= STANDARD {
            break;
        }
        *slot = Some(file);
    }
    Ok(Reserved { held })
}
