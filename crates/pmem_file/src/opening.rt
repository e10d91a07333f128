use base::fault::Fault;
use std::alloc::Global;
use std::fs::{File, OpenOptions, TryLockError, remove_file};
use std::io;
use std::io::ErrorKind;
use std::os::fd::AsRawFd;
use std::os::unix::fs::MetadataExt;
use std::rt::Files;
use thiserror::Error;

/// Why a file isn't opened as a device. But at `Io` nothing was written to it.
#[derive(Debug, Drop, Error)]
pub enum OpenError {
    #[error("no such file, or an empty one")]
    Missing,
    #[error("another process has the file open")]
    Busy,
    #[error("another process has just replaced the file: open it again")]
    Replaced,
    #[error("it isn't a regular file")]
    NotAFile,
    #[error("a standard stream is closed, and the file would take its number")]
    StandardStream,
    #[error("no image begins here, and it isn't empty: name another file")]
    NotAnImage,
    #[error("{extra} bytes follow its image, which has {length}")]
    Trailing { extra: u64, length: u64 },
    #[error("its image is cut short: {missing} bytes of {length} are missing")]
    Short { missing: u64, length: u64 },
    #[error("a journal follows its image, and the last 64 bytes, which name it, are damaged")]
    NoTail,
    #[error("{0}")]
    Image(Fault),
    #[error("{0}")]
    Io(#[from] io::Error),
}

// Opens what has the number of a standard stream that is closed, so that no other file gets it.
pub(crate) fn hold_standard_streams<R: Files<File = File>>(
    rt: &R,
    alloc: Global,
) -> io::Result<Vec<File>> {
    let mut held = Vec::new(alloc);
    for _ in 0..3 {
        let Ok(file) = File::open(rt, "/dev/null") else {
            break;
        };
        if !is_standard(&file) {
            break;
        }
        held.push(file)?;
    }
    Ok(held)
}

fn is_standard(file: &File) -> bool {
    file.as_raw_fd() <= 2
}

// Opens the file and locks it. If it is missing, it is made if it may be. Returns whether it was made, too.
pub(crate) fn open_alone<R: Files<File = File>>(
    rt: &R,
    name: &str,
    may_make: bool,
) -> Result<(File, bool), OpenError> {
    let (file, is_made) = open_named(rt, name, may_make)?;
    if is_standard(&file) {
        return Err(OpenError::StandardStream);
    }
    lock(&file)?;
    let metadata = file.metadata()?;
    if !metadata.is_file() {
        return Err(OpenError::NotAFile);
    }
    let named = rt.metadata(name)?;
    if named.ino() != metadata.ino() || named.dev() != metadata.dev() {
        return Err(OpenError::Replaced);
    }
    Ok((file, is_made))
}

fn open_named<R: Files<File = File>>(
    rt: &R,
    name: &str,
    may_make: bool,
) -> Result<(File, bool), OpenError> {
    let mut options = OpenOptions::new();
    options.read(true).write(true);
    match options.open(rt, name) {
        Err(error) if error.kind() == ErrorKind::NotFound => {
            if !may_make {
                return Err(OpenError::Missing);
            }
            Ok((options.create(true).open(rt, name)?, true))
        }
        opened => Ok((opened?, false)),
    }
}

fn lock(file: &File) -> Result<(), OpenError> {
    match file.try_lock() {
        Ok(()) => Ok(()),
        Err(TryLockError::WouldBlock) => Err(OpenError::Busy),
        Err(TryLockError::Error(error)) => Err(OpenError::Io(error)),
    }
}

// Syncs the folder of a new file. If that fails, one that was made here is removed again: it might not be found any more, and as long
// as its folder may not be read, opening it would fail for the same reason.
pub(crate) fn sync_new_folder<R: Files<File = File>>(
    rt: &R,
    alloc: Global,
    name: &str,
    is_made: bool,
) -> io::Result<()> {
    let synced = sync_folder(rt, alloc, name);
    if synced.is_err() && is_made {
        let file = rt.canonicalize(alloc, name)?;
        let _ = remove_file(rt, file.as_path());
    }
    synced
}

// A new name persists once its folder is synced: the one that has the file, wherever links lead.
fn sync_folder<R: Files<File = File>>(rt: &R, alloc: Global, name: &str) -> io::Result<()> {
    let mut folder = rt.canonicalize(alloc, name)?;
    folder.pop();
    File::open(rt, folder.as_path())?.sync_all()
}

// The name of a file that isn't empty persists, unless another program made it: so a folder that may not be read is none the
// worse.
pub(crate) fn sync_known_folder<R: Files<File = File>>(
    rt: &R,
    alloc: Global,
    name: &str,
) -> io::Result<()> {
    match sync_folder(rt, alloc, name) {
        Err(error) if error.kind() == ErrorKind::PermissionDenied => Ok(()),
        synced => synced,
    }
}
