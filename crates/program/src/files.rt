ghost use Rattle.std.specs.Prelude.{◌≡◌, IfOk, is_some, true};
ghost use Rattle.console.specs.Kept.{writes_file};
ghost use Rattle.program.specs.Exits.{file_of};

use crate::image::{MOST_BYTES, image_bytes};
use command_line::orders::Order;
use std::alloc::Global;
use std::fs::{File, Metadata, OpenOptions, Permissions, TryLockError};
use std::io::{Error, ErrorKind, Read, Write};
use std::os::unix::fs::{MetadataExt, OpenOptionsExt, PermissionsExt, fchown};
use std::rt::Files;
use std::{fs, io};

/// How many names are tried for the file next to FILE.
const MOST_BESIDE: u32 = 100;

/// The permissions of a file: who may read, write and run it. The bits that run it as its owner or group aren't among them.
const PERMISSIONS: u32 = 0o777;

/// A name under which a file will be put, and the file that has it now. That file is locked until this is dropped, so that
/// no other process which locks it writes what is then lost.
#[derive(Drop)]
pub struct Target {
    name: String,
    /// None if there is no file of the name yet.
    old: Option<File>,
}

/// What an order's file holds, and where it will be replaced.
#[derive(Drop)]
pub struct Found {
    /// Nothing of a format, the image that a file stands for, or no more than shows that it is too long, and a script whole.
    pub bytes: Vec<u8>,
    /// None for an order that only reads.
    pub target: Option<Target>,
}

/// The file that an order names.
pub fn name_of<'a>(order: &Order<'a>) -> &'a str
    ensures { result.now ≡ file_of order.now }
{
    match *order {
        Order::Format { file, .. } => file,
        Order::Run { file } => file,
        Order::Check { file } => file,
        Order::Threads { file, .. } => file,
        Order::Lives { file } => file,
    }
}

/// Finds the order's file, and locks it if the order will replace it.
pub fn find<R: Files<File = File>>(rt: &R, alloc: Global, order: &Order) -> io::Result<Found>
    ensures target { IfOk result (λ found. is_some found.target ≡ writes_file order.now) }
{
    match *order {
        Order::Format { file, .. } => Ok(Found {
            bytes: Vec::new(alloc),
            target: Some(place_for(rt, alloc, file)?),
        }),
        Order::Run { file } | Order::Threads { file, .. } => find_image(rt, alloc, file),
        Order::Check { file } => Ok(Found {
            bytes: read_shared(rt, alloc, file)?,
            target: None,
        }),
        Order::Lives { file } => Ok(Found {
            bytes: read_whole(rt, alloc, file)?,
            target: None,
        }),
    }
}

fn find_image<R: Files<File = File>>(rt: &R, alloc: Global, name: &str) -> io::Result<Found>
    ensures target { IfOk result (λ found. is_some found.target ≡ true) }
{
    let name = without_link(rt, alloc, name)?;
    let file = open_locked(rt, name.as_str())?;
    let bytes = read_image(alloc, &file)?;
    let old = Some(file);
    Ok(Found {
        bytes,
        target: Some(Target { name, old }),
    })
}

fn place_for<R: Files<File = File>>(rt: &R, alloc: Global, name: &str) -> io::Result<Target> {
    if let Err(error) = fs::symlink_metadata(rt, name)
        && error.kind() == ErrorKind::NotFound
    {
        return Ok(Target {
            name: String::from_str(alloc, name)?,
            old: None,
        });
    }
    let name = without_link(rt, alloc, name)?;
    let old = Some(open_locked(rt, name.as_str())?);
    Ok(Target { name, old })
}

// The name of the file itself, if the last part of this one is a link.
fn without_link<R: Files>(rt: &R, alloc: Global, name: &str) -> io::Result<String> {
    if fs::symlink_metadata(rt, name)?.is_symlink() {
        return Ok(rt.canonicalize(alloc, name)?.into_string());
    }
    Ok(String::from_str(alloc, name)?)
}

// Only a regular file is opened: opening a pipe would wait.
fn open_locked<R: Files<File = File>>(rt: &R, name: &str) -> io::Result<File> {
    if !fs::symlink_metadata(rt, name)?.is_file() {
        return Err(Error::new(ErrorKind::InvalidInput, "not a regular file"));
    }
    let file = File::open(rt, name)?;
    locked(file.try_lock())?;
    is_still(rt, name, &file)?;
    Ok(file)
}

fn locked(outcome: Result<(), TryLockError>) -> io::Result<()> {
    match outcome {
        Ok(()) => Ok(()),
        Err(TryLockError::WouldBlock) => {
            let reason = "another process has the file open";
            Err(Error::new(ErrorKind::WouldBlock, reason))
        }
        Err(TryLockError::Error(error)) => Err(error),
    }
}

// Fails if the name is no longer that of the locked file: another process has replaced it, and holds no lock on this one.
fn is_still(rt: &impl Files, name: &str, file: &File) -> io::Result<()> {
    let (named, locked) = (fs::symlink_metadata(rt, name)?, file.metadata()?);
    if named.dev() == locked.dev() && named.ino() == locked.ino() && locked.is_file() {
        return Ok(());
    }
    Err(Error::other("another process has replaced the file"))
}

fn read_image(alloc: Global, file: &File) -> io::Result<Vec<u8>> {
    let mut bytes = Vec::new(alloc);
    let most = MOST_BYTES as u64 + 1;
    file.take(most).read_to_end(&mut bytes)?;
    image_bytes(alloc, bytes)
}

// An image that is only read. While it is locked, no process that locks it writes it; what isn't a regular file has no such
// writer.
fn read_shared<R: Files<File = File>>(rt: &R, alloc: Global, name: &str) -> io::Result<Vec<u8>> {
    let file = File::open(rt, name)?;
    if file.metadata()?.is_file() {
        locked(file.try_lock_shared())?;
    }
    read_image(alloc, &file)
}

fn read_whole(rt: &impl Files, alloc: Global, name: &str) -> io::Result<Vec<u8>> {
    let mut bytes = Vec::new(alloc);
    File::open(rt, name)?.read_to_end(&mut bytes)?;
    Ok(bytes)
}

impl Target {
    /// Puts a file with these bytes instead of the old one, whose owner and permissions it gets. It is written next to the
    /// old one and synced first, and only a complete file takes the name, so after an error the old one is as it was. After
    /// an error the new file is removed, if the system allows it; a program that is killed meanwhile leaves it, and no other
    /// program takes it for its own. The result is the folder, which still has to be synced: until then a power failure may
    /// bring the old file back.
    pub fn replace<R: Files<File = File>>(
        &self,
        rt: &R,
        alloc: Global,
        bytes: &[u8],
    ) -> io::Result<File> {
        let folder = File::open(rt, self.folder())?;
        let (beside, file) = self.create_beside(rt, alloc)?;
        let put = match self.write_synced(file, bytes) {
            Ok(()) => self.put(rt, beside.as_str()),
            Err(error) => Err(error),
        };
        if put.is_err() || self.old.is_none() {
            let _ = fs::remove_file(rt, beside.as_str());
        }
        put?;
        Ok(folder)
    }

    fn folder(&self) -> &str {
        let name = self.name.as_str();
        match name.rfind('/') {
            Some(0) => "/",
            Some(end) => &name[..end],
            None => ".",
        }
    }

    // A file of a name that nobody had. No other user may read it until it has the permissions of the old one.
    fn create_beside<R: Files<File = File>>(
        &self,
        rt: &R,
        alloc: Global,
    ) -> io::Result<(String, File)> {
        let mut options = OpenOptions::new();
        options.write(true).create_new(true);
        if self.old.is_some() {
            options.mode(0o600);
        }
        for number in 1..=MOST_BESIDE {
            let beside = format!(in alloc; "{}.wbl-new-{number}", self.name)?;
            match options.open(rt, beside.as_str()) {
                Ok(file) => return Ok((beside, file)),
                Err(error) if error.kind() == ErrorKind::AlreadyExists => {}
                Err(error) => return Err(error),
            }
        }
        let reason = "too many files of unfinished writes lie beside it";
        Err(Error::new(ErrorKind::AlreadyExists, reason))
    }

    fn write_synced(&self, mut file: File, bytes: &[u8]) -> io::Result<()> {
        file.write_all(bytes)?;
        if let Some(old) = &self.old {
            let old = old.metadata()?;
            give_to_owner_of(&old, &file)?;
            file.set_permissions(Permissions::from_mode(old.mode() & PERMISSIONS))?;
        }
        file.sync_all()
    }

    // A link takes no name that is in use, and a rename does.
    fn put(&self, rt: &impl Files, beside: &str) -> io::Result<()> {
        match &self.old {
            None => fs::hard_link(rt, beside, self.name.as_str()),
            Some(old) => {
                is_still(rt, self.name.as_str(), old)?;
                fs::rename(rt, beside, self.name.as_str())
            }
        }
    }
}

// The system isn't asked if the owner is the same: only a superuser may give a file away.
fn give_to_owner_of(old: &Metadata, file: &File) -> io::Result<()> {
    let new = file.metadata()?;
    let owner = (new.uid() != old.uid()).then_some(old.uid());
    let group = (new.gid() != old.gid()).then_some(old.gid());
    if owner.is_none() && group.is_none() {
        return Ok(());
    }
    fchown(file, owner, group)
}
