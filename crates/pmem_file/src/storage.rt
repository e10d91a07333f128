use file_words::{Account, WordFile};
use journal::Storage;
use std::alloc::Global;
use std::fs::File;
use std::io;
use std::os::fd::AsRawFd;

/// A file that holds words, and the account of what was done to it.
#[derive(Drop)]
pub struct FileStorage {
    file: WordFile,

    // They have the numbers of the standard streams, as far as these are closed: what is printed never goes into the file.
    held: Vec<File>,

    apart: Apart,

    // The same open file, for a sync that is made apart, while none is.
    other: Option<File>,
}

// A sync that is made apart, of all that was written up to now.
#[derive(Clone, Copy)]
enum Apart {
    /// None is.
    None,
    /// It is handed out, by the descriptor of this number. The system reports a failed write once: so no other sync may answer
    /// meanwhile.
    Out(i32),
    /// It was taken back, and this came of it.
    Ended(io::Result<()>),
}

/// A sync of a file's data, which any thread may make.
#[derive(Drop)]
pub struct FileSync {
    file: File,

    // What came of it, once it was made.
    ended: Option<io::Result<()>>,
}

impl FileStorage {
    ghost use Rattle.std.specs.Prelude.{◌≡◌, ℕ, ◌<◌, ◌≤◌, ◌∷◌, slice_index, IfOk, OnOk};
    ghost use Rattle.file_words.specs.Accounts.{IsReadInPlace, Stopping};
    ghost use Rattle.file_words.specs.Calls.{IsCutTo, calls_of, held_by};
    ghost use Rattle.journal.specs.Lives.{IsNoMore};
    ghost use Rattle.pmem_file.specs.Files.{calls_in, held_in, shown_in};

    /// A file of which nothing is known but what was read of it, as by `WordFile::read`.
    pub(crate) fn read(
        alloc: Global,
        file: File,
        held: Vec<File>,
        count: usize,
        words: usize,
        room: usize,
        found: &Vec<u64>,
    ) -> io::Result<FileStorage>
        ensures { IfOk result (λ storage. (word x : ℕ) → IsReadInPlace count words room found.now.items word → shown_in storage word x → x ≡ slice_index found.now.items word) }
    {
        Ok(FileStorage {
            other: Some(file.try_clone()?),
            file: WordFile::read(alloc, file, count, words, room, found)?,
            held,
            apart: Apart::None,
        })
    }

    /// A file whose last life stopped with this account. It is trusted of the caller that it is the same file.
    pub fn after(
        alloc: Global,
        file: File,
        held: Vec<File>,
        last: &Account,
    ) -> io::Result<FileStorage>
        // Each word may be what it may be by that account, and nothing else.
        ensures calls { IfOk result (λ storage. calls_in storage ≡ Stopping ∷ calls_of last.now) }
        ensures begins { IfOk result (λ storage. IsNoMore (held_by last.now) (held_in storage)) }
    {
        Ok(FileStorage {
            other: Some(file.try_clone()?),
            file: WordFile::after(alloc, file, last)?,
            held,
            apart: Apart::None,
        })
    }

    /// Makes it `to` words long, with zeros behind those that it has, which are `from`. Those of the image, the first `image` words,
    /// are written; if they have no room on the disk, it stays as long as it was. Those of the journal are 0 by the file's length
    /// alone (`WordFile::lengthen`): a long one would take longer to write than all that a short life of a store writes.
    pub(crate) fn grow(
        &mut self,
        alloc: Global,
        from: usize,
        image: usize,
        to: usize,
    ) -> io::Result<()>
        ensures others { (word x : ℕ) → word < from → shown_in self.new word x → shown_in self.old word x }
        ensures zeros { OnOk result ((word x : ℕ) → from ≤ word → word < to → shown_in self.new word x → x ≡ 0) }
    {
        let written = from.max(image);
        self.file.grow(alloc, from, written)?;
        self.file.lengthen(written, to)
    }

    /// Cuts off what is behind the first `words` words, and waits until that persists. Fails with `NotFound` if no name leads to the
    /// file any more.
    pub(crate) fn close(self, words: usize) -> io::Result<Account>
        ensures found { IfOk result (λ account. (word x : ℕ) → word < words → held_by account word x → held_in self word x) }
        ensures cut { IfOk result (IsCutTo words) }
    {
        let mut file = self.file;
        file.cut(words)?;
        if !file.is_named()? {
            return Err(io::Error::from(io::ErrorKind::NotFound));
        }
        Ok(file.into_account())
    }
}

// While a sync is made apart.
fn busy() -> io::Error {
    io::Error::from(io::ErrorKind::ResourceBusy)
}

impl Storage for FileStorage {
    type Pending = FileSync;

    ghost use Rattle.pmem_file.specs.Files.{Refuses, came_of, held_in, shown_in, shown_in_is_held};

    ghost may_hold = { held_in };

    ghost shows = { shown_in };

    ghost refuses = { Refuses };

    ghost came = { came_of };

    ghost shown_is_found = { shown_in_is_held };

    fn write(&mut self, start: usize, words: &[u64]) -> io::Result<()> {
        match self.apart {
            Apart::Out(_) => Err(busy()),
            Apart::Ended(Err(error)) => Err(error),
            Apart::None | Apart::Ended(Ok(())) => {
                self.apart = Apart::None;
                self.file.write(start, words)
            }
        }
    }

    fn sync(&mut self) -> io::Result<()> {
        match self.apart {
            Apart::None => self.file.sync(),
            Apart::Out(_) => Err(busy()),
            Apart::Ended(ended) => self.file.note(ended),
        }
    }

    fn hand_out(&mut self) -> Option<FileSync> {
        if !matches!(self.apart, Apart::None) {
            return None;
        }
        let file = self.other.take()?;
        self.apart = Apart::Out(file.as_raw_fd());
        Some(FileSync { file, ended: None })
    }

    // One that failed stays so: after it the system takes for written what the disk does not have.
    fn sync_apart(pending: &mut FileSync) {
        if !matches!(pending.ended, Some(Err(_))) {
            pending.ended = Some(pending.file.sync_data());
        }
    }

    // If it wasn't made, the next sync makes its own. One of another file changes nothing here.
    fn take_back(&mut self, pending: FileSync) {
        let FileSync { file, ended } = pending;
        if !matches!(self.apart, Apart::Out(number) if number == file.as_raw_fd()) {
            return;
        }
        self.apart = match ended {
            Some(ended) => Apart::Ended(ended),
            None => Apart::None,
        };
        self.other = Some(file);
    }
}
