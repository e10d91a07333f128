ghost use Rattle.std.specs.Prelude.{◌≡◌, ◌*◌, ◌≤◌, length};
ghost use Rattle.byteorder.specs.Endian.{IsRead, little_number};
ghost use Rattle.file_words.specs.Calls.{MayBeZeros};

use crate::account::Account;
use byteorder::{ByteOrder, LittleEndian};
use std::alloc::Global;
use std::fs::File;
use std::io;
use std::os::unix::fs::{FileExt, MetadataExt};

// The words that one write takes. A put of fewer is one write.
const MOST_WORDS: usize = 8_192;

// As many zeros are written ahead at once.
const AHEAD: usize = 4_096;

const WORD_BYTES: usize = 8;

/// A file that holds words in order, 8 bytes each, the lowest byte first. No other process has it open so. It is trusted of the
/// system that a word that is found is one that the account allows.
#[derive(Drop)]
pub struct WordFile {
    file: File,

    // The bytes of a write.
    bytes: Vec<u8>,
    account: Account,

    // From this word on, up to that one, the file has words by its length alone. They take no room on the disk yet, so the first sync
    // behind a write there waits for tables of the file system, too.
    unwritten: usize,
    end: usize,
    ghost zeros: { MayBeZeros account unwritten end },
}

impl WordFile {
    ghost use Rattle.std.specs.Prelude.{◌≡◌, ◌⊎◌, ℕ, ◌+◌, ◌-◌, ◌*◌, ◌<◌, ◌≤◌, [], ◌∷◌, length, slice_index, is_ok, IfOk, OnOk};
    ghost use Rattle.journal.specs.Files.{IsInRun};
    ghost use Rattle.file_words.specs.Accounts.{IsReadInPlace, Lengthening, Reading, Sizing, Stopping, Syncing, Writing};
    ghost use Rattle.file_words.specs.Calls.{IsApart, IsCutTo, calls_of, held_by, shown_by};
    ghost use Rattle.file_words.specs.Files.{account_of};

    /// A file of which `count` words were read, the first of these, and nothing else is known: it has an image of `words`, and a
    /// journal of `room` behind it, as far as these were read. It is trusted of the caller that they were read since it was opened.
    /// It is trusted of the system, and of each program that wrote the file, that once a sync has succeeded the disk has what was read
    /// of the image, except in the lines of the journal's entries: that no sync of these words failed and was ignored.
    pub fn read(
        alloc: Global,
        file: File,
        count: usize,
        words: usize,
        room: usize,
        found: &Vec<u64>,
    ) -> io::Result<WordFile>
        ensures calls { IfOk result (λ made. calls_of (account_of made) ≡ Reading count words room found.now.items ∷ []) }

        // A word that was read in place (`IsReadInPlace`) is shown only as it was read.
        ensures shown { IfOk result (λ made. (word x : ℕ) → IsReadInPlace count words room found.now.items word → shown_by (account_of made) word x → x ≡ slice_index found.now.items word) }
    {
        WordFile::with_account(alloc, file, Account::read(count, words, room, found))
    }

    /// A file whose last life stopped with this account. It is trusted of the caller that it is the same file.
    pub fn after(alloc: Global, file: File, last: &Account) -> io::Result<WordFile>
        ensures { IfOk result (λ made. calls_of (account_of made) ≡ Stopping ∷ calls_of last.now) }
    {
        WordFile::with_account(alloc, file, Account::after(last))
    }

    fn with_account(alloc: Global, file: File, account: Account) -> io::Result<WordFile>
        ensures { IfOk result (λ made. made.account ≡ account) }
    {
        let bytes = Vec::from_elem(alloc, 0, MOST_WORDS * WORD_BYTES)?;
        Ok(WordFile {
            file,
            bytes,
            account,
            unwritten: 0,
            end: 0,
        })
    }

    /// Writes these words, the first as this one.
    pub fn write(&mut self, start: usize, words: &[u64]) -> io::Result<()>
        // Also at Err, each of these words may be found as before or as it was to be, and any other word only as before.
        ensures found { (word x : ℕ) → held_by (account_of self.new) word x → held_by (account_of self.old) word x ⊎ IsInRun start words.now word x }
        ensures others { (word x : ℕ) → shown_by (account_of self.new) word x → shown_by (account_of self.old) word x ⊎ IsInRun start words.now word x }

        // At Ok each of these words was written last as it was to be.
        ensures written { OnOk result ((word x : ℕ) → start ≤ word → word < start + length words.now → shown_by (account_of self.new) word x → x ≡ slice_index words.now (word - start)) }
    {
        let Some(end) = start.checked_add(words.len()) else {
            return Err(io::Error::from(io::ErrorKind::InvalidInput));
        };
        self.make_way(start, end)?;
        let mut at = 0;
        while at < words.len() {
            let end = words.len().min(at.saturating_add(MOST_WORDS));
            self.write_part(start + at, &words[at..end])?;
            at = end;
        }
        Ok(())
    }

    // Makes way for a write from `start` up to `stop`. If it goes on from the words that are written into those that the file has by
    // its length alone, zeros are written behind it, so that the next syncs wait for no table. If it begins further on, as that of a
    // tail does, only the words before it remain to be written so.
    fn make_way(&mut self, start: usize, stop: usize) -> io::Result<()>
        requires { start ≤ stop }
        ensures found { (word x : ℕ) → held_by self.new.account word x → held_by self.old.account word x }
        ensures others { (word x : ℕ) → shown_by self.new.account word x → shown_by self.old.account word x }
        ensures apart { OnOk result (IsApart start stop self.new.unwritten self.new.end) }
    {
        if stop <= self.unwritten || self.end <= start {
            return Ok(());
        }
        if start > self.unwritten {
            self.end = start;
            return Ok(());
        }
        let ahead = stop.saturating_add(AHEAD).min(self.end).max(stop);
        self.unwritten = ahead;
        self.write_zeros(stop, ahead - stop)
    }

    // Writes zeros, where each word may be 0 already.
    #[inline(never)]
    fn write_zeros(&mut self, start: usize, count: usize) -> io::Result<()>
        requires few { count ≤ 4096 }
        requires apart { IsApart start (start + count) self.old.unwritten self.old.end }
        requires zeros { MayBeZeros self.old.account start (start + count) }
        ensures found { (word x : ℕ) → held_by self.new.account word x → held_by self.old.account word x }
        ensures others { (word x : ℕ) → shown_by self.new.account word x → shown_by self.old.account word x }
        ensures unwritten { self.new.unwritten ≡ self.old.unwritten }
        ensures end { self.new.end ≡ self.old.end }
    {
        let zeros = [0; AHEAD];
        self.write_part(start, &zeros[..count])
    }

    // Writes no more words than one write takes.
    fn write_part(&mut self, start: usize, words: &[u64]) -> io::Result<()>
        requires apart { IsApart start (start + length words.now) self.old.unwritten self.old.end }
        ensures found { (word x : ℕ) → held_by self.new.account word x → held_by self.old.account word x ⊎ IsInRun start words.now word x }
        ensures others { (word x : ℕ) → shown_by self.new.account word x → shown_by self.old.account word x ⊎ IsInRun start words.now word x }
        ensures written { OnOk result ((word x : ℕ) → start ≤ word → word < start + length words.now → shown_by self.new.account word x → x ≡ slice_index words.now (word - start)) }
        ensures unwritten { self.new.unwritten ≡ self.old.unwritten }
        ensures end { self.new.end ≡ self.old.end }
    {
        let size = words.len().saturating_mul(WORD_BYTES);
        if size > self.bytes.len() {
            return Err(io::Error::from(io::ErrorKind::InvalidInput));
        }
        put_bytes(words, self.bytes.as_mut_slice());
        self.write_bytes(start, words.len())
    }

    // Writes the first bytes, which are `count` words, the first as this one. It is trusted that `write_all_at`
    // writes them there and nothing elsewhere, and, if it fails, that each word is as before or as it was to be.
    fn write_bytes(&mut self, start: usize, count: usize) -> io::Result<()>
        requires within { 8 * count ≤ length self.old.bytes.items }
        requires apart { IsApart start (start + count) self.old.unwritten self.old.end }
        ensures calls { calls_of self.new.account ≡ Writing start count self.old.bytes.items (is_ok result) ∷ calls_of self.old.account }
        ensures unwritten { self.new.unwritten ≡ self.old.unwritten }
        ensures end { self.new.end ≡ self.old.end }
    {
        let done = write_at(
            &self.file,
            start,
            &self.bytes.as_slice()[..count * WORD_BYTES],
        );
        self.account
            .note_write(start, count, &self.bytes, done.is_ok());
        done
    }

    /// Waits until what was written persists. It is trusted of `sync_data` that it does so before it succeeds.
    pub fn sync(&mut self) -> io::Result<()>
        // The call is added to the account, and whether it succeeded.
        ensures noted { calls_of (account_of self.new) ≡ Syncing (is_ok result) ∷ calls_of (account_of self.old) }

        // Nothing else may be found than before, and at Ok only what was written last.
        ensures found { (word x : ℕ) → held_by (account_of self.new) word x → held_by (account_of self.old) word x }
        ensures synced { OnOk result ((word x : ℕ) → held_by (account_of self.new) word x → shown_by (account_of self.old) word x) }
    {
        let done = self.file.sync_data();
        self.account.note_sync(done.is_ok());
        done
    }

    /// Notes what came of a sync that was made by a copy of the descriptor. It is trusted of the caller that it is one of this file,
    /// and that nothing was written since it began.
    pub fn note(&mut self, ended: io::Result<()>) -> io::Result<()>
        // What came of the sync is returned.
        ensures result { result ≡ ended }

        // The call is added to the account, and whether it succeeded.
        ensures noted { calls_of (account_of self.new) ≡ Syncing (is_ok ended) ∷ calls_of (account_of self.old) }

        // Nothing else may be found than before, and at Ok only what was written last.
        ensures found { (word x : ℕ) → held_by (account_of self.new) word x → held_by (account_of self.old) word x }
        ensures synced { OnOk result ((word x : ℕ) → held_by (account_of self.new) word x → shown_by (account_of self.old) word x) }
    {
        self.account.note_sync(ended.is_ok());
        ended
    }

    /// Makes it `to` words long, with zeros behind those that it has, which are `from`. If these have no room on the disk, it stays
    /// as long as it was.
    pub fn grow(&mut self, alloc: Global, from: usize, to: usize) -> io::Result<()>
        // No word of those that it has changes. At Ok the further ones were written as 0.
        ensures found { (word x : ℕ) → word < from → held_by (account_of self.new) word x → held_by (account_of self.old) word x }
        ensures others { (word x : ℕ) → word < from → shown_by (account_of self.new) word x → shown_by (account_of self.old) word x }
        ensures zeros { OnOk result ((word x : ℕ) → from ≤ word → word < to → shown_by (account_of self.new) word x → x ≡ 0) }
    {
        if from >= to {
            return Ok(());
        }
        let filled = self.fill(alloc, from, to);
        if filled.is_err() {
            let _ = self.resize(from);
        }
        filled
    }

    // Writes zeros from this word on up to that one, which is to be the end.
    fn fill(&mut self, alloc: Global, from: usize, to: usize) -> io::Result<()>
        requires { from < to }
        ensures found { (word x : ℕ) → word < from → held_by self.new.account word x → held_by self.old.account word x }
        ensures others { (word x : ℕ) → word < from → shown_by self.new.account word x → shown_by self.old.account word x }
        ensures zeros { OnOk result ((word x : ℕ) → from ≤ word → word < to → shown_by self.new.account word x → x ≡ 0) }
    {
        let zeros = Vec::from_elem(alloc, 0, MOST_WORDS)?;
        self.resize(to)?;
        self.end = 0;
        let mut at = from;
        while at < to {
            let count = (to - at).min(MOST_WORDS);
            self.write_part(at, &zeros.as_slice()[..count])?;
            at += count;
        }
        Ok(())
    }

    /// Cuts it to `from` words, and makes it `to` words long, if that is more. The further ones are 0 by the file's length alone: they
    /// take room on the disk as they are written, some at a time ahead of the first write that comes to them.
    pub fn lengthen(&mut self, from: usize, to: usize) -> io::Result<()>
        // No word before `from` changes. At Ok the further ones are shown as 0.
        ensures found { (word x : ℕ) → word < from → held_by (account_of self.new) word x → held_by (account_of self.old) word x }
        ensures others { (word x : ℕ) → word < from → shown_by (account_of self.new) word x → shown_by (account_of self.old) word x }
        ensures zeros { OnOk result ((word x : ℕ) → from ≤ word → word < to → shown_by (account_of self.new) word x → x ≡ 0) }
    {
        if from >= to {
            return Ok(());
        }
        self.cut_and_lengthen(from, to)?;
        (self.unwritten, self.end) = (from, to);
        Ok(())
    }

    // Gives it `from` words, and then `to`. It is trusted that `set_len` changes none of the words that it leaves, and that those which
    // it adds are 0.
    fn cut_and_lengthen(&mut self, from: usize, to: usize) -> io::Result<()>
        ensures { calls_of self.new.account ≡ Lengthening from to (is_ok result) ∷ calls_of self.old.account }
    {
        let done = match set_length(&self.file, from) {
            Ok(()) => set_length(&self.file, to),
            Err(error) => Err(error),
        };
        self.account.note_lengthening(from, to, done.is_ok());
        done
    }

    /// Cuts off what is behind the first `words` words, and waits until that persists, and what was written before.
    pub fn cut(&mut self, words: usize) -> io::Result<()>
        // No word before the new end changes. At Ok they are synced, and the account ends with both calls (`IsCutTo`).
        ensures found { (word x : ℕ) → word < words → held_by (account_of self.new) word x → held_by (account_of self.old) word x }
        ensures synced { OnOk result ((word x : ℕ) → word < words → held_by (account_of self.new) word x → shown_by (account_of self.old) word x) }
        ensures cut { OnOk result (IsCutTo words (account_of self.new)) }
    {
        self.resize(words)?;
        self.sync_all()
    }

    // Gives it `words` words. It is trusted that `set_len` changes none of these that it has already.
    fn resize(&mut self, words: usize) -> io::Result<()>
        ensures { calls_of self.new.account ≡ Sizing words (is_ok result) ∷ calls_of self.old.account }
    {
        let done = set_length(&self.file, words);
        self.account.note_size(words, done.is_ok());
        done
    }

    // Waits until what was written persists, and the length. It is trusted of `sync_all` that it does so before it succeeds.
    fn sync_all(&mut self) -> io::Result<()>
        ensures { calls_of self.new.account ≡ Syncing (is_ok result) ∷ calls_of self.old.account }
    {
        let done = self.file.sync_all();
        self.account.note_sync(done.is_ok());
        done
    }

    /// Its account: what was done to it.
    pub fn into_account(self) -> Account
        ensures { result ≡ account_of self }
    {
        self.account
    }

    /// Whether a name leads to the file.
    pub fn is_named(&self) -> io::Result<bool> {
        Ok(self.file.metadata()?.nlink() > 0)
    }
}

fn write_at(file: &File, start: usize, bytes: &[u8]) -> io::Result<()> {
    file.write_all_at(bytes, byte_of(start)?)
}

fn set_length(file: &File, words: usize) -> io::Result<()> {
    file.set_len(byte_of(words)?)
}

// The byte at which the word begins.
fn byte_of(word: usize) -> io::Result<u64> {
    let byte = (word as u64).checked_mul(WORD_BYTES as u64);
    byte.ok_or(io::Error::from(io::ErrorKind::InvalidInput))
}

// The words as bytes, the first ones of these.
fn put_bytes(words: &[u64], bytes: &mut [u8])
    requires { 8 * length words.now ≤ length bytes.old }
    ensures { IsRead little_number 8 bytes.new words.now }
{
    let size = words.len() * WORD_BYTES;
    LittleEndian::write_u64_into(words, &mut bytes[..size]);
}
