ghost use Rattle.std.specs.Prelude.{◌≡◌, ◌↔◌, ℕ, [], ◌∷◌};
ghost use Rattle.file_words.specs.Accounts.{Lengthening, Reading, Sizing, Stopping, Syncing, Writing};
ghost use Rattle.file_words.specs.Calls.{calls_of, held_by, shown_by};

use std::snapshot::Snapshot;

/// What was read of a file when it was opened, and the calls that wrote to it, synced it or changed its length since, and in each
/// life before of which that is known. It takes one byte, since clauses alone read the rest.
#[derive(Drop)]
pub enum Account {
    Begun,
    /// How many words were read, how many its image has, how many its journal, and the words.
    Read(Snapshot<Account>, Snapshot<usize>, Snapshot<usize>, Snapshot<usize>, Snapshot<Vec<u64>>),
    /// The last life of the file stopped with this account.
    After(Snapshot<Account>),
    /// The first word, how many words were written, the bytes that begin with them, and whether the write succeeded.
    Wrote(Snapshot<Account>, Snapshot<usize>, Snapshot<usize>, Snapshot<Vec<u8>>, Snapshot<bool>),
    /// Whether the sync succeeded.
    Synced(Snapshot<Account>, Snapshot<bool>),
    /// How many words the file was to have, and whether that succeeded.
    Sized(Snapshot<Account>, Snapshot<usize>, Snapshot<bool>),
    /// How many words the file was cut to, how many it was to have then, and whether both succeeded.
    Lengthened(Snapshot<Account>, Snapshot<usize>, Snapshot<usize>, Snapshot<bool>),
}

impl Account {
    /// Of a file of which nothing else is known than what was read of it: the first `count` of these words.
    pub(crate) fn read(count: usize, words: usize, room: usize, file: &Vec<u64>) -> Account
        ensures { calls_of result ≡ Reading count words room file.now.items ∷ [] }
    {
        let begun = Account::Begun;
        Account::Read(
            Snapshot::of(&begun),
            Snapshot::of(&count),
            Snapshot::of(&words),
            Snapshot::of(&room),
            Snapshot::of(file),
        )
    }

    /// Of a file whose last life stopped with this account.
    pub fn after(last: &Account) -> Account
        ensures calls { calls_of result ≡ Stopping ∷ calls_of last.now }

        // Each word may be what it may be by that account, and nothing else.
        ensures held { (word x : ℕ) → held_by result word x ↔ held_by last.now word x }
        ensures shown { (word x : ℕ) → shown_by result word x ↔ held_by last.now word x }
    {
        Account::After(Snapshot::of(last))
    }

    /// Adds a write of `count` words, which are the first of these bytes.
    pub(crate) fn note_write(&mut self, start: usize, count: usize, bytes: &Vec<u8>, is_ok: bool)
        ensures { calls_of self.new ≡ Writing start count bytes.now.items is_ok ∷ calls_of self.old }
    {
        let before = Snapshot::of(&*self);
        *self = Account::Wrote(
            before,
            Snapshot::of(&start),
            Snapshot::of(&count),
            Snapshot::of(bytes),
            Snapshot::of(&is_ok),
        );
    }

    /// Adds a sync.
    pub(crate) fn note_sync(&mut self, is_ok: bool)
        ensures { calls_of self.new ≡ Syncing is_ok ∷ calls_of self.old }
    {
        let before = Snapshot::of(&*self);
        *self = Account::Synced(before, Snapshot::of(&is_ok));
    }

    /// Adds a change of the length to this number of words.
    pub(crate) fn note_size(&mut self, count: usize, is_ok: bool)
        ensures { calls_of self.new ≡ Sizing count is_ok ∷ calls_of self.old }
    {
        let before = Snapshot::of(&*self);
        *self = Account::Sized(before, Snapshot::of(&count), Snapshot::of(&is_ok));
    }
    /// Adds a cut to `from` words, and a change of the length to `to` words then.
    pub(crate) fn note_lengthening(&mut self, from: usize, to: usize, is_ok: bool)
        ensures { calls_of self.new ≡ Lengthening from to is_ok ∷ calls_of self.old }
    {
        let before = Snapshot::of(&*self);
        *self = Account::Lengthened(
            before,
            Snapshot::of(&from),
            Snapshot::of(&to),
            Snapshot::of(&is_ok),
        );
    }
}
