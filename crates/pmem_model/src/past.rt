ghost use Rattle.std.specs.Prelude.{◌≡◌};
ghost use Rattle.pmem.specs.Device.{restarted};
ghost use Rattle.pmem_model.specs.Past.{history_of, changed_by};

use std::snapshot::Snapshot;

/// What is done to a word, or to each word of a line.
#[derive(Clone, Copy)]
pub enum Change {
    Store {
        word: usize,
        value: u64,
        moment: u64,
    },
    Mark {
        line: usize,
        actor: u8,
    },
    Persist {
        line: usize,
        actor: u8,
        moment: u64,
    },
}

/// All that was done to the words. It takes one byte, since only clauses read the rest.
#[derive(Drop)]
pub enum Past {
    /// Each word had one value, which was persisted.
    Begun(Snapshot<Vec<u64>>),
    Then(Snapshot<Past>, Snapshot<Change>),
}

impl Past {
    /// The past of words that have one value each, which is persisted.
    pub fn begun(words: &Vec<u64>) -> Past
        ensures { history_of result ≡ (restarted words.now.items).history }
    {
        Past::Begun(Snapshot::of(words))
    }

    /// Adds a change.
    pub fn note(&mut self, change: Change)
        ensures { history_of self.new ≡ changed_by change (history_of self.old) }
    {
        let before = Snapshot::of(&*self);
        *self = Past::Then(before, Snapshot::of(&change));
    }
}
