ghost use Rattle.std.specs.Prelude.{◌≡◌, ℕ, ◌+◌, ◌-◌, ◌*◌, ◌/◌, ◌^◌, ◌<◌, ◌≤◌, ◌==◌, if◌then◌else◌, length, OnOk, OnErr, IfOk, IsOk};
ghost use Rattle.pmem.specs.Device.{marked, persisted, restarted};
ghost use Rattle.pmem_model.specs.Log.{pushed, room_in};
ghost use Rattle.pmem_model.specs.Past.{history_of};
ghost use Rattle.pmem_model.specs.Listing.{IsTracked};

use crate::{Histories, Pending};
use base::actor::Actor;
use std::alloc::{AllocError, Global};

/// The histories of the words, and the lines that each actor's next fence visits.
#[derive(Drop)]
pub struct Cells {
    pub histories: Histories,
    pub pending: Pending,
    ghost lined: { pending.lines ≡ (length histories.values.items + 7) / 8 },
    ghost tracked: { IsTracked (history_of histories.past) pending.room pending.counts pending.listed.items },
}

impl Cells {
    /// Each word has one value, which is persisted.
    pub fn from_words(alloc: Global, words: &[u64]) -> Result<Self, AllocError>
        ensures history { IfOk result (λ made. (word : ℕ)
            → history_of made.histories.past word ≡ (restarted words.now).history word) }
        ensures words { IfOk result (λ made. length made.histories.values.items ≡ length words.now) }
        ensures clock { IfOk result (λ made. made.histories.clock ≡ 0) }
    {
        let histories = Histories::from_words(alloc, words)?;
        let pending = Pending::new(alloc, words.len().div_ceil(8))?;
        Ok(Cells { histories, pending })
    }

    /// Adds a value to a word's history.
    pub fn store(&mut self, word: usize, value: u64) -> Result<(), AllocError>
        requires word { word < length self.old.histories.values.items }
        requires room { self.old.histories.clock < 2 ^ 64 - 1 }
        ensures history { OnOk result ((other : ℕ) → history_of self.new.histories.past other
            ≡ pushed word value (self.old.histories.clock + 1) (history_of self.old.histories.past) other) }
        ensures words { OnOk result (length self.new.histories.values.items ≡ length self.old.histories.values.items) }
        ensures clock { OnOk result (self.new.histories.clock ≡ self.old.histories.clock + 1) }
        ensures err { OnErr result ((self.new.histories.past ≡ self.old.histories.past)
            × (self.new.histories.values.items ≡ self.old.histories.values.items)
            × (self.new.histories.clock ≡ self.old.histories.clock)) }
        ensures reserved { 0 < room_in self.old.histories.log → IsOk result }
        ensures room_ok { OnOk result (room_in self.old.histories.log ≤ room_in self.new.histories.log + 1) }
        ensures room_err { OnErr result (room_in self.old.histories.log ≤ room_in self.new.histories.log) }
    {
        self.histories.push(word, value)
    }

    /// Marks the last value of each word of a line, in a moment of its own.
    pub fn flush(&mut self, actor: Actor, line: usize)
        requires line { 8 * line < length self.old.histories.values.items }
        requires room { self.old.histories.clock < 2 ^ 64 - 1 }
        ensures history { (other : ℕ) → history_of self.new.histories.past other
            ≡ (if (other / 8) == line then marked actor.number (history_of self.old.histories.past other)
            else history_of self.old.histories.past other) }
        ensures values { self.new.histories.values.items ≡ self.old.histories.values.items }
        ensures clock { self.new.histories.clock ≡ self.old.histories.clock + 1 }
        ensures room { room_in self.new.histories.log ≡ room_in self.old.histories.log }
    {
        self.histories.mark_line(line, actor);
        self.histories.tick();
        self.pending.add(actor, line);
    }

    /// Persists, in each word, the last value that the actor flushed, in a moment of its own.
    pub fn fence(&mut self, actor: Actor)
        requires { self.old.histories.clock < 2 ^ 64 - 1 }
        ensures history { (word : ℕ) → history_of self.new.histories.past word
            ≡ persisted actor.number (self.old.histories.clock + 1) (history_of self.old.histories.past word) }
        ensures values { self.new.histories.values.items ≡ self.old.histories.values.items }
        ensures clock { self.new.histories.clock ≡ self.old.histories.clock + 1 }
        ensures room { room_in self.new.histories.log ≡ room_in self.old.histories.log }
    {
        self.histories.tick();
        self.pending.persist(&mut self.histories, actor);
        self.pending.clear(actor);
    }
}
