ghost use Rattle.std.specs.Prelude.{◌≡◌, ◌≢◌, ℕ, ◌*◌, ◌/◌, ◌<◌, true, if◌then◌else◌, nat_le, IsTrue, IfOk, length, slice_index, vec_len};
ghost use Rattle.pmem_model.specs.Listing.{IsListing, IsTracked, is_listed, is_pending};
ghost use Rattle.pmem.specs.Device.{persisted};
ghost use Rattle.pmem_model.specs.Log.{room_in};
ghost use Rattle.pmem_model.specs.Past.{history_of};

use crate::Histories;
use base::actor::Actor;
use std::alloc::{AllocError, Global};

/// For each actor a list of the lines that it flushed since its last fence, each as often as it was. Once a list has no room left,
/// every line counts as pending: there are then enough pending lines that a fence may as well visit them all.
#[derive(Drop)]
pub struct Pending {
    pub lines: usize,
    /// How many lines a list has room for.
    pub room: usize,
    /// How many lines each actor's list has.
    pub counts: [usize; 64],
    /// At 64 k + a, the line at place k of actor a's list.
    pub listed: Vec<usize>,
    ghost counts_size: { length counts ≡ 64 },
    ghost listed_size: { vec_len listed ≡ 64 * room },
    ghost listing: { IsListing lines room counts listed.items },
}

impl Pending {
    /// No line is pending.
    pub fn new(alloc: Global, lines: usize) -> Result<Self, AllocError>
        ensures { IfOk result (λ made. made.lines ≡ lines) }
    {
        let room = lines / 8 + 1;
        let listed = vec![in alloc; 0; room.checked_mul(64).ok_or(AllocError)?]?;
        Ok(Pending {
            lines,
            room,
            counts: [0; 64],
            listed,
        })
    }

    /// The line is pending for the actor.
    pub fn add(&mut self, actor: Actor, line: usize)
        requires { line < self.old.lines }
        ensures added { is_pending self.new.room self.new.counts self.new.listed.items actor.number line ≡ true }
        ensures others { (other : ℕ) (at : ℕ) → other < 64
            → is_pending self.old.room self.old.counts self.old.listed.items other at ≡ true
            → is_pending self.new.room self.new.counts self.new.listed.items other at ≡ true }
        ensures lines { self.new.lines ≡ self.old.lines }
    {
        let column = actor.number as usize;
        let count = self.counts[column];
        if count < self.room {
            self.listed[64 * count + column] = line;
            self.counts[column] = count + 1;
        }
    }

    /// Nothing is pending for the actor any more.
    pub fn clear(&mut self, actor: Actor)
        ensures cleared { slice_index self.new.counts actor.number ≡ 0 }
        ensures others { (other : ℕ) (at : ℕ) → other ≢ actor.number
            → is_pending self.old.room self.old.counts self.old.listed.items other at ≡ true
            → is_pending self.new.room self.new.counts self.new.listed.items other at ≡ true }
        ensures lines { self.new.lines ≡ self.old.lines }
    {
        self.counts[actor.number as usize] = 0;
    }

    // Is every line pending for the actor?
    fn is_full(&self, actor: Actor) -> bool
        ensures { result ≡ nat_le self.now.room (slice_index self.now.counts actor.number) }
    {
        self.room <= self.counts[actor.number as usize]
    }

    /// Persists, in each word, the last value that the actor flushed, at this moment. It visits the pending lines.
    pub fn persist(&self, histories: &mut Histories, actor: Actor)
        requires lines { (line : ℕ) → line < self.now.lines → 8 * line < length histories.old.values.items }
        requires tracked { IsTracked (history_of histories.old.past) self.now.room self.now.counts self.now.listed.items }
        ensures history { (word : ℕ) → history_of histories.new.past word
            ≡ persisted actor.number histories.old.clock (history_of histories.old.past word) }
        ensures values { histories.new.values.items ≡ histories.old.values.items }
        ensures clock { histories.new.clock ≡ histories.old.clock }
        ensures room { room_in histories.new.log ≡ room_in histories.old.log }
    {
        if self.is_full(actor) {
            histories.persist_all(actor);
        } else {
            self.persist_listed(histories, actor);
        }
    }

    // Persists, in each word of the listed lines, the last value that the actor flushed, at this moment.
    fn persist_listed(&self, histories: &mut Histories, actor: Actor)
        requires { (line : ℕ) → line < self.now.lines → 8 * line < length histories.old.values.items }
        ensures history { (word : ℕ) → history_of histories.new.past word
            ≡ (if is_listed self.now.listed.items actor.number (word / 8) (slice_index self.now.counts actor.number)
            then persisted actor.number histories.old.clock (history_of histories.old.past word)
            else history_of histories.old.past word) }
        ensures values { histories.new.values.items ≡ histories.old.values.items }
        ensures clock { histories.new.clock ≡ histories.old.clock }
        ensures room { room_in histories.new.log ≡ room_in histories.old.log }
    {
        let column = actor.number as usize;
        let count = self.counts[column];
        for place in 0..count {
            histories.persist_line(self.listed[64 * place + column], actor);
        }
    }
}
