//! The tick that ends the committer is kept with the room, under its lock, so that a session that waits for a cover learns why
//! none comes. What a step makes due for another thread is noted there before the lock is free.

ghost use Rattle.std.specs.Option.{ForSome};
ghost use Rattle.engine.specs.Origins.{IsFrom, HasHalted, WasHalted};

use crate::due::{makes_record_due, note};
use crate::halt::{Halt, Why};
use crate::origin::Origin;
use audited::{Audited, Receipt};
use base::Ts;
use base::fault::Fault;
use base::step::{Note, Reply, Step};
use pmem::Pmem;
use roles::{Workers, enough_for_round, lacks_memory};
use room::Status;
use std::marker::PhantomData;

/// What is under the room's lock.
#[derive(Drop)]
pub struct Locked<D: Pmem, J: Origin> {
    /// Taken out once the engine is closed.
    pub audited: Option<Audited<D>>,
    /// How many sessions were handed out.
    pub handed: u64,
    /// What the workers have to do, and whether they rest or have to end.
    pub workers: Workers,
    /// The tick of the committer that was refused, which ended it.
    halted: Option<Halt>,
    of: PhantomData<J>,
    ghost from: { ForSome audited (IsFrom D.state J.image) },
    ghost ended: { ForSome halted (HasHalted J.image) },
    // That tick is in the history of the room.
    ghost kept: { ForSome audited (λ room. ForSome halted (WasHalted room.entries.items)) },
}

impl<D: Pmem + Drop, J: Origin> Locked<D, J> {
    ghost use Rattle.std.specs.Prelude.{◌≡◌, ◌≤◌, ◌↔◌, ◌+◌, ◌⊎◌, ◌^◌, IsTrue, is_some, Some, None, IfSome, IfNone, IfErr, OnErr, MatchOption, MatchResult};
    ghost use Rattle.base.specs.Batches.{Batch};
    ghost use Rattle.base.specs.declared.fault.Fault.TheVariants.{OutOfMemory};
    ghost use Rattle.base.specs.declared.step.Reply.TheVariants.{Covered};
    ghost use Rattle.base.specs.Replies.{note_of};
    ghost use Rattle.machine.specs.Machine.{State};
    ghost use Rattle.room.specs.Room.{Shows};
    ghost use Rattle.engine.specs.Origins.{HasCovered, IsWhy};
    ghost use Rattle.roles.specs.Dues.{LeavesWork, LeavesRest, enough_for, first_workers};
    ghost use Rattle.engine.specs.Due.{due_after, wants_record};
    ghost use Rattle.engine.specs.Lending.{HasMade, MakesOnly, has_failed, is_covered, halted_after, refusals_after, why_not, waited};

    /// No room, no session, no refusal and no end. A tick and a visit are due.
    pub fn new() -> Locked<D, J>
        ensures empty { result.audited ≡ None }
        ensures handed { result.handed ≡ 0 }
        ensures workers { result.workers ≡ first_workers }
        ensures calm { result.halted ≡ None }
    {
        Locked {
            audited: None,
            handed: 0,
            workers: Workers::new(),
            halted: None,
            of: PhantomData,
        }
    }

    /// Lends it the room, whose committer hasn't ended.
    pub fn lend(&mut self, audited: Audited<D>)
        requires from { IsFrom D.state J.image audited }
        ensures room { self.new.audited ≡ Some audited }
        ensures halted { self.new.halted ≡ None }
        ensures rest { (self.new.handed ≡ self.old.handed) × (self.new.workers ≡ self.old.workers) }
    {
        self.halted = None;
        self.audited = Some(audited);
    }

    /// Whether the room is there, and has made at least this many steps.
    pub fn has_made(&self, steps: u64) -> bool
        ensures { IsTrue result ↔ HasMade steps self.now.audited }
    {
        match &self.audited {
            Some(audited) => steps <= audited.history().len() as u64,
            None => false,
        }
    }

    /// Counts one more session that is handed out.
    pub fn hand_out(&mut self) -> Result<(), Fault>
        ensures handed { MatchResult result (λ _. self.new.handed ≡ self.old.handed + 1) (λ fault. (fault ≡ OutOfMemory) × (self.new.handed ≡ self.old.handed)) }

        // OutOfMemory exactly if that can't be counted.
        ensures full { OnErr result (self.old.handed + 1 ≡ 2 ^ 64) }

        // Nothing else changes.
        ensures workers { self.new.workers ≡ self.old.workers }
        ensures room { self.new.audited ≡ self.old.audited }
        ensures halted { self.new.halted ≡ self.old.halted }
    {
        match self.handed.checked_add(1) {
            Some(handed) => {
                self.handed = handed;
                Ok(())
            }
            None => Err(Fault::OutOfMemory),
        }
    }

    /// A worker's step, unless the engine is being closed or there is no room. Without memory it has no receipt. The tick of the
    /// committer that is refused is kept here, and how often in a row it was refused memory.
    pub fn tick(&mut self, step: &Step) -> Option<(Reply, Option<Receipt>)>
        // A receipt is that of the step asked, with its reply's note.
        ensures made { IfSome result (λ made. IfSome made.1 (λ receipt. (receipt.step ≡ step.now) × (receipt.note ≡ note_of made.0))) }

        // What the committer was refused with is kept, with its place, and nothing else is taken for it.
        ensures halted { IfSome result (λ made. MatchOption made.1 (self.new.halted ≡ self.old.halted) (λ receipt. self.new.halted ≡ halted_after self.old.halted receipt.step receipt.note receipt.place)) }

        // No step is made, and nothing changed, exactly if the engine is being closed or there is no room.
        ensures none { (result ≡ None) ↔ (IsTrue self.old.workers.is_closing ⊎ (self.old.audited ≡ None)) }
        ensures same { IfNone result ((self.new.audited ≡ self.old.audited) × (self.new.halted ≡ self.old.halted) × (self.new.workers ≡ self.old.workers)) }

        // Otherwise the step asked, and no other, was made in the room. It is kept last, with its reply's note, and leads where
        // the reply does. Or, for lack of memory, it was neither kept nor made.
        ensures only { IfSome result (λ made. MakesOnly D.state self.old.audited self.new.audited step.now made.0 made.1) }

        // A batch that it covered is one that a run from the lent image covered last.
        ensures covered { IfSome result (λ made. (batch : Batch) → made.0 ≡ Covered batch → HasCovered J.image batch) }

        // How often in a row the committer was refused memory: one more if its step was refused it, none once one is kept, and as
        // before after the collector's.
        ensures refusals { IfSome result (λ made. self.new.workers.refusals ≡ refusals_after self.old.workers.refusals step.now (is_some made.1)) }

        // Nothing else changes.
        ensures workers { LeavesWork self.old.workers self.new.workers }
        ensures handed { self.new.handed ≡ self.old.handed }
    {
        if self.workers.is_closing {
            return None;
        }
        let Some(audited) = &mut self.audited else {
            return None;
        };
        let (reply, receipt) = audited.step(*step);
        match receipt {
            Some(receipt) => {
                let halted = newer(halting(&receipt), self.halted);
                self.halted = halted;
                count(&mut self.workers, step, true);
                Some((reply, Some(receipt)))
            }
            None => {
                count(&mut self.workers, step, false);
                Some((reply, None))
            }
        }
    }

    /// Notes the reply to a step, and what it made due.
    pub fn note(&mut self, reply: &Reply)
        // As for `due::note`. A fourth of the room's slots is enough for a round, and the state says whether a record is needed.
        // If there is no room, what was due stays due.
        ensures due { MatchOption self.old.audited (self.new.workers.due ≡ self.old.workers.due)
            (λ audited. (q : State) → Shows D.state audited.room q → self.new.workers.due ≡ due_after self.old.workers.due reply.now (wants_record reply.now q.ruling q.next q.layout.window) (enough_for q.layout.slots)) }

        // What else is under the lock stays.
        ensures rest { LeavesRest self.old.workers self.new.workers }
        ensures room { self.new.audited ≡ self.old.audited }
        ensures handed { self.new.handed ≡ self.old.handed }
        ensures halted { self.new.halted ≡ self.old.halted }
    {
        let Some(audited) = &self.audited else {
            return;
        };
        let geometry = audited.geometry();
        let makes_record_due = makes_record_due(reply, &audited.status(), geometry.window());
        let enough = enough_for_round(geometry.slots());
        note(&mut self.workers.due, reply, enough);
        if makes_record_due {
            self.workers.due.want_tick();
        }
    }

    /// The tick that ended the committer, if it has ended.
    pub fn halted(&self) -> Option<Halt>
        ensures halt { result ≡ self.now.halted }
        ensures from { IfSome result (HasHalted J.image) }
    {
        self.halted
    }

    /// Why nothing will be covered: the committer has ended, or was refused memory too often in a row.
    pub fn why_not(&self) -> Option<Why>
        // Of what is under the lock: the tick with which the committer was refused, and otherwise lack of memory after more than
        // a hundred refusals in a row.
        ensures why { result ≡ why_not self.now.halted self.now.workers.refusals }
        ensures from { IfSome result (IsWhy J.image) }
    {
        match self.halted {
            Some(halt) => Some(Why::Halted(halt)),
            None => if lacks_memory(self.workers.refusals) {
                Some(Why::Memory)
            } else {
                None
            },
        }
    }

    /// Whether a wait for the timestamp is over: with Ok if it is persisted and not long, or if the device has failed; with Err
    /// if it isn't persisted and nothing will be.
    pub fn waited(&self, timestamp: Ts) -> Option<Result<(), Why>>
        // A wait for a timestamp lasts exactly until it is persisted and not long, or nothing will be covered, or the device has
        // failed. If it isn't covered, the reason is as for `why_not`.
        ensures over { MatchOption self.now.audited (result ≡ None)
            (λ audited. (q : State) → Shows D.state audited.room q → result ≡ waited (is_covered q.ruling timestamp) (why_not self.now.halted self.now.workers.refusals) (has_failed audited.entries.items)) }
        ensures from { IfSome result (λ over. IfErr over (IsWhy J.image)) }
    {
        let Some(audited) = &self.audited else {
            return None;
        };
        if is_covered(&audited.status(), timestamp) {
            return Some(Ok(()));
        }
        if let Some(why) = self.why_not() {
            return Some(Err(why));
        }
        if has_failed(audited.history()) {
            return Some(Ok(()));
        }
        None
    }
}

ghost use Rattle.std.specs.Prelude.{◌≡◌, IfSome};
ghost use Rattle.base.specs.declared.step.Step.TheVariants.{Commit};
ghost use Rattle.base.specs.declared.step.Note.TheVariants.{Refused};
ghost use Rattle.roles.specs.Dues.{LeavesWork};
ghost use Rattle.engine.specs.Lending.{first_of, has_failed, is_covered_in, halting, refusals_after};

// Whether the record covers the timestamp, if that was drawn since the room was opened.
fn is_covered(status: &Status, timestamp: Ts) -> bool
    ensures { result ≡ is_covered_in status.now.persisted status.now.longs timestamp }
{
    timestamp <= status.persisted && !status.longs.contains(timestamp)
}

// Whether the device had failed by the last of these steps.
fn has_failed(entries: &[(Step, Note)]) -> bool
    ensures { result ≡ has_failed entries.now }
{
    match entries.last() {
        Some((_, note)) => matches!(note, Note::Refused(Fault::Device | Fault::Failed)),
        None => false,
    }
}

// The step, if it is a tick of the committer that was refused.
fn halting(receipt: &Receipt) -> Option<Halt>
    ensures halt { result ≡ halting receipt.now.step receipt.now.note receipt.now.place }
    ensures some { IfSome result (λ halt. (receipt.now.step ≡ Commit) × (receipt.now.note ≡ Refused halt.fault) × (halt.place ≡ receipt.now.place)) }
{
    match (&receipt.step, &receipt.note) {
        (Step::Commit, Note::Refused(fault)) => Some(Halt {
            place: receipt.place,
            fault: *fault,
        }),
        _ => None,
    }
}

// The first of the two that is there.
fn newer(found: Option<Halt>, before: Option<Halt>) -> Option<Halt>
    ensures { result ≡ first_of found before }
{
    match found {
        Some(halt) => Some(halt),
        None => before,
    }
}

// Counts how often in a row the committer was refused memory, after a step that was kept or wasn't.
fn count(workers: &mut Workers, step: &Step, kept: bool)
    ensures refusals { workers.new.refusals ≡ refusals_after workers.old.refusals step.now kept }
    ensures rest { LeavesWork workers.old workers.new }
{
    match step {
        Step::Commit => if kept {
            workers.calm();
        } else {
            workers.refuse();
        },
        _ => {}
    }
}
