//! A commit waits before it polls, since a poll is a step, which the history keeps. A call that failed after its draw can be
//! made again, and goes on from there, since a draw can't be undone.

use crate::halt::{Halt, Why};
use crate::origin::Origin;
use crate::phase::Phase;
use crate::session::Session;
use base::Ts;
use base::fault::Fault;
use base::step::{Reply, Step};
use pmem::Pmem;
use std::sync::Wait;

impl<D: Pmem + Drop, J: Origin, B: Drop> Session<D, J, B> {
    ghost use Rattle.std.specs.Prelude.{◌≡◌, ◌⊎◌, IfOk, IfErr, OnOk, OnErr, MatchResult, All};
    ghost use Rattle.base.specs.declared.fault.Fault.TheVariants.{OutOfMemory};
    ghost use Rattle.base.specs.declared.step.Step.TheVariants.{Draw, Stamp, End};
    ghost use Rattle.base.specs.declared.step.Note.TheVariants.{Done, Stamped as AllStamped};
    ghost use Rattle.engine.specs.declared.phase.Phase.TheVariants.{Idle, Stamped};
    ghost use Rattle.engine.specs.Phases.{number_of, timestamp_of, phase_after, phase_after_step, added_since, prepared};
    ghost use Rattle.engine.specs.Origins.{HasHalted, IsWhy, Knows};
    ghost use Rattle.engine.specs.Receipts.{Asks, Refuses};
    ghost use Rattle.engine.specs.Calls.{Called, Hears, Learns, ReportsLast, ReportsFault, ReportsEnd, DeclinesCall, AskPrepare, ReportsPrepare, DeclinesPrepare, note_of_draw, AskCommit, ReportsCommit, ArePolls, note_of_commit, ReportsRefusal};

    /// Draws a timestamp and stamps all keys, or goes on from where an earlier call left off. `None` if nothing was written. If
    /// the committer has ended, nothing is drawn any more: it fails with the fault that ended the committer, and `told` has the
    /// tick that was refused with it.
    pub fn prepare<R: Wait>(&mut self, rt: &R) -> Result<Option<Ts>, Fault>
        // The receipts added are those of a draw and of stamps, and what is returned is the draw's. If there is a timestamp, the
        // last note says that all keys are stamped. Otherwise the draw is the only step. At Err it is the last note's fault, or
        // OutOfMemory. Or, before a draw and without a step, it is the fault of the tick that ended the committer, which the session
        // then knows (`told`). If no transaction is open, it is NoSession, and no step is made. If all is stamped, or nothing was
        // written, the call isn't refused.
        ensures steps { Called self.old.receipts.items self.new.receipts.items (λ added. AskPrepare self.old.phase added × MatchResult result (ReportsPrepare self.old.phase added) (DeclinesPrepare (Knows J.image self.new.told) self.old.phase added)) }

        // At Ok no step was refused. If one was, the fault is that of the first.
        ensures refusal { ReportsRefusal (added_since self.old.receipts.items self.new.receipts.items) result }

        // The transaction's phase is then the one in which these receipts leave it.
        ensures ok { IfOk result (λ answer. self.new.phase ≡ prepared (number_of self.old.phase) answer) }
        ensures phase { self.new.phase ≡ phase_after self.old.phase (added_since self.old.receipts.items self.new.receipts.items) }

        // The list that a token of the session begins with stays.
        ensures published { self.new.published ≡ self.old.published }

        // What the session knows of the committer's end stays. If it knew of none, a call that fails with the fault of that end
        // may tell it.
        ensures told { Hears self.old.told self.new.told result }
    {
        match self.phase {
            Phase::Idle => Err(Fault::NoSession),
            Phase::Active(number) => match self.shared.ask(rt) {
                Ok(()) => match self.draw(rt, number) {
                    Ok(answer) => match answer {
                        Some(timestamp) => match self.stamp_all(rt, number) {
                            Ok(()) => Ok(Some(timestamp)),
                            Err(fault) => Err(fault),
                        },
                        None => Ok(None),
                    },
                    Err(fault) => Err(fault),
                },
                Err(halt) => Err(self.hear(halt)),
            },
            Phase::Drawn(number, timestamp) => match self.stamp_all(rt, number) {
                Ok(()) => Ok(Some(timestamp)),
                Err(fault) => Err(fault),
            },
            Phase::Stamped(_, timestamp) => Ok(Some(timestamp)),
            Phase::Covered(_) => Ok(None),
        }
    }

    /// Prepares, waits until the commit is covered, and ends the transaction. `None` if nothing was written. If the committer
    /// ends first, it fails with the fault that ended the committer, and `told` has the tick that was refused with it. It fails
    /// with OutOfMemory if the committer is refused memory while it waits, and has been again and again.
    pub fn commit<R: Wait>(&mut self, rt: &R) -> Result<Option<Ts>, Fault>
        // The receipts added are those of a draw, of stamps, of polls and of an end, and what is returned is the last poll's. At
        // Err it is the last note's fault, or OutOfMemory. Or, if no poll reported that the commit is covered, it is the fault of the
        // tick that ended the committer, which the session then knows (`told`). In each of these cases no end was done: the
        // transaction is still open. It is NoSession as for `prepare`.
        ensures steps { Called self.old.receipts.items self.new.receipts.items (λ added. AskCommit self.old.phase added × MatchResult result (ReportsCommit self.old.phase added) (DeclinesCall (Knows J.image self.new.told) self.old.phase added)) }

        // As for `prepare`.
        ensures refusal { ReportsRefusal (added_since self.old.receipts.items self.new.receipts.items) result }

        // At Ok no transaction is open. At Err its phase is the one in which the receipts leave it.
        ensures ok { OnOk result (self.new.phase ≡ Idle) }
        ensures phase { self.new.phase ≡ phase_after self.old.phase (added_since self.old.receipts.items self.new.receipts.items) }

        // The list that a token of the session begins with stays.
        ensures published { self.new.published ≡ self.old.published }

        // What the session knows of the committer's end stays. If it knew of none, a call that fails with the fault of that end
        // may tell it.
        ensures told { Hears self.old.told self.new.told result }
    {
        let number = match self.phase.number() {
            Some(number) => number,
            None => return Err(Fault::NoSession),
        };
        let timestamp = match self.prepare(rt) {
            Ok(timestamp) => timestamp,
            Err(fault) => return Err(fault),
        };
        match self.wait(rt, number, timestamp) {
            Ok(answer) => match self.end(rt, number) {
                Ok(()) => Ok(answer),
                Err(fault) => Err(fault),
            },
            Err(fault) => Err(fault),
        }
    }

    // Draws a timestamp, if something was written.
    fn draw<R: Wait>(&mut self, rt: &R, number: u8) -> Result<Option<Ts>, Fault>
        ensures ok { IfOk result (λ answer. Asks self.old.receipts.items self.new.receipts.items (Draw number) (note_of_draw answer)) }
        ensures phase { IfOk result (λ answer. self.new.phase ≡ phase_after_step self.old.phase (Draw number) (note_of_draw answer)) }
        ensures err { IfErr result (λ fault. Refuses self.old.receipts.items self.new.receipts.items (Draw number) fault) }
        ensures published { self.new.published ≡ self.old.published }
        ensures told { self.new.told ≡ self.old.told }
    {
        match self.make(rt, Step::Draw { session: number })? {
            Reply::Drawn(timestamp) => Ok(Some(timestamp)),
            Reply::Done => Ok(None),
            Reply::Refused(fault) => Err(fault),
            _ => unreachable!(),
        }
    }

    // Stamps the keys that aren't stamped yet.
    fn stamp_all<R: Wait>(&mut self, rt: &R, number: u8) -> Result<(), Fault>
        ensures steps { Called self.old.receipts.items self.new.receipts.items (λ added. All (λ r. r.step ≡ Stamp number) added × MatchResult result (λ _. ReportsLast added AllStamped) (ReportsFault added)) }
        ensures refusal { ReportsRefusal (added_since self.old.receipts.items self.new.receipts.items) result }
        ensures stamped { OnOk result (self.new.phase ≡ Stamped number (timestamp_of self.old.phase)) }
        ensures published { self.new.published ≡ self.old.published }
        ensures told { self.new.told ≡ self.old.told }
    {
        for _ in rt.forever() {
            match self.make(rt, Step::Stamp { session: number })? {
                Reply::More => {}
                Reply::Stamped => return Ok(()),
                Reply::Refused(fault) => return Err(fault),
                _ => unreachable!(),
            }
        }
        unreachable!()
    }

    // Polls until the commit is covered. It waits for that first, so that it polls once. Fails if nobody will cover it.
    fn wait<R: Wait>(
        &mut self,
        rt: &R,
        number: u8,
        timestamp: Option<Ts>,
    ) -> Result<Option<Ts>, Fault>
        ensures steps { Called self.old.receipts.items self.new.receipts.items (λ added. ArePolls number added × MatchResult result (λ answer. ReportsLast added (note_of_commit answer)) (ReportsEnd (Knows J.image self.new.told) added)) }
        ensures refusal { ReportsRefusal (added_since self.old.receipts.items self.new.receipts.items) result }
        ensures published { self.new.published ≡ self.old.published }
        ensures told { Hears self.old.told self.new.told result }
    {
        for _ in rt.forever() {
            if let Err(why) = self.wait_once(rt, timestamp) {
                return Err(self.fault_of(why));
            }
            match self.make(rt, Step::Poll { session: number })? {
                Reply::Waiting => {}
                Reply::Committed(timestamp) => return Ok(Some(timestamp)),
                Reply::Done => return Ok(None),
                Reply::Refused(fault) => return Err(fault),
                _ => unreachable!(),
            }
        }
        unreachable!()
    }

    // Waits until the timestamp is covered, if there is one.
    fn wait_once<R: Wait>(&self, rt: &R, timestamp: Option<Ts>) -> Result<(), Why>
        ensures { IfErr result (IsWhy J.image) }
    {
        match timestamp {
            Some(timestamp) => self.shared.wait_for(rt, timestamp),
            None => Ok(()),
        }
    }

    // The fault with which a wait fails. If the committer has ended, the session keeps the tick that ended it.
    fn fault_of(&mut self, why: Why) -> Fault
        requires { IsWhy J.image why }
        ensures fault { (result ≡ OutOfMemory) ⊎ Knows J.image self.new.told result }
        ensures told { Learns self.old.told self.new.told result }
        ensures receipts { self.new.receipts.items ≡ self.old.receipts.items }
        ensures rest { (self.new.phase ≡ self.old.phase) × (self.new.published ≡ self.old.published) }
    {
        match why {
            Why::Halted(halt) => self.hear(halt),
            Why::Memory => Fault::OutOfMemory,
        }
    }

    // Keeps the tick that ended the committer, unless the session was told of one before. The fault of the one that it keeps.
    fn hear(&mut self, halt: Halt) -> Fault
        requires { HasHalted J.image halt }
        ensures fault { Knows J.image self.new.told result }
        ensures told { Learns self.old.told self.new.told result }
        ensures receipts { self.new.receipts.items ≡ self.old.receipts.items }
        ensures rest { (self.new.phase ≡ self.old.phase) × (self.new.published ≡ self.old.published) }
    {
        match self.told {
            Some(told) => told.fault,
            None => {
                self.told = Some(halt);
                halt.fault
            }
        }
    }

    // Ends the transaction.
    fn end<R: Wait>(&mut self, rt: &R, number: u8) -> Result<(), Fault>
        ensures ok { IfOk result (λ _. Asks self.old.receipts.items self.new.receipts.items (End number) Done × (self.new.phase ≡ Idle)) }
        ensures err { IfErr result (λ fault. Refuses self.old.receipts.items self.new.receipts.items (End number) fault) }
        ensures published { self.new.published ≡ self.old.published }
        ensures told { self.new.told ≡ self.old.told }
    {
        match self.make(rt, Step::End { session: number })? {
            Reply::Done => Ok(()),
            Reply::Refused(fault) => Err(fault),
            _ => unreachable!(),
        }
    }
}
