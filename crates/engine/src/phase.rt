//! A session knows from its own receipts how far its transaction has come, without a step. So a call that failed halfway can
//! be made again, and goes on from there.

use crate::origin::Origin;
use crate::session::Session;
use base::Ts;
use base::step::{Note, Step};
use pmem::Pmem;

/// How far a session's transaction has come, with its number in the room and its timestamp.
#[derive(Clone, Copy, Debug)]
pub enum Phase {
    /// None is open.
    Idle,
    Active(u8),
    Drawn(u8, Ts),
    Stamped(u8, Ts),
    /// It wrote nothing.
    Covered(u8),
}

impl Phase {
    ghost use Rattle.std.specs.Prelude.{◌≡◌, IfSome, IfNone};
    ghost use Rattle.engine.specs.declared.phase.Phase.TheVariants.{Idle};
    ghost use Rattle.engine.specs.Phases.{number_of, timestamp_of, phase_after_step, IsOpenAs};

    /// The number of the transaction that is open.
    pub fn number(&self) -> Option<u8>
        ensures some { IfSome result (λ n. IsOpenAs n self.now) }
        ensures none { IfNone result (self.now ≡ Idle) }
    {
        match self {
            Phase::Idle => None,
            Phase::Active(number) => Some(*number),
            Phase::Drawn(number, _) => Some(*number),
            Phase::Stamped(number, _) => Some(*number),
            Phase::Covered(number) => Some(*number),
        }
    }

    /// How far the transaction has come after a step with this note.
    pub(crate) fn after(self, step: &Step, note: &Note) -> Phase
        ensures { result ≡ phase_after_step self step.now note.now }
    {
        match (step, note) {
            (Step::Begin, Note::Began(number)) => Phase::Active(*number),
            (Step::Draw { session }, Note::Drawn(timestamp)) => Phase::Drawn(*session, *timestamp),
            (Step::Draw { session }, Note::Done) => Phase::Covered(*session),
            (Step::Stamp { session }, Note::Stamped) => Phase::Stamped(*session, self.timestamp()),
            (Step::Abort { session: _ }, Note::Done) => Phase::Idle,
            (Step::End { session: _ }, Note::Done) => Phase::Idle,
            _ => self,
        }
    }

    // The timestamp that it has drawn, or 0.
    fn timestamp(self) -> Ts
        ensures { result ≡ timestamp_of self }
    {
        match self {
            Phase::Drawn(_, timestamp) => timestamp,
            Phase::Stamped(_, timestamp) => timestamp,
            _ => 0,
        }
    }
}

impl<D: Pmem + Drop, J: Origin, B: Drop> Session<D, J, B> {
    ghost use Rattle.std.specs.Prelude.{◌≡◌};
    ghost use Rattle.engine.specs.declared.phase.Phase.TheVariants.{Idle};
    ghost use Rattle.engine.specs.Phases.{phase_after};

    /// How far its transaction has come by its receipts.
    pub fn phase(&self) -> Phase
        // It is the one in which the receipts leave it.
        ensures phase { result ≡ self.now.phase }
        ensures reached { result ≡ phase_after Idle self.now.receipts.items }
    {
        self.phase
    }
}

/// What became of a commit.
#[derive(Clone, Copy, Debug)]
pub enum PollReply {
    Waiting,
    Committed(Ts),
    /// Nothing was written.
    Done,
}
