//! An abort makes no operation: each slot of the session has 0 in its begin and keeps it, so it is free as it is.

use crate::active::active_in;
use crate::giving::release;
use crate::sessions::Sessions;
use base::fault::Fault;

impl Sessions {
    ghost use Rattle.base.specs.declared.step.SessionStep.TheVariants.{Abort};
    ghost use Rattle.session_steps.specs.Replies.{done};
    ghost use Rattle.session_steps.specs.Steps.{HoldsSome, Takes};

    /// Rolls back what a session has written.
    #[inline(never)]
    pub fn abort(&mut self, session: u8) -> Result<(), Fault>
        requires shown { ∥ HoldsSome self.old ∥₁ }
        ensures step { Takes self.old self.new (Abort session) (done result) }
    {
        match active_in(&self.transactions, session) {
            Ok(active) => {
                release(&mut self.slots, active.writes);
                self.transactions.end(session);
                Ok(())
            }
            Err(fault) => Err(fault),
        }
    }
}
