//! A deletion has no slot, only a stamp in the end of the version that it ends. The slot of an own write that it follows has 0
//! in its begin, so nobody reads it, and it is free without an operation.

use crate::active::active_in;
use crate::giving::{give, own_key};
use crate::sessions::Sessions;
use base::fault::Fault;
use base::key::Key;
use txn::Write;

impl Sessions {
    ghost use Rattle.std.specs.Prelude.{◌≢◌, IfErr};
    ghost use Rattle.base.specs.declared.fault.Fault.TheVariants.{OutOfMemory};
    ghost use Rattle.base.specs.declared.step.SessionStep.TheVariants.{Delete};
    ghost use Rattle.session_steps.specs.Replies.{done};
    ghost use Rattle.session_steps.specs.Steps.{HoldsSome, Takes};

    /// Writes a deletion, and frees the slot that the session has for the key.
    #[inline(never)]
    pub fn delete(&mut self, session: u8, key: Key) -> Result<(), Fault>
        requires shown { ∥ HoldsSome self.old ∥₁ }
        ensures step { Takes self.old self.new (Delete session key) (done result) }

        // It is never refused for lack of memory.
        ensures memory { IfErr result (λ fault. fault ≢ OutOfMemory) }
    {
        let active = match active_in(&self.transactions, session) {
            Ok(active) => active,
            Err(fault) => return Err(fault),
        };
        let own = own_key(active.writes, key);
        if own.is_full {
            return Err(Fault::WriteSetFull);
        }
        give(&mut self.slots, own.slot);
        let deletion = Write {
            key,
            row: None,
            slot: None,
            place: self.index.place(key),
        };
        self.transactions.write(session, deletion);
        Ok(())
    }
}
