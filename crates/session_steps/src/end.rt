use crate::active::{Barred, bar};
use crate::sessions::Sessions;
use base::fault::Fault;
use txn::Transaction;

impl Sessions {
    ghost use Rattle.std.specs.Prelude.{◌≡◌, true, false, OnOk, OnErr};
    ghost use Rattle.base.specs.declared.step.SessionStep.TheVariants.{End};
    ghost use Rattle.txn.specs.Transactions.{transaction_at};
    ghost use Rattle.session_steps.specs.Replies.{done};
    ghost use Rattle.session_steps.specs.Steps.{Takes, is_over_at};

    // Whether a session is open and over.
    fn over(&self, session: u8) -> Result<(), Barred>
        ensures ok { OnOk result (is_over_at self.now.drawn.commits (transaction_at self.now.transactions session) ≡ true) }
        ensures barred { OnErr result (is_over_at self.now.drawn.commits (transaction_at self.now.transactions session) ≡ false) }
    {
        match self.transactions.get(session) {
            None => Err(Barred),
            Some(Transaction::Active { .. }) => Err(Barred),
            Some(Transaction::Drawn(timestamp)) => {
                if self.drawn.get(*timestamp).is_some() {
                    Err(Barred)
                } else {
                    Ok(())
                }
            }
            Some(Transaction::ReadOnly) => Ok(()),
        }
    }

    /// Ends a session that is over.
    #[inline(never)]
    pub fn end(&mut self, session: u8) -> Result<(), Fault>
        ensures step { Takes self.old self.new (End session) (done result) }
    {
        match self.over(session) {
            Ok(()) => {
                self.transactions.end(session);
                Ok(())
            }
            Err(_) => Err(bar(&self.transactions, session)),
        }
    }
}
