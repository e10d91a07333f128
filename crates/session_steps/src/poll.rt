use crate::sessions::Sessions;
use base::Ts;
use base::fault::Fault;
use txn::Transaction;

/// How far the commit of a session that has drawn has come.
#[derive(Clone, Copy, Debug, PartialEq, Eq)]
pub enum CommitStatus {
    /// It isn't covered.
    Waiting,
    /// It is covered, under this timestamp.
    Committed(Ts),
    /// The session wrote nothing.
    ReadOnly,
}

impl Sessions {
    ghost use Rattle.base.specs.declared.step.SessionStep.TheVariants.{Poll};
    ghost use Rattle.session_steps.specs.Replies.{polled};
    ghost use Rattle.session_steps.specs.Steps.{Takes};

    /// How far a session's commit has come.
    #[inline(never)]
    pub fn poll(&self, session: u8) -> Result<CommitStatus, Fault>
        ensures step { Takes self.now self.now (Poll session) (polled result) }
    {
        match self.transactions.get(session) {
            None => Err(Fault::NoSession),
            Some(Transaction::Active { .. }) => Err(Fault::WrongState),
            Some(Transaction::Drawn(timestamp)) => {
                if self.drawn.get(*timestamp).is_some() {
                    Ok(CommitStatus::Waiting)
                } else {
                    Ok(CommitStatus::Committed(*timestamp))
                }
            }
            Some(Transaction::ReadOnly) => Ok(CommitStatus::ReadOnly),
        }
    }
}
