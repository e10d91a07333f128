//! The prover states no bound on closures over a transaction whose history has a name. So such a transaction is handed to a `Work`,
//! which says of itself what it writes.

ghost use Rattle.std.specs.Prelude.{◌-◌, IfOk, IfErr};
ghost use Rattle.store.specs.Trying.{FailsWithin, Fails};
ghost use Rattle.store.specs.Working.{EndsWork, Works, WorksWithin};

use crate::error::StoreError;
use crate::store::{Attempt, Store, TRIES};
use crate::transaction::Transaction;
use database::{Committed, Origin};
use std::sync::Wait;

/// What is done in one transaction. After a conflict it is done again, in another one.
pub trait Work<R: Wait + Drop, J: Origin> {
    ghost use Rattle.store.specs.Working.{Deeds, Works};

    /// What it returns.
    type Value: Drop;

    /// What it says of itself: from the first, by these writes and with this result, it becomes the last.
    ghost does: { Deeds Self Self.Value };

    /// Reads and writes in the transaction, which is rolled back if it fails.
    fn run(&mut self, transaction: &mut Transaction<'_, R, J>) -> Result<Self::Value, StoreError>
        // It leaves the transaction that was lent. If that knows the history, its session has made those writes since, and no other
        // step.
        ensures works { Works does self.old (transaction.old.snapshot.reads.session, transaction.old.snapshot.reads.trace) result (transaction.new.snapshot.reads.session, transaction.new.snapshot.reads.trace) self.new };
}

impl<R: Wait + Drop, J: Origin> Store<R, J> {
    /// Does the work in one transaction and commits it, as `transact` does with its changes. It returns what the work returns, and
    /// what the commit does.
    pub fn transact_known<W: Work<R, J> + Drop>(
        &self,
        mut work: W,
    ) -> Result<(W::Value, Committed<J>), StoreError>
        // The work was done once for each try, a thousand at most, each time in a transaction that was begun for it. Each try but the
        // last met a conflict, as for `transact`. In the last one it returned this value, and the commit this timestamp. If the
        // history is kept, that begin is in it. It goes on with just the writes that the work made in that try, and their commit
        // under this timestamp. It covers that commit, and has no other one under that timestamp. Whatever stops the store from
        // then on, and each life after it: what may be found in the file has it (`found` of `Transaction::commit_known`).
        ensures ok { IfOk result (λ done. WorksWithin J.opened J.kept W.does 1000 work done.0 done.1.timestamp done.1.front) }

        // After some such tries in vain, or none, no transaction was begun. Or the work returned this error, and the session's abort
        // was made. Or its commit was refused, but not for a conflict: then nothing of it is kept, or with `Unknown` it isn't known.
        // Or all tries that were allowed were in vain, the last one on the key of `GivenUp`.
        ensures err { IfErr result (FailsWithin (Works W.does) (λ lent. lent.0) 1000 work) }
    {
        for _made in 1..TRIES {
            match self.attempt_known(&mut work) {
                Ok(Attempt::Committed(value, done)) => return Ok((value, done)),
                Ok(Attempt::Conflict(_)) => {}
                Err(error) => return Err(error),
            }
        }
        match self.attempt_known(&mut work) {
            Ok(Attempt::Committed(value, done)) => Ok((value, done)),
            Ok(Attempt::Conflict(key)) => Err(StoreError::GivenUp { tries: TRIES, key }),
            Err(error) => Err(error),
        }
    }

    // One try: does the work in a transaction of its own, and commits it.
    fn attempt_known<W: Work<R, J> + Drop>(
        &self,
        work: &mut W,
    ) -> Result<Attempt<W::Value, Committed<J>>, StoreError>
        ensures ok { IfOk result (λ attempt. EndsWork J.opened J.kept W.does work.old attempt work.new) }
        ensures err { IfErr result (Fails (Works W.does) (λ lent. lent.0) work.old) }
    {
        let mut transaction = self.begin()?;
        match work.run(&mut transaction) {
            Ok(value) => match transaction.commit_known() {
                Ok(done) => Ok(Attempt::Committed(value, done)),
                Err(error) => match error {
                    StoreError::Conflict(key) => Ok(Attempt::Conflict(key)),
                    error => Err(error),
                },
            },
            Err(error) => {
                let _ = transaction.abort();
                Err(error)
            }
        }
    }
}
