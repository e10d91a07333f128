use crate::sessions::Sessions;
use base::fault::Fault;
use base::key::Key;
use base::row::Row;
use index::KeyRange;
use pmem::Pmem;
use std::alloc::Global;

impl Sessions {
    ghost use Rattle.std.specs.Prelude.{◌≡◌, IfOk, IfErr};
    ghost use Rattle.base.specs.Commits.{after, Lists};
    ghost use Rattle.machine.specs.Machine.{State};
    ghost use Rattle.base.specs.declared.fault.Fault.TheVariants.{OutOfMemory};
    ghost use Rattle.session_steps.specs.Shows.{Shows, ShowsAny};

    /// The covered rows by rising key.
    pub fn tables<D: Pmem>(&self, alloc: Global, device: &D) -> Result<Vec<(Key, Row)>, Fault>
        requires shown { ∥ ShowsAny self.now (D.state device.now) ∥₁ }

        // They are those of every state that the sessions show, a failed one too. It is refused only for lack of memory.
        ensures ok { IfOk result (λ rows. (q : State) → Shows self.now (D.state device.now) q → Lists rows.items (after q.history)) }
        ensures fault { IfErr result (λ fault. fault ≡ OutOfMemory) }
    {
        let snapshot = self.numbers.snapshot();
        self.index.rows(
            alloc,
            device,
            self.numbers.geometry,
            &snapshot,
            KeyRange::All,
        )
    }
}
