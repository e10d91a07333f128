//! What a room keeps in ordinary memory, apart from its device. A stop loses all of it, so no acknowledged commit may depend on what
//! is here.

use base::batch::Batch;
use base::fault::Fault;
use base::key::Key;
use base::row::Row;
use collector::Visit;
use group_commit::Cycle;
use pmem::Pmem;
use session_steps::Sessions;
use snapshot::Numbers;
use std::alloc::Global;

// What an opened device's room keeps in ordinary memory: the sessions of a life, with all that they share, the batch that is on
// its way to being covered, and the one that was covered last, until it is handed out.
#[derive(Drop)]
pub(crate) struct VolatileState {
    pub(crate) sessions: Sessions,
    pub(crate) cycle: Option<Cycle>,
    pub(crate) covered: Option<Batch>,
}

impl VolatileState {
    ghost use Rattle.std.specs.Prelude.{◌≡◌, ◌+◌, ◌^◌, ◌<◌, None, is_some, if◌then◌else◌, IfOk, IfErr};
    ghost use Rattle.base.specs.Commits.{after, Lists};
    ghost use Rattle.base.specs.declared.fault.Fault.TheVariants.{OutOfMemory};
    ghost use Rattle.base.specs.declared.step.Step.TheVariants.{Collect};
    ghost use Rattle.machine.specs.Machine.{State};
    ghost use Rattle.session_steps.specs.Shows.{ShowsAny};
    ghost use Rattle.session_steps.specs.Collecting.{as_reply};
    ghost use Rattle.room.specs.Committing.{Shows};
    ghost use Rattle.room.specs.Steps.{ShowsSome, Steps};

    // The volatile state of a life that begins with these sessions: no batch is pending, and none waits to be handed out.
    pub(crate) fn new(sessions: Sessions) -> VolatileState
        ensures sessions { result.sessions ≡ sessions }
        ensures rests { result.cycle ≡ None }
        ensures waits { result.covered ≡ None }
    {
        VolatileState {
            sessions,
            cycle: None,
            covered: None,
        }
    }

    // The layout, the record that rules, and the timestamp that is drawn next.
    pub(crate) fn numbers(&self) -> &Numbers
        ensures { result.now ≡ self.now.sessions.numbers }
    {
        self.sessions.numbers()
    }

    // The number of the record that closing would write last.
    pub(crate) fn closing_gate(&self) -> u64
        requires { self.now.sessions.numbers.record.gate < 2 ^ 62 }
        ensures { result ≡ self.now.sessions.numbers.record.gate + (if is_some self.now.cycle then 2 else 1) }
    {
        let records = if self.cycle.is_some() { 2 } else { 1 };
        self.sessions.numbers().record.gate() + records
    }

    // One visit of the collector. The pending batch stays as it is, even if a sweep ends: the gaps that were swept
    // are left out of the record that is chosen next.
    #[inline(always)]
    pub(crate) fn collect<D: Pmem>(&mut self, device: &mut D) -> Result<Visit, Fault>
        requires shown { ∥ ShowsSome self.old (D.state device.old) ∥₁ }
        ensures step { Steps self.old self.new (D.state device.old) (D.state device.new) Collect (as_reply result) }
        ensures waits { self.new.covered ≡ self.old.covered }
    {
        self.sessions.collect(device)
    }

    // The covered rows by rising key, on the device on which the volatile state shows a plain state, also a failed one.
    pub(crate) fn tables<D: Pmem>(
        &self,
        alloc: Global,
        device: &D,
    ) -> Result<Vec<(Key, Row)>, Fault>
        requires shown { ∥ ShowsAny self.now.sessions (D.state device.now) ∥₁ }
        ensures ok { IfOk result (λ rows. (q : State) → Shows self.now (D.state device.now) q → Lists rows.items (after q.history)) }
        ensures fault { IfErr result (λ fault. fault ≡ OutOfMemory) }
    {
        self.sessions.tables(alloc, device)
    }
}
