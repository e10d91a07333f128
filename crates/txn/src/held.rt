use base::Ts;
use base::fault::Fault;
use snapshot::{Covered, Snapshot};
use std::alloc::Global;
use std::marker::Model;

/// The snapshot that a transaction reads, in memory of its own, so that moving the transaction moves no snapshot.
#[derive(Drop)]
pub struct HeldSnapshot {
    snapshot: Box<Snapshot>,
}

impl Model for HeldSnapshot {
    ghost use Rattle.snapshot.specs.Snapshots.{Seen};

    ghost Value = { Seen };

    ghost view = { λ h. h.snapshot.value };
}

impl HeldSnapshot {
    ghost use Rattle.std.specs.Prelude.{◌≡◌, IfOk, IfErr};
    ghost use Rattle.base.specs.declared.fault.Fault.TheVariants.{OutOfMemory};
    ghost use Rattle.snapshot.specs.Snapshots.{covers};

    pub(crate) fn new(alloc: Global, covered: &Covered<'_>) -> Result<HeldSnapshot, Fault>
        ensures held { IfOk result (λ held. held ≡ covered.now) }
        ensures fault { IfErr result (λ fault. fault ≡ OutOfMemory) }
    {
        match Box::new(alloc, covered.to_snapshot()) {
            Ok(snapshot) => Ok(HeldSnapshot { snapshot }),
            Err(_) => Err(Fault::OutOfMemory),
        }
    }

    #[inline(always)]
    pub fn get(&self) -> &Snapshot
        ensures { result.now ≡ self.now }
    {
        self.snapshot.as_ref()
    }

    /// Whether it covers the commit of this timestamp.
    #[inline(always)]
    pub fn covers(&self, ts: Ts) -> bool
        ensures covers { result ≡ covers self.now ts }
    {
        self.get().covers(ts)
    }

    // Becomes another one, in the same memory.
    #[inline(always)]
    pub(crate) fn set(&mut self, covered: &Covered<'_>)
        ensures { self.new ≡ covered.now }
    {
        self.snapshot.set(covered);
    }
}
