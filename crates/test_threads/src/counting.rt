use crate::fixture::granted;
use crate::hold::Hold;
use base::actor::Actor;
use base::fault::Fault;
use pmem::Pmem;
use std::alloc::Global;
use std::sync::Arc;
use std::sync::atomic::{AtomicBool, AtomicU64, Ordering};

/// What the threads signal to one another.
#[derive(Drop)]
pub struct Signals {
    /// How many operations the device made.
    made: AtomicU64,
    /// The next operation has to be held.
    armed: AtomicBool,
    /// The place at which the device is held within an operation, and with it the thread that has the room's
    /// lock.
    pub operation: Hold,
    /// The place at which the committer is held within a cycle.
    pub cycle: Hold,
}

pub type SharedSignals = Arc<Signals, Global>;

pub fn make_signals(alloc: Global) -> Result<SharedSignals, Fault> {
    granted(Arc::new(alloc, Signals::new()))
}

impl Signals {
    pub fn new() -> Signals {
        Signals {
            made: AtomicU64::new(0),
            armed: AtomicBool::new(false),
            operation: Hold::new(),
            cycle: Hold::new(),
        }
    }

    pub fn made(&self) -> u64 {
        self.made.load(Ordering::SeqCst)
    }

    /// Has the device held within its next operation.
    pub fn arm(&self) {
        self.armed.store(true, Ordering::SeqCst);
    }

    // One more operation was made.
    fn count(&self) {
        self.made.fetch_add(1, Ordering::SeqCst);
        if self.armed.swap(false, Ordering::SeqCst) {
            self.operation.pass();
        }
    }
}

/// A device that counts its operations in a place that every thread can read, and can be held within one.
#[derive(Drop)]
pub struct Counting<D: Pmem> {
    device: D,
    signals: SharedSignals,
}

impl<D: Pmem> Counting<D> {
    ghost use Rattle.std.specs.Prelude.{◌≡◌};

    pub fn new(device: D, signals: SharedSignals) -> Counting<D>
        ensures { result.device ≡ device }
    {
        Counting { device, signals }
    }
}

impl<D: Pmem> Pmem for Counting<D> {
    ghost state = { λ counting. D.state counting.device };

    ghost orderly = { λ counting. D.orderly counting.device };

    fn words(&self) -> usize {
        self.device.words()
    }

    fn load(&self, word: usize) -> u64 {
        self.device.load(word)
    }

    fn store(&mut self, word: usize, value: u64) -> Result<(), Fault> {
        let made = self.device.store(word, value);
        self.signals.count();
        made
    }

    fn flush(&mut self, actor: Actor, line: usize) -> Result<(), Fault> {
        let made = self.device.flush(actor, line);
        self.signals.count();
        made
    }

    fn fence(&mut self, actor: Actor) -> Result<(), Fault> {
        let made = self.device.fence(actor);
        self.signals.count();
        made
    }
}
