use crate::counting::SharedSignals;
use base::step::Note;
use engine::{Gate, Go};
use std::sync::Wait;
use std::sync::atomic::{AtomicBool, Ordering};
use std::thread::yield_now;

/// For how many turns a thread is held at most.
const TURNS: u64 = 1_000_000;

/// A place where one thread is held until another lets it go on.
#[derive(Drop)]
pub struct Hold {
    reached: AtomicBool,
    free: AtomicBool,
    /// No other thread let it go on in time.
    late: AtomicBool,
}

impl Hold {
    pub fn new() -> Hold {
        Hold {
            reached: AtomicBool::new(false),
            free: AtomicBool::new(false),
            late: AtomicBool::new(false),
        }
    }

    /// Holds the thread that calls this.
    pub fn pass(&self) {
        self.reach();
        for _ in 0..TURNS {
            if self.free.load(Ordering::SeqCst) {
                return;
            }
            yield_now();
        }
        self.late.store(true, Ordering::SeqCst);
    }

    /// Reports that the place is reached, or won't be.
    pub fn reach(&self) {
        self.reached.store(true, Ordering::SeqCst);
    }

    /// Waits until it is.
    pub fn wait(&self, rt: &impl Wait) {
        for _ in rt.forever() {
            if self.reached.load(Ordering::SeqCst) {
                return;
            }
            yield_now();
        }
    }

    /// Lets the thread that is held there go on.
    pub fn free(&self) {
        self.free.store(true, Ordering::SeqCst);
    }

    /// Whether a thread was held for as long as it may be.
    pub fn was_late(&self) -> bool {
        self.late.load(Ordering::SeqCst)
    }
}

/// Holds a worker when it has made this many ticks, or visits.
#[derive(Drop)]
pub struct Holding {
    signals: SharedSignals,
    ticks: u64,
    made: u64,
}

impl Holding {
    pub fn new(signals: SharedSignals, ticks: u64) -> Holding {
        Holding {
            signals,
            ticks,
            made: 0,
        }
    }
}

impl Gate for Holding {
    fn pass(&mut self, after: &Note) -> Go {
        if matches!(after, Note::Ticked(_) | Note::Visited(_)) {
            self.made = self.made.saturating_add(1);
            if self.made == self.ticks {
                self.signals.cycle.pass();
            }
        }
        if matches!(after, Note::Idle | Note::SweepEnd) {
            yield_now();
        }
        Go::Tick
    }
}
