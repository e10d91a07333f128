//! Each of two workers makes one step in a turn of the lock, and nobody else makes such steps. A worker sleeps while nothing is due for
//! it, and after memory was refused to it too often.

ghost use Rattle.std.specs.Prelude.{◌≡◌};
ghost use Rattle.roles.specs.Dues.{is_too_often};

use crate::due::Due;

/// How often in a row memory may be refused before nobody waits for it any longer.
pub const REFUSALS: u64 = 100;

/// Whether memory was refused too often.
pub fn lacks_memory(refusals: u64) -> bool
    ensures { result ≡ is_too_often refusals }
{
    REFUSALS < refusals
}

/// What a worker does.
#[derive(Clone, Copy, Debug, PartialEq, Eq)]
pub enum Duty {
    Commit,
    Collect,
}

/// What the two have to do, and whether they rest.
#[derive(Clone, Copy, Debug, PartialEq, Eq, PartialOrd, Ord, Drop)]
pub struct Workers {
    pub due: Due,
    /// How often in a row the committer was refused memory.
    pub refusals: u64,
    /// A worker sleeps, since memory was refused to it too often.
    pub are_asleep: bool,
    /// Both have to end.
    pub is_closing: bool,
}

impl Workers {
    ghost use Rattle.std.specs.Prelude.{◌+◌, ◌-◌, ◌^◌, min, true, false};
    ghost use Rattle.roles.specs.declared.workers.Duty.TheVariants.{Commit, Collect};
    ghost use Rattle.roles.specs.Dues.{first_workers, rests};

    /// Both have something to do.
    pub fn new() -> Workers
        ensures { result ≡ first_workers }
    {
        Workers {
            due: Due::new(),
            refusals: 0,
            are_asleep: false,
            is_closing: false,
        }
    }

    /// Whether a worker has something to do.
    pub fn is_due(&self, duty: Duty) -> bool
        ensures commit { (duty ≡ Commit) → result ≡ self.now.due.tick }
        ensures collect { (duty ≡ Collect) → result ≡ self.now.due.visit }
    {
        match duty {
            Duty::Commit => self.due.tick,
            Duty::Collect => self.due.visit,
        }
    }

    /// The committer was refused memory.
    pub fn refuse(&mut self)
        ensures { self.new ≡ record self.old { refusals = min (self.old.refusals + 1) (2 ^ 64 - 1) } }
    {
        self.refusals = self.refusals.saturating_add(1);
    }

    /// The committer has made a step.
    pub fn calm(&mut self)
        ensures { self.new ≡ record self.old { refusals = 0 } }
    {
        self.refusals = 0;
    }

    /// Lets the committer try once more before lack of memory ends the wait that begins now.
    pub fn allow_a_try(&mut self)
        ensures { self.new ≡ record self.old { refusals = min self.old.refusals 100 } }
    {
        self.refusals = self.refusals.min(REFUSALS);
    }

    /// Whether a worker sleeps after memory was refused to it this often in a row. For the committer it is counted here, since a wait that
    /// began meanwhile lets it try once more.
    pub fn rests(&self, duty: Duty, refusals: u64) -> bool
        ensures commit { (duty ≡ Commit) → result ≡ rests self.now.is_closing self.now.refusals }
        ensures collect { (duty ≡ Collect) → result ≡ rests self.now.is_closing refusals }
    {
        let counted = match duty {
            Duty::Commit => self.refusals,
            Duty::Collect => refusals,
        };
        !self.is_closing && lacks_memory(counted)
    }

    /// A worker falls asleep since memory was refused to it too often.
    pub fn fall_asleep(&mut self)
        ensures { self.new ≡ record self.old { are_asleep = true } }
    {
        self.are_asleep = true;
    }

    /// Whether those that sleep have to be woken. They are awake then.
    pub fn wake(&mut self) -> bool
        ensures woken { result ≡ self.old.are_asleep }
        ensures awake { self.new ≡ record self.old { are_asleep = false } }
    {
        let are_asleep = self.are_asleep;
        self.are_asleep = false;
        are_asleep
    }

    /// Both have to end.
    pub fn close(&mut self)
        ensures { self.new ≡ record self.old { is_closing = true } }
    {
        self.is_closing = true;
    }
}
