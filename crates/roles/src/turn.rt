//! What a thread does after a turn of the committer depends on its outcome alone, unless the thread is the committer's worker.

ghost use Rattle.std.specs.Prelude.{◌≡◌, ◌⊎◌, ◌↔◌, IsTrue};

/// The outcome of a turn under the lock.
#[derive(Clone, Copy, Debug, PartialEq, Eq)]
pub enum Turn {
    /// There is more to do.
    Unfinished,
    /// There is more to do, and the next tick makes a record durable.
    Flushed,
    /// A batch is covered, or a round has ended.
    Finished,
    /// There was nothing to do.
    Idle,
    /// Another thread takes the committer's turns.
    Busy,
    /// Memory was refused. That passes.
    LacksMemory,
    /// Something else was refused. That doesn't pass.
    Stopped,
}

/// What a thread does next that still waits.
#[derive(Clone, Copy, Debug, PartialEq, Eq)]
pub enum Next {
    /// It looks again at once.
    Again,
    /// It lets other threads run, and looks again.
    Yield,
    /// It sleeps until it is woken.
    Sleep,
}

impl Turn {
    ghost use Rattle.roles.specs.declared.turn.Turn.TheVariants.{Finished, Idle, Busy, LacksMemory, Stopped};
    ghost use Rattle.roles.specs.declared.turn.Next.TheVariants.{Yield, Sleep};

    /// Whether threads that wait have to be told: a batch is covered, or the committer was refused.
    pub fn is_news(self) -> bool
        ensures { IsTrue result ↔ ((self ≡ Finished) ⊎ (self ≡ LacksMemory) ⊎ (self ≡ Stopped)) }
    {
        matches!(self, Turn::Finished | Turn::LacksMemory | Turn::Stopped)
    }

    /// What a thread does after the turn whose own commit isn't covered.
    pub fn next_of_leader(self) -> Next
        ensures sleeps { (result ≡ Sleep) ↔ ((self ≡ Idle) ⊎ (self ≡ Busy)) }
        ensures yields { (result ≡ Yield) ↔ (self ≡ LacksMemory) }
    {
        match self {
            Turn::Idle | Turn::Busy => Next::Sleep,
            Turn::LacksMemory => Next::Yield,
            Turn::Unfinished | Turn::Flushed | Turn::Finished | Turn::Stopped => Next::Again,
        }
    }

    /// What a thread does after the turn that waits for another's commit, or for timestamps, while no other transaction is open.
    pub fn next_of_waiter(self) -> Next
        ensures sleeps { (result ≡ Sleep) ↔ (self ≡ Busy) }
        ensures yields { (result ≡ Yield) ↔ (self ≡ LacksMemory) }
    {
        match self {
            Turn::Busy => Next::Sleep,
            Turn::LacksMemory => Next::Yield,
            Turn::Unfinished | Turn::Flushed | Turn::Finished | Turn::Idle | Turn::Stopped => {
                Next::Again
            }
        }
    }
}
