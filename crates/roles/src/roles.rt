//! A leader holds the lock except while it syncs, so other threads see `Led` only during a sync. Only one thread leads at a time,
//! and nobody follows unless a thread leads or watches.

use crate::turn::{Next, Turn};

/// Who acts for the group of commits that is being formed.
#[derive(Clone, Copy, Debug, PartialEq, Eq, PartialOrd, Ord, Drop)]
pub enum Lead {
    /// Nobody does.
    Free,
    /// A thread sleeps for a moment, so that others can join, and will lead then if nobody has.
    Watched,
    /// A thread takes a turn of the committer.
    Led,
}

/// The roles that are taken, and which threads have to be woken for that.
#[derive(Clone, Copy, Debug, PartialEq, Eq, PartialOrd, Ord, Drop)]
pub struct Roles {
    pub lead: Lead,
    /// The committer's worker found that another thread led, and has to be woken once nobody does.
    pub is_wanted: bool,
    /// A thread that follows has got its reply, and has to be woken.
    pub has_replied: bool,
    /// The workers have to end.
    pub is_closing: bool,
    /// How many workers there are.
    pub working: u64,
}

impl Roles {
    ghost use Rattle.std.specs.Prelude.{◌≡◌, ◌≢◌, ◌⊎◌, ◌↔◌, ◌+◌, ◌-◌, ◌^◌, min, IsTrue, true, false};
    ghost use Rattle.roles.specs.declared.roles.Lead.TheVariants.{Free, Watched, Led};
    ghost use Rattle.roles.specs.declared.turn.Turn.TheVariants.{Idle, Busy, LacksMemory, Stopped};
    ghost use Rattle.roles.specs.declared.turn.Next.TheVariants.{Again, Yield, Sleep};
    ghost use Rattle.roles.specs.Moves.{HasNoTurn, LeavesLead, LeavesWakes, LeavesWorkers};

    /// Nobody acts, nobody has to be woken, and there are no workers.
    pub fn new() -> Roles
        ensures lead { result.lead ≡ Free }
        ensures wakes { (result.is_wanted ≡ false) × (result.has_replied ≡ false) }
        ensures workers { (result.is_closing ≡ false) × (result.working ≡ 0) }
    {
        Roles {
            lead: Lead::Free,
            is_wanted: false,
            has_replied: false,
            is_closing: false,
            working: 0,
        }
    }

    /// Whether a thread takes a turn of the committer.
    pub fn is_led(&self) -> bool
        ensures { IsTrue result ↔ (self.now.lead ≡ Led) }
    {
        matches!(self.lead, Lead::Led)
    }

    /// Whether a thread watches the group.
    pub fn is_watched(&self) -> bool
        ensures { IsTrue result ↔ (self.now.lead ≡ Watched) }
    {
        matches!(self.lead, Lead::Watched)
    }

    /// Whether the thread of a commit that has joined the group follows. It does if a thread leads, or if one watches and the group isn't
    /// whole yet. Otherwise it leads itself.
    pub fn follows(&self, is_whole: bool) -> bool
        ensures { IsTrue result ↔ ((self.now.lead ≡ Led) ⊎ ((self.now.lead ≡ Watched) × (is_whole ≡ false))) }
    {
        match self.lead {
            Lead::Led => true,
            Lead::Watched => !is_whole,
            Lead::Free => false,
        }
    }

    /// A thread begins to watch the group, unless one leads it.
    pub fn watch(&mut self)
        ensures watched { self.old.lead ≢ Led → self.new.lead ≡ Watched }
        ensures led { self.old.lead ≡ Led → self.new.lead ≡ Led }
        ensures wakes { LeavesWakes self.old self.new }
        ensures workers { LeavesWorkers self.old self.new }
    {
        if !self.is_led() {
            self.lead = Lead::Watched;
        }
    }

    /// A thread ends its watch. It returns whether the group is still watched: if it isn't, another thread has led it meanwhile.
    pub fn end_watch(&mut self) -> bool
        ensures watched { IsTrue result ↔ (self.old.lead ≡ Watched) }
        ensures free { self.old.lead ≡ Watched → self.new.lead ≡ Free }
        ensures led { self.old.lead ≢ Watched → self.new.lead ≡ self.old.lead }
        ensures wakes { LeavesWakes self.old self.new }
        ensures workers { LeavesWorkers self.old self.new }
    {
        let is_watched = self.is_watched();
        if is_watched {
            self.lead = Lead::Free;
        }
        is_watched
    }

    /// A thread takes the lead, and returns true, unless another has it.
    pub fn take(&mut self) -> bool
        ensures one { IsTrue result ↔ (self.old.lead ≢ Led) }
        ensures led { self.new.lead ≡ Led }
        ensures wakes { LeavesWakes self.old self.new }
        ensures workers { LeavesWorkers self.old self.new }
    {
        let is_free = !self.is_led();
        self.lead = Lead::Led;
        is_free
    }

    /// The leader's turn is over.
    pub fn end_turn(&mut self)
        ensures free { self.new.lead ≡ Free }
        ensures wakes { LeavesWakes self.old self.new }
        ensures workers { LeavesWorkers self.old self.new }
    {
        self.lead = Lead::Free;
    }

    /// Returns whether the committer's worker has to be woken: nobody leads, and the worker was told to wait, or commits wait that nobody
    /// acts for.
    pub fn recall(&mut self, are_left: bool) -> bool
        ensures recalled { IsTrue result ↔ ((self.old.lead ≢ Led) × ((self.old.is_wanted ≡ true) ⊎ (are_left ≡ true))) }
        ensures once { IsTrue result → self.new.is_wanted ≡ false }
        ensures later { result ≡ false → self.new.is_wanted ≡ self.old.is_wanted }
        ensures replied { self.new.has_replied ≡ self.old.has_replied }
        ensures lead { LeavesLead self.old self.new }
        ensures workers { LeavesWorkers self.old self.new }
    {
        let recalls = !self.is_led() && (self.is_wanted || are_left);
        if recalls {
            self.is_wanted = false;
        }
        recalls
    }

    /// A thread that follows has got its reply.
    pub fn reply(&mut self)
        ensures replied { self.new.has_replied ≡ true }
        ensures wanted { self.new.is_wanted ≡ self.old.is_wanted }
        ensures lead { LeavesLead self.old self.new }
        ensures workers { LeavesWorkers self.old self.new }
    {
        self.has_replied = true;
    }

    /// Returns whether threads that follow have to be woken, and takes note that they are.
    pub fn take_replied(&mut self) -> bool
        ensures replied { IsTrue result ↔ (self.old.has_replied ≡ true) }
        ensures once { self.new.has_replied ≡ false }
        ensures wanted { self.new.is_wanted ≡ self.old.is_wanted }
        ensures lead { LeavesLead self.old self.new }
        ensures workers { LeavesWorkers self.old self.new }
    {
        let has_replied = self.has_replied;
        self.has_replied = false;
        has_replied
    }

    /// What the committer's worker does after the turn. It sleeps if there is nothing to do, or if another thread leads: then it has to be
    /// woken later. If it was refused memory, it tries again only for commits that nobody else acts for.
    pub fn next_of_worker(&mut self, turn: Turn, has_group: bool) -> Next
        ensures ends { self.old.is_closing ≡ true → result ≡ Again }
        // It sleeps after a turn with nothing to do, one that another thread takes, one that was refused for good, and one without
        // memory if no commits wait or another thread leads.
        ensures sleeps { self.old.is_closing ≡ false → (result ≡ Sleep) ↔ (HasNoTurn turn ⊎ ((turn ≡ LacksMemory) × ((has_group ≡ false) ⊎ (self.old.lead ≡ Led)))) }
        // It lets others run after a turn without memory if commits wait and nobody leads.
        ensures yields { self.old.is_closing ≡ false → (result ≡ Yield) ↔ ((turn ≡ LacksMemory) × (has_group ≡ true) × (self.old.lead ≢ Led)) }
        // It has to be woken later exactly if it had to before, or if another thread takes the turn.
        ensures wanted { (self.new.is_wanted ≡ true) ↔ ((self.old.is_wanted ≡ true) ⊎ ((self.old.is_closing ≡ false) × (turn ≡ Busy))) }
        ensures replied { self.new.has_replied ≡ self.old.has_replied }
        ensures lead { LeavesLead self.old self.new }
        ensures workers { LeavesWorkers self.old self.new }
    {
        if self.is_closing {
            return Next::Again;
        }
        match turn {
            Turn::Unfinished | Turn::Flushed | Turn::Finished => Next::Again,
            Turn::Busy => {
                self.is_wanted = true;
                Next::Sleep
            }
            Turn::LacksMemory => if has_group && !self.is_led() {
                Next::Yield
            } else {
                Next::Sleep
            },
            Turn::Idle | Turn::Stopped => Next::Sleep,
        }
    }

    /// A worker is counted in.
    pub fn begin_working(&mut self)
        ensures counted { self.new.working ≡ min (self.old.working + 1) (2 ^ 64 - 1) }
        ensures closing { self.new.is_closing ≡ self.old.is_closing }
        ensures lead { LeavesLead self.old self.new }
        ensures wakes { LeavesWakes self.old self.new }
    {
        self.working = self.working.saturating_add(1);
    }

    /// A worker is counted out.
    pub fn end_working(&mut self)
        ensures counted { self.new.working ≡ self.old.working - 1 }
        ensures closing { self.new.is_closing ≡ self.old.is_closing }
        ensures lead { LeavesLead self.old self.new }
        ensures wakes { LeavesWakes self.old self.new }
    {
        self.working = self.working.saturating_sub(1);
    }

    /// The workers have to end.
    pub fn close(&mut self)
        ensures closing { self.new.is_closing ≡ true }
        ensures working { self.new.working ≡ self.old.working }
        ensures lead { LeavesLead self.old self.new }
        ensures wakes { LeavesWakes self.old self.new }
    {
        self.is_closing = true;
    }

    /// Whether all workers have ended.
    pub fn have_ended(&self) -> bool
        ensures { IsTrue result ↔ (self.now.working ≡ 0) }
    {
        self.working == 0
    }
}
