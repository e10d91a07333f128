//! Most steps of a life are ticks and visits, and they return little. A reply has room for the largest there is: the calls
//! that return the result of a tick or a visit don't move one.

use crate::replies::visited;
use crate::room::Room;
use crate::sessions::keep_failure;
use crate::ticks::Tick;
use base::batch::Batch;
use base::fault::Fault;
use base::step::Reply;
use collector::Visit;
use pmem::Pmem;

impl<D: Pmem + Drop> Room<D> {
    ghost use Rattle.std.specs.Prelude.{◌≡◌, ◌⊎◌, ◌<◌, ◌≤◌, true, map, option_copied};
    ghost use Rattle.base.specs.declared.step.Step.TheVariants.{Commit, Collect};
    ghost use Rattle.session_steps.specs.Collecting.{as_reply as visited, StopsAfter};
    ghost use Rattle.room.specs.Ticks.{Waits, as_reply as ticked};
    ghost use Rattle.room.specs.Room.{Leads, covered_by, left_after, place_of};
    ghost use Rattle.room.specs.Runs.{LeadsAlong, visited_from};

    /// A tick of the committer.
    #[inline(always)]
    pub fn advance(&mut self) -> Result<Tick, Fault>
        // What `Room::step` does with `Commit`. What is returned, with the batch that was covered last, stands for the reply
        // (`specs/Ticks.antt`). No reply is moved.
        ensures step { Leads D.state self.old self.new Commit (ticked result (covered_by self.new)) }

        // The batch that the tick covers waits to be handed out. One that covers none leaves what waited.
        ensures waits { Waits result (covered_by self.old) (covered_by self.new) }
    {
        if self.failed {
            return Err(Fault::Failed);
        }
        let returned = self.volatile.tick(self.alloc, &mut self.device);
        keep_failure(&mut self.failed, &returned);
        returned
    }

    /// The batch that waits to be handed out: the one that a tick covered last.
    pub fn covered(&self) -> Option<&Batch>
        ensures { option_copied result ≡ covered_by self.now }
    {
        self.volatile.covered.as_ref()
    }

    /// A visit of the collector.
    #[inline(always)]
    pub fn collect(&mut self) -> Result<Visit, Fault>
        // What `Room::step` does with `Collect`. What is returned stands for the reply. No reply is moved.
        ensures step { Leads D.state self.old self.new Collect (visited result) }

        // It leaves what waited.
        ensures waits { covered_by self.new ≡ covered_by self.old }
    {
        if self.failed {
            return Err(Fault::Failed);
        }
        let returned = self.volatile.collect(&mut self.device);
        keep_failure(&mut self.failed, &returned);
        returned
    }

    /// Visits at once slots whose visits change nothing, this many at most, and returns how many. It takes no memory, and looks at no
    /// slot.
    pub fn pass(&mut self, most: u64) -> u64
        // What `Room::step` does with as many `Collect` as are returned: each replies the slot of its place, and the next is at the place
        // after it.
        ensures steps { LeadsAlong D.state self.old self.new (map (λ reply. (Collect, reply)) (visited_from (place_of self.old) result)) }

        // It makes the most, unless the device has failed, gaps are to be swept, or it comes to a slot whose version was replaced, or to
        // the closing place.
        ensures most { result ≤ most }
        ensures stops { result < most → (self.old.failed ≡ true) ⊎ StopsAfter self.old.volatile.sessions result }

        // It leaves what waited.
        ensures waits { covered_by self.new ≡ covered_by self.old }
    {
        if self.failed {
            return 0;
        }
        self.volatile.sessions.pass(most)
    }

    /// A tick of the committer: `step` of `Step::Commit`, without moving a step.
    #[inline(always)]
    pub fn tick(&mut self) -> Reply
        ensures step { Leads D.state self.old self.new Commit result }

        // A batch that the reply hands out waits no longer, and any other reply leaves what waits.
        ensures waits { covered_by self.new ≡ left_after (covered_by self.old) result }
    {
        let returned = self.advance();
        self.volatile.reply_of(returned)
    }

    /// A visit of the collector: `step` of `Step::Collect`, without moving a step.
    #[inline(always)]
    pub fn visit(&mut self) -> Reply
        ensures step { Leads D.state self.old self.new Collect result }

        // It leaves what waited.
        ensures waits { covered_by self.new ≡ left_after (covered_by self.old) result }
    {
        visited(self.collect())
    }
}
