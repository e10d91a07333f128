//! A tick makes one operation at most, so that sessions may step between any two. The choice takes all the memory that the cycle
//! needs and makes no operation; each later tick fails only with the device.

use crate::ticks::Tick;
use crate::volatile::VolatileState;
use base::fault::Fault;
use base::step::{Reply, Stage};
use group_commit::{Cycle, is_idle};
use pmem::Pmem;
use std::alloc::Global;

impl VolatileState {
    ghost use Rattle.std.specs.Prelude.{◌≡◌, ◌≢◌, ◌<◌, None, Some, IsSome, Err};
    ghost use Rattle.base.specs.declared.step.Step.TheVariants.{Commit};
    ghost use Rattle.log_area.specs.declared.stage.WritingStage.TheVariants.{Done};
    ghost use Rattle.group_commit.specs.Cycles.{Cycling};
    ghost use Rattle.base.specs.declared.fault.Fault.{Fault};
    ghost use Rattle.room.specs.Steps.{ShowsSome, Steps};
    ghost use Rattle.session_steps.specs.Covering.{MayCoverSome, ShowsCovered};
    ghost use Rattle.room.specs.Ticks.{ShowsResting, TicksQuietly, Waits, chosen_reply, as_reply};
    ghost use Rattle.room.specs.Room.{left_after};
    ghost use Rattle.room.specs.Closing.{ticks_left};

    // One tick: the choice of a batch, or the next operation of the pending one.
    #[inline(always)]
    pub(crate) fn tick<D: Pmem>(&mut self, alloc: Global, device: &mut D) -> Result<Tick, Fault>
        requires shown { ∥ ShowsSome self.old (D.state device.old) ∥₁ }
        ensures step { Steps self.old self.new (D.state device.old) (D.state device.new) Commit (as_reply result self.new.covered) }
        ensures waits { Waits result self.old.covered self.new.covered }
    {
        if self.cycle.is_some() {
            self.advance(device)
        } else {
            match self.choose(alloc) {
                Ok(true) => Ok(Tick::Reached(Stage::Chosen)),
                Ok(false) => Ok(Tick::Idle),
                Err(fault) => Err(fault),
            }
        }
    }

    // The reply of a tick with this result. A batch that the tick covered is handed out.
    #[inline(always)]
    pub(crate) fn reply_of(&mut self, returned: Result<Tick, Fault>) -> Reply
        ensures reply { result ≡ as_reply returned self.old.covered }
        ensures sessions { self.new.sessions ≡ self.old.sessions }
        ensures cycle { self.new.cycle ≡ self.old.cycle }
        ensures waits { self.new.covered ≡ left_after self.old.covered result }
    {
        match returned {
            Ok(Tick::Idle) => Reply::Idle,
            Ok(Tick::Reached(stage)) => Reply::Ticked(stage),
            Ok(Tick::Covered) => match self.covered.take() {
                Some(batch) => Reply::Covered(batch),
                None => Reply::Done,
            },
            Err(fault) => Reply::Refused(fault),
        }
    }

    // Chooses a batch, unless there is nothing to do. Returns whether a batch is pending then.
    #[cold]
    #[inline(never)]
    fn choose(&mut self, alloc: Global) -> Result<bool, Fault>
        requires rests { self.old.cycle ≡ None }
        requires shown { ∥ ShowsResting self.old.sessions ∥₁ }
        ensures step { TicksQuietly self.old.sessions self.new (chosen_reply result) }
        ensures waits { self.new.covered ≡ self.old.covered }
    {
        let numbers = self.sessions.numbers();
        let drawn = self.sessions.drawn();
        let swept = self.sessions.has_swept();
        if is_idle(numbers, swept, drawn) {
            return Ok(false);
        }
        match Cycle::begin(alloc, numbers, swept, drawn) {
            Ok(cycle) => {
                self.cycle = Some(cycle);
                Ok(true)
            }
            Err(fault) => Err(fault),
        }
    }

    // Makes the next operation of the pending batch's cycle in place: the cycle is moved only once it is done.
    #[inline(always)]
    pub(crate) fn advance<D: Pmem>(&mut self, device: &mut D) -> Result<Tick, Fault>
        requires hand { IsSome self.old.cycle }
        requires shown { ∥ ShowsSome self.old (D.state device.old) ∥₁ }
        ensures step { Steps self.old self.new (D.state device.old) (D.state device.new) Commit (as_reply result self.new.covered) }
        ensures closer { ((fault : Fault) → result ≢ Err fault) → ticks_left self.new.sessions.dirty self.new.cycle < ticks_left self.old.sessions.dirty self.old.cycle }
        ensures waits { Waits result self.old.covered self.new.covered }
    {
        let Some(cycle) = &mut self.cycle else {
            unreachable!()
        };
        match cycle.tick(device, self.sessions.dirty()) {
            Ok(Some(stage)) => Ok(Tick::Reached(stage)),
            Ok(None) => {
                self.cover();
                Ok(Tick::Covered)
            }
            Err(reason) => Err(reason),
        }
    }

    // The pending batch is covered: its record rules. The batch is kept until it is handed out, or the next one is covered.
    #[cold]
    #[inline(never)]
    fn cover(&mut self)
        requires hand { IsSome self.old.cycle }
        requires may { (cycle : Cycling) → self.old.cycle ≡ Some cycle → ∥ MayCoverSome self.old.sessions cycle.writing.target ∥₁ }
        ensures batch { (cycle : Cycling) → self.old.cycle ≡ Some cycle → self.new.covered ≡ Some cycle.batch }
        ensures cycle { self.new.cycle ≡ None }
        ensures shows { (cycle : Cycling) → self.old.cycle ≡ Some cycle → ShowsCovered self.old.sessions self.new.sessions cycle.writing.target }
    {
        let Some(cycle) = self.cycle.take() else {
            unreachable!()
        };
        self.sessions.cover(&cycle.record());
        self.covered = Some(cycle.into_batch());
    }
}
