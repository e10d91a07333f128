//! A run is many steps. What a crash leaves is proved once for all of them, and not by each caller.

ghost use Rattle.std.specs.Prelude.{List, [], ◌∷◌};
ghost use Rattle.base.specs.declared.step.Reply.{Reply};
ghost use Rattle.base.specs.declared.step.Step.{Step};
ghost use Rattle.machine.specs.Machine.{State};
ghost use Rattle.room.specs.Room.{RunsTo, Shows, StepsTo};

use crate::room::Room;
use pmem::Pmem;

/// Steps one after another are a run (`RunsTo`).
pub fn steps_run<D: Pmem>(first: &Room<D>, next: &Room<D>, last: &Room<D>)
    // What a crash leaves, which failures are reported, and the bound on operations hold of all of them together.
    ensures none { (q : State) → Shows D.state first.now q → RunsTo D.state first.now first.now [] [] q [] }
    ensures more { (step : Step) (reply : Reply) (steps : List Step) (replies : List Reply) (q q' : State) (states : List State)
        → StepsTo D.state first.now next.now step reply q q' → RunsTo D.state next.now last.now steps replies q' states
        → RunsTo D.state first.now last.now (step ∷ steps) (reply ∷ replies) q (q' ∷ states) }
{}
