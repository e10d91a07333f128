ghost use Rattle.std.specs.Prelude.{◌≡◌};
ghost use Rattle.console.specs.Rounds.{visits_needed};

use base::geometry::Geometry;

/// How many visits of the collector are enough for that many: a round visits each slot and the closing place, and after a whole
/// one further rounds change nothing.
#[tactic(auto, using(base::proofs::Layouts::few_slots))]
pub fn visits_needed(geometry: Geometry, all: u64) -> u64
    ensures { result ≡ visits_needed geometry all }
{
    let round = geometry.slots() + 1;
    if all <= round {
        all
    } else {
        round + 1 + (all - round - 1) % round
    }
}
