ghost use Rattle.std.specs.Prelude.{◌≡◌, ◌+◌, ◌≤◌, ◌++◌, ◌∷◌, min, max, nat_lt, length, drop};
ghost use Rattle.base.specs.Records.{with_gap};

use base::gap::{Gap, Gaps};

/// A list of gaps with a range put in: the gaps before it, the one gap that it makes with all that it overlaps or touches,
/// and the place in the list at which the gaps after it begin.
#[derive(Clone, Copy)]
pub struct Parts {
    pub before: Gaps,
    pub joined: Gap,
    pub rest: usize,
}

// Whether a gap ends before another begins, with a timestamp between them.
fn is_before(gap: &Gap, other: &Gap) -> bool
    ensures { result ≡ nat_lt (gap.now.last + 1) other.now.first }
{
    gap.last < other.first && other.first - gap.last > 1
}

// The least gap that holds both.
fn both(one: &Gap, other: &Gap) -> Gap
    ensures { result ≡ record { first = min one.now.first other.now.first; last = max one.now.last other.now.last } }
{
    Gap {
        first: one.first.min(other.first),
        last: one.last.max(other.last),
    }
}

pub fn split(gaps: &[Gap], range: Gap) -> Parts
    requires { length gaps.now ≤ 8 }
    ensures whole { with_gap range gaps.now ≡ result.before ++ result.joined ∷ drop result.rest gaps.now }
    ensures rest { result.rest ≤ length gaps.now }
    ensures before { length result.before ≤ result.rest }
{
    let mut before = Gaps::none();
    let mut joined = range;
    for (index, gap) in gaps.iter().enumerate() {
        if is_before(gap, &joined) {
            before.push(*gap);
        } else if is_before(&joined, gap) {
            return Parts {
                before,
                joined,
                rest: index,
            };
        } else {
            joined = both(&joined, gap);
        }
    }
    Parts {
        before,
        joined,
        rest: gaps.len(),
    }
}

/// Adds gaps after the others.
pub fn extend(gaps: &mut Gaps, more: &[Gap])
    requires { length gaps.old + length more.now ≤ 8 }
    ensures { gaps.new ≡ gaps.old ++ more.now }
{
    for gap in more {
        gaps.push(*gap);
    }
}
