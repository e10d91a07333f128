//! Whether a batch covers what is due.
ghost use Rattle.std.specs.Prelude.{◌≡◌, ◌↔◌, ◌≤◌, ◌+◌, ◌-◌, ◌++◌, ◌∷◌, [], ℕ, List, true, not, length, map, filter, IsTrue, IfSome, IfNone};
ghost use Rattle.std.specs.List.{list_all, range_with_len};
ghost use Rattle.board.specs.Lists.{CoversDue, is_among, due};
ghost use Rattle.board.specs.Due.{Meets, stay};

use base::Ts;
use base::batch::{Batch, Commit};
use base::longs::Longs;

/// Whether the batch covers what is due after this timestamp and these long commits.
pub fn covers_due(before: Ts, left: &Longs, batch: &Batch) -> bool
    ensures { IsTrue result ↔ CoversDue before left.now batch.now }
{
    before <= batch.persisted()
        && are_due(&batch.longs(), before, left, batch.persisted())
        && covers_others(before, left, batch)
}

// Whether each of these is due.
fn are_due(longs: &Longs, before: Ts, left: &Longs, upto: Ts) -> bool
    requires { before ≤ upto }
    ensures { result ≡ list_all (is_among (due left.now before upto)) longs.now }
{
    for long in longs.as_slice() {
        if !is_due(*long, before, left, upto) {
            return false;
        }
    }
    true
}

// Whether the timestamp was left, or is above the first one and at most the second one.
fn is_due(timestamp: Ts, before: Ts, left: &Longs, upto: Ts) -> bool
    requires { before ≤ upto }
    ensures { result ≡ is_among (due left.now before upto) timestamp }
{
    left.contains(timestamp) || (before < timestamp && timestamp <= upto)
}

// Whether the batch has one commit for each timestamp that is due, less its long commits.
fn covers_others(before: Ts, left: &Longs, batch: &Batch) -> bool
    requires { before ≤ batch.now.persisted }
    ensures { IsTrue result ↔ (map (λ commit. commit.timestamp) batch.now.commits ≡ filter (stay batch.now.longs) (due left.now before batch.now.persisted)) }
{
    let (commits, longs) = (batch.commits(), batch.longs());
    let Some(used) = after_left(commits, left.as_slice(), &longs) else {
        return false;
    };
    match after_range(commits, used, before, batch.persisted(), &longs) {
        Some(used) => used == commits.len(),
        None => false,
    }
}

// How many commits are used up by those that were left, if the first commits are just these without the long ones.
fn after_left(commits: &[Commit], left: &[Ts], longs: &Longs) -> Option<usize>
    ensures some { IfSome result (λ used. (used ≤ length commits.now) × Meets commits.now used longs.now left.now) }
    ensures none { IfNone result ((rest : List ℕ) → map (λ commit. commit.timestamp) commits.now ≡ filter (stay longs.now) (left.now ++ rest) → ⊥) }
{
    let mut used = 0;
    for timestamp in left {
        used = match after_one(commits, used, *timestamp, longs) {
            Some(next) => next,
            None => return None,
        };
    }
    Some(used)
}

// How many commits are used up by the timestamps after the one, up to the other.
fn after_range(
    commits: &[Commit],
    first: usize,
    before: Ts,
    upto: Ts,
    longs: &Longs,
) -> Option<usize>
    requires first { first ≤ length commits.now }
    requires rises { before ≤ upto }
    ensures some { IfSome result (λ used. (used ≤ length commits.now) × ((met : List ℕ) → Meets commits.now first longs.now met → Meets commits.now used longs.now (met ++ range_with_len (before + 1) (upto - before)))) }
    ensures none { IfNone result ((met : List ℕ) → Meets commits.now first longs.now met → map (λ commit. commit.timestamp) commits.now ≡ filter (stay longs.now) (met ++ range_with_len (before + 1) (upto - before)) → ⊥) }
{
    let mut used = first;
    for timestamp in before..upto {
        used = match after_one(commits, used, timestamp + 1, longs) {
            Some(next) => next,
            None => return None,
        };
    }
    Some(used)
}

// How many commits are used up once this timestamp has its turn: one more, which has it, or no more if it is long.
fn after_one(commits: &[Commit], used: usize, timestamp: Ts, longs: &Longs) -> Option<usize>
    requires { used ≤ length commits.now }
    ensures some { IfSome result (λ next. (next ≤ length commits.now) × ((met : List ℕ) → Meets commits.now used longs.now met → Meets commits.now next longs.now (met ++ timestamp ∷ []))) }
    ensures none { IfNone result ((met rest : List ℕ) → Meets commits.now used longs.now met → map (λ commit. commit.timestamp) commits.now ≡ filter (stay longs.now) (met ++ timestamp ∷ rest) → ⊥) }
{
    if longs.contains(timestamp) {
        return Some(used);
    }
    let Some(commit) = commits.get(used) else {
        return None;
    };
    if commit.timestamp() != timestamp {
        return None;
    }
    Some(used + 1)
}
