//! Gaps and long commits have only one order, so what a record says has one spelling, and a place that holds anything else
//! holds no record.

ghost use Rattle.std.specs.Prelude.{◌≡◌, ◌+◌, ◌&&◌, not, nat_lt, nat_le};
ghost use Rattle.base.specs.Records.{is_in, are_apart, are_rising};
ghost use Rattle.log_area.specs.Codec.{are_within, are_out_of};

use base::Ts;
use base::gap::Gap;

// Does each gap go up, not past this timestamp, and end well before the next begins?
pub fn are_in_order(gaps: &[Gap], persisted: u64) -> bool
    ensures { result ≡ (are_within persisted gaps.now && are_apart gaps.now) }
{
    are_within(gaps, persisted) && are_apart(gaps)
}

// Does each gap go up, and not past this timestamp?
fn are_within(gaps: &[Gap], persisted: u64) -> bool
    ensures { result ≡ are_within persisted gaps.now }
{
    gaps.iter().all(|gap| is_within(*gap, persisted))
}

fn is_within(gap: Gap, persisted: u64) -> bool
    ensures { result ≡ (nat_le 1 gap.first && nat_le gap.first gap.last && nat_le gap.last persisted) }
{
    1 <= gap.first && gap.first <= gap.last && gap.last <= persisted
}

// Does each gap end well before the next begins?
fn are_apart(gaps: &[Gap]) -> bool
    ensures { result ≡ are_apart gaps.now }
{
    for i in 1..gaps.len() {
        if !ends_before(gaps[i - 1], gaps[i]) {
            return false;
        }
    }
    true
}

fn ends_before(gap: Gap, next: Gap) -> bool
    ensures { result ≡ nat_lt (gap.last + 1) next.first }
{
    1 < next.first && gap.last < next.first - 1
}

// Do the long commits rise, from 1 to this timestamp and in no gap?
pub fn are_longs(longs: &[Ts], gaps: &[Gap], persisted: u64) -> bool
    ensures { result ≡ (are_out_of gaps.now persisted longs.now && are_rising longs.now) }
{
    are_out_of(gaps, persisted, longs) && are_rising(longs)
}

// Is each from 1 to this timestamp, and in no gap?
fn are_out_of(gaps: &[Gap], persisted: u64, longs: &[Ts]) -> bool
    ensures { result ≡ are_out_of gaps.now persisted longs.now }
{
    longs.iter().all(|long| is_out_of(gaps, persisted, *long))
}

fn is_out_of(gaps: &[Gap], persisted: u64, timestamp: Ts) -> bool
    ensures { result ≡ (nat_le 1 timestamp && nat_le timestamp persisted && not (is_in gaps.now timestamp)) }
{
    1 <= timestamp && timestamp <= persisted && !is_in(gaps, timestamp)
}

// Is each above the one before it?
fn are_rising(timestamps: &[Ts]) -> bool
    ensures { result ≡ are_rising timestamps.now }
{
    for i in 1..timestamps.len() {
        if timestamps[i - 1] >= timestamps[i] {
            return false;
        }
    }
    true
}

// Is the timestamp in one of the gaps?
pub fn is_in(gaps: &[Gap], timestamp: Ts) -> bool
    ensures { result ≡ is_in gaps.now timestamp }
{
    gaps.iter().any(|gap| holds(*gap, timestamp))
}

fn holds(gap: Gap, timestamp: Ts) -> bool
    ensures { result ≡ (nat_le gap.first timestamp && nat_le timestamp gap.last) }
{
    gap.first <= timestamp && timestamp <= gap.last
}
