//! What the life before drew and did not cover may have left versions on the device. Its timestamps become gaps, which commit
//! nothing, so those versions don't count for any reader, and nobody has to look for them.

ghost use Rattle.std.specs.Prelude.{◌≡◌, ◌+◌, ◌-◌, ◌<◌, ◌&&◌, nat_lt, length, IfErr, IfOk, OnOk, OnErr};
ghost use Rattle.base.specs.declared.fault.Fault.TheVariants.{GapsFull};
ghost use Rattle.base.specs.Records.{opened_gaps, is_in};
ghost use Rattle.recovery.specs.Gaps.{few_gaps, HasLongsBetween, HasUpTo, MayRule};

use base::Ts;
use base::fault::Fault;
use base::gap::Gaps;
use gap_list::GapList;
use log_area::Record;

/// The gaps with which an image is opened that the record rules: its own, one for each long commit, and what the record
/// leaves between its persisted and its dirty timestamp, joined if they touch. None if there are more than eight.
pub fn opened_gaps(ruling: Record) -> Option<Gaps>
    requires { MayRule ruling }
    ensures { result ≡ few_gaps ruling }
{
    match join_gaps(ruling) {
        Ok(gaps) => Some(gaps.gaps()),
        Err(_) => None,
    }
}

// All of them, added by rising timestamp, so that the list never gets shorter: a ninth gap is one too many for good.
fn join_gaps(ruling: Record) -> Result<GapList, Fault>
    requires { MayRule ruling }
    ensures ok { IfOk result (λ gaps. gaps ≡ opened_gaps ruling) }
    ensures err { OnErr result (8 < length (opened_gaps ruling)) }
    ensures fault { IfErr result (λ fault. fault ≡ GapsFull) }
{
    let mut gaps = GapList::none();
    let mut last = 0;
    let own = ruling.gaps();
    for gap in own.as_slice() {
        add_longs(&mut gaps, ruling, last, gap.first)?;
        gaps.add(gap.first, gap.last)?;
        last = gap.last;
    }
    add_longs(&mut gaps, ruling, last, ruling.persisted() + 1)?;
    add_skipped(&mut gaps, ruling)?;
    Ok(gaps)
}

// Adds the long commits between two timestamps.
fn add_longs(gaps: &mut GapList, ruling: Record, above: Ts, below: Ts) -> Result<(), Fault>
    requires may_rule { MayRule ruling }
    requires order { above < below }
    requires before { HasUpTo ruling above gaps.old }
    requires between { HasLongsBetween ruling above below }
    ensures ok { OnOk result (HasUpTo ruling (below - 1) gaps.new) }
    ensures err { OnErr result (8 < length (opened_gaps ruling)) }
    ensures fault { IfErr result (λ fault. fault ≡ GapsFull) }
{
    let mut last = above;
    let longs = ruling.longs();
    for long in longs.as_slice() {
        if last < *long && *long < below {
            gaps.add(*long, *long)?;
            last = *long;
        }
    }
    Ok(())
}

// Adds the timestamps that opening skips, if there are any.
fn add_skipped(gaps: &mut GapList, ruling: Record) -> Result<(), Fault>
    requires may_rule { MayRule ruling }
    requires before { HasUpTo ruling ruling.persisted gaps.old }
    ensures ok { OnOk result (gaps.new ≡ opened_gaps ruling) }
    ensures err { OnErr result (8 < length (opened_gaps ruling)) }
    ensures fault { IfErr result (λ fault. fault ≡ GapsFull) }
{
    let first = ruling.persisted() + 1;
    let last = ruling.dirty() - 1;
    if first <= last {
        gaps.add(first, last)?;
    }
    Ok(())
}

/// Whether the timestamp is in one of the gaps with which an image is opened that the record rules, few or many.
pub fn lies_in_gap(ruling: Record, timestamp: Ts) -> bool
    requires { MayRule ruling }
    ensures { result ≡ is_in (opened_gaps ruling) timestamp }
{
    is_in_own_gap(ruling, timestamp)
        || ruling.longs().contains(timestamp)
        || is_skipped(ruling, timestamp)
}

// Whether opening skips the timestamp.
fn is_skipped(ruling: Record, timestamp: Ts) -> bool
    ensures { result ≡ (nat_lt ruling.persisted timestamp && nat_lt timestamp ruling.dirty) }
{
    ruling.persisted() < timestamp && timestamp < ruling.dirty()
}

fn is_in_own_gap(ruling: Record, timestamp: Ts) -> bool
    requires { MayRule ruling }
    ensures { result ≡ is_in ruling.gaps timestamp }
{
    GapList::of(ruling.gaps()).holds(timestamp)
}
