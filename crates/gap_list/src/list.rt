use crate::parts::{extend, split};
use base::Ts;
use base::fault::Fault;
use base::gap::{Gap, Gaps};
use std::marker::Model;

/// A set of timestamps, as at most eight gaps: in order, from 1 on, none empty, and with a timestamp between any two.
#[derive(Clone, Copy, PartialEq, Eq)]
pub struct GapList {
    gaps: Gaps,
}

impl Model for GapList {
    ghost use Rattle.std.specs.Prelude.{List, IsTrue};
    ghost use Rattle.base.specs.declared.gap.Gap.{Gap};
    ghost use Rattle.gap_list.specs.GapLists.{is_gap_list};

    ghost Value = { List Gap };

    ghost view = { λ l. l.gaps };

    ghost invariant = { λ l. IsTrue (is_gap_list l.gaps) };

    ghost inverse = { λ gaps. record { gaps = gaps } };
}

impl GapList {
    ghost use Rattle.std.specs.Prelude.{◌≡◌, ◌↔◌, ◌≤◌, ℕ, nat_le, ◌&&◌, ◌||◌, [], length, IsTrue, IsOk, IfErr, OnOk, OnErr};
    ghost use Rattle.base.specs.Records.{is_in, with_gap};
    ghost use Rattle.base.specs.declared.fault.Fault.TheVariants.{GapsFull};
    ghost use Rattle.gap_list.specs.GapLists.{is_gap_list};

    /// No timestamp.
    pub fn none() -> GapList
        ensures { result ≡ [] }
    {
        GapList { gaps: Gaps::none() }
    }

    /// The set of these gaps.
    pub fn of(gaps: Gaps) -> GapList
        requires { IsTrue (is_gap_list gaps) }
        ensures { result ≡ gaps }
    {
        GapList { gaps }
    }

    /// Its gaps, in order.
    pub fn gaps(&self) -> Gaps
        // At most eight, in order, none empty, and apart from each other.
        ensures gaps { result ≡ self.now }
        ensures tidy { IsTrue (is_gap_list self.now) }
    {
        let GapList { gaps } = *self;
        gaps
    }

    /// Whether the timestamp is in the set.
    pub fn holds(&self, ts: Ts) -> bool
        ensures { result ≡ is_in self.now ts }
    {
        self.gaps
            .as_slice()
            .iter()
            .any(|gap| gap.first <= ts && ts <= gap.last)
    }

    /// Adds the timestamps from the first to the last: one gap, joined to all that it overlaps or touches. A ninth gap is
    /// refused.
    pub fn add(&mut self, first: Ts, last: Ts) -> Result<(), Fault>
        requires from_one { 1 ≤ first }
        requires ordered { first ≤ last }

        // The range is joined to all that it overlaps or touches. The set then has its timestamps and those before, and no
        // others.
        ensures ok { OnOk result (self.new ≡ with_gap (record { first = first; last = last }) self.old) }
        ensures holds { OnOk result ((t : ℕ) → is_in self.new t ≡ (is_in self.old t || (nat_le first t && nat_le t last))) }

        // GapsFull exactly if nine gaps would be left, and then the set is as before.
        ensures fits { IsOk result ↔ (length (with_gap (record { first = first; last = last }) self.old) ≤ 8) }
        ensures fault { IfErr result (λ fault. fault ≡ GapsFull) }
        ensures err { OnErr result (self.new ≡ self.old) }
    {
        let gaps = self.gaps.as_slice();
        let parts = split(gaps, Gap { first, last });
        let after = &gaps[parts.rest..];
        if parts.before.as_slice().len() + after.len() >= 8 {
            return Err(Fault::GapsFull);
        }
        let mut joined = parts.before;
        joined.push(parts.joined);
        extend(&mut joined, after);
        self.gaps = joined;
        Ok(())
    }

    /// Drops all timestamps.
    pub fn drop_all(&mut self)
        ensures { self.new ≡ [] }
    {
        self.gaps = Gaps::none();
    }
}
