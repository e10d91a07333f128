use crate::sessions::Sessions;
use dirty_table::DirtyTable;
use snapshot::Numbers;
use txn::DrawnCommits;

impl Sessions {
    ghost use Rattle.std.specs.Prelude.{◌≡◌};

    /// The layout, the record that rules, and the timestamp that is drawn next.
    pub fn numbers(&self) -> &Numbers
        ensures { result.now ≡ self.now.numbers }
    {
        &self.numbers
    }

    /// The commits that are drawn and not covered, in the order in which they were drawn.
    pub fn drawn(&self) -> &DrawnCommits
        ensures { result.now ≡ self.now.drawn }
    {
        &self.drawn
    }

    /// The lines that each drawn commit touches, under the number of its session.
    pub fn dirty(&self) -> &DirtyTable
        ensures { result.now ≡ self.now.dirty }
    {
        &self.dirty
    }
}
