ghost use Rattle.std.specs.Prelude.{◌≡◌, length, [], ◌∷◌};
ghost use Rattle.pmem_file.specs.Changed.{mark_of, Unmarks};

use crate::gates::is_gate_line;
use std::alloc::{AllocError, Global};
use std::marker::Model;

/// What is known of a line.
#[derive(Clone, Copy, Debug)]
pub(crate) enum Mark {
    /// None of its words was stored.
    Unchanged,
    /// Some were, and none of them can be a gate.
    Plain,
    /// Some were, and one may be a gate.
    Gates,
}

/// The lines of which words were stored, each once, in the order in which they came.
#[derive(Drop)]
pub(crate) struct ChangedLines {
    lines: Vec<usize>,
    // What is known of the line of each number, so that none is looked for.
    marks: Vec<Mark>,
    // The places for records, whose gates these are.
    places: usize,
}

impl Model for ChangedLines {
    ghost use Rattle.std.specs.Prelude.{length};
    ghost use Rattle.pmem_file.specs.Changed.{AreMarked, Changes};

    ghost Value = { Changes };

    ghost view = { λ c. record { lines = c.lines.items; count = length c.marks.items; places = c.places } };

    ghost invariant = { λ c. AreMarked c.places c.lines.items c.marks.items };
}

impl ChangedLines {
    ghost use Rattle.std.specs.Prelude.{◌≡◌, ◌<◌, ℕ, [], true, false, IsTrue, OnOk, OnErr, IfOk};
    ghost use Rattle.journal.specs.Changes.{is_listed};
    ghost use Rattle.pmem_file.specs.Journaled.{is_gate_line};

    /// None, of lines below this one, on a device with this number of places for records. There is room for all of them, each
    /// once.
    pub(crate) fn new(
        alloc: Global,
        count: usize,
        places: usize,
    ) -> Result<ChangedLines, AllocError>
        ensures { IfOk result (λ made. made ≡ record { lines = []; count = count; places = places }) }
    {
        Ok(ChangedLines {
            lines: Vec::with_capacity(alloc, count)?,
            marks: vec![in alloc; Mark::Unchanged; count]?,
            places,
        })
    }

    pub(crate) fn as_slice(&self) -> &[usize]
        ensures { result.now ≡ self.now.lines }
    {
        self.lines.as_slice()
    }

    /// Whether the line is one of them, and none of its words is a gate.
    #[inline(always)]
    pub(crate) fn has_plain(&self, line: usize) -> bool
        requires { line < self.now.count }
        ensures listed { IsTrue result → is_listed self.now.lines line ≡ true }
        ensures plain { IsTrue result → is_gate_line self.now.places line ≡ false }
    {
        matches!(self.marks[line], Mark::Plain)
    }

    /// Adds a line, unless it is there.
    pub(crate) fn add(&mut self, line: usize) -> Result<(), AllocError>
        requires { line < self.old.count }
        ensures has { OnOk result (is_listed self.new.lines line ≡ true) }
        ensures others { (other : ℕ) → is_listed self.old.lines other ≡ true → is_listed self.new.lines other ≡ true }
        ensures count { self.new.count ≡ self.old.count }
        ensures places { self.new.places ≡ self.old.places }
        ensures err { OnErr result (self.new ≡ self.old) }
    {
        match self.marks[line] {
            Mark::Unchanged => {
                self.lines.push(line)?;
                self.marks[line] = mark_of(self.places, line);
                Ok(())
            }
            _ => Ok(()),
        }
    }

    /// None is left.
    pub(crate) fn clear(&mut self)
        ensures { self.new ≡ record self.old { lines = [] } }
    {
        unmark(self.marks.as_mut_slice(), self.lines.as_slice());
        self.lines.clear();
    }
}

// That of a line of which a word was stored.
fn mark_of(places: usize, line: usize) -> Mark
    ensures { result ≡ mark_of places line }
{
    if is_gate_line(places, line) {
        Mark::Gates
    } else {
        Mark::Plain
    }
}

// None of these lines is marked any more.
fn unmark(marks: &mut [Mark], lines: &[usize])
    ensures unmarks { Unmarks lines.now marks.old marks.new }
    ensures size { length marks.new ≡ length marks.old }
{
    for line in lines {
        unmark_one(marks, *line);
    }
}

// This line isn't marked any more.
fn unmark_one(marks: &mut [Mark], line: usize)
    ensures unmarks { Unmarks (line ∷ []) marks.old marks.new }
    ensures size { length marks.new ≡ length marks.old }
{
    if line < marks.len() {
        marks[line] = Mark::Unchanged;
    }
}
