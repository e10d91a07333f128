//! A change is added to the history before the shelf has it: readers go by the history, which never goes back. If there is
//! no memory to pass it on, it waits here, and nothing comes before it.

use crate::change::{Change, Start};
use crate::coverage::Coverage;
use crate::fitting::covers_due;
use crate::history::{Book, Front, History, Naming};
use crate::reader::Reader;
use crate::shelf::{Shelf, Step};
use crate::token::Token;
use base::batch::Batch;
use base::fault::Fault;
use base::key::Key;
use base::row::Row;
use left_right::{Absorb, WriteHandle};
use std::alloc::{AllocError, Global};
use std::marker::Model;
use std::sync::Wait;

/// A value that a history makes, and operations that each add a change to it.
pub trait Kept<O> {
    ghost use Rattle.std.specs.Prelude.{List};
    ghost use Rattle.board.specs.declared.change.Change.{Change};

    ghost log: { Self → List Change };

    ghost change: { O → Change };
}

impl<J: Naming> Kept<Step<J>> for Shelf<J> {
    ghost log = { λ s. s };

    ghost change = { λ step. step.change };
}

/// What the one writer holds. Dropping it waits for those that are reading, and readers see nothing from then on.
#[derive(Drop)]
pub struct BoardWriter<J: Naming, T: Absorb<O> + Kept<O> + Drop, O: Drop, R: Wait + Drop> {
    handle: WriteHandle<T, O, R>,
    book: Book<J>,
    // The history, with what waits, and what its list covers.
    front: Front<J>,
    coverage: Coverage,
    // The last change that waits, if there was no memory to hand it over.
    kept: Option<O>,
}

/// The board of a history.
pub type Board<J, R> = BoardWriter<J, Shelf<J>, Step<J>, R>;

impl<J: Naming, T: Absorb<O> + Kept<O> + Drop, O: Drop, R: Wait + Drop> Model
    for BoardWriter<J, T, O, R> {
    ghost use Rattle.board.specs.Shown as views;

    ghost Value = { views.Shown };

    ghost use Rattle.std.specs.Prelude.{◌≡◌, ◌<◌, ◌++◌, length, map};
    ghost use Rattle.left_right.specs.Handles.{published, pending};
    ghost use Rattle.board.specs.Changes.{list_of};
    ghost use Rattle.board.specs.Lists.{last_coverage};
    ghost use Rattle.board.specs.Shown.{one_or_none};

    ghost view = { λ b. record { list = list_of (T.log (published b.handle)); waits = map T.change (pending b.handle ++ one_or_none b.kept) } };

    ghost invariant = { λ b. (0 < length (T.log (published b.handle))) × (b.front ≡ T.log (published b.handle) ++ map T.change (pending b.handle ++ one_or_none b.kept)) × (b.coverage ≡ last_coverage (list_of b.front)) };
}

impl<J: Naming, R: Wait + Drop> BoardWriter<J, Shelf<J>, Step<J>, R> {
    ghost use Rattle.std.specs.Prelude.{◌≡◌, ◌⊎◌, ◌↔◌, ◌<◌, ◌≤◌, length, [], Ok, Some, None, All, IsTrue, IfOk, IfErr, MatchResult, vec_capacity};
    ghost use Rattle.base.specs.declared.fault.Fault.TheVariants.{OutOfMemory};
    ghost use Rattle.base.specs.Published.{last_stamp};
    ghost use Rattle.board.specs.declared.change.Change.TheVariants.{Add, Raise};
    ghost use Rattle.board.specs.Changes.{changed};
    ghost use Rattle.board.specs.Lists.{Fits, IsPublished, last_coverage};
    ghost use Rattle.board.specs.Openings.{opening};
    ghost use Rattle.board.specs.Shown.{whole, shown, waiting};

    /// Publishes the rows alone, and makes readers that have seen them.
    pub fn open(
        rt: R,
        alloc: Global,
        history: History,
        coverage: Coverage,
        rows: &[(Key, Row)],
        readers: usize,
    ) -> Result<(BoardWriter<J, Shelf<J>, Step<J>, R>, Vec<Reader<J>>), Fault>
        requires name { history ≡ J.book }
        requires readers { (0 < readers) × (readers ≤ 8) }

        // These rows alone are published, and what they cover (`Coverage`): at this stamp, up to this timestamp, without these
        // long commits.
        ensures board { IfOk result (λ opened. opened.0 ≡ record { list = opening coverage rows.now; waits = [] }) }

        // There are readers, from one up to the number asked for, each of which has seen them.
        ensures readers { IfOk result (λ opened. (0 < length opened.1.items) × (length opened.1.items ≤ readers) × All (λ reader. reader ≡ opened.0.list) opened.1.items) }

        // It is refused only for lack of memory.
        ensures fault { IfErr result (λ fault. fault ≡ OutOfMemory) }
    {
        let Ok(board) = BoardWriter::alone(rt, alloc, history, &coverage, rows, readers) else {
            return Err(Fault::OutOfMemory);
        };
        let Ok(made) = Vec::with_capacity(alloc, readers) else {
            return Err(Fault::OutOfMemory);
        };
        let made = board.readers(made, readers);
        if made.is_empty() {
            return Err(Fault::OutOfMemory);
        }
        Ok((board, made))
    }

    // The board without readers, with room for `readers` of them.
    fn alone(
        rt: R,
        alloc: Global,
        history: History,
        coverage: &Coverage,
        rows: &[(Key, Row)],
        readers: usize,
    ) -> Result<BoardWriter<J, Shelf<J>, Step<J>, R>, AllocError>
        requires name { history ≡ J.book }
        requires readers { (0 < readers) × (readers ≤ 8) }
        ensures { IfOk result (λ board. board ≡ record { list = opening coverage.now rows.now; waits = [] }) }
    {
        let start = Start {
            coverage: *coverage,
            rows: rows.to_vec(alloc)?,
        };
        let Some((book, front)) = history.begun::<J>(&Change::Begin(start)) else {
            return Err(AllocError);
        };
        let first = Shelf::new(alloc, front.again(), coverage, rows)?;
        let second = Shelf::new(alloc, front.again(), coverage, rows)?;
        Ok(BoardWriter {
            handle: WriteHandle::new(alloc, rt, first, second, readers)?,
            book,
            front,
            coverage: *coverage,
            kept: None,
        })
    }

    // Makes readers, as many as there is room for in the list, or fewer.
    fn readers(&self, none: Vec<Reader<J>>, readers: usize) -> Vec<Reader<J>>
        requires { (none.items ≡ []) × (readers ≤ vec_capacity none) }
        ensures count { length result.items ≤ readers }
        ensures readers { All (λ reader. reader ≡ self.now.list) result.items }
    {
        let mut made = none;
        for _ in 0..readers {
            let Ok(handle) = self.handle.handle() else {
                break;
            };
            let front = self.handle.published().front().again();
            made.push_reserved(Reader { handle, front });
        }
        made
    }

    /// What is covered at the last stamp, with what waits.
    pub fn last(&self) -> Coverage
        ensures { result ≡ last_coverage (whole self.now) }
    {
        self.coverage
    }

    /// Whether the batch may come next: exactly if it begins where the list ends, with what waits, and covers what is due.
    pub fn fits(&self, batch: &Batch) -> bool
        ensures { IsTrue result ↔ Fits (whole self.now) batch.now }
    {
        let last = &self.coverage;
        batch.from() == last.stamp
            && batch.stamp() > last.stamp
            && batch.stamp() - last.stamp == 1
            && covers_due(last.persisted, &last.longs, batch)
    }

    /// Publishes what waits and then the batch.
    pub fn publish(&mut self, batch: Batch) -> Result<(), (Fault, Option<Batch>)>
        requires { Fits (whole self.old) batch }

        // At Ok what waited and the batch are published. At Err memory was refused: the batch is returned and the board is as
        // before, or the batch is among what waits.
        ensures { MatchResult result (λ _. self.new ≡ shown (waiting self.old (Add batch))) (λ e. ((e ≡ (OutOfMemory, Some batch)) × (self.new ≡ self.old)) ⊎ ((e ≡ (OutOfMemory, None)) × (self.new ≡ waiting self.old (Add batch)))) }
    {
        match self.add(Change::Add(batch)) {
            Ok(()) => self.flush().map_err(|fault| (fault, None)),
            Err(Change::Add(batch)) => Err((Fault::OutOfMemory, Some(batch))),
            Err(_) => Err((Fault::OutOfMemory, None)),
        }
    }

    /// Publishes what waits, and raises the lowest stamp that may be read to this one, if it is lower.
    pub fn prune(&mut self, stamp: u64) -> Result<(), Fault>
        requires { stamp ≤ last_stamp self.old.list }

        // If the floor is this high, nothing changes. Otherwise at Ok the floor is raised and what waited is published. At Err
        // memory was refused: the board is as before, or the change is among what waits.
        ensures below { stamp ≤ self.old.list.floor → (result ≡ Ok tt) × (self.new ≡ self.old) }
        ensures above { self.old.list.floor < stamp → MatchResult result (λ _. self.new ≡ shown (waiting self.old (Raise stamp))) (λ fault. (fault ≡ OutOfMemory) × ((self.new ≡ self.old) ⊎ (self.new ≡ waiting self.old (Raise stamp)))) }
    {
        if stamp <= self.handle.published().floor() {
            return Ok(());
        }
        match self.add(Change::Raise(stamp)) {
            Ok(()) => self.flush(),
            Err(_) => Err(Fault::OutOfMemory),
        }
    }

    /// Publishes what waits.
    pub fn flush(&mut self) -> Result<(), Fault>
        // At Ok what waited is published. At Err memory was refused, and the board is as before.
        ensures { MatchResult result (λ _. self.new ≡ shown self.old) (λ fault. (fault ≡ OutOfMemory) × (self.new ≡ self.old)) }
    {
        self.hand_over();
        if self.kept.is_some() {
            return Err(Fault::OutOfMemory);
        }
        if self.handle.publish().is_err() {
            return Err(Fault::OutOfMemory);
        }
        Ok(())
    }

    // Adds a change to the history, in which it waits. If memory runs out, it comes back.
    fn add(&mut self, change: Change) -> Result<(), Change>
        requires { IsPublished (whole self.old) → IsPublished (changed (whole self.old) change) }
        ensures { MatchResult result (λ _. self.new ≡ waiting self.old change) (λ back. (back ≡ change) × (self.new ≡ self.old)) }
    {
        self.hand_over();
        if self.kept.is_some() {
            return Err(change);
        }
        self.front.is_published();
        let Some(front) = self.front.then(&self.book, &change) else {
            return Err(change);
        };
        self.coverage = change.end(&self.coverage);
        self.front = front.again();
        self.kept = Some(Step { change, front });
        self.hand_over();
        Ok(())
    }

    // Hands over what was kept, if there is memory.
    fn hand_over(&mut self)
        ensures { self.new ≡ self.old }
    {
        if let Some(step) = self.kept.take() {
            if let Err(step) = self.handle.append(step) {
                self.kept = Some(step);
            }
        }
    }

    /// Returns what is published.
    pub fn token(&self) -> Token<J>
        ensures { result ≡ self.now.list }
    {
        let shelf = self.handle.published();
        Token {
            front: shelf.front().again(),
            coverage: shelf.coverage(),
        }
    }

    /// Returns what is published once what waits is. Readers don't see all of it before, so it is kept to be compared with what is
    /// returned later.
    pub fn announced(&self) -> Token<J>
        ensures { result ≡ whole self.now }
    {
        Token {
            front: self.front.again(),
            coverage: self.coverage,
        }
    }
}
