//! A database whose history is kept has a name for it, which is picked here: a program doesn't write one.

ghost use Rattle.std.specs.Prelude.{◌≡◌, ℕ, List, None, IfOk, IfErr, true};
ghost use Rattle.base.specs.Commits.{Commit};
ghost use Rattle.base.specs.Images.{opening_fault};
ghost use Rattle.base.specs.Stands.{Stands};
ghost use Rattle.pmem.specs.Words.{IsAtRest, image_of};
ghost use Rattle.database.specs.Opening.{IsOpeningRefusal, KeepsHistory};

use crate::database::{Database, Refused};
use history::{History, Origin};
use std::alloc::Global;
use std::marker::Brand;
use std::sync::Wait;
use std::thread::Threads;
use sync_ahead::SyncAhead;

/// What a program does with a database whose history is kept.
pub trait Program {
    ghost use Rattle.std.specs.Prelude.{◌≡◌, None, true};
    ghost use Rattle.base.specs.Images.{opening_fault};
    ghost use Rattle.pmem.specs.Words.{IsAtRest, image_of};

    type Answer;

    /// It may start threads that share the database.
    fn run<
        D: SyncAhead + Drop + Send + Sync,
        R: Threads + Wait + Copy + Drop + Send + Sync,
        J: Origin + Send + Sync,
    >(self, database: Database<D, R, J>) -> Self::Answer
        // The history is kept, from the opening of this device: it was at rest, and its image isn't refused.
        requires kept { J.kept ≡ true }
        requires at_rest { IsAtRest J.opened }
        requires may_open { opening_fault (image_of J.opened) ≡ None };
}

/// Opens a device at rest, keeps its history from then on, and runs the program with the database.
pub fn run_kept<
    D: SyncAhead + Drop + Send + Sync + 'static,
    R: Threads + Wait + Copy + Drop + Send + Sync + 'static,
    P: Program + Drop,
>(rt: R, alloc: Global, device: D, program: P) -> Result<P::Answer, Refused<D>>
where
    D::Pending: Send,
    requires at_rest { IsAtRest (D.state device) }

    // As for `Database::open`.
    ensures may_open { IfOk result (λ _. opening_fault (image_of (D.state device)) ≡ None) }
    ensures fault { IfErr result (λ e. IsOpeningRefusal (D.state device) (D.state e.device) e.fault) }
    ensures images { (history drawn : List Commit) (next : ℕ) → Stands (image_of (D.state device)) history drawn next
        → IfErr result (λ e. KeepsHistory (D.state device) (D.state e.device) history next) }
{
    run_named::<Brand, D, R, P>(rt, alloc, device, program, History::new())
}

// The same under the name of this history.
fn run_named<
    J: Origin + Send + Sync + 'static,
    D: SyncAhead + Drop + Send + Sync + 'static,
    R: Threads + Wait + Copy + Drop + Send + Sync + 'static,
    P: Program + Drop,
>(rt: R, alloc: Global, device: D, program: P, history: History) -> Result<P::Answer, Refused<D>>
where
    D::Pending: Send,
    requires at_rest { IsAtRest (D.state device) }
    requires kept { J.kept ≡ true }
    requires name { history ≡ J.book }
    requires opened { D.state device ≡ J.opened }

    ensures may_open { IfOk result (λ _. opening_fault (image_of (D.state device)) ≡ None) }
    ensures fault { IfErr result (λ e. IsOpeningRefusal (D.state device) (D.state e.device) e.fault) }
    ensures images { (history drawn : List Commit) (next : ℕ) → Stands (image_of (D.state device)) history drawn next
        → IfErr result (λ e. KeepsHistory (D.state device) (D.state e.device) history next) }
{
    match Database::<D, R, J>::open_kept(rt, alloc, device, history) {
        Ok(database) => Ok(program.run::<D, R, J>(database)),
        Err(refused) => Err(refused),
    }
}
