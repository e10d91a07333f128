//! Nothing is known of a board that comes out of a lock but what its type says. So the rule by which it is pruned is one of its
//! type, and no thread can prune it further.

use crate::posting::{Posting, publish_and_prune};
use base::batch::Batch;
use base::fault::Fault;
use base::key::Key;
use base::row::Row;
use board::{Coverage, History, Naming, Reader, Token};
use std::alloc::Global;
use std::marker::Model;
use std::sync::Wait;

/// The board of an engine: the last sixteen stamps may be read, or all if there are fewer.
#[derive(Drop)]
pub struct Board<J: Naming, R: Wait + Drop> {
    board: board::Board<J, R>,
}

impl<J: Naming, R: Wait + Drop> Model for Board<J, R> {
    ghost use Rattle.board.specs.Shown as views;

    ghost Value = { views.Shown };

    ghost use Rattle.board.specs.Shown.{whole};
    ghost use Rattle.engine.specs.Keeping.{KeepsEnough};

    ghost view = { λ b. b.board };

    ghost invariant = { λ b. KeepsEnough (whole b.board) };
}

impl<J: Naming, R: Wait + Drop> Board<J, R> {
    ghost use Rattle.std.specs.Prelude.{◌≡◌, [], IfOk, IfErr};
    ghost use Rattle.base.specs.declared.fault.Fault.TheVariants.{OutOfMemory};
    ghost use Rattle.board.specs.Openings.{opening};
    ghost use Rattle.board.specs.Shown.{whole};
    ghost use Rattle.engine.specs.Keeping.{KeepsSixteen};
    ghost use Rattle.engine.specs.Posting.{Posts};

    /// Publishes the rows alone, and makes readers that have seen them: eight, or fewer.
    pub(crate) fn open(
        rt: R,
        alloc: Global,
        history: History,
        coverage: Coverage,
        rows: &[(Key, Row)],
    ) -> Result<(Board<J, R>, Vec<Reader<J>>), Fault>
        requires name { history ≡ J.book }
        ensures board { IfOk result (λ opened. opened.0 ≡ record { list = opening coverage rows.now; waits = [] }) }
        ensures fault { IfErr result (λ fault. fault ≡ OutOfMemory) }
    {
        match board::Board::open(rt, alloc, history, coverage, rows, 8) {
            Ok((board, readers)) => Ok((Board::new(board), readers)),
            Err(fault) => Err(fault),
        }
    }

    // A board that was just opened.
    fn new(board: board::Board<J, R>) -> Board<J, R>
        requires waits { board.waits ≡ [] }
        requires floor { board.list.floor ≡ board.list.stamp }
        ensures { result ≡ board }
    {
        Board { board }
    }

    /// Publishes the batch, or what waits, and prunes then.
    pub(crate) fn post(&mut self, left: Option<Batch>) -> Posting
        ensures posts { Posts self.old self.new left result }
        ensures keeps { result ≡ Posting.Done → KeepsSixteen self.new.list }
    {
        publish_and_prune(&mut self.board, left)
    }

    /// Returns what is published.
    pub(crate) fn token(&self) -> Token<J>
        ensures { result ≡ self.now.list }
    {
        self.board.token()
    }

    /// Returns what is published once what waits is.
    pub(crate) fn announced(&self) -> Token<J>
        ensures { result ≡ whole self.now }
    {
        self.board.announced()
    }
}
