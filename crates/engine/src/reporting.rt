//! It can't be known that the board under the lock is this engine's. What was published at the start is in the session, so a
//! token is the later of both.

use crate::keeping::Board;
use crate::origin::Origin;
use crate::session::Session;
use board::{Naming, Token};
use pmem::Pmem;
use std::sync::Wait;

impl<D: Pmem + Drop, J: Origin, R: Wait + Drop> Session<D, J, Board<J, R>> {
    ghost use Rattle.board.specs.Lists.{Begins};

    /// What is published now, which may not cover the session's last commit yet. Each call has a token of its own.
    pub fn token<W: Wait>(&self, rt: &W) -> Token<J>
        // It is a list that begins with what was published at the start.
        ensures { Begins self.now.published result }
    {
        let board = self.shared.board.lock(rt);
        newest(&board, &self.published)
    }
}

ghost use Rattle.board.specs.Lists.{Begins};

// What the board has published, and all that was known before.
fn newest<J: Naming, R: Wait + Drop>(board: &Board<J, R>, known: &Token<J>) -> Token<J>
    ensures board { Begins board.now.list result }
    ensures known { Begins known.now result }
{
    known.again().later(board.token())
}
