//! A reader keeps the front of all that it has seen, and compares lengths to know that what it sees goes on from there.

use crate::history::{Front, Naming};
use crate::shelf::Shelf;
use crate::token::Token;
use base::fault::Fault;
use base::key::Key;
use base::row::Row;
use left_right::ReadHandle;
use std::marker::Model;

/// Reads what is published, and waits for nobody. Contracts see it as the list that it has seen or learnt.
#[derive(Drop)]
pub struct Reader<J: Naming> {
    pub(crate) handle: ReadHandle<Shelf<J>>,
    pub(crate) front: Front<J>,
}

impl<J: Naming> Model for Reader<J> {
    ghost use Rattle.base.specs.Published as lists;

    ghost Value = { lists.Published };

    ghost use Rattle.board.specs.Changes.{list_of};

    ghost view = { λ r. list_of r.front };
}

impl<J: Naming> Reader<J> {
    ghost use Rattle.std.specs.Prelude.{◌≡◌, ◌⊎◌};
    ghost use Rattle.board.specs.Views.{Saw, SawNothing, answer, bounds};
    ghost use Rattle.board.specs.Lists.{Begins};

    /// The lowest and the last stamp that may be read.
    pub fn at(&mut self) -> Result<(u64, u64), Fault>
        // These are of a published list that extends all that the reader has seen or learnt. Or it is Shut, and the reader is as
        // before.
        ensures { Saw self.old self.new result bounds ⊎ SawNothing self.old self.new result }
    {
        let Some(guard) = self.handle.enter() else {
            return Err(Fault::Shut);
        };
        let shelf: &Shelf<J> = &*guard;
        if !see(&mut self.front, shelf) {
            return Err(Fault::Shut);
        }
        Ok((shelf.floor(), shelf.last()))
    }

    /// The row of the key after the batches up to the stamp.
    pub fn read(&mut self, stamp: u64, key: Key) -> Result<Option<Row>, Fault>
        // It is by a published list that extends all that the reader has seen or learnt: TooOld exactly below its floor, NotYet
        // exactly above its last stamp. Or it is Shut, and the reader is as before.
        ensures { Saw self.old self.new result (λ list. answer list stamp key) ⊎ SawNothing self.old self.new result }
    {
        let Some(guard) = self.handle.enter() else {
            return Err(Fault::Shut);
        };
        let shelf: &Shelf<J> = &*guard;
        if !see(&mut self.front, shelf) {
            return Err(Fault::Shut);
        }
        shelf.read(stamp, &key)
    }

    /// Takes in what was published when the token was made, and uses the token up. From now on it sees no less.
    #[tactic(auto, using(crate::proofs::Rules::begins_self))]
    pub fn learn(&mut self, token: Token<J>)
        // What the reader knows then extends both what it knew and the token, and is one of the two.
        ensures known { Begins self.old self.new }
        ensures learnt { Begins token self.new }
        ensures one { (self.new ≡ self.old) ⊎ (self.new ≡ token) }
    {
        self.front.is_published();
        token.front.is_published();
        if self.front.begins(&token.front) {
            self.front = token.front;
        }
    }
}

ghost use Rattle.std.specs.Prelude.{◌≡◌, MatchBool};
ghost use Rattle.board.specs.Changes.{list_of};
ghost use Rattle.board.specs.Lists.{IsPublished, Begins};

// Moves on to what the shelf shows, if that goes on from what was seen.
fn see<J: Naming>(front: &mut Front<J>, shelf: &Shelf<J>) -> bool
    ensures { MatchBool result ((front.new ≡ shelf.now) × IsPublished (list_of shelf.now) × Begins (list_of front.old) (list_of shelf.now)) (front.new ≡ front.old) }
{
    if !front.begins(shelf.front()) {
        return false;
    }
    *front = shelf.front().again();
    front.is_published();
    true
}
