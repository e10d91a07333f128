//! A token is a front and a few numbers, so it can be sent anywhere, and a reader that learns it waits for nobody.

use crate::coverage::Coverage;
use crate::history::{Front, Naming};
use base::Ts;
use std::marker::Model;

/// What was published when it was made. Contracts see it as that list.
#[derive(Drop)]
pub struct Token<J: Naming> {
    pub(crate) front: Front<J>,
    pub(crate) coverage: Coverage,
}

impl<J: Naming> Model for Token<J> {
    ghost use Rattle.base.specs.Published as lists;

    ghost Value = { lists.Published };

    ghost use Rattle.std.specs.Prelude.{◌≡◌};
    ghost use Rattle.board.specs.Changes.{list_of};
    ghost use Rattle.board.specs.Lists.{last_coverage};

    ghost view = { λ t. list_of t.front };

    ghost invariant = { λ t. t.coverage ≡ last_coverage (list_of t.front) };
}

impl<J: Naming> Token<J> {
    ghost use Rattle.std.specs.Prelude.{◌≡◌, ◌≤◌, ◌⊎◌, ◌↔◌, IsTrue, MatchBool, false};
    ghost use Rattle.base.specs.Published.{last_stamp};
    ghost use Rattle.board.specs.Lists.{Begins, IsLater, has_commit, is_among, last_persisted, last_longs};

    /// The last stamp that was published.
    pub fn stamp(&self) -> u64
        ensures { result ≡ last_stamp self.now }
    {
        self.coverage.stamp
    }

    /// Whether the commit is covered.
    pub fn covers(&self, timestamp: Ts) -> bool
        // Exactly whether the timestamp is at most the last that is persisted and isn't one of the long commits then.
        ensures persisted { IsTrue result ↔ ((timestamp ≤ last_persisted self.now) × (is_among (last_longs self.now) timestamp ≡ false)) }

        // Of a timestamp above what the list began with, or among the long commits then, that is exactly whether a published
        // batch holds the commit.
        ensures later { IsLater self.now timestamp → IsTrue result ↔ IsTrue (has_commit self.now timestamp) }
    {
        self.front.is_published();
        timestamp <= self.coverage.persisted && !self.coverage.longs.contains(timestamp)
    }

    /// Another token of the same list.
    pub fn again(&self) -> Token<J>
        ensures { result ≡ self.now }
    {
        Token {
            front: self.front.again(),
            coverage: self.coverage,
        }
    }

    /// Whether the other one's list begins with this one's. If not, this one's begins with the other's.
    pub fn begins(&self, other: &Token<J>) -> bool
        ensures { MatchBool result (Begins self.now other.now) (Begins other.now self.now) }
    {
        self.front.begins(&other.front)
    }

    /// The later of the two.
    #[tactic(auto, using(crate::proofs::Rules::begins_self))]
    pub fn later(self, other: Token<J>) -> Token<J>
        // One of the two, whose list begins with both.
        ensures begins { Begins self result × Begins other result }
        ensures one { (result ≡ self) ⊎ (result ≡ other) }
    {
        if self.begins(&other) { other } else { self }
    }
}
