//! What a transaction knows of the history.

ghost use Rattle.std.specs.Prelude.{◌≡◌};
ghost use Rattle.database.specs.Histories.{traced};

use history::{Front, Origin};
use std::marker::Model;

/// The history up to a transaction's begin, and up to its own last step. Contracts see the two logs.
#[derive(Drop)]
pub struct Trace<J: Origin> {
    pub begun: Front<J>,
    pub seen: Front<J>,
}

impl<J: Origin> Model for Trace<J> {
    ghost use Rattle.database.specs.Histories.{Known};

    ghost Value = { Known };

    ghost view = { λ t. record { begun = t.begun; seen = t.seen } };
}

impl<J: Origin> Trace<J> {
    /// Of a transaction that has just begun.
    pub fn of(begun: Option<Front<J>>) -> Option<Trace<J>>
        ensures { result ≡ traced begun }
    {
        match begun {
            Some(begun) => Some(Trace {
                seen: begun.again(),
                begun,
            }),
            None => None,
        }
    }
}
