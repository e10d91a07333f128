//! The thread that covers a group ends the sessions of all its commits. What it knows of an end goes to the thread that waits.

ghost use Rattle.std.specs.Prelude.{◌≡◌, Some, None, IfSome};
ghost use Rattle.database.specs.Histories.{EndsOnly, EndsAfter, MadeSince};

use history::{Front, Origin};
use std::sync::Wait;

/// How a session ended: since its last step before, it made none but its end.
#[derive(Drop)]
pub struct Ending<J: Origin> {
    /// The session.
    pub session: u8,
    /// How long the history was after its last step before its end.
    pub at: u64,
    /// The history up to its end.
    pub front: Front<J>,
    ghost only: { EndsOnly session at front },
    ghost made: { MadeSince J.opened front },
}

/// The history up to the end of this session, of which this was the last step before. It waits forever if the end is another one's, which
/// doesn't happen.
pub fn end_after<J: Origin, R: Wait>(
    rt: &R,
    session: u8,
    drawn: Option<Front<J>>,
    ending: Option<Ending<J>>,
) -> Option<Front<J>>
    ensures { EndsAfter J.opened session drawn result }
{
    let Some(drawn) = drawn else {
        return None;
    };
    if let Some(ending) = ending {
        if ending.session == session && ending.at == drawn.len() && drawn.begins(&ending.front) {
            return Some(ending.front);
        }
    }
    for _ in rt.forever() {}
    unreachable!()
}
