//! What lies under a lock beside the room: the history's book, what it has seen, and at which place each session's own last step is.

ghost use Rattle.std.specs.Prelude.{◌≡◌, ◌++◌, ◌∷◌, [], MatchBool, IfSome};
ghost use Rattle.std.specs.Bool.{OnTrue};
ghost use Rattle.machine.specs.Machine.{session_of};
ghost use Rattle.session_laws.specs.Logs.{Follows, IsQuietSince};

use crate::front::{Book, Front, History};
use crate::origin::Origin;
use base::step::Step;
use std::marker::Model;

/// A history that goes on. Contracts see it as its steps.
#[derive(Drop)]
pub struct Log<J: Origin> {
    book: Book<J>,
    front: Front<J>,
    // How long the history was after each session's own last step.
    last: [u64; 64],
}

impl<J: Origin> Model for Log<J> {
    ghost use Rattle.std.specs.Prelude.{List};
    ghost use Rattle.base.specs.declared.step.Step.{Step};
    ghost use Rattle.history.specs.Marks.{AreMarked};

    ghost Value = { List Step };

    ghost view = { λ l. l.front };

    ghost invariant = { λ l. AreMarked l.last l.front };
}

impl<J: Origin> Log<J> {
    /// A history with no step, under its name.
    pub fn new(history: History) -> Log<J>
        requires name { history ≡ J.book }
        ensures { result ≡ [] }
    {
        let (book, front) = history.named::<J>();
        Log {
            book,
            front,
            last: [0; 64],
        }
    }

    /// What it has seen so far.
    pub fn front(&self) -> Front<J>
        ensures { result ≡ self.now }
    {
        self.front.again()
    }

    /// Whether this is all that the session has done: the history goes on from there without a step of the session.
    pub fn is_quiet(&self, session: u8, seen: &Front<J>) -> bool
        ensures { OnTrue result (Follows session seen.now self.now) }
    {
        let at = usize::from(session);
        if at < 64 {
            let last = self.last[at];
            if last <= seen.len() {
                return seen.begins(&self.front);
            }
        }
        false
    }

    /// How long the history was after the session's last step, if that is kept: the session has made none since.
    pub fn last(&self, session: u8) -> Option<u64>
        ensures { IfSome result (λ at. IsQuietSince session at self.now) }
    {
        let at = usize::from(session);
        if at < 64 { Some(self.last[at]) } else { None }
    }

    /// Adds a step, and returns whether it did. It does, unless the history has grown past what it has seen, which doesn't happen.
    pub fn add(&mut self, step: &Step) -> bool
        ensures { MatchBool result (self.new ≡ self.old ++ step.now ∷ []) (self.new ≡ self.old) }
    {
        let Some(front) = self.front.then(&self.book, step) else {
            return false;
        };
        if let Some(session) = session_in(step) {
            let at = usize::from(session);
            if at < 64 {
                self.last[at] = front.len();
            }
        }
        self.front = front;
        true
    }
}

// The session whose step it is. A begin and a step of a worker are no session's.
fn session_in(step: &Step) -> Option<u8>
    ensures { result ≡ session_of step.now }
{
    match step {
        Step::Get { session, .. }
        | Step::Scan { session, .. }
        | Step::Put { session, .. }
        | Step::Delete { session, .. }
        | Step::Draw { session }
        | Step::Stamp { session }
        | Step::Poll { session }
        | Step::Abort { session }
        | Step::End { session } => Some(*session),
        Step::Begin | Step::Commit | Step::Collect => None,
    }
}
