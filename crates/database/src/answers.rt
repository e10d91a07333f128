//! Replies to waiting commits, under a lock of their own. The thread that covers a group leaves each reply in a place here and ends
//! the session. A thread that is woken then needs no turn of the database's lock: one call wakes all of them, and they don't queue up
//! for that lock.

ghost use Rattle.std.specs.Prelude.{◌<◌, IfSome, IfNone};
ghost use Rattle.std.specs.Result.{ForOk, ForErr};
ghost use Rattle.database.specs.Committing.{IsAcknowledged, GivesUp, IsAnswered, IsAnsweredAt, AnswersTo, AnswersAnother};

use crate::ending::Ending;
use crate::error::CommitError;
use base::Ts;
use history::Origin;
use std::alloc::{AllocError, Global};

/// What became of a commit of this session.
#[derive(Clone, Copy, Drop)]
pub struct Answer {
    session: u8,
    result: Result<Ts, CommitError>,
    ghost acknowledged: { ForOk result (IsAcknowledged session) },
    ghost why: { ForErr result (GivesUp session) },
}

// A place for an answer.
#[derive(Clone, Copy, Drop)]
enum Place {
    Free,
    /// Somebody waits for an answer here.
    Awaited,
    /// The reply, which nobody has taken yet.
    Answered(Answer),
}

/// What became of commits that threads wait for.
#[derive(Drop)]
pub struct Answers<J: Origin> {
    places: [Place; 64],
    // At each place how the session ended, if its commit was acknowledged and its history is kept.
    endings: Vec<Option<Ending<J>>>,
}

impl<J: Origin> Answers<J> {
    pub fn new(alloc: Global) -> Result<Answers<J>, AllocError> {
        let mut endings = Vec::with_capacity(alloc, 64)?;
        for _place in 0..64 {
            endings.push(None)?;
        }
        Ok(Answers {
            places: [Place::Free; 64],
            endings,
        })
    }

    /// A place for an answer, if one is free.
    pub fn reserve(&mut self) -> Option<usize> {
        for place in 0..64 {
            if matches!(self.places[place], Place::Free) {
                self.places[place] = Place::Awaited;
                return Some(place);
            }
        }
        None
    }

    /// Leaves the answer to this session's commit there, and how the session ended.
    pub fn put(
        &mut self,
        place: usize,
        session: u8,
        answer: Result<Ts, CommitError>,
        ending: Option<Ending<J>>,
    )
        requires { IsAnswered session answer }
    {
        if let Some(last) = self.endings.get_mut(place % 64) {
            *last = ending;
        }
        self.places[place % 64] = Place::Answered(Answer {
            session,
            result: answer,
        });
    }

    /// Takes the answer to this session's commit with this timestamp from there, if it came.
    pub fn take(
        &mut self,
        place: usize,
        session: u8,
        timestamp: Ts,
    ) -> Option<Result<(), CommitError>>
        ensures { IfSome result (IsAnsweredAt session timestamp) }
    {
        let Place::Answered(answer) = self.places[place % 64] else {
            return None;
        };
        if answer.session != session {
            return None;
        }
        self.places[place % 64] = Place::Free;
        answer_to(timestamp, answer.result)
    }

    /// Takes how the session ended whose answer was taken from there.
    pub fn take_ending(&mut self, place: usize) -> Option<Ending<J>> {
        match self.endings.get_mut(place % 64) {
            Some(last) => last.take(),
            None => None,
        }
    }
}

/// What a reply says about the commit with this timestamp. `None` if it is another commit's, which doesn't happen: a session has one
/// commit at a time.
pub fn answer_to(timestamp: Ts, answer: Result<Ts, CommitError>) -> Option<Result<(), CommitError>>
    ensures some { IfSome result (AnswersTo timestamp answer) }
    ensures none { IfNone result (AnswersAnother timestamp answer) }
{
    match answer {
        Ok(reported) => if reported == timestamp {
            Some(Ok(()))
        } else {
            None
        },
        Err(error) => Some(Err(error)),
    }
}
