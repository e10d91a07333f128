//! What ended a thread is kept with its session, since no clause says what one thread left under a lock.

use base::fault::Fault;
use engine::{Origin, Session};
use pmem::Pmem;

/// One thread's work: its session, and the fault that ended it before all its commits were made.
#[derive(Drop)]
pub struct Task<D: Pmem, J: Origin, B: Drop> {
    pub session: Session<D, J, B>,
    pub fault: Option<Fault>,
}

impl<D: Pmem + Drop, J: Origin, B: Drop> Task<D, J, B> {
    ghost use Rattle.std.specs.Prelude.{◌≡◌};

    /// Nothing is made yet.
    pub fn new(session: Session<D, J, B>) -> Task<D, J, B>
        ensures session { result.session ≡ session }
    {
        Task {
            session,
            fault: None,
        }
    }
}

ghost use Rattle.std.specs.Prelude.{◌≡◌, ◌≤◌, [], Some, None, All, IfSome, IfNone, vec_len};
ghost use Rattle.std.specs.List.{Any};
ghost use Rattle.std.specs.Vec.{vec_capacity};
ghost use Rattle.workload.specs.Tasks.{sessions_in};

/// The fault of the first thread that was ended by one.
pub fn first_fault<D: Pmem + Drop, J: Origin, B: Drop>(tasks: &[Task<D, J, B>]) -> Option<Fault>
    ensures some { IfSome result (λ fault. Any (λ task. task.fault ≡ Some fault) tasks.now) }
    ensures none { IfNone result (All (λ task. task.fault ≡ None) tasks.now) }
{
    for task in tasks {
        match task.fault {
            Some(fault) => return Some(fault),
            None => {}
        }
    }
    None
}

/// The sessions, in the vector that has room for them.
pub fn into_sessions<D: Pmem + Drop, J: Origin, B: Drop>(
    tasks: Vec<Task<D, J, B>>,
    mut sessions: Vec<Session<D, J, B>>,
) -> Vec<Session<D, J, B>>
    requires empty { sessions.items ≡ [] }
    requires room { vec_len tasks ≤ vec_capacity sessions }
    ensures { result.items ≡ sessions_in tasks.items }
{
    for task in tasks {
        let Task { session, fault: _ } = task;
        sessions.push_reserved(session);
    }
    sessions
}
