//! The room's lock is held while the workers are started. They then find the room there, or that the engine is being closed.
//! So a start that fails can return the room as it was.

use crate::closing::{may_close, take_room};
use crate::gate::Gate;
use crate::keeping::Board;
use crate::opening::board_of;
use crate::origin::Origin;
use crate::session::Session;
use crate::shared::Shared;
use crate::worker::spawn_worker;
use audited::Audited;
use base::fault::Fault;
use base::step::Note;
use board::{History, Reader, Token};
use pmem::Pmem;
use roles::Duty;
use room::Status;
use std::alloc::Global;
use std::sync::{Arc, Mutex, Wait};
use std::thread::{JoinHandle, Threads};

/// A room under a lock, with a worker for its committer and one for its collector, and a board of what is covered.
#[derive(Drop)]
pub struct Engine<D: Pmem, J: Origin, B: Drop> {
    alloc: Global,
    shared: Arc<Shared<D, J, B>, Global>,
    readers: Mutex<Vec<Reader<J>>>,
    // What was published at the start.
    published: Token<J>,
    opening: Status,
    first: u64,
    workers: Option<Workers>,
}

// The threads of the committer and of the collector.
#[derive(Drop)]
struct Workers {
    committer: JoinHandle<()>,
    collector: JoinHandle<()>,
}

impl<
    D: Pmem + Drop + Send + Sync + 'static,
    J: Origin + Send + Sync + 'static,
    R: Threads + Wait + Copy + Drop + Send + 'static,
> Engine<D, J, Board<J, R>> {
    ghost use Rattle.std.specs.Prelude.{◌≡◌, ◌⊎◌, IfOk, IfErr, length};
    ghost use Rattle.base.specs.declared.fault.Fault.TheVariants.{OutOfMemory, NoThread};
    ghost use Rattle.machine.specs.Machine.{State};
    ghost use Rattle.room.specs.Room.{Shows};
    ghost use Rattle.engine.specs.Started.{IsStartedOn};
    ghost use Rattle.engine.specs.Origins.{IsFrom};

    /// Publishes the room's tables, and starts the committer and the collector, each with its gate.
    pub fn start<G: Gate + Send + Drop + 'static, H: Gate + Send + Drop + 'static>(
        rt: &R,
        alloc: Global,
        history: History,
        audited: Audited<D>,
        committer: G,
        collector: H,
    ) -> Result<Engine<D, J, Board<J, R>>, (Fault, Audited<D>)>
        // The board's history is the one that the engine's type names.
        requires name { history ≡ J.book }

        // The history of the room that is lent is a run from the image that the engine's type names, as `Audited::open` ensures
        // for the image of its device.
        requires from { IsFrom D.state J.image audited }

        // `opening()` and the length of the history are those of the room that is lent.
        ensures opening { IfOk result (λ engine. engine.opening ≡ audited.opening) }
        ensures first { IfOk result (λ engine. engine.first ≡ length audited.entries.items) }

        // For every state that the room shows its tables are published, at the stamp of its ruling record (`IsStartedOn`).
        ensures published { IfOk result (λ engine. (q : State) → Shows D.state audited.room q → IsStartedOn q engine.published) }

        // OutOfMemory or NoThread, and the room comes back as it was.
        ensures fault { IfErr result (λ e. (e.0 ≡ OutOfMemory) ⊎ (e.0 ≡ NoThread)) }
        ensures back { IfErr result (λ e. e.1 ≡ audited) }
    {
        let opening = audited.opening();
        let first = audited.history().len() as u64;
        let Ok((board, readers)) = board_of(*rt, alloc, history, &audited) else {
            return Err((Fault::OutOfMemory, audited));
        };
        let published = board.token();
        let Ok(shared) = Arc::new(alloc, Shared::new(board)) else {
            return Err((Fault::OutOfMemory, audited));
        };

        // The workers wait for the lock until the room is put in.
        let mut locked = shared.locked.lock(rt);
        let committer = match spawn_worker(rt, &shared, Duty::Commit, Note::Idle, committer) {
            Ok(committer) => committer,
            Err(fault) => return Err((fault, audited)),
        };
        let collector = match spawn_worker(rt, &shared, Duty::Collect, Note::SweepEnd, collector) {
            Ok(collector) => collector,
            Err(fault) => {
                locked.workers.close();
                drop(locked);
                committer.join(rt);
                return Err((fault, audited));
            }
        };
        locked.lend(audited);
        drop(locked);
        Ok(Engine {
            alloc,
            shared,
            readers: Mutex::new(readers),
            published,
            opening,
            first,
            workers: Some(Workers {
                committer,
                collector,
            }),
        })
    }
}

impl<D: Pmem + Drop, J: Origin, B: Drop> Engine<D, J, B> {
    ghost use Rattle.std.specs.Prelude.{◌≡◌, [], None, IfOk, IfErr, IfSome};
    ghost use Rattle.base.specs.declared.fault.Fault.TheVariants.{OutOfMemory, WrongState, ReadersOut};
    ghost use Rattle.engine.specs.Origins.{IsFrom};
    ghost use Rattle.board.specs.Lists.{Begins};
    ghost use Rattle.engine.specs.declared.phase.Phase.TheVariants.{Idle};
    ghost use Rattle.engine.specs.Agreement.{Agrees, AreTold, IsReturned, receipts_in};

    /// A session, for one thread.
    pub fn session<R: Wait>(&self, rt: &R) -> Result<Session<D, J, B>, Fault>
        // It has no receipt and no transaction, and it knows what was published at the start.
        ensures empty { IfOk result (λ session. session.receipts.items ≡ []) }
        ensures phase { IfOk result (λ session. session.phase ≡ Idle) }
        ensures told { IfOk result (λ session. session.told ≡ None) }
        ensures published { IfOk result (λ session. session.published ≡ self.now.published) }

        // It is refused only for lack of memory.
        ensures memory { IfErr result (λ fault. fault ≡ OutOfMemory) }
    {
        let Ok(shared) = Arc::try_clone(&self.shared) else {
            return Err(Fault::OutOfMemory);
        };
        let mut locked = self.shared.locked.lock(rt);
        if let Err(fault) = locked.hand_out() {
            return Err(fault);
        }
        drop(locked);
        Ok(Session::new(self.alloc, shared, self.published.again()))
    }

    /// A reader, for one thread. There are eight at most.
    pub fn reader<R: Wait>(&self, rt: &R) -> Result<Reader<J>, Fault>
        // It has learnt what was published at the start.
        ensures published { IfOk result (λ reader. Begins self.now.published reader) }

        // It is refused only with ReadersOut.
        ensures fault { IfErr result (λ fault. fault ≡ ReadersOut) }
    {
        let mut readers = self.readers.lock(rt);
        match readers.pop() {
            Some(reader) => {
                let mut reader = reader;
                reader.learn(self.published.again());
                Ok(reader)
            }
            None => Err(Fault::ReadersOut),
        }
    }

    /// Joins the workers and returns the room. An engine that is returned after the workers were joined has none.
    pub fn close<R: Threads + Wait>(
        mut self,
        rt: &R,
        sessions: Vec<Session<D, J, B>>,
    ) -> Result<Audited<D>, (Fault, Engine<D, J, B>, Vec<Session<D, J, B>>)>
        // At Ok the room has the opening of the one that was lent.
        ensures opening { IfOk result (λ audited. audited.opening ≡ self.opening) }

        // Each receipt of the sessions is the history's entry at its place, from `first()` on, and each session step from there
        // on has exactly one receipt.
        ensures agrees { IfOk result (λ audited. Agrees audited.entries.items self.first (receipts_in sessions.items)) }

        // Each tick of the committer that a session was told of is in the history, where the session says, and was refused with
        // the fault that the session was told.
        ensures told { IfOk result (λ audited. AreTold audited.entries.items self.first sessions.items) }

        // At Ok the room's history is a run from the image from which the room was opened that was lent.
        ensures from { IfOk result (IsFrom D.state J.image) }

        // WrongState, if a session that was handed out is missing, or if the room isn't the one that was lent. The sessions come
        // back, and an engine of the same numbers, which knows the same, shares with them what it shared, and has the readers
        // that it had.
        ensures fault { IfErr result (λ e. e.0 ≡ WrongState) }
        ensures back { IfErr result (λ e. (e.1.opening ≡ self.opening) × (e.1.first ≡ self.first) × (e.1.published ≡ self.published) × (e.1.shared ≡ self.shared) × (e.1.readers ≡ self.readers) × (e.2.items ≡ sessions.items)) }
    {
        let count = sessions.len() as u64;
        if !may_close(&mut self.shared.locked.lock(rt), count) {
            return Err((Fault::WrongState, self, sessions));
        }
        self.shared.wake();
        if let Some(workers) = self.workers.take() {
            workers.committer.join(rt);
            workers.collector.join(rt);
        }
        match self.take_back(rt, sessions.as_slice()) {
            Some(audited) => Ok(audited),
            None => Err((Fault::WrongState, self, sessions)),
        }
    }

    // Takes the room out, if it was opened with these numbers and agrees with the sessions.
    fn take_back<R: Wait>(&self, rt: &R, sessions: &[Session<D, J, B>]) -> Option<Audited<D>>
        ensures returned { IfSome result (IsReturned self.now.opening self.now.first sessions.now) }
        ensures from { IfSome result (IsFrom D.state J.image) }
    {
        let mut locked = self.shared.locked.lock(rt);
        take_room(&mut locked, &self.opening, self.first, sessions)
    }

    /// The numbers that the lent room was opened with.
    pub fn opening(&self) -> Status
        ensures { result ≡ self.now.opening }
    {
        self.opening
    }

    /// How many steps the lent room had made.
    pub fn first(&self) -> u64
        ensures { result ≡ self.now.first }
    {
        self.first
    }
}
