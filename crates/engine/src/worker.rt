//! A worker makes one step each time that it takes the lock, so sessions make steps between any two operations of a cycle. What
//! a tick covers is published before the next tick, so batches come to the board in their order.

use crate::gate::{Gate, Go};
use crate::keeping::Board;
use crate::origin::Origin;
use crate::posting::post;
use crate::shared::Shared;
use audited::Receipt;
use base::fault::Fault;
use base::step::{Note, Reply, Step};
use board::{Naming, Token};
use pmem::Pmem;
use roles::Duty;
use std::alloc::Global;
use std::sync::{Arc, Wait};
use std::thread;
use std::thread::{JoinHandle, Threads};

/// Why a turn has no note.
#[derive(Clone, Copy)]
pub enum Missed {
    /// There was no memory for its tick.
    Memory,
    /// The engine is being closed, or what was covered can't be published.
    Over,
}

/// What a turn came to.
#[derive(Drop)]
pub struct Turn<J: Naming> {
    /// Of its tick.
    pub note: Note,
    /// If the tick covered a batch: what is published since.
    pub published: Option<Token<J>>,
}

ghost use Rattle.std.specs.Prelude.{◌≡◌, ◌⊎◌, IfSome, IfOk, IfErr, MatchResult};
ghost use Rattle.std.specs.Option.{ForSome};
ghost use Rattle.base.specs.declared.fault.Fault.TheVariants.{OutOfMemory, NoThread};
ghost use Rattle.base.specs.declared.step.Step.TheVariants.{Commit, Collect};
ghost use Rattle.roles.specs.declared.workers.Duty.TheVariants.{Commit as OfCommitter, Collect as OfCollector};
ghost use Rattle.base.specs.Replies.{note_of};
ghost use Rattle.engine.specs.Posting.{IsPosted, IsTurn, IsTurnOf, Misses};

/// Starts a worker that has this duty.
pub fn spawn_worker<
    R: Threads + Wait + Copy + Drop + Send + 'static,
    D: Pmem + Drop + Send + Sync + 'static,
    J: Origin + Send + Sync + 'static,
    G: Gate + Send + Drop + 'static,
>(
    rt: &R,
    shared: &Arc<Shared<D, J, Board<J, R>>, Global>,
    duty: Duty,
    before: Note,
    gate: G,
) -> Result<JoinHandle<()>, Fault>
    ensures { IfErr result (λ fault. (fault ≡ OutOfMemory) ⊎ (fault ≡ NoThread)) }
{
    let Ok(own) = Arc::try_clone(shared) else {
        return Err(Fault::OutOfMemory);
    };
    let handle = *rt;
    match thread::spawn(rt, move || {
        drop(work(&handle, &own, duty, before, gate))
    }) {
        Ok(worker) => Ok(worker),
        Err(_) => Err(Fault::NoThread),
    }
}

// Makes its step if that is due, and sleeps if it isn't, until the gate says so, a step is refused or the engine is being
// closed. Without memory for a step it rests, and tries again. What a tick covers is published before the next one. `before` is
// what the gate is shown before the first.
fn work<R: Wait + Drop, D: Pmem + Drop, J: Origin, G: Gate>(
    rt: &R,
    shared: &Arc<Shared<D, J, Board<J, R>>, Global>,
    duty: Duty,
    before: Note,
    mut gate: G,
) -> G {
    let mut last = before;
    let mut refusals = 0u64;
    for _ in rt.forever() {
        if !shared.wait_for_turn(rt, duty) {
            break;
        }
        if matches!(gate.pass(&last), Go::Stop) {
            break;
        }
        match take_turn(rt, shared, &step_of(duty)) {
            Ok(made) => {
                last = made.note;
                refusals = 0;
            }
            Err(Missed::Memory) => {
                refusals = refusals.saturating_add(1);
                shared.rest(rt, duty, refusals);
            }
            Err(Missed::Over) => break,
        }
        if matches!(last, Note::Refused(_)) {
            break;
        }
    }
    gate
}

// The step that a worker makes.
fn step_of(duty: Duty) -> Step
    ensures commit { (duty ≡ OfCommitter) → result ≡ Commit }
    ensures collect { (duty ≡ OfCollector) → result ≡ Collect }
{
    match duty {
        Duty::Commit => Step::Commit,
        Duty::Collect => Step::Collect,
    }
}

// A tick. What it covered is published then.
fn take_turn<R: Wait + Drop, D: Pmem + Drop, J: Origin>(
    rt: &R,
    shared: &Arc<Shared<D, J, Board<J, R>>, Global>,
    step: &Step,
) -> Result<Turn<J>, Missed>
    // If a worker's tick covered a batch, it is the one that a run from the lent image covered last. A list that has it and ends
    // at its stamp was published before the next tick.
    ensures { IfOk result (λ turn. IsPosted J.image turn.note turn.published) }
{
    let made = tick(rt, shared, step);
    finish_turn(rt, shared, made)
}

// Publishes what a tick covered, if it covered a batch.
fn finish_turn<R: Wait + Drop, D: Pmem + Drop, J: Origin>(
    rt: &R,
    shared: &Arc<Shared<D, J, Board<J, R>>, Global>,
    made: Option<(Reply, Option<Receipt>)>,
) -> Result<Turn<J>, Missed>
    requires { ForSome made (IsTurn J.image) }

    // As for `take_turn`.
    ensures posted { IfOk result (λ turn. IsPosted J.image turn.note turn.published) }

    // A turn has the note of its step. It has none if the step wasn't kept, for lack of memory, or none was made, or the batch
    // that it covered can't be published. Then the worker ends.
    ensures why { MatchResult result (λ turn. IsTurnOf made turn.note) (Misses made) }
{
    let Some((reply, receipt)) = made else {
        return Err(Missed::Over);
    };
    let Some(receipt) = receipt else {
        return Err(Missed::Memory);
    };
    match reply {
        Reply::Covered(batch) => match post(rt, shared, batch) {
            Some(published) => Ok(Turn {
                note: receipt.note,
                published: Some(published),
            }),
            None => Err(Missed::Over),
        },
        _ => Ok(Turn {
            note: receipt.note,
            published: None,
        }),
    }
}

// One tick, unless the engine is being closed. Without memory it has no receipt.
fn tick<R: Wait, D: Pmem + Drop, J: Origin, B: Drop>(
    rt: &R,
    shared: &Arc<Shared<D, J, B>, Global>,
    step: &Step,
) -> Option<(Reply, Option<Receipt>)>
    // The receipt is that of the step asked, with its reply's note. A batch that it covered is one that a run from the lent image
    // covered last.
    ensures made { IfSome result (λ made. IfSome made.1 (λ receipt. (receipt.step ≡ step.now) × (receipt.note ≡ note_of made.0))) }
    ensures turn { ForSome result (IsTurn J.image) }
{
    let mut locked = shared.locked.lock(rt);
    let made = locked.tick(step);
    if let Some((reply, _)) = &made {
        shared.notify(&mut locked, reply);
    }
    made
}
