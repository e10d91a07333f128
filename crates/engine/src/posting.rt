//! A batch that is covered has to be published even if memory is lacking, since the next one wouldn't go on from the list. So
//! the committer tries again before its next tick. In between the lock is free, so what waits on the board is known by what was
//! announced there.

use crate::keeping::Board;
use crate::origin::Origin;
use crate::shared::Shared;
use base::batch::Batch;
use base::fault::Fault;
use board::{Naming, Token};
use pmem::Pmem;
use roles::Duty;
use std::alloc::Global;
use std::sync::{Arc, Wait};

/// What a try to publish a batch came to.
#[derive(Drop)]
pub enum Posting {
    Done,
    /// For lack of memory it is to be tried again. With `None` it waits on the board.
    Again(Option<Batch>),
    /// It doesn't go on from what was published.
    Unfit,
}

/// What is still to be published.
#[derive(Drop)]
pub enum Left<J: Naming> {
    OfBatch(Batch),
    /// The batch waits on the board: what is published once it is.
    Announced(Token<J>),
}

ghost use Rattle.std.specs.Prelude.{◌≡◌, ◌⊎◌, ◌≤◌, ◌<◌, ◌+◌, ◌-◌, IfSome, IfOk, IfErr, OnOk, MatchOption, MatchResult, Ok, Some, None};
ghost use Rattle.base.specs.declared.fault.Fault.TheVariants.{OutOfMemory};
ghost use Rattle.base.specs.Batches.{Batch as BatchOf};
ghost use Rattle.base.specs.Published.{last_stamp};
ghost use Rattle.board.specs.declared.change.Change.TheVariants.{Raise};
ghost use Rattle.board.specs.Lists.{Begins, Fits};
ghost use Rattle.board.specs.Shown.{whole, shown, waiting};
ghost use Rattle.engine.specs.Keeping.{KeepsSixteen};
ghost use Rattle.engine.specs.Posting.{EndsIn, IsLeftOf, Posts, Tries, batch_of, posted};

/// Publishes the batch, and keeps sixteen stamps readable. For lack of memory it rests and tries again, until the engine is
/// being closed. `None` then, and if the batch doesn't go on from what was published.
pub fn post<R: Wait + Drop, D: Pmem + Drop, J: Origin>(
    rt: &R,
    shared: &Arc<Shared<D, J, Board<J, R>>, Global>,
    batch: Batch,
) -> Option<Token<J>>
    // What is published has the batch and ends at its stamp. Exactly its last sixteen stamps may be read, or all if there are fewer.
    ensures { IfSome result (λ list. EndsIn list batch × KeepsSixteen list) }
{
    let mut refusals = 0u64;
    let mut left = Left::OfBatch(batch);
    for _ in rt.forever() {
        let mut board = shared.board.lock(rt);
        match post_left(&mut board, left) {
            Ok(published) => return Some(published),
            Err(rest) => match rest {
                Some(rest) => left = rest,
                None => return None,
            },
        }
        drop(board);
        if shared.is_closing(rt) {
            return None;
        }
        refusals = refusals.saturating_add(1);
        shared.count_refusal(rt);
        shared.rest(rt, Duty::Commit, refusals);
    }
    unreachable!()
}

// Publishes what is left, and returns what is published then. For lack of memory something is left again; `None` if it can't be
// published.
fn post_left<R: Wait + Drop, J: Naming>(
    board: &mut Board<J, R>,
    left: Left<J>,
) -> Result<Token<J>, Option<Left<J>>>
    // One try, after which what is published has the batch and ends at its stamp. Exactly the last sixteen stamps may be read then, or
    // all if there are fewer (`posted`). Otherwise the try leaves the batch, or a list that waits on the board and ends in it. A batch
    // comes to nothing exactly if it may not come next (`Fits`), and then the board is as before.
    ensures published { IfOk result (λ list. list ≡ board.new.list) }
    ensures board { OnOk result (board.new ≡ posted board.old (batch_of left)) }
    ensures left { (batch : BatchOf) → IsLeftOf batch left → MatchResult result (λ list. EndsIn list batch × KeepsSixteen list) (λ rest. IfSome rest (IsLeftOf batch)) }
{
    match left {
        Left::OfBatch(batch) => post_batch(board, batch),
        Left::Announced(due) => post_announced(board, due),
    }
}

// Publishes the batch. `None` is left exactly if it may not come next.
fn post_batch<R: Wait + Drop, J: Naming>(
    board: &mut Board<J, R>,
    batch: Batch,
) -> Result<Token<J>, Option<Left<J>>>
    // One try, after which what is published has the batch and ends at its stamp. Exactly the last sixteen stamps may be read then, or
    // all if there are fewer (`posted`). Otherwise the try leaves the batch, or a list that waits on the board and ends in it. A batch
    // comes to nothing exactly if it may not come next (`Fits`), and then the board is as before.
    ensures published { IfOk result (λ list. (list ≡ board.new.list) × EndsIn list batch × KeepsSixteen list) }
    ensures board { OnOk result (board.new ≡ posted board.old (Some batch)) }
    ensures left { IfErr result (λ rest. MatchOption rest ((Fits (whole board.old) batch → ⊥) × (board.new ≡ board.old)) (IsLeftOf batch)) }
{
    match board.post(Some(batch)) {
        Posting::Done => Ok(board.token()),
        Posting::Again(rest) => match rest {
            Some(batch) => Err(Some(Left::OfBatch(batch))),
            None => Err(Some(Left::Announced(board.announced()))),
        },
        Posting::Unfit => Err(None),
    }
}

// Publishes what waits, if that is what was announced.
fn post_announced<R: Wait + Drop, J: Naming>(
    board: &mut Board<J, R>,
    due: Token<J>,
) -> Result<Token<J>, Option<Left<J>>>
    // One try, after which what is published has the batch and ends at its stamp. Exactly the last sixteen stamps may be read then, or
    // all if there are fewer (`posted`). Otherwise the try leaves the batch, or a list that waits on the board and ends in it. A batch
    // comes to nothing exactly if it may not come next (`Fits`), and then the board is as before.
    ensures published { IfOk result (λ list. (list ≡ board.new.list) × Begins due list × (last_stamp list ≡ last_stamp due) × KeepsSixteen list) }
    ensures board { OnOk result (board.new ≡ posted board.old None) }
    ensures left { IfErr result (λ rest. IfSome rest (λ left. (batch : BatchOf) → EndsIn due batch → IsLeftOf batch left)) }
{
    match board.post(None) {
        Posting::Done => {
            let published = board.token();
            if due.begins(&published) && published.stamp() == due.stamp() {
                Ok(published)
            } else {
                Err(None)
            }
        }
        Posting::Again(_) => Err(Some(Left::Announced(due))),
        Posting::Unfit => Err(None),
    }
}

/// Publishes the batch, or what waits, and prunes then.
pub fn publish_and_prune<R: Wait + Drop, J: Naming>(
    board: &mut board::Board<J, R>,
    left: Option<Batch>,
) -> Posting
    // The batch is published exactly if it may come next. If memory is lacking, it comes back and the board is as before, or it
    // waits there. Sixteen stamps stay readable.
    ensures { Posts board.old board.new left result }
{
    match publish(board, left) {
        Posting::Done => match prune(board) {
            Ok(()) => Posting::Done,
            Err(_) => Posting::Again(None),
        },
        Posting::Again(rest) => Posting::Again(rest),
        Posting::Unfit => Posting::Unfit,
    }
}

// Publishes the batch if it goes on from what was published, or what waits.
fn publish<R: Wait + Drop, J: Naming>(
    board: &mut board::Board<J, R>,
    left: Option<Batch>,
) -> Posting
    // The batch is published exactly if it may come next. If memory is lacking, it comes back and the board is as before, or it
    // waits there.
    ensures { Tries board.old board.new left result }
{
    let Some(batch) = left else {
        return match board.flush() {
            Ok(()) => Posting::Done,
            Err(_) => Posting::Again(None),
        };
    };
    if !board.fits(&batch) {
        return Posting::Unfit;
    }
    match board.publish(batch) {
        Ok(()) => Posting::Done,
        Err((_, left)) => Posting::Again(left),
    }
}

// Raises the lowest stamp that may be read, so that sixteen stay readable.
fn prune<R: Wait + Drop, J: Naming>(board: &mut board::Board<J, R>) -> Result<(), Fault>
    // Sixteen stamps stay readable. If memory is lacking, the board is as before, or the change waits there.
    ensures few { last_stamp board.old.list ≤ board.old.list.floor + 15 → (result ≡ Ok tt) × (board.new ≡ board.old) }
    ensures many { board.old.list.floor + 15 < last_stamp board.old.list → MatchResult result
        (λ _. board.new ≡ shown (waiting board.old (Raise (last_stamp board.old.list - 15))))
        (λ fault. (fault ≡ OutOfMemory) × ((board.new ≡ board.old) ⊎ (board.new ≡ waiting board.old (Raise (last_stamp board.old.list - 15))))) }
{
    let stamp = board.token().stamp();
    board.prune(stamp.saturating_sub(15))
}
