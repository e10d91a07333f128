//! Two transactions and the close of a store whose history is kept: what they know of it are beginnings of one log.

use anyhow::{Error, anyhow};
use std::fs::File;
use std::rt::Files;
use std::sync::Wait;
use std::thread::Threads;
use store::{
    Closed, Committed, Front, Geometry, Key, Origin, Program, Store, StoreError, Transaction, Ts,
    Work, key,
};

// Adds one to the number of a key.
#[derive(Drop)]
struct Increment {
    key: Key,
}

impl<R: Wait + Drop, J: Origin> Work<R, J> for Increment {
    ghost use Rattle.std.specs.Prelude.{◌≡◌, ◌∷◌, [], Some, IfOk};
    ghost use Rattle.std.specs.Int.{w64, to_le_bytes};

    type Value = u64;

    // At Ok it has written the number that it returns, and nothing else.
    ghost does = { λ old writes result new. IfOk result (λ number. writes ≡ (old.key, Some (to_le_bytes w64 number)) ∷ []) };

    #[tactic(auto, using(store::proofs::Doing::does_nothing))]
    fn run(&mut self, transaction: &mut Transaction<'_, R, J>) -> Result<u64, StoreError> {
        let number = match transaction.number(self.key)? {
            Some(number) => number.saturating_add(1),
            None => 1,
        };
        transaction.put_number(self.key, number)?;
        Ok(number)
    }
}

// Commits a row twice, and closes the store.
#[derive(Drop)]
struct Twice;

// The timestamps, the number, and whether all that was known of the history are beginnings of one.
type Saw = (Option<Ts>, Option<Ts>, u64, bool);

impl Program for Twice {
    ghost use Rattle.std.specs.Prelude.{◌≡◌, true};
    ghost use Rattle.file_laws.specs.Found.{OpensFirst};
    ghost use Rattle.store.specs.Files.{MayOpen};

    type Answer = Result<Saw, StoreError>;

    fn run<R: Threads + Wait + Copy + Drop + Send + Sync, J: Origin + Send + Sync>(
        self,
        _rt: R,
        store: Store<R, J>,
    ) -> Result<Saw, StoreError>
        requires kept { J.kept ≡ true }
        requires opened { MayOpen J.opened }
        requires first { OpensFirst J.opened }
    {
        let (begun, first, ended) = commit_once(&store, 1)?;
        let (number, done) = store.transact_known(Increment { key: key(1, 1) })?;
        let Committed {
            timestamp: second,
            front: later,
        } = done;
        let Closed { front: last, .. } = store.close_known()?;
        let (Some(later), Some(last)) = (later, last) else {
            return Err(StoreError::Own(anyhow!("no history is kept")));
        };
        let is_one = begun.begins(&ended) && ended.begins(&later) && later.begins(&last);
        Ok((first, second, number, is_one))
    }
}

// Commits the number, and returns the history up to the begin, the timestamp, and the history up to the end.
fn commit_once<R: Wait + Drop, J: Origin>(
    store: &Store<R, J>,
    number: u64,
) -> Result<(Front<J>, Option<Ts>, Front<J>), StoreError> {
    let mut transaction = store.begin()?;
    let begun = transaction.begun();
    let put = transaction.put_number(key(1, 1), number);
    let committed = transaction.commit_known();
    put?;
    let Committed { timestamp, front } = committed?;
    match (begun, front) {
        (Some(begun), Some(ended)) => Ok((begun, timestamp, ended)),
        _ => Err(StoreError::Own(anyhow!("no history is kept"))),
    }
}

/// Prints what two transactions of a kept history know of it.
pub fn keep_one<
    R: Print
        + AllocGlobal
        + Files<File = File>
        + Threads
        + Wait
        + Copy
        + Drop
        + Send
        + Sync
        + 'static,
>(rt: &R) -> Result<(), Error> {
    let geometry = Geometry::new(64, 2, 64)?;
    let (first, second, number, is_one) = store::run(
        *rt,
        rt.alloc(),
        "kept.img",
        geometry,
        Twice,
    )??;
    println!(rt;
        "kept: committed {first:?} and {second:?}, the number is {number}, in one history {is_one}"
    )?;
    Ok(())
}
