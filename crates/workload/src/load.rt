use crate::lending::lent;
use base::fault::Fault;
use board::History;
use pmem::Pmem;
use room::Room;
use std::alloc::Global;
use std::marker::Brand;
use std::sync::Wait;
use std::thread::Threads;

/// How much threads are to do.
#[derive(Clone, Copy, Debug)]
pub struct Load {
    /// How many threads, each with a session of its own.
    pub sessions: u64,
    /// How many commits each of them makes.
    pub commits: u64,
}

ghost use Rattle.std.specs.Prelude.{◌*◌, IfErr, IfOk, OnOk};
ghost use Rattle.pmem.specs.Words.{IsAtRest, image_of};
ghost use Rattle.room.specs.Room.{Shows};
ghost use Rattle.room.specs.Runs.{OpensTo};
ghost use Rattle.workload.specs.Load.{HasFree, HasNumbers, IsLoadFault, MakesTo};

/// Opens the device, and lets the threads make their commits while a committer and a collector work. Thread `i`, from 0, puts
/// the numbers from 1 to `commits` under key `i` of table 1. Each is a row of 8 bytes with the least first, in a commit of its
/// own, which the thread tries again if slots, the window or memory ran out. Returns the room, which no thread uses any more.
pub fn run_load<
    T: Threads + Wait + Copy + Drop + Send + Sync + 'static,
    D: Pmem + Drop + Send + Sync + 'static,
>(rt: &T, alloc: Global, device: D, load: Load) -> Result<Room<D>, Fault>
    requires at_rest { IsAtRest (D.state device) }

    // A run from the image of the device that was opened leads to a state that the room shows. Its steps of sessions are those of
    // as many threads as were asked for. Each of these made exactly as many commits as were asked for: that many times a poll
    // reported a timestamp and the transaction was ended next. No more timestamps were drawn, and no transaction is left open.
    ensures made { IfOk result (λ room. MakesTo (image_of (D.state device)) load.sessions load.commits (Shows D.state room)) }

    // The work is done only if two slots for each session are free in the state that the image opens as, and record numbers and
    // timestamps are left for all commits.
    ensures has_slots { OnOk result (OpensTo (image_of (D.state device)) (HasFree (2 * load.sessions))) }
    ensures has_numbers { OnOk result (OpensTo (image_of (D.state device)) (HasNumbers (load.sessions * load.commits))) }

    // At Err the image doesn't open (then that reason), memory is lacking, or an operation failed while opening. Or the slots
    // aren't free (SlotsOut), or numbers aren't left (TimestampsOut). Or both are there, and one of the following is why. A
    // thread of the engine can't be started (NoThread). Closing the engine finds another room than was lent or other steps than
    // those of its sessions, or a commit reports that nothing was written (WrongState). A run from that image has a step that was
    // refused with this fault, which isn't one after which a thread tries again.
    ensures fault { IfErr result (IsLoadFault (image_of (D.state device)) load.sessions load.commits) }
{
    lent::<Brand, D, T>(rt, alloc, History::new(), device, load)
}
