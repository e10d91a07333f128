//! The history begins empty at the image of this very device, so that a program that gets the room back can say where its
//! entries start.

use crate::audited::Audited;
use base::fault::Fault;
use pmem::Pmem;
use room::Room;
use std::alloc::Global;
use std::thread::Threads;

impl<D: Pmem + Drop + Send + Sync> Audited<D> {
    ghost use Rattle.std.specs.Prelude.{◌≡◌, List, [], ℕ, ◌+◌, ◌*◌, ◌<◌, ◌≤◌, true, false, slice_index, IfOk, IfErr, MatchResult};
    ghost use Rattle.base.specs.Commits.{Commit};
    ghost use Rattle.base.specs.Images.{layout_of, opening_fault};
    ghost use Rattle.base.specs.Stands.{Stands};
    ghost use Rattle.machine.specs.Openings.{StandsOpening, opened_slots, updated};
    ghost use Rattle.pmem.specs.Words.{LeavesOnly, IsAtRest, image_of, IsSettledAt, HasNoFailure};
    ghost use Rattle.recovery.specs.Opened.{IsRefusal, IsUpdatedFirst, MakesOpening};
    ghost use Rattle.recovery.specs.Read.{ReportsLogFault};
    ghost use Rattle.room.specs.Room.{Shows, ShowsStatus, device_of};
    ghost use Rattle.room.specs.Runs.{OpensTo};
    ghost use Rattle.audited.specs.Audit.{IsAudited};

    /// Opens a device at rest, as a room is opened. If that is refused, returns the device with the fault.
    pub fn open<R: Threads + Sync>(
        rt: &R,
        alloc: Global,
        device: D,
    ) -> Result<Audited<D>, (Fault, D)>
        requires at_rest { IsAtRest (D.state device) }

        // The history is empty.
        ensures empty { IfOk result (λ audited. audited.entries.items ≡ []) }

        // The history is a run from the image of this very device.
        ensures audited { IfOk result (λ audited. IsAudited D.state audited.room (image_of (D.state device)) audited.opening audited.entries.items) }

        // As for `Room::open` (`ok`, `may_open`), and `opening()` has the opened state's numbers.
        ensures ok { IfOk result (λ audited. OpensTo (image_of (D.state device)) (λ q. Shows D.state audited.room q × ShowsStatus q audited.opening)) }

        // As for `Room::open`.
        ensures no_failure { IfOk result (λ audited. HasNoFailure (D.state device) (device_of D.state audited.room)) }
        ensures fault { IfErr result (λ e. IsRefusal (opening_fault (image_of (D.state device))) (D.state device) (D.state e.1) e.0) }
        ensures log { IfErr result (λ e. ReportsLogFault (image_of (D.state device)) e.0) }
        ensures made { IfOk result (λ audited. MakesOpening (image_of (D.state device)) (D.state device) (device_of D.state audited.room)) }
        ensures superblock { IfOk result (λ audited. (word : ℕ) → word < 8 → IsSettledAt (device_of D.state audited.room) word (slice_index (updated (image_of (D.state device))) word)) }
        ensures slots { IfOk result (λ audited. (word : ℕ) → 8 + 32 * (layout_of (image_of (D.state device))).places ≤ word → word < (D.state device).words
            → IsSettledAt (device_of D.state audited.room) word (slice_index (opened_slots (image_of (D.state device))) word)) }
        ensures images { (history drawn : List Commit) (next : ℕ)
            → Stands (image_of (D.state device)) history drawn next
            → MatchResult result
            (λ audited. LeavesOnly (D.state device) (device_of D.state audited.room) (StandsOpening (image_of (D.state device)) history next))
            (λ e. LeavesOnly (D.state device) (D.state e.1) (StandsOpening (image_of (D.state device)) history next)) }
        ensures version { MatchResult result
            (λ audited. LeavesOnly (D.state device) (device_of D.state audited.room) (IsUpdatedFirst (image_of (D.state device))))
            (λ e. LeavesOnly (D.state device) (D.state e.1) (IsUpdatedFirst (image_of (D.state device)))) }
    {
        let room = match Room::open(rt, alloc, device) {
            Ok(room) => room,
            Err(refusal) => return Err(refusal),
        };
        let opening = room.status();
        Ok(Audited {
            room,
            opening,
            entries: Vec::new(alloc),
        })
    }
}
