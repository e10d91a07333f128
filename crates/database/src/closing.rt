//! Closing comes after both workers have ended, so nothing else touches the room. It covers all that is drawn, so that the next
//! opening doesn't depend on what would survive a crash.

ghost use Rattle.std.specs.Prelude.{IfOk, IfErr, MatchResult};
ghost use Rattle.base.specs.Images.{Image};
ghost use Rattle.machine.specs.Machine.{State, StandsClosing, StandsClosed};
ghost use Rattle.pmem.specs.Device.{MayLeave};
ghost use Rattle.pmem.specs.Words.{LeavesOnly};
ghost use Rattle.room.specs.Closing.{IsClosingRefusal};
ghost use Rattle.room.specs.Room.{Shows, device_of};
ghost use Rattle.database.specs.Closing.{ClosesRun, IsClosed, IsClosingRefused};

use crate::database::Refused;
use crate::opened::OpenedRoom;
use history::Origin;
use pmem::Pmem;

/// Covers all that is drawn, and returns the device.
pub fn close_room<D: Pmem + Drop, J: Origin>(opened: OpenedRoom<D, J>) -> Result<D, Refused<D>>
    // At Ok each image that a crash then leaves stands for all that was drawn.
    ensures ok { IfOk result (λ device. (q : State) → Shows D.state opened.room q → (image : Image) → MayLeave (D.state device) image → StandsClosed q image) }

    // At Err why closing the room was refused. The device is as it was, or an operation failed.
    ensures fault { IfErr result (λ e. (q : State) → Shows D.state opened.room q → IsClosingRefusal q (device_of D.state opened.room) (D.state e.device) e.fault) }

    // A crash meanwhile leaves what was covered, or that with the pending batch, or with all that was drawn.
    ensures images { (q : State) → Shows D.state opened.room q → MatchResult result
        (λ device. LeavesOnly (device_of D.state opened.room) (D.state device) (StandsClosing q))
        (λ e. LeavesOnly (device_of D.state opened.room) (D.state e.device) (StandsClosing q)) }

    // As `Database::close` says.
    ensures lived { MatchResult result
        (λ device. ∥ ClosesRun (D.state device) (IsClosed (D.state device)) ∥₁)
        (λ e. ∥ ClosesRun (D.state e.device) (IsClosingRefused (D.state e.device) e.fault) ∥₁) }
{
    match opened.into_room().close() {
        Ok(device) => Ok(device),
        Err((fault, device)) => Err(Refused { fault, device }),
    }
}
