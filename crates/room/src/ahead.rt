//! A sync made ahead of a fence isn't a step: the room shows what it showed, on a device to which nothing was done.

use crate::room::Room;
use base::actor::Actor;
use sync_ahead::SyncAhead;

impl<D: SyncAhead + Drop> Room<D> {
    ghost use Rattle.std.specs.Prelude.{◌≡◌};
    ghost use Rattle.machine.specs.Machine.{State};
    ghost use Rattle.room.specs.Room.{Shows, covered_by, device_of};

    /// Hands out the sync that the committer's next tick would wait for, if it can be made ahead of that tick.
    pub fn begin_sync(&mut self) -> Option<D::Pending>
        // Nothing is done to the device. The room shows each state that it showed, and the batch that waits to be handed out
        // stays.
        ensures device { device_of D.state self.new ≡ device_of D.state self.old }
        ensures shows { (q : State) → Shows D.state self.old q → Shows D.state self.new q }
        ensures waits { covered_by self.new ≡ covered_by self.old }
    {
        self.device.begin_sync(Actor::COMMITTER)
    }

    /// Takes the sync back.
    pub fn end_sync(&mut self, pending: D::Pending)
        // As for `begin_sync`.
        ensures device { device_of D.state self.new ≡ device_of D.state self.old }
        ensures shows { (q : State) → Shows D.state self.old q → Shows D.state self.new q }
        ensures waits { covered_by self.new ≡ covered_by self.old }
    {
        self.device.end_sync(pending);
    }
}
