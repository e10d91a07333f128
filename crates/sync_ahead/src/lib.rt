//! Persistent memory whose fences may wait for a disk: most of that wait can be made ahead of the fence, by a thread that doesn't
//! hold the device, so that others use it meanwhile.
#![tactic(auto)]

ghost use Rattle.std.specs.Prelude.{◌≡◌};

use base::actor::Actor;
use pmem::Pmem;

/// A device that may sync ahead of a fence. No promise of the device rests on it: a fence waits for what wasn't synced ahead.
pub trait SyncAhead: Pmem {
    /// A sync, which is made without the device, and its result.
    type Pending: Drop;

    /// If this actor's next fence would wait for a sync, hands that sync out, to be made and taken back before the fence. `None`
    /// if the fence doesn't wait for anything that can be made ahead of it. Nothing is done to the device.
    fn begin_sync(&mut self, actor: Actor) -> Option<Self::Pending>
        ensures { Self.state self.new ≡ Self.state self.old };

    /// Makes the sync, and waits until it ends.
    fn sync(pending: &mut Self::Pending);

    /// Takes the sync back. Nothing is done to the device.
    fn end_sync(&mut self, pending: Self::Pending)
        ensures { Self.state self.new ≡ Self.state self.old };
}
