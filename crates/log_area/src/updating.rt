//! The version is one word, so a crash leaves the old one or the new one.

ghost use Rattle.std.specs.Prelude.{◌≡◌, ◌≤◌, IfErr, OnOk, OnErr};
ghost use Rattle.base.specs.Actors.{committer};
ghost use Rattle.pmem.specs.Persisting.{set_operations};
ghost use Rattle.pmem.specs.Trace.{Runs, StopsWithin};

use base::actor::Actor;
use base::fault::Fault;
use base::geometry::Geometry;
use pmem::{Pmem, set_word};

/// Stores the geometry's version in the superblock of an image that is laid out the same under an older one, and waits
/// until it persists.
pub fn update_version<D: Pmem>(device: &mut D, geometry: Geometry) -> Result<(), Fault>
    requires { 8 ≤ (D.state device.old).words }

    // Exactly a store of the version's word, a flush of its line and a fence.
    ensures run { OnOk result (Runs (set_operations committer 1 geometry.version) (D.state device.old) (D.state device.new)) }

    // At Err one of them failed, after those before it, and the fault is Device.
    ensures stopped { OnErr result (StopsWithin (set_operations committer 1 geometry.version) (D.state device.old) (D.state device.new)) }
    ensures fault { IfErr result (λ fault. fault ≡ Fault.Device) }
{
    set_word(device, Actor::COMMITTER, 1, geometry.version())
}
