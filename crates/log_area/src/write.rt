//! When nobody steps meanwhile, on formatting and on opening, a record is written in one go, by the stages that the committer
//! has.

ghost use Rattle.std.specs.Prelude.{◌≡◌, IfErr, OnOk, OnErr};
ghost use Rattle.base.specs.Layout.{total_words};
ghost use Rattle.pmem.specs.Trace.{Runs, StopsWithin};
ghost use Rattle.log_area.specs.Writings.{record_operations};

use crate::{Record, Writing};
use base::fault::Fault;
use base::geometry::Geometry;
use pmem::Pmem;

/// Writes a record into its place.
pub fn write_record<D: Pmem>(
    device: &mut D,
    geometry: Geometry,
    target: Record,
) -> Result<(), Fault>
    requires { (D.state device.old).words ≡ total_words geometry }

    // Exactly the 39 operations of a writing, in order.
    ensures run { OnOk result (Runs (record_operations geometry target) (D.state device.old) (D.state device.new)) }

    // At Err one of them failed, after those before it, and the fault is Device.
    ensures stopped { OnErr result (StopsWithin (record_operations geometry target) (D.state device.old) (D.state device.new)) }
    ensures fault { IfErr result (λ fault. fault ≡ Fault.Device) }
{
    let mut writing = Writing::new(geometry, target);
    while !writing.is_done() {
        writing.tick(device)?;
    }
    Ok(())
}
