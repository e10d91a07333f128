//! An older version has the same layout, so only its number changes. That number persists before the record is written, which
//! may name what the older version has no place for.

ghost use Rattle.std.specs.Prelude.{◌≡◌, None, IfOk, IfErr, OnOk, OnErr};
ghost use Rattle.base.specs.Images.{layout_of, opening_fault};
ghost use Rattle.base.specs.Layout.{opened_layout};
ghost use Rattle.pmem.specs.Trace.{Runs, StopsWithin};
ghost use Rattle.pmem.specs.Words.{image_of};
ghost use Rattle.recovery.specs.Opened.{update_operations};

use base::fault::Fault;
use base::geometry::Geometry;
use log_area::update_version;
use pmem::Pmem;

/// Gives an image that opens the version that it has once it is open, if it has another, and waits until that
/// persists. Returns the layout that the image has then.
pub(crate) fn update<D: Pmem>(device: &mut D, geometry: Geometry) -> Result<Geometry, Fault>
    requires opens { opening_fault (image_of (D.state device.old)) ≡ None }
    requires laid_out { layout_of (image_of (D.state device.old)) ≡ geometry }
    ensures ok { IfOk result (λ today. today ≡ opened_layout geometry) }
    ensures run { OnOk result (Runs (update_operations (image_of (D.state device.old))) (D.state device.old) (D.state device.new)) }
    ensures stopped { OnErr result (StopsWithin (update_operations (image_of (D.state device.old))) (D.state device.old) (D.state device.new)) }
    ensures fault { IfErr result (λ fault. fault ≡ Fault.Device) }
{
    let today = geometry.opened();
    if today.version() == geometry.version() {
        return Ok(today);
    }
    match update_version(device, today) {
        Ok(()) => Ok(today),
        Err(fault) => Err(fault),
    }
}
