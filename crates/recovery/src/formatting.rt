//! Word 0 goes first and comes last, and each time that persists before anything else is stored: so a format that is stopped
//! leaves an image that isn't formatted, or a whole one.

ghost use Rattle.std.specs.Prelude.{◌≡◌, ◌≢◌, ◌+◌, ◌/◌, ◌<◌, ℕ, Ok, true, false, IfOk, IfErr, OnOk, OnErr};
ghost use Rattle.base.specs.Layout.{total_words};
ghost use Rattle.pmem.specs.Trace.{Runs, StopsWithin};
ghost use Rattle.pmem.specs.Words.{LeavesOnly, IsAtRest, image_of, IsSettledAt, Makes, value_of};
ghost use Rattle.base.specs.Fresh.{first_record, fresh_word, fresh_image, StandsEmpty};
ghost use Rattle.recovery.specs.Fresh.{IsFormatting, IsFormatRefusal, HasFormattedNew, format_operations};

use crate::clearing::clear;
use base::actor::Actor;
use base::fault::Fault;
use base::gap::Gaps;
use base::geometry::Geometry;
use base::longs::Longs;
use log_area::{FORMATTED, Record, write_geometry, write_record};
use pmem::{Pmem, set_word};

/// Creates a new image on a device.
pub fn format<D: Pmem>(device: &mut D, geometry: Geometry) -> Result<(), Fault>
    // At Err BadGeometry, exactly if the device has another length, and nothing was done. Or Device, with one failure.
    ensures refusal { IfErr result (IsFormatRefusal geometry (D.state device.old) (D.state device.new)) }

    // For `N` words these are `N + 33` stores, `N/8 + 7` flushes and 6 fences.
    ensures made { OnOk result (Makes (total_words geometry + 33) (total_words geometry / 8 + 7) 6 0 (D.state device.old) (D.state device.new)) }

    // The device is at rest, and its image is exactly the fresh one.
    ensures settled { OnOk result ((word : ℕ) → word < total_words geometry → IsSettledAt (D.state device.new) word (fresh_word geometry word)) }
    ensures rest { OnOk result (IsAtRest (D.state device.new)) }
    ensures image { OnOk result (image_of (D.state device.new) ≡ fresh_image geometry) }

    // So it has this layout and the first record, stands for no commit, and opens.
    ensures empty { OnOk result (StandsEmpty geometry (image_of (D.state device.new))) }

    // A format that is stopped, or fails, leaves what a crash before it could have left, an image that isn't formatted, or the
    // fresh one.
    ensures images { LeavesOnly (D.state device.old) (D.state device.new) (IsFormatting (D.state device.old) geometry) }
{
    if device.words() as u64 != geometry.words() {
        return Err(Fault::BadGeometry);
    }
    match write_fresh(device, geometry) {
        Ok(()) => Ok(()),
        Err(fault) => Err(fault),
    }
}

/// Formats a device in which nothing was ever kept: it has words, and the first is 0. Returns whether it did; leaves any other as it is.
pub fn format_new<D: Pmem>(device: &mut D, geometry: Geometry) -> Result<bool, Fault>
    requires at_rest { IsAtRest (D.state device.old) }

    // A device whose first word isn't 0, or that has no words, is left as it is, and Ok(false) is returned.
    ensures kept { value_of (D.state device.old) 0 ≢ 0 → (result ≡ Ok false) × (device.new ≡ device.old) }
    ensures empty { (D.state device.old).words ≡ 0 → (result ≡ Ok false) × (device.new ≡ device.old) }

    // At Ok(true) its first word was 0, and its image is exactly the fresh one. At Ok(false) it has no words, or its first word
    // isn't 0, and it is as it was.
    ensures made { IfOk result (HasFormattedNew geometry (D.state device.old) (D.state device.new)) }

    // At Ok(true) exactly as many operations were made as formatting makes.
    ensures operations { result ≡ Ok true → Makes (total_words geometry + 33) (total_words geometry / 8 + 7) 6 0 (D.state device.old) (D.state device.new) }

    // As for `format`.
    ensures refusal { IfErr result (IsFormatRefusal geometry (D.state device.old) (D.state device.new)) }

    // At Ok the device is at rest.
    ensures rest { OnOk result (IsAtRest (D.state device.new)) }

    // As for `format`.
    ensures images { LeavesOnly (D.state device.old) (D.state device.new) (IsFormatting (D.state device.old) geometry) }
{
    if device.words() == 0 || device.load(0) != 0 {
        return Ok(false);
    }
    match format(device, geometry) {
        Ok(()) => Ok(true),
        Err(fault) => Err(fault),
    }
}

// The operations of a format, up to the first that fails.
fn write_fresh<D: Pmem>(device: &mut D, geometry: Geometry) -> Result<(), Fault>
    requires size { (D.state device.old).words ≡ total_words geometry }
    ensures run { OnOk result (Runs (format_operations geometry) (D.state device.old) (D.state device.new)) }
    ensures stopped { OnErr result (StopsWithin (format_operations geometry) (D.state device.old) (D.state device.new)) }
    ensures fault { IfErr result (λ fault. fault ≡ Fault.Device) }
{
    set_word(device, Actor::COMMITTER, 0, 0)?;
    clear(device)?;
    write_record(device, geometry, first_record())?;
    write_geometry(device, geometry)?;
    let done = set_word(device, Actor::COMMITTER, 0, FORMATTED)?;
    Ok(done)
}

fn first_record() -> Record
    ensures { result ≡ first_record }
{
    Record::new(1, 0, 1, Gaps::none(), Longs::none())
}
