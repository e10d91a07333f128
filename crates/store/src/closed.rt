//! Closing a store writes nothing further once all is covered: the file holds the device's image already. The device says whether
//! it does, so that the file's account says which image is found there.

ghost use Rattle.std.specs.Prelude.{IfErr, IfOk};
ghost use Rattle.std.specs.String.{string_bytes};
ghost use Rattle.database.specs.Closing.{ClosesRun, IsClosed};
ghost use Rattle.database.specs.Histories.{ClosesAt};
ghost use Rattle.pmem_file.specs.Devices.{last_image, state_of};
ghost use Rattle.store.specs.Closed.{IsClosedAs};
ghost use Rattle.store.specs.Opening.{IsClosingError};

use crate::error::StoreError;
use crate::files::Device;
use database::{Front, Origin};
use file_words::Account;
use std::io::{Error, ErrorKind};
use std::marker::Brand;

/// What closing returns: the file's account, and the history up to there, if that is kept.
#[derive(Drop)]
pub struct Closed<J: Origin = Brand> {
    pub account: Account,
    pub front: Option<Front<J>>,
}

/// Closes the file of a device on which all is covered.
pub fn close_file<J: Origin>(
    name: String,
    closed: database::Closed<Device, J>,
) -> Result<Closed<J>, StoreError>
    requires covered { ∥ ClosesRun (state_of closed.device) (IsClosed (state_of closed.device)) ∥₁ }
    requires history { ClosesAt J.opened J.kept (state_of closed.device) closed.front }

    // By its account the file then has one image, which covers the history. Or an image wasn't kept, or a write or a sync failed.
    ensures file { IfOk result (λ closed. IsClosedAs J.opened J.kept closed.account closed.front) }
    ensures err { IfErr result (IsClosingError (string_bytes name)) }
{
    let database::Closed { device, front } = closed;
    if !device.is_written() {
        let cause = Error::from(ErrorKind::InvalidData);
        return Err(StoreError::Lost { name, cause });
    }
    match device.close() {
        Ok(account) => Ok(Closed { account, front }),
        Err(cause) => Err(StoreError::Lost { name, cause }),
    }
}
