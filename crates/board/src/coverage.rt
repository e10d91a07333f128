//! What a record covers: each commit up to its timestamp except the long ones, which a later record covers.

use base::Ts;
use base::batch::Batch;
use base::longs::Longs;

/// What is covered at a stamp: each timestamp up to the persisted one, without the long commits.
#[derive(Clone, Copy, Debug)]
pub struct Coverage {
    pub stamp: u64,
    pub persisted: Ts,
    pub longs: Longs,
}

impl Coverage {
    ghost use Rattle.std.specs.Prelude.{◌≡◌};

    /// What is covered by the batch, with those before it.
    pub(crate) fn after(batch: &Batch) -> Coverage
        ensures { result ≡ record { stamp = batch.now.stamp; persisted = batch.now.persisted; longs = batch.now.longs } }
    {
        Coverage {
            stamp: batch.stamp(),
            persisted: batch.persisted(),
            longs: batch.longs(),
        }
    }
}
