ghost use Rattle.std.specs.Prelude.{◌≡◌};
ghost use Rattle.serving.specs.Refusals.{status_of};

use requests::Status;
use std::alloc::Global;
use store::StoreError;

/// The status of each error of a store.
pub fn status_of(error: &StoreError) -> Status
    ensures { result ≡ status_of error.now }
{
    match error {
        StoreError::Missing { .. } => Status::NoStore,
        StoreError::File { .. } => Status::File,
        StoreError::OtherLayout { .. } => Status::OtherLayout,
        StoreError::Damaged { .. } => Status::Damaged,
        StoreError::NotOpened { .. } => Status::NotOpened,
        StoreError::Lost { .. } => Status::Lost,
        StoreError::NotClosed { .. } => Status::NotClosed,
        StoreError::Conflict(_) => Status::Conflict,
        StoreError::Full => Status::Full,
        StoreError::RowTooLong(_) => Status::RowTooLong,
        StoreError::TooManyKeys => Status::TooManyKeys,
        StoreError::TooManyTransactions => Status::TooManyTransactions,
        StoreError::OutOfMemory => Status::OutOfMemory,
        StoreError::Failed => Status::Failed,
        StoreError::Unknown(_) => Status::Unknown,
        _ => Status::Refused,
    }
}

/// The refusal in words, or no words if memory for them is refused.
pub fn text_of(alloc: Global, error: &StoreError) -> String {
    match format!(in alloc; "{error}") {
        Ok(text) => text,
        Err(_) => String::new(alloc),
    }
}
