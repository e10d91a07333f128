//! To the crates below, a row is bytes. What numbers and texts look like as bytes is decided only here, by a trait, since `Row`
//! belongs to `base`.

ghost use Rattle.std.specs.Prelude.{◌≡◌};

use crate::error::StoreError;
use base::key::Key;
use base::row::Row;
use std::str;

/// The key with this number in this table.
pub fn key(table: u16, key: u64) -> Key
    ensures table { result.table ≡ table }
    ensures key { result.key ≡ key }
{
    Key { table, key }
}

/// Numbers and texts as rows.
pub trait RowExt {
    /// The number in 8 bytes, the lowest byte first.
    fn of_u64(number: u64) -> Row;

    /// The bytes of the text, or `RowTooLong` if there are more than 480.
    fn of_text(text: &str) -> Result<Row, StoreError>;

    /// The number, or `None` if the row doesn't have 8 bytes.
    fn as_u64(&self) -> Option<u64>;

    /// The text, or `None` if the row isn't UTF-8.
    fn as_text(&self) -> Option<&str>;
}

impl RowExt for Row {
    ghost use Rattle.std.specs.Prelude.{◌≡◌, ◌≤◌, ◌↔◌, length, IfOk, IfErr, IfSome, IsOk, IsSome};
    ghost use Rattle.std.specs.Int.{w64, to_le_bytes, from_le_bytes};
    ghost use Rattle.std.specs.Str.{IsUtf8};
    ghost use Rattle.store.specs.declared.error.StoreError.{StoreError};

    fn of_u64(number: u64) -> Row
        ensures { result ≡ to_le_bytes w64 number }
    {
        match Row::new(&number.to_le_bytes()) {
            Ok(row) => row,
            Err(_) => unreachable!(),
        }
    }

    fn of_text(text: &str) -> Result<Row, StoreError>
        // The text's bytes.
        ensures ok { IfOk result (λ row. row ≡ text.now) }

        // Ok exactly up to 480 bytes, and otherwise `RowTooLong`.
        ensures limit { IsOk result ↔ (length text.now ≤ 480) }
        ensures error { IfErr result (λ error. error ≡ StoreError.RowTooLong 480) }
    {
        match Row::new(text.as_bytes()) {
            Ok(row) => Ok(row),
            Err(_) => Err(StoreError::RowTooLong(Row::LIMIT)),
        }
    }

    fn as_u64(&self) -> Option<u64>
        // The number whose bytes they are, the lowest first.
        ensures some { IfSome result (λ number. number ≡ from_le_bytes w64 self.now) }

        // Some exactly for a row of 8 bytes.
        ensures length { IsSome result ↔ (length self.now ≡ 8) }
    {
        match <[u8; 8]>::try_from(self.as_bytes()) {
            Ok(bytes) => Some(u64::from_le_bytes(bytes)),
            Err(_) => None,
        }
    }

    fn as_text(&self) -> Option<&str>
        // The same bytes as a text.
        ensures some { IfSome result (λ text. text.now ≡ self.now) }

        // Some exactly for a row that is UTF-8.
        ensures text { IsSome result ↔ IsUtf8 self.now }
    {
        str::from_utf8(self.as_bytes()).ok()
    }
}
