use crate::status::Status;
use base::Ts;
use base::key::Key;
use base::row::Row;

/// The reply to a request.
#[derive(Debug, Drop)]
pub enum Answer {
    /// It is done.
    Done,
    /// The commit is durable, and this is its timestamp if anything was written.
    Committed(Option<Ts>),
    /// The row under the key, if there is one.
    Row(Option<Row>),
    /// The rows of the range.
    Rows(Vec<(Key, Row)>),
    /// How full the store is.
    Numbers([u64; 7]),
    /// The bytes aren't a request, or the request needs an open transaction and there is none.
    Misuse,
    /// It is refused, with this status, and why.
    Refused(Status, String),
}
