ghost use Rattle.std.specs.Prelude.{◌≡◌, ◌≤◌, [], length, IfOk};
ghost use Rattle.requests.specs.Frames.{IsRangeCode, IsNoLongCode, IsPlainRequest, IsRequestOf, Receives, ReceivesAfter};

use crate::head::{Head, fill};
use base::key::Key;
use base::row::Row;
use byteorder::{ByteOrder, LittleEndian};
use std::io;
use std::io::{ErrorKind, Read};

const BEGIN: u16 = 1;

const GET: u16 = 2;

const PUT: u16 = 3;

const DELETE: u16 = 4;

const COMMIT: u16 = 5;

const ABORT: u16 = 6;

const FIRST: u16 = 7;

const LAST: u16 = 8;

const STATUS: u16 = 9;

/// The keys of a table from the least to the greatest.
#[derive(Clone, Copy, Debug)]
pub struct KeyRange {
    pub table: u16,
    pub least: u64,
    pub greatest: u64,
}

/// What is asked of a store.
#[derive(Clone, Copy, Debug)]
pub enum Request {
    /// Begin a transaction. An open one is rolled back.
    Begin,
    /// The row under a key.
    Get(Key),
    /// Write a row under a key.
    Put(Key, Row),
    /// Delete the row under a key.
    Delete(Key),
    /// Commit the open transaction.
    Commit,
    /// Roll the open transaction back.
    Abort,
    /// The rows of a range from the least key on, at most this many.
    First(KeyRange, u64),
    /// The rows of a range from the greatest key on, at most this many.
    Last(KeyRange, u64),
    /// How full the store is.
    Status,
}

/// What came from the other side.
#[derive(Clone, Copy, Debug)]
pub enum Received {
    Request(Request),
    /// A frame that isn't a request.
    Other,
    /// The input has ended.
    End,
}

/// Reads the next frame. One that announces more bytes than a row has is `InvalidData`, and what comes behind it can't be read.
pub fn receive<R: Read>(input: &mut R) -> io::Result<Received>
    // At Ok the bytes that were taken off the input are the frame of the request that is returned. Or they are a whole frame that
    // isn't a request's, or less than a frame, and the input has ended.
    ensures { IfOk result (Receives (R.remaining input.old) (R.remaining input.new)) }
{
    let mut bytes = [0; Head::SIZE];
    if !fill(input, &mut bytes)? {
        return Ok(Received::End);
    }
    receive_payload(input, Head::of(&bytes))
}

// Reads what follows the head.
fn receive_payload<R: Read>(input: &mut R, head: Head) -> io::Result<Received>
    ensures { IfOk result (ReceivesAfter head (R.remaining input.old) (R.remaining input.new)) }
{
    let length = head.length as usize;
    if length > Row::LIMIT {
        return Err(io::Error::from(ErrorKind::InvalidData));
    }
    let mut bytes = [0; Row::LIMIT];
    let payload = &mut bytes[..length];
    if !fill(input, payload)? {
        return Ok(Received::End);
    }
    match request_of(&head, payload) {
        Some(request) => Ok(Received::Request(request)),
        None => Ok(Received::Other),
    }
}

// The request of a frame with this head, if it is one.
fn request_of(head: &Head, payload: &[u8]) -> Option<Request>
    requires length { length payload.now ≡ head.now.length }
    requires limit { length payload.now ≤ 480 }
    ensures { IsRequestOf head.now payload.now result }
{
    match head.code {
        PUT => put_request(head, payload),
        FIRST | LAST => range_request(head, payload),
        _ if payload.is_empty() => short_request(head),
        _ => None,
    }
}

// The put of a row.
fn put_request(head: &Head, payload: &[u8]) -> Option<Request>
    requires length { length payload.now ≡ head.now.length }
    requires limit { length payload.now ≤ 480 }
    requires code { head.now.code ≡ 3 }
    ensures { IsRequestOf head.now payload.now result }
{
    match Row::new(payload) {
        Ok(row) => Some(Request::Put(key_of(head), row)),
        Err(_) => None,
    }
}

// The rows of a range: the greatest key and how many rows follow the head.
fn range_request(head: &Head, payload: &[u8]) -> Option<Request>
    requires length { length payload.now ≡ head.now.length }
    requires code { IsRangeCode head.now.code }
    ensures { IsRequestOf head.now payload.now result }
{
    if payload.len() != 16 {
        return None;
    }
    let range = KeyRange {
        table: head.table,
        least: head.number,
        greatest: LittleEndian::read_u64(payload),
    };
    let limit = LittleEndian::read_u64(&payload[8..]);
    if head.code == FIRST {
        Some(Request::First(range, limit))
    } else {
        Some(Request::Last(range, limit))
    }
}

// A request that is its head alone.
fn short_request(head: &Head) -> Option<Request>
    requires length { head.now.length ≡ 0 }
    requires other { IsNoLongCode head.now.code }
    ensures { IsRequestOf head.now [] result }
{
    match head.code {
        GET => Some(Request::Get(key_of(head))),
        DELETE => Some(Request::Delete(key_of(head))),
        _ if head.table == 0 && head.number == 0 => plain_request(head.code),
        _ => None,
    }
}

// A request that its code says alone.
fn plain_request(code: u16) -> Option<Request>
    ensures { IsPlainRequest code result }
{
    match code {
        BEGIN => Some(Request::Begin),
        COMMIT => Some(Request::Commit),
        ABORT => Some(Request::Abort),
        STATUS => Some(Request::Status),
        _ => None,
    }
}

fn key_of(head: &Head) -> Key
    ensures table { result.table ≡ head.now.table }
    ensures key { result.key ≡ head.now.number }
{
    Key {
        table: head.table,
        key: head.number,
    }
}
