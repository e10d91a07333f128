ghost use Rattle.std.specs.Prelude.{◌≡◌, ◌<◌, ◌^◌, flat_map, length, IfOk, OnOk};
ghost use Rattle.std.specs.Io.KnownBytes.{Appends};
ghost use Rattle.byteorder.specs.Endian.{little_bytes};
ghost use Rattle.requests.specs.Frames.{frame_bytes, row_bytes, Sends};

use crate::answer::Answer;
use crate::head::Head;
use crate::status::Status;
use base::key::Key;
use base::row::Row;
use std::alloc::{AllocError, Global};
use std::io;
use std::io::{ErrorKind, Write};

/// Writes the frame of the reply.
pub fn send<W: Write>(alloc: Global, output: &mut W, answer: &Answer) -> io::Result<()>
    // At Ok the frame of the reply was added to the output, and its head says how much follows. For rows or a status it may also be
    // the frame which says that memory was refused.
    ensures { OnOk result (Sends (W.contents output.old) (W.contents output.new) answer.now) }
{
    match answer {
        Answer::Done => send_frame(output, Status::Done, 0, &[]),
        Answer::Committed(None) => send_frame(output, Status::Done, 0, &[]),
        Answer::Committed(Some(timestamp)) => send_frame(output, Status::Done, *timestamp, &[]),
        Answer::Row(None) => send_frame(output, Status::Missing, 0, &[]),
        Answer::Row(Some(row)) => send_frame(output, Status::Done, 0, row.as_bytes()),
        Answer::Rows(rows) => match bytes_of_rows(alloc, rows.as_slice()) {
            Ok(bytes) => {
                let count = rows.len() as u64;
                send_frame(output, Status::Done, count, bytes.as_slice())
            }
            Err(_) => send_frame(output, Status::OutOfMemory, 0, &[]),
        },
        Answer::Numbers(numbers) => match bytes_of_numbers(alloc, numbers) {
            Ok(bytes) => send_frame(output, Status::Done, 7, bytes.as_slice()),
            Err(_) => send_frame(output, Status::OutOfMemory, 0, &[]),
        },
        Answer::Misuse => send_frame(output, Status::Misuse, 0, &[]),
        Answer::Refused(status, text) => send_frame(output, *status, 0, text.as_bytes()),
    }
}

// Writes a head, and what follows it.
fn send_frame<W: Write>(
    output: &mut W,
    status: Status,
    number: u64,
    payload: &[u8],
) -> io::Result<()>
    ensures frame { OnOk result (Appends (W.contents output.old) (W.contents output.new) (frame_bytes status number payload.now)) }
    ensures length { OnOk result (length payload.now < 2 ^ 32) }
{
    let Ok(length) = u32::try_from(payload.len()) else {
        return Err(io::Error::from(ErrorKind::InvalidData));
    };
    let head = Head {
        length,
        code: status.code(),
        table: 0,
        number,
    };
    output.write_all(&head.bytes())?;
    output.write_all(payload)
}

fn bytes_of_rows(alloc: Global, rows: &[(Key, Row)]) -> Result<Vec<u8>, AllocError>
    ensures { IfOk result (λ bytes. bytes.items ≡ flat_map row_bytes rows.now) }
{
    let mut bytes = Vec::new(alloc);
    for (key, row) in rows {
        let row = row.as_bytes();
        let length = row.len() as u32;
        bytes.extend_from_slice(&key.key.to_le_bytes())?;
        bytes.extend_from_slice(&length.to_le_bytes())?;
        bytes.extend_from_slice(row)?;
    }
    Ok(bytes)
}

fn bytes_of_numbers(alloc: Global, numbers: &[u64]) -> Result<Vec<u8>, AllocError>
    ensures { IfOk result (λ bytes. bytes.items ≡ flat_map (little_bytes 8) numbers.now) }
{
    let mut bytes = Vec::new(alloc);
    for number in numbers {
        bytes.extend_from_slice(&number.to_le_bytes())?;
    }
    Ok(bytes)
}
