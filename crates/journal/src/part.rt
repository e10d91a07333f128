ghost use Rattle.std.specs.Prelude.{◌+◌, ◌<◌, ◌^◌, length, OnOk};
ghost use Rattle.journal.specs.Places.{IsPart};

use std::io;
use std::io::ErrorKind;

// The word of an image that says how many words it has.
const SIZE_WORD: usize = 5;

/// Refuses an image that says that it has as many words as the whole file. Once such a one was in place, the file might be taken for
/// an image alone.
pub(crate) fn check_part(image: &[u64], room: usize) -> io::Result<()>
    requires { length image.now + room + 8 < 2 ^ 63 }
    ensures { OnOk result (IsPart room image.now) }
{
    let whole = (image.len() + room + 8) as u64;
    match image.get(SIZE_WORD) {
        Some(size) if *size != whole => Ok(()),
        _ => Err(io::Error::from(ErrorKind::InvalidData)),
    }
}
