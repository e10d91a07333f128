ghost use Rattle.std.specs.Prelude.{◌≡◌, IfOk};
ghost use Rattle.requests.specs.Frames.{head_bytes, Fills};

use byteorder::{ByteOrder, LittleEndian};
use std::io;
use std::io::Read;

/// The first 16 bytes of a frame: how many bytes follow, what the frame is, a table and a number.
#[derive(Clone, Copy, Debug, PartialEq, Eq)]
pub struct Head {
    pub length: u32,
    pub code: u16,
    pub table: u16,
    pub number: u64,
}

impl Head {
    ghost use Rattle.std.specs.Prelude.{◌≡◌};
    ghost use Rattle.requests.specs.Frames.{head_bytes, IsHead};

    /// How many bytes a head has.
    pub const SIZE: usize = 16;

    /// The head in these bytes: its numbers are those of the 16 bytes.
    pub fn of(bytes: &[u8; 16]) -> Head
        ensures bytes { head_bytes result ≡ bytes.now }
        ensures head { IsHead result }
    {
        Head {
            length: LittleEndian::read_u32(bytes),
            code: LittleEndian::read_u16(&bytes[4..]),
            table: LittleEndian::read_u16(&bytes[6..]),
            number: LittleEndian::read_u64(&bytes[8..]),
        }
    }

    /// Its 16 bytes, which have its numbers.
    pub fn bytes(&self) -> [u8; 16]
        ensures { result ≡ head_bytes self.now }
    {
        let mut bytes = [0; 16];
        LittleEndian::write_u32(&mut bytes, self.length);
        LittleEndian::write_u16(&mut bytes[4..], self.code);
        LittleEndian::write_u16(&mut bytes[6..], self.table);
        LittleEndian::write_u64(&mut bytes[8..], self.number);
        bytes
    }
}

/// Fills the buffer from the input, or returns false if the input ends with fewer bytes.
pub fn fill<R: Read>(input: &mut R, buffer: &mut [u8]) -> io::Result<bool>
    ensures { IfOk result (λ filled. Fills filled (R.remaining input.old) (R.remaining input.new) buffer.new) }
{
    let mut filled = 0;
    while filled < buffer.len() {
        let count = input.read(&mut buffer[filled..])?;
        if count == 0 {
            return Ok(false);
        }
        filled += count;
    }
    Ok(true)
}
