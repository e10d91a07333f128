ghost use Rattle.std.specs.Prelude.{◌≡◌, ◌≤◌, length, option_map, IfOk};
ghost use Rattle.requests.specs.Openings.{IsLinesOf, IsNumbersOf, IsOpeningOf, IsSplitOf, ReceivesName, ReceivesOpening};

use crate::head::{Head, fill};
use byteorder::{ByteOrder, LittleEndian};
use std::alloc::{AllocError, Global};
use std::io::{ErrorKind, Read};
use std::{io, str};

const EXISTING: u16 = 10;

const NARROW: u16 = 11;

const WIDE: u16 = 12;

const LARGE: u16 = 13;

// How many bytes the number of lines has before the other numbers of a layout.
const LINES: usize = 8;

// How many bytes the places and the window have before the name.
const NUMBERS: usize = 16;

/// The numbers of a layout that is asked for.
#[derive(Clone, Copy, Debug)]
pub struct Numbers {
    pub slots: u64,
    pub places: u64,
    pub window: u64,
}

/// How the store that is asked for is laid out.
#[derive(Clone, Copy, Debug)]
pub enum AskedLayout {
    /// As it is in its file, which isn't made.
    Existing,
    /// With these numbers, and rows of up to 32 bytes.
    Narrow(Numbers),
    /// With these numbers, and rows of up to 96 bytes.
    Wide(Numbers),
    /// Of version 4, with slots of this many lines.
    Large(u64, Numbers),
}

/// What the first frame of channel 0 asks: to open the store in the file of this name, and to serve this many channels.
#[derive(Debug, Drop)]
pub struct Opening {
    pub channels: u16,
    pub layout: AskedLayout,
    pub name: String,
}

impl Opening {
    /// No name is longer.
    pub const LONGEST_NAME: usize = 4_096;
}

/// Reads the first frame of channel 0. `None` if it isn't such a request, or the input ends before it does. One that announces a longer
/// name is `InvalidData`.
pub fn receive_opening<R: Read>(alloc: Global, input: &mut R) -> io::Result<Option<Opening>>
    // At Ok the bytes that were taken off the input are the frame of the request to open a store that is returned. Or they are a
    // whole frame that isn't such a request's, or less than a frame, and the input has ended.
    ensures { IfOk result (ReceivesOpening (R.remaining input.old) (R.remaining input.new)) }
{
    let mut bytes = [0; Head::SIZE];
    if !fill(input, &mut bytes)? {
        return Ok(None);
    }
    receive_name(alloc, input, &Head::of(&bytes))
}

// Reads what follows the head.
fn receive_name<R: Read>(alloc: Global, input: &mut R, head: &Head) -> io::Result<Option<Opening>>
    ensures { IfOk result (ReceivesName head.now (R.remaining input.old) (R.remaining input.new)) }
{
    let length = head.length as usize;
    if length > LINES + NUMBERS + Opening::LONGEST_NAME {
        return Err(io::Error::from(ErrorKind::InvalidData));
    }
    let mut payload = Vec::new(alloc);
    payload.resize(length, 0)?;
    if !fill(input, payload.as_mut_slice())? {
        return Ok(None);
    }
    Ok(opening_of(alloc, head, payload.as_slice())?)
}

// The request of a frame with this head, if it is one.
fn opening_of(alloc: Global, head: &Head, payload: &[u8]) -> Result<Option<Opening>, AllocError>
    requires length { length payload.now ≡ head.now.length }
    ensures { IfOk result (IsOpeningOf head.now payload.now) }
{
    let Some((layout, name)) = layout_and_name(head, payload) else {
        return Ok(None);
    };
    let Ok(name) = str::from_utf8(name) else {
        return Ok(None);
    };
    Ok(Some(Opening {
        channels: head.table,
        layout,
        name: String::from_str(alloc, name)?,
    }))
}

// The layout that is asked for, and the bytes of the name.
fn layout_and_name<'a>(head: &Head, payload: &'a [u8]) -> Option<(AskedLayout, &'a [u8])>
    requires length { length payload.now ≡ head.now.length }
    ensures { IsSplitOf head.now payload.now (option_map (λ split. (split.0, split.1.now)) result) }
{
    match head.code {
        EXISTING if head.number == 0 => Some((AskedLayout::Existing, payload)),
        NARROW => {
            let (numbers, name) = numbers_and_name(head, payload)?;
            Some((AskedLayout::Narrow(numbers), name))
        }
        WIDE => {
            let (numbers, name) = numbers_and_name(head, payload)?;
            Some((AskedLayout::Wide(numbers), name))
        }
        LARGE => {
            let (lines, rest) = lines_and_rest(payload)?;
            let (numbers, name) = numbers_and_name(head, rest)?;
            Some((AskedLayout::Large(lines, numbers), name))
        }
        _ => None,
    }
}

// How many lines a slot is to have, and the bytes behind that.
fn lines_and_rest<'a>(payload: &'a [u8]) -> Option<(u64, &'a [u8])>
    ensures { IsLinesOf payload.now (option_map (λ split. (split.0, split.1.now)) result) }
{
    let (lines, rest) = payload.split_at_checked(LINES)?;
    Some((LittleEndian::read_u64(lines), rest))
}

// The numbers of a layout, and the bytes of the name.
fn numbers_and_name<'a>(head: &Head, payload: &'a [u8]) -> Option<(Numbers, &'a [u8])>
    ensures { IsNumbersOf head.now payload.now (option_map (λ split. (split.0, split.1.now)) result) }
{
    let (numbers, name) = payload.split_at_checked(NUMBERS)?;
    let numbers = Numbers {
        slots: head.number,
        places: LittleEndian::read_u64(numbers),
        window: LittleEndian::read_u64(&numbers[8..]),
    };
    Some((numbers, name))
}
