ghost use Rattle.std.specs.Prelude.{◌≡◌, ◌*◌, ◌<◌, ◌≤◌, ◌^◌, ◌++◌, length, All, IfOk, OnOk};
ghost use Rattle.journal.specs.LinePayloads.{packed, line_payloads, payloads_of_lines, line_of};
ghost use Rattle.journal.specs.Entries.{marks, entry};
ghost use Rattle.journal.specs.Opened.{AreLines};

use crate::entry::marked;
use std::alloc::AllocError;

/// A line of eight words.
#[derive(Clone, Copy, Debug)]
pub struct Line {
    pub number: usize,
    pub words: [u64; 8],
}

// The number, and below it the highest bit of each word.
fn packed(line: &Line) -> u64
    requires { line.now.number < 2 ^ 55 }
    ensures is { result ≡ packed line.now.number line.now.words }
    ensures small { result < 2 ^ 63 }
{
    let mut rest = line.number as u64;
    for place in 0..8 {
        rest = rest * 2 + line.words[7 - place] / (1 << 63);
    }
    rest
}

// The words of a line, in this pass.
fn marked_line(line: &Line, pass: bool) -> [u64; 9]
    requires { line.now.number < 2 ^ 55 }
    ensures { result ≡ marks pass (line_payloads line.now) }
{
    let mut words = [0; 9];
    for place in 0..8 {
        words[place] = marked(line.words[place] % (1 << 63), pass);
    }
    words[8] = marked(packed(line), pass);
    words
}

/// Leaves in this list the words of an entry of this pass with these lines.
pub(crate) fn put_entry(words: &mut Vec<u64>, lines: &[Line], pass: bool) -> Result<(), AllocError>
    requires numbers { All (λ line. line.number < 2 ^ 55) lines.now }
    requires lines_are { AreLines lines.now }
    requires fits { 9 * length lines.now < 2 ^ 58 }
    ensures { OnOk result (words.new.items ≡ entry pass (payloads_of_lines lines.now)) }
{
    words.clear();
    words.push(marked(9 * lines.len() as u64, pass))?;
    for line in lines {
        words.extend_from_slice(&marked_line(line, pass))?;
    }
    Ok(())
}

/// The line that nine payloads stand for.
pub fn line_of(payloads: &[u64]) -> Line
    requires { 9 ≤ length payloads.now }
    ensures { result ≡ line_of payloads.now }
{
    let mut rest = payloads[8];
    let mut words = [0; 8];
    for place in 0..8 {
        words[place] = payloads[place] % (1 << 63) + (rest % 2) * (1 << 63);
        rest /= 2;
    }
    Line {
        number: rest as usize,
        words,
    }
}
