ghost use Rattle.std.specs.Prelude.{◌≡◌, ◌≤◌, [], drop, false, length, take, IfOk, IsTrue, OnOk};
ghost use Rattle.std.specs.Io.{WritesAtMost};
ghost use Rattle.std.specs.Io.KnownBytes.{Keeps, WriteAppends, append_known};
ghost use Rattle.standard_streams.specs.Lines.{IsOneLine, TakesLine, ends_work, is_ended};

use std::alloc::{AllocError, Global};
use std::io;
use std::io::{ErrorKind, Write};

/// No line that ends the work is longer than this.
const ROOM: usize = 128;

/// An output that holds back the line that reports success, since that has yet to come true. Every other line is passed on as it comes,
/// so a reader needn't wait for any of them. What is given in pieces is held until its line has ended and more is written.
#[derive(Drop)]
pub struct LastLine<W> {
    output: W,
    held: Vec<u8>,
    /// Of every value: what is held has a line feed nowhere but at its end.
    ghost one_line: { IsOneLine held.items },
}

impl<W: Write> LastLine<W> {
    ghost use Rattle.standard_streams.specs.Held.{held_in, output_of};

    /// Over this output, with nothing held.
    pub fn new(alloc: Global, output: W) -> Result<LastLine<W>, AllocError>
    where
        W: Drop,
        ensures output { IfOk result (λ made. output_of made ≡ output) }
        ensures held { IfOk result (λ made. held_in made ≡ []) }
    {
        let held = Vec::with_capacity(alloc, ROOM)?;
        Ok(LastLine { output, held })
    }

    /// What it passes lines on to.
    pub fn output(&self) -> &W
        ensures output { result.now ≡ output_of self.now }
    {
        &self.output
    }

    /// Passes on what is held.
    pub fn finish(self) -> io::Result<W>
    where
        W: Drop,
        // The output then has all that was written.
        ensures whole { IfOk result (λ output. Keeps (append_known (W.contents (output_of self)) (held_in self)) (W.contents output)) }
    {
        let LastLine { mut output, held } = self;
        output.write_all(held.as_slice())?;
        Ok(output)
    }

    /// Drops what is held, and returns the output as it was.
    pub fn give_up(self) -> W
        ensures output { result ≡ output_of self }
    {
        let LastLine { output, held: _ } = self;
        output
    }

    fn pass_on(&mut self) -> io::Result<()>
        ensures all { OnOk result (self.new.held.items ≡ []) }
        ensures bytes { Keeps (append_known (W.contents self.old.output) self.old.held.items) (append_known (W.contents self.new.output) self.new.held.items) }
    {
        while !self.held.is_empty() {
            let passed = self.output.write(self.held.as_slice())?;
            if passed == 0 {
                return Err(io::Error::from(ErrorKind::WriteZero));
            }
            remove_front(&mut self.held, passed);
        }
        Ok(())
    }
}

impl<W: Write> Write for LastLine<W> {
    ghost use Rattle.standard_streams.specs.Held.{held_in, output_of};

    ghost contents = { λ line. append_known (W.contents line.output) line.held.items };

    // Takes what belongs to one line.
    fn write(&mut self, buf: &[u8]) -> io::Result<usize>
        ensures bound { WritesAtMost result buf.now }

        // What the output has and what is held is, in this order, all that was written. An error changes neither.
        ensures bytes { WriteAppends (append_known (W.contents (output_of self.old)) (held_in self.old)) (append_known (W.contents (output_of self.new)) (held_in self.new)) result buf.now }

        // Of what is given no more than its first line is taken. Together with what was held of its beginning it is held, whole,
        // if it isn't ended yet or says that the work was done. If it is another, whole line, nothing is held then (`TakesLine`).
        ensures line { IfOk result (TakesLine (held_in self.old) (held_in self.new) buf.now) }

        // A line that says that the work was done, `closed`, `formatted` or `stopped`, isn't passed on.
        ensures held { held_in self.old ≡ [] → IsOneLine buf.now → IsTrue (ends_work buf.now) → output_of self.new ≡ output_of self.old }

        // Every other whole line is.
        ensures passed { held_in self.old ≡ [] → IsOneLine buf.now → IsTrue (is_ended buf.now) → ends_work buf.now ≡ false → held_in self.new ≡ [] }
    {
        if is_ended(self.held.as_slice()) {
            self.pass_on()?;
        }
        let line = first_line(buf);
        if self.held.is_empty() && is_ended(line) && !ends_work(line) {
            return self.output.write(line);
        }
        self.held.extend_from_slice(line)?;
        Ok(line.len())
    }

    // What is held stays held.
    fn flush(&mut self) -> io::Result<()>
        // What is held stays held, and the output has what it had.
        ensures bytes { Keeps (append_known (W.contents (output_of self.old)) (held_in self.old)) (append_known (W.contents (output_of self.new)) (held_in self.new)) }
        ensures held { held_in self.new ≡ held_in self.old }
    {
        self.output.flush()
    }
}

// The bytes up to the first line feed, and this.
fn first_line(bytes: &[u8]) -> &[u8]
    ensures front { result.now ≡ take (length result.now) bytes.now }
    ensures one_line { IsOneLine result.now }
    ensures ended { is_ended result.now ≡ false → result.now ≡ bytes.now }
    ensures whole { IsOneLine bytes.now → result.now ≡ bytes.now }
{
    match bytes.iter().position(|byte| *byte == b'\n') {
        Some(at) => &bytes[..at + 1],
        None => bytes,
    }
}

fn is_ended(bytes: &[u8]) -> bool
    ensures { result ≡ is_ended bytes.now }
{
    bytes.ends_with(b"\n")
}

fn ends_work(line: &[u8]) -> bool
    ensures { result ≡ ends_work line.now }
{
    line.starts_with(b"closed") || line.starts_with(b"formatted") || line.starts_with(b"stopped")
}

fn remove_front(bytes: &mut Vec<u8>, count: usize)
    requires { count ≤ length bytes.old.items }
    ensures { bytes.new.items ≡ drop count bytes.old.items }
{
    let length = bytes.len();
    bytes.as_mut_slice().copy_within(count..length, 0);
    bytes.truncate(length - count);
}
