use std::io;
use std::io::{Read, Write};

/// An input or an output that keeps the error by which it failed: the error has the system's number, while its kind
/// alone may say nothing.
#[derive(Drop)]
pub struct Heard<'a, T> {
    stream: &'a mut T,
    pub failure: Option<io::Error>,
}

impl<'a, T> Heard<'a, T> {
    ghost use Rattle.std.specs.Prelude.{◌≡◌};

    pub fn new(stream: &'a mut T) -> Heard<'a, T>
        ensures same { result.stream.ghost_name ≡ stream.entry.ghost_name }
        ensures stream { result.stream.now ≡ stream.old }
    {
        Heard {
            stream,
            failure: None,
        }
    }
}

impl<R: Read> Read for Heard<'_, R> {
    fn read(&mut self, buf: &mut [u8]) -> io::Result<usize> {
        let given = self.stream.read(buf);
        if let Err(error) = &given {
            self.failure = Some(*error);
        }
        given
    }
}

impl<W: Write> Write for Heard<'_, W> {
    fn write(&mut self, buf: &[u8]) -> io::Result<usize> {
        let taken = self.stream.write(buf);
        if let Err(error) = &taken {
            self.failure = Some(*error);
        }
        taken
    }

    fn flush(&mut self) -> io::Result<()> {
        self.stream.flush()
    }
}
