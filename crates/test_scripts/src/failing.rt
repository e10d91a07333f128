use std::io;
use std::io::{ErrorKind, Read, Write};

/// An input that gives its bytes, and then fails.
#[derive(Drop)]
pub struct Torn<'a> {
    pub rest: &'a [u8],
}

impl Read for Torn<'_> {
    fn read(&mut self, buf: &mut [u8]) -> io::Result<usize> {
        if self.rest.is_empty() {
            return Err(io::Error::from(ErrorKind::ConnectionReset));
        }
        self.rest.read(buf)
    }
}

/// An output that takes this many bytes, and then fails.
#[derive(Drop)]
pub struct Short {
    pub left: usize,
}

impl Write for Short {
    fn write(&mut self, buf: &[u8]) -> io::Result<usize> {
        if self.left < buf.len() {
            return Err(io::Error::from(ErrorKind::WriteZero));
        }
        self.left -= buf.len();
        Ok(buf.len())
    }

    fn flush(&mut self) -> io::Result<()> {
        Ok(())
    }
}
