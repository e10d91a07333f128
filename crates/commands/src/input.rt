use crate::unreadable::Unreadable;
use std::alloc::Global;
use std::io::{BufRead, BufReader, Read};
use std::{io, str};

/// The greatest length of a line, in bytes.
pub const MOST_BYTES: usize = 4_096;

const LINE_FEED: u8 = b'\n';

/// A line of the input, or its bytes if it can't be read.
#[derive(Clone, Copy)]
pub enum Line<'a> {
    Text(&'a str),
    NotText(&'a [u8]),
    TooLong(&'a [u8]),
    /// The input ended inside it: the rest may be missing.
    Cut,
}

/// The lines of an input. They take no more memory than the longest line that is allowed.
#[derive(Drop)]
pub struct Lines<R: Read + Drop> {
    input: BufReader<R>,
    line: Vec<u8>,
    number: u64,
}

impl<R: BufRead + Drop> Lines<R> {
    pub fn new(alloc: Global, input: R) -> io::Result<Lines<R>> {
        Ok(Lines {
            input: BufReader::new(alloc, input)?,
            line: Vec::with_capacity(alloc, MOST_BYTES + 1)?,
            number: 0,
        })
    }

    /// The number of the line that was read last, counted from 1.
    pub fn number(&self) -> u64 {
        self.number
    }

    /// Whether a whole line was read ahead, so that reading the next line won't wait.
    pub fn has_line(&self) -> bool {
        self.input.buffer().contains(&LINE_FEED)
    }

    /// Reads the next line, without its line feed, or returns `None` at the end.
    pub fn next_line(&mut self) -> io::Result<Option<Line<'_>>> {
        self.line.clear();
        let most = MOST_BYTES as u64 + 1;
        let mut start = self.input.by_ref().take(most);
        if start.read_until(LINE_FEED, &mut self.line)? == 0 {
            return Ok(None);
        }
        self.number = self.number.saturating_add(1);
        if self.line.last() == Some(&LINE_FEED) {
            self.line.pop();
            return Ok(Some(decoded(self.line.as_slice())));
        }
        if self.line.len() <= MOST_BYTES {
            return Ok(Some(Line::Cut));
        }
        self.input.skip_until(LINE_FEED)?;
        Ok(Some(Line::TooLong(self.line.as_slice())))
    }
}

// A whole line, from its bytes.
fn decoded(bytes: &[u8]) -> Line<'_> {
    match str::from_utf8(bytes) {
        Ok(text) => Line::Text(text),
        Err(_) => Line::NotText(bytes),
    }
}

/// The text of a line.
pub fn text_of(line: Line<'_>) -> Result<&str, Unreadable> {
    match line {
        Line::Text(text) => Ok(text),
        Line::NotText(_) => Err(Unreadable::NotText),
        Line::TooLong(_) => Err(Unreadable::LineTooLong(MOST_BYTES)),
        Line::Cut => Err(Unreadable::Cut),
    }
}

/// The bytes of a line's first word.
pub fn first_word<'a>(line: Line<'a>) -> &'a [u8] {
    let bytes = match line {
        Line::Text(text) => text.as_bytes(),
        Line::NotText(bytes) | Line::TooLong(bytes) => bytes,
        Line::Cut => &[],
    };
    let word = bytes.trim_ascii_start();
    match word.iter().position(|byte| byte.is_ascii_whitespace()) {
        Some(end) => &word[..end],
        None => word,
    }
}
