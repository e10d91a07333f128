use crate::unreadable::Unreadable;
use anyhow::{Error, anyhow, bail};
use base::row::Row;
use hex::decode_to_slice;
use std::fmt;

const LIMITS: &str = "at most 32 are allowed, or up to 480 in a store that is created with --lines";

/// Whether a row in hexadecimal digits may have been meant as a word, like `beef`: it has only letters, and more than two.
pub fn may_be_text(word: &str) -> bool {
    2 < word.len() && word.bytes().all(|byte| byte.is_ascii_alphabetic())
}

/// The row that a word spells: text in quotation marks, two hexadecimal digits for each byte, or `-` for no bytes.
pub fn parse_row(command: &str, word: &str) -> Result<Row, Unreadable> {
    match word.strip_prefix('"') {
        Some(text) => Ok(parse_text(command, text)?),
        None if word == "-" => Ok(Row::new(&[])?),
        None => parse_digits(command, word),
    }
}

fn parse_digits(command: &str, word: &str) -> Result<Row, Unreadable> {
    let length = word.len() / 2;
    let mut bytes = [0; Row::LIMIT];
    if length > Row::LIMIT {
        return Err(Unreadable::Words(anyhow!("{command}: ROW has {length} bytes: {LIMITS}")));
    }
    match decode_to_slice(word, &mut bytes[..length]) {
        Ok(()) => Ok(Row::new(&bytes[..length])?),
        Err(_) => Err(Unreadable::Row(anyhow!("{command}: ROW {}", Bare(word)))),
    }
}

// The row that is spelled by the text after the first quotation mark.
fn parse_text(command: &str, text: &str) -> Result<Row, Error> {
    let Some(text) = text.trim_end().strip_suffix('"') else {
        bail!("{command}: ROW has no quotation mark at its end");
    };
    let mut bytes = Bytes::new();
    let mut is_escaped = false;
    for byte in text.bytes() {
        match read_escaped(is_escaped, byte) {
            Read::Byte(byte) => bytes.push(command, byte)?,
            Read::Escape => {}
            Read::Wrong(reason) => bail!("{command}: ROW {reason}"),
        }
        is_escaped = !is_escaped && byte == b'\\';
    }
    if is_escaped {
        bail!("{command}: ROW has a backslash before its last quotation mark");
    }
    bytes.row()
}

// What a byte of the text means.
#[derive(Clone, Copy)]
enum Read {
    Byte(u8),
    Escape,
    Wrong(&'static str),
}

// The escapes are a backslash before a quotation mark, before a backslash, and before n for a line feed.
fn read_escaped(is_escaped: bool, byte: u8) -> Read {
    match (is_escaped, byte) {
        (false, b'\\') => Read::Escape,
        (false, b'"') => Read::Wrong("has a quotation mark within the text: write it \\\" there"),
        (true, b'n') => Read::Byte(b'\n'),
        (true, b'"' | b'\\') | (false, _) => Read::Byte(byte),
        (true, _) => Read::Wrong("has an unknown escape: only \\\", \\\\ and \\n are allowed"),
    }
}

// A word as it was given, without control characters.
#[derive(Clone, Copy)]
struct Bare<'a>(&'a str);

impl fmt::Display for Bare<'_> {
    fn fmt<W: fmt::Write>(&self, f: &mut fmt::Formatter<W>) -> fmt::Result {
        for character in self.0.chars() {
            f.write_char(if character.is_control() {
                '?'
            } else {
                character
            })?;
        }
        Ok(())
    }
}

// The bytes of a row so far.
#[derive(Clone, Copy)]
struct Bytes {
    bytes: [u8; Row::LIMIT],
    length: usize,
}

impl Bytes {
    fn new() -> Bytes {
        Bytes {
            bytes: [0; Row::LIMIT],
            length: 0,
        }
    }

    fn push(&mut self, command: &str, byte: u8) -> Result<(), Error> {
        let Some(place) = self.bytes.get_mut(self.length) else {
            bail!("{command}: ROW is too long: {LIMITS}");
        };
        *place = byte;
        self.length = self.length.saturating_add(1);
        Ok(())
    }

    fn row(&self) -> Result<Row, Error> {
        let length = self.length.min(Row::LIMIT);
        Ok(Row::new(&self.bytes[..length])?)
    }
}
