use base::row::Row;
use std::{fmt, str};

/// A row, printed so that `put` can read it.
#[derive(Clone, Copy)]
pub struct Shown<'a> {
    pub row: &'a Row,
    /// Print text, if the row is readable text, and otherwise digits.
    pub as_text: bool,
}

impl fmt::Display for Shown<'_> {
    fn fmt<W: fmt::Write>(&self, f: &mut fmt::Formatter<W>) -> fmt::Result {
        match text_of(self.row) {
            Some(text) if self.as_text => write_text(f, text),
            _ => write!(f, "{}", self.row),
        }
    }
}

// The row as text, if it has any characters, and no control characters except line feeds.
fn text_of(row: &Row) -> Option<&str> {
    match str::from_utf8(row.as_bytes()) {
        Ok(text) if !text.is_empty() && text.chars().all(is_shown) => Some(text),
        _ => None,
    }
}

fn is_shown(character: char) -> bool {
    character == '\n' || !character.is_control()
}

fn write_text<W: fmt::Write>(f: &mut fmt::Formatter<W>, text: &str) -> fmt::Result {
    f.write_char('"')?;
    for character in text.chars() {
        match character {
            '\n' => f.write_str("\\n")?,
            '"' => f.write_str("\\\"")?,
            '\\' => f.write_str("\\\\")?,
            _ => f.write_char(character)?,
        }
    }
    f.write_char('"')
}
