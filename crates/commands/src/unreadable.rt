use anyhow;
use base::fault::Fault;
use thiserror::Error;

/// Why a line, or the words after the file's name, can't be read.
#[derive(Debug, Drop, Error)]
pub enum Unreadable {
    /// The first word of the line isn't the name of a command.
    #[error("{0}")]
    Unknown(anyhow::Error),
    /// The command doesn't take these words.
    #[error("{0}")]
    Words(#[from] anyhow::Error),
    /// The row is neither in hexadecimal digits nor text.
    #[error("{0}: bytes are two hexadecimal digits each, and text needs quotation marks, which a shell takes away: '\"text\"'")]
    Row(anyhow::Error),
    #[error("{0}")]
    Fault(#[from] Fault),
    #[error("the line is not valid UTF-8")]
    NotText,
    #[error("the line is longer than {0} bytes")]
    LineTooLong(usize),
    #[error("the input ended within this line: without its line feed, part of it may be missing")]
    Cut,
}

impl Unreadable {
    /// The name by which programs recognize why a line is refused.
    pub fn name(&self) -> &'static str {
        match self {
            Unreadable::Unknown(_) => "UnknownCommand",
            Unreadable::Words(_) | Unreadable::Row(_) => "BadWords",
            Unreadable::Fault(fault) => fault.name(),
            Unreadable::NotText => "NotText",
            Unreadable::LineTooLong(_) => "LineTooLong",
            Unreadable::Cut => "LineCut",
        }
    }

    /// Whether a person may type another line instead, and go on with the transaction.
    pub fn is_harmless(&self) -> bool {
        !matches!(self, Unreadable::Fault(_) | Unreadable::Cut)
    }
}
