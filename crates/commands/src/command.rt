use crate::help::Word;
use base::key::Key;
use base::row::Row;

/// What a line, or the words after the file's name, ask for.
#[derive(Clone, Copy)]
pub enum Command {
    /// A request to the store.
    Ask(Request),
    /// Put the rows of the lines that follow.
    Load,
    /// Print how long each line takes, or stop printing it.
    Timing(bool),
    Help(Option<Word>),
    Quit,
}

/// A request to a store.
#[derive(Clone, Copy)]
pub enum Request {
    Put { key: Key, row: Row },
    Delete { key: Key },
    Get { key: Key },
    Scan(Range),
    Count { table: u16 },
    Tables,
    Dump,
    Status,
    Begin,
    Commit,
    Abort,
}

/// Keys of a table, both ends included, and which of their rows are shown.
#[derive(Clone, Copy)]
pub struct Range {
    pub table: u16,
    pub lo: u64,
    pub hi: u64,
    pub limit: u64,
    pub is_reverse: bool,
}

impl Range {
    /// All rows of the table.
    pub fn whole(table: u16) -> Range {
        Range {
            table,
            lo: 0,
            hi: u64::MAX,
            limit: u64::MAX,
            is_reverse: false,
        }
    }
}

impl Command {
    /// Why it can't be given after the file's name, if it can't: nothing follows it there.
    pub fn why_not_alone(&self) -> Option<&'static str> {
        match self {
            Command::Quit => Some(
                "quit ends lines of standard input; a command after FILE ends by itself",
            ),
            Command::Timing(_) => Some(
                "timing is about the lines that follow it, and nothing follows a command after FILE: use standard input",
            ),
            Command::Ask(Request::Begin | Request::Commit | Request::Abort) => {
                Some(
                    "a command after FILE is a transaction by itself: begin, commit and abort work on standard input",
                )
            }
            _ => None,
        }
    }

    /// Whether it creates a store if there is none, since it puts rows.
    pub fn creates(&self) -> bool {
        matches!(self, Command::Load | Command::Ask(Request::Put { .. }))
    }
}
