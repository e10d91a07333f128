use crate::shown::Shown;
use base::row::Row;
use commands::help::{LARGER, ROWS, TOPICS, Topic, Word};
use std::io;

/// Which ends of the program are terminals.
#[derive(Clone, Copy)]
pub struct Terminals {
    pub input: bool,
    pub output: bool,
    pub error: bool,
}

/// How the answers are printed, depending on who reads them.
#[derive(Clone, Copy)]
pub struct Manner {
    /// A person types the lines and reads what is printed: there is a prompt.
    pub is_prompted: bool,
    /// A person reads what is printed: rows are a table.
    pub is_table: bool,
    /// Rows that are text are printed as text.
    pub is_text: bool,
    /// A person reads standard error.
    pub is_watched: bool,
}

impl Manner {
    /// The manner that suits who is at each end, a person or a program.
    pub fn of(terminals: Terminals, reads_lines: bool, wants_text: bool) -> Manner {
        let is_table = terminals.output && (terminals.input || !reads_lines);
        Manner {
            is_prompted: is_table && reads_lines,
            is_table,
            is_text: is_table || wants_text,
            is_watched: terminals.error,
        }
    }
}

/// An output, and the manner of what is printed on it.
#[derive(Drop)]
pub struct Output<'a, R> {
    pub rt: &'a R,
    pub manner: Manner,
}

impl<'a, R: Print> Output<'a, R> {
    /// Prints the end of a list of this many lines, unless a person reads it and sees its end.
    pub fn end_list(&self, count: usize) -> io::Result<()> {
        if self.manner.is_table {
            Ok(())
        } else {
            println!(self.rt; "end {count}")
        }
    }

    /// A row in this manner.
    pub fn shown<'b>(&self, row: &'b Row) -> Shown<'b> {
        Shown {
            row,
            as_text: self.manner.is_text,
        }
    }

    /// Explains a command, or lists them.
    pub fn help(&self, word: Option<Word>) -> io::Result<()> {
        match word {
            Some(word) => self.explain_word(word),
            None => self.list(),
        }
    }

    /// The same as the answer to a line.
    pub fn answer_help(&self, word: Option<Word>) -> io::Result<()> {
        self.help(word)?;
        self.end_list(if word.is_some() { 1 } else { TOPICS.len() })
    }

    fn explain_word(&self, word: Word) -> io::Result<()> {
        for topic in &TOPICS {
            if topic.word == word {
                self.explain(topic)?;
            }
        }
        Ok(())
    }

    fn explain(&self, topic: &Topic) -> io::Result<()> {
        println!(self.rt; "{}", topic.form)?;
        println!(self.rt; "{}", topic.long)?;
        println!(self.rt; "For example:\n    {}", topic.example)
    }

    fn list(&self) -> io::Result<()> {
        println!(self.rt; "{ROWS}")?;
        for topic in &TOPICS {
            println!(self.rt; "    {:<45} {}", topic.form, topic.short)?;
        }
        println!(self.rt; "{LARGER}")
    }
}
