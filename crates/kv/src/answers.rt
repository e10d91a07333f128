ghost use Rattle.answering.specs.Earned.{Commits, IsEarnedBy};
ghost use Rattle.commands.specs.declared.command.Request.{Request};

use answering::{Answer, Failure};
use commands::help::Word;
use printing::{Manner, Output};
use std::alloc::Global;
use std::io;
use std::io::Write;
use store::Status;

// The most answers of one short line that are held.
const MOST_HELD: usize = 16;

// How many bytes the answers that are held may have.
const ROOM: usize = 512;

/// Prints the answers to lines. A few short ones are held, so that they are printed together.
#[derive(Drop)]
pub struct Printer<'a, R> {
    pub output: Output<'a, R>,
    // The lines that are held, and how many there are.
    held: Vec<u8>,
    count: usize,
}

impl<'a, R: Print> Printer<'a, R> {
    pub fn new(alloc: Global, rt: &'a R, manner: Manner) -> io::Result<Printer<'a, R>> {
        Ok(Printer {
            output: Output { rt, manner },
            held: Vec::with_capacity(alloc, ROOM)?,
            count: 0,
        })
    }

    /// Prints what is held.
    pub fn flush(&mut self) -> io::Result<()> {
        if self.count == 0 {
            return Ok(());
        }
        let printed = self.output.rt.write_all(self.held.as_slice());
        self.held.clear();
        self.count = 0;
        printed
    }

    pub fn prompt(&mut self, is_open: bool) -> io::Result<()> {
        if !self.output.manner.is_prompted {
            return Ok(());
        }
        self.flush()?;
        match is_open {
            false => print!(self.output.rt; "kv> "),
            true => print!(self.output.rt; "kv*> "),
        }
    }

    /// Prints an answer, or holds it.
    pub fn print(&mut self, answer: &Answer) -> io::Result<()>
        // So `committed` is printed only if the commit of a request returned so.
        requires earned { (request : Request) × IsEarnedBy (Commits request) answer.now }
    {
        match answer {
            Answer::Begun => writeln!(self.held, "begun")?,
            Answer::Written => writeln!(self.held, "written")?,
            Answer::Aborted => writeln!(self.held, "aborted")?,
            Answer::Committed(timestamp) => writeln!(self.held, "committed {timestamp}")?,
            Answer::Done => writeln!(self.held, "done")?,
            _ => {
                self.flush()?;
                return self.print_now(answer);
            }
        }
        self.count = self.count.saturating_add(1);
        if self.count < MOST_HELD {
            Ok(())
        } else {
            self.flush()
        }
    }

    fn print_now(&self, answer: &Answer) -> io::Result<()> {
        match answer {
            Answer::Row(Some(row)) => println!(self.output.rt; "row {}", self.output.shown(row)),
            Answer::Row(None) => println!(self.output.rt; "none"),
            Answer::Count(count) => println!(self.output.rt; "count {count}"),
            Answer::Status(status) => self.print_status(status),
            _ => Ok(()),
        }
    }

    fn print_status(&self, status: &Status) -> io::Result<()> {
        println!(self.output.rt; "{status}")?;
        self.output.end_list(Status::LINES)
    }

    /// Prints that a line is refused, if a program reads what is printed. What is held is printed first.
    pub fn refuse(&mut self, failure: &Failure) -> io::Result<()> {
        self.flush()?;
        if self.output.manner.is_table {
            Ok(())
        } else {
            println!(self.output.rt; "refused {} {failure}", failure.name())
        }
    }

    /// Explains a command, or lists them, as the answer to a line.
    pub fn answer_help(&mut self, word: Option<Word>) -> io::Result<()> {
        self.flush()?;
        self.output.answer_help(word)
    }
}
