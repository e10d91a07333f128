use crate::all_pages::AllPages;
use crate::answers::Printer;
use crate::load::Loader;
use answering::{Answer, Failure, Listing, RangePages, Session};
use base::fault::Fault;
use commands::{Command, Lines, Request, may_begin, parse_line};
use printing::{Dumped, Manner, Output, Progress, TableCounts};
use std::alloc::Global;
use std::io;
use std::io::BufRead;
use std::rt::Clock;
use std::sync::Wait;
use std::time::Instant;
use store::{Snapshot, Store};

/// How the lines ended.
#[derive(Clone, Copy)]
pub struct Outcome {
    /// A line was refused.
    pub was_refused: bool,
    /// A line was refused because no timestamps or record numbers are left.
    pub is_spent: bool,
}

impl Outcome {
    /// Nothing was refused.
    pub fn new() -> Outcome {
        Outcome {
            was_refused: false,
            is_spent: false,
        }
    }
}

/// Runs each line of the input, and prints what it returns. A transaction that is open at the end is rolled back. With `bails` it ends
/// at the first line that is refused.
pub fn answer_lines<'a, R: Input + Print + Eprint + Clock + Wait + Drop>(
    rt: &'a R,
    alloc: Global,
    store: &'a Store<R>,
    manner: Manner,
    bails: bool,
) -> Result<Outcome, Failure> {
    let mut shell = Shell::new(rt, alloc, store, manner).map_err(Failure::Output)?;
    shell.bails = bails;
    let mut lines = Lines::new(alloc, rt.reader()).map_err(Failure::Input)?;
    println!(rt; "ready").map_err(Failure::Output)?;
    let answered = shell.answer_each(&mut lines);
    let flushed = shell.flush();
    answered?;
    flushed?;
    Ok(shell.leave())
}

/// Runs one command.
pub fn answer_command<'a, R: Input + Print + Eprint + Clock + Wait + Drop>(
    rt: &'a R,
    alloc: Global,
    store: &'a Store<R>,
    manner: Manner,
    command: &Command,
) -> Result<Outcome, Failure> {
    let mut shell = Shell::new(rt, alloc, store, manner).map_err(Failure::Output)?;
    let mut lines = Lines::new(alloc, rt.reader()).map_err(Failure::Input)?;
    let ran = shell.run(&mut lines, command);
    let flushed = shell.flush();
    ran?;
    flushed?;
    Ok(shell.outcome)
}

// Rows that are read from a snapshot and printed.
#[derive(Clone, Copy)]
struct List<'b, 'a, R: Wait + Drop> {
    alloc: Global,
    output: &'b Output<'a, R>,
    snapshot: &'b Snapshot<'a, R>,
}

impl<R: Print + Wait + Drop> List<'_, '_, R> {
    fn rows(&self, pages: RangePages) -> Result<(), Failure> {
        let mut pages = pages;
        let mut rows = pages.next(self.alloc, self.snapshot)?;
        self.output.begin_rows().map_err(Failure::Output)?;
        let mut count: u64 = 0;
        for _ in 0..u64::MAX {
            if rows.is_empty() {
                break;
            }
            let printed = self.output.print_rows(rows.as_slice());
            printed.map_err(Failure::Output)?;
            count = count.saturating_add(rows.len() as u64);
            rows = pages.next(self.alloc, self.snapshot)?;
        }
        self.output.end_rows(count).map_err(Failure::Output)
    }

    fn tables(&self) -> Result<(), Failure> {
        let mut pages = AllPages::new();
        let mut page = pages.next(self.snapshot)?;
        self.output.begin_tables().map_err(Failure::Output)?;
        let mut counts = TableCounts::new();
        for _ in 0..u64::MAX {
            let Some(rows) = page else {
                break;
            };
            let printed = self.output.count_rows(&mut counts, rows.as_slice());
            printed.map_err(Failure::Output)?;
            page = pages.next(self.snapshot)?;
        }
        self.output.end_tables(counts).map_err(Failure::Output)
    }

    fn dump(&self) -> Result<(), Failure> {
        let mut pages = AllPages::new();
        let mut dumped = Dumped::new();
        for _ in 0..u64::MAX {
            let Some(rows) = pages.next(self.snapshot)? else {
                break;
            };
            let printed = self.output.dump_rows(&mut dumped, rows.as_slice());
            printed.map_err(Failure::Output)?;
        }
        self.output.end_dump(dumped).map_err(Failure::Output)
    }
}

// The conversation between a store and a person or a program.
#[derive(Drop)]
struct Shell<'a, R: Eprint + Clock + Wait + Drop> {
    alloc: Global,
    rt: &'a R,
    store: &'a Store<R>,
    session: Session<'a, R>,
    printer: Printer<'a, R>,
    is_timed: bool,
    bails: bool,
    outcome: Outcome,
}

impl<'a, R: Print + Eprint + Clock + Wait + Drop> Shell<'a, R> {
    fn new(
        rt: &'a R,
        alloc: Global,
        store: &'a Store<R>,
        manner: Manner,
    ) -> io::Result<Shell<'a, R>> {
        Ok(Shell {
            alloc,
            rt,
            store,
            session: Session::new(alloc, store),
            printer: Printer::new(alloc, rt, manner)?,
            is_timed: false,
            bails: false,
            outcome: Outcome::new(),
        })
    }

    // Prints the answers that are held.
    fn flush(&mut self) -> Result<(), Failure> {
        self.printer.flush().map_err(Failure::Output)
    }

    fn prompt(&mut self) -> Result<(), Failure> {
        let is_open = self.session.is_open();
        self.printer.prompt(is_open).map_err(Failure::Output)
    }

    // Runs each line. Before it waits for a line, it prints what is held.
    fn answer_each<I: BufRead + Drop>(&mut self, lines: &mut Lines<I>) -> Result<(), Failure> {
        for _ in 0..u64::MAX {
            if !lines.has_line() {
                self.flush()?;
            }
            self.prompt()?;
            if !self.answer_line(lines)? {
                break;
            }
        }
        Ok(())
    }

    // Runs the next line. Returns whether another one may follow.
    fn answer_line<I: BufRead + Drop>(&mut self, lines: &mut Lines<I>) -> Result<bool, Failure> {
        let Some(line) = lines.next_line().map_err(Failure::Input)? else {
            return Ok(false);
        };
        match parse_line(self.alloc, line) {
            Ok(None) => {}
            Ok(Some(Command::Quit)) => return Ok(false),
            Ok(Some(command)) => self.run(lines, &command)?,
            Err(unreadable) => {
                let begins = may_begin(self.alloc, line);
                self.refuse(lines.number(), begins, Failure::from(unreadable))?;
            }
        }
        Ok(!self.has_bailed())
    }

    // Whether reading ends here, since a line was refused.
    fn has_bailed(&self) -> bool {
        self.bails && self.outcome.was_refused
    }

    // Runs a command, and prints what it returns.
    fn run<I: BufRead + Drop>(
        &mut self,
        lines: &mut Lines<I>,
        command: &Command,
    ) -> Result<(), Failure> {
        let start = self.start();
        match self.answer(lines, command) {
            Ok(()) => {}
            Err(failure) if failure.is_final() => return Err(failure),
            Err(failure) => {
                let begins = matches!(command, Command::Ask(Request::Begin));
                self.refuse(lines.number(), begins, failure)?;
            }
        }
        self.print_time(start)
    }

    fn answer<I: BufRead + Drop>(
        &mut self,
        lines: &mut Lines<I>,
        command: &Command,
    ) -> Result<(), Failure> {
        match command {
            Command::Ask(request) => {
                let answer = self.session.answer(request)?;
                if let Answer::Listing(listing) = &answer {
                    return self.list(*listing);
                }
                self.printer.print(&answer).map_err(Failure::Output)
            }
            Command::Load => self.load(lines),
            Command::Timing(is_timed) => self.set_timing(*is_timed),
            Command::Help(word) => self.printer.answer_help(*word).map_err(Failure::Output),
            Command::Quit => Ok(()),
        }
    }

    // Reads rows some at a time, and prints what is made of them.
    fn list(&mut self, listing: Listing) -> Result<(), Failure> {
        self.flush()?;
        let reads = self.session.reads()?;
        let list = List {
            alloc: self.alloc,
            output: &self.printer.output,
            snapshot: reads.snapshot(),
        };
        match listing {
            Listing::Rows(pages) => list.rows(pages),
            Listing::Tables => list.tables(),
            Listing::Dump => list.dump(),
        }
    }

    fn set_timing(&mut self, is_timed: bool) -> Result<(), Failure> {
        self.flush()?;
        self.is_timed = is_timed;
        let word = if is_timed { "on" } else { "off" };
        println!(self.rt; "timing {word}").map_err(Failure::Output)
    }

    // Puts the rows of the remaining lines, up to one that is refused. At the end it prints how many are kept.
    fn load<I: BufRead + Drop>(&mut self, lines: &mut Lines<I>) -> Result<(), Failure> {
        if self.session.is_open() {
            return Err(Failure::Open);
        }
        self.flush()?;
        let progress = Progress::new(self.rt, self.printer.output.manner.is_watched);
        let mut loader = Loader::new(self.alloc, self.store, progress);
        let loaded = loader.load(lines);
        let kept = loader.end();
        if let Err(failure) = loaded {
            self.refuse_rest(lines.number(), failure)?;
        }
        println!(self.rt; "loaded {kept}").map_err(Failure::Output)
    }

    // Says why a load ended before the input did.
    fn refuse_rest(&mut self, line: u64, failure: Failure) -> Result<(), Failure> {
        if failure.is_final() {
            return Err(failure);
        }
        self.refuse(line, false, failure)
    }

    // Says that a line is refused and why, and breaks off the transaction that it belongs to. A person may type another line.
    fn refuse(&mut self, line: u64, begins: bool, failure: Failure) -> Result<(), Failure> {
        let failure = failure.in_store(&self.store.layout());
        self.note(&failure);
        self.printer.refuse(&failure).map_err(Failure::Output)?;
        let is_prompted = self.printer.output.manner.is_prompted;
        let _ = match (is_prompted, line) {
            (true, _) => eprintln!(self.rt; "refused: {failure}"),
            (false, 0) => eprintln!(self.rt; "kv: {failure}"),
            (false, _) => eprintln!(self.rt; "kv: line {line}: {failure}"),
        };
        if !(is_prompted && failure.is_harmless()) {
            self.session.break_off(line, begins && !is_prompted);
        }
        Ok(())
    }

    fn note(&mut self, failure: &Failure) {
        self.outcome.was_refused = true;
        if matches!(failure, Failure::Fault(Fault::TimestampsOut)) {
            self.outcome.is_spent = true;
        }
    }

    // If a transaction is open at the end of the input, says that it is rolled back.
    fn leave(&mut self) -> Outcome {
        if self.session.is_open() && !self.has_bailed() {
            self.outcome.was_refused = true;
            let _ = eprintln!(self.rt;
                "kv: the input ended inside a transaction, which is rolled back"
            );
        }
        self.outcome
    }

    // When a command begins, if its time will be printed.
    fn start(&self) -> Option<Instant> {
        if self.is_timed {
            Instant::now(self.rt).ok()
        } else {
            None
        }
    }

    fn print_time(&mut self, start: Option<Instant>) -> Result<(), Failure> {
        let Some(start) = start else {
            return Ok(());
        };
        if !self.is_timed {
            return Ok(());
        }
        self.flush()?;
        if let Ok(elapsed) = start.elapsed(self.rt) {
            let seconds = elapsed.as_secs();
            let micros = elapsed.subsec_micros();
            let _ = eprintln!(self.rt; "took {seconds}.{micros:06} s");
        }
        Ok(())
    }
}
