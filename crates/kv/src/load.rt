use answering::{Failure, commit};
use anyhow::anyhow;
use base::key::Key;
use base::row::Row;
use commands::{Lines, LoadLine, MOST_PUTS, read_load_line};
use printing::Progress;
use std::alloc::Global;
use std::io::BufRead;
use std::rt::Clock;
use std::sync::Wait;
use store::{Store, Transaction};

/// Puts the rows of lines, in transactions.
#[derive(Drop)]
pub struct Loader<'a, R: Eprint + Clock + Wait + Drop> {
    alloc: Global,
    store: &'a Store<R>,
    progress: Progress<'a, R>,
    open: Option<Transaction<'a, R>>,
    // A begin was read, but not its commit yet.
    is_begun: bool,
    // How many rows the transaction has.
    puts: u64,
    // How many rows were read since the last end of a list.
    listed: u64,
    // How many rows are committed.
    kept: u64,
}

impl<'a, R: Eprint + Clock + Wait + Drop> Loader<'a, R> {
    pub fn new(alloc: Global, store: &'a Store<R>, progress: Progress<'a, R>) -> Loader<'a, R> {
        Loader {
            alloc,
            store,
            progress,
            open: None,
            is_begun: false,
            puts: 0,
            listed: 0,
            kept: 0,
        }
    }

    /// Ends the load. Returns how many rows are committed.
    pub fn end(self) -> u64 {
        self.progress.end();
        self.kept
    }

    /// Puts the rows of the lines up to the end, or up to a line that is refused.
    pub fn load<I: BufRead + Drop>(&mut self, lines: &mut Lines<I>) -> Result<(), Failure> {
        for _ in 0..u64::MAX {
            let Some(line) = lines.next_line().map_err(Failure::Input)? else {
                break;
            };
            let line = read_load_line(self.alloc, line)?;
            self.take(line)?;
        }
        if self.is_begun {
            return Err(Failure::Unfinished);
        }
        self.keep()
    }

    fn take(&mut self, line: LoadLine) -> Result<(), Failure> {
        match line {
            LoadLine::Row(key, row) => self.put(key, row),
            LoadLine::Begin => self.begin(),
            LoadLine::Commit => self.commit(),
            LoadLine::End(rows) => self.end_list(rows),
            LoadLine::Other => Ok(()),
        }
    }

    fn put(&mut self, key: Key, row: Row) -> Result<(), Failure> {
        let mut transaction = match self.open.take() {
            Some(transaction) => transaction,
            None => self.store.begin()?,
        };
        transaction.put(key, row)?;
        self.open = Some(transaction);
        self.puts = self.puts.saturating_add(1);
        self.listed = self.listed.saturating_add(1);
        if self.is_begun || self.puts < MOST_PUTS {
            return Ok(());
        }
        self.keep()
    }

    // From here on only the commit keeps what is put.
    fn begin(&mut self) -> Result<(), Failure> {
        if self.is_begun {
            return Err(refused("load: begin within begin"));
        }
        self.keep()?;
        self.is_begun = true;
        Ok(())
    }

    fn commit(&mut self) -> Result<(), Failure> {
        if !self.is_begun {
            return Err(refused("load: commit without begin"));
        }
        self.keep()?;
        self.is_begun = false;
        Ok(())
    }

    // Ends a list that should have this many rows.
    fn end_list(&mut self, rows: u64) -> Result<(), Failure> {
        let listed = self.listed;
        if listed != rows {
            return Err(Failure::Words(anyhow!(
                "load: the list had {rows} rows, and {listed} of them came"
            )));
        }
        self.listed = 0;
        Ok(())
    }

    // Commits the rows that are put.
    fn keep(&mut self) -> Result<(), Failure> {
        if let Some(transaction) = self.open.take() {
            let _ = commit(transaction)?;
            self.kept = self.kept.saturating_add(self.puts);
            self.puts = 0;
            self.progress.show(self.kept);
        }
        Ok(())
    }
}

fn refused(reason: &'static str) -> Failure {
    Failure::Words(anyhow!("{reason}"))
}
