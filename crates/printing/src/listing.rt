//! Lists of rows, printed as they are read: none is held for its end.

use crate::output::Output;
use base::key::Key;
use base::row::Row;
use commands::MOST_PUTS;
use std::io;

/// How many tables were counted, and the rows so far of the one that isn't over.
#[derive(Clone, Copy)]
pub struct TableCounts {
    tables: u64,
    open: Option<(u16, u64)>,
}

impl TableCounts {
    pub fn new() -> TableCounts {
        TableCounts {
            tables: 0,
            open: None,
        }
    }

    // Counts a row. If it begins another table, returns the one before it with its rows.
    fn add(&mut self, table: u16) -> Option<(u16, u64)> {
        match self.open {
            Some((open, rows)) if open == table => {
                self.open = Some((open, rows.saturating_add(1)));
                None
            }
            over => {
                self.tables = self.tables.saturating_add(1);
                self.open = Some((table, 1));
                over
            }
        }
    }
}

/// How many rows were dumped, and how many of them since the last commit.
#[derive(Clone, Copy)]
pub struct Dumped {
    rows: u64,
    puts: u64,
}

impl Dumped {
    pub fn new() -> Dumped {
        Dumped { rows: 0, puts: 0 }
    }
}

impl<'a, R: Print> Output<'a, R> {
    /// Prints the heading of rows.
    pub fn begin_rows(&self) -> io::Result<()> {
        if self.manner.is_table {
            println!(self.rt; "{:>20} | row", "key")?;
            println!(self.rt; "---------------------+----")?;
        }
        Ok(())
    }

    pub fn print_rows(&self, rows: &[(Key, Row)]) -> io::Result<()> {
        for (key, row) in rows {
            self.print_row(key.key, row)?;
        }
        Ok(())
    }

    fn print_row(&self, key: u64, row: &Row) -> io::Result<()> {
        let shown = self.shown(row);
        if self.manner.is_table {
            println!(self.rt; "{key:>20} | {shown}")
        } else {
            println!(self.rt; "row {key} {shown}")
        }
    }

    pub fn end_rows(&self, count: u64) -> io::Result<()> {
        println!(self.rt; "end {count}")
    }

    /// Prints the heading of tables.
    pub fn begin_tables(&self) -> io::Result<()> {
        if self.manner.is_table {
            println!(self.rt; "table | rows")?;
            println!(self.rt; "------+------")?;
        }
        Ok(())
    }

    /// Counts the rows of each table, and prints those of a table that is over.
    pub fn count_rows(&self, counts: &mut TableCounts, rows: &[(Key, Row)]) -> io::Result<()> {
        for (key, _) in rows {
            if let Some((table, count)) = counts.add(key.table) {
                self.print_count(table, count)?;
            }
        }
        Ok(())
    }

    pub fn end_tables(&self, counts: TableCounts) -> io::Result<()> {
        if let Some((table, count)) = counts.open {
            self.print_count(table, count)?;
        }
        println!(self.rt; "end {}", counts.tables)
    }

    fn print_count(&self, table: u16, count: u64) -> io::Result<()> {
        if self.manner.is_table {
            println!(self.rt; "{table:>5} | {count:>5}")
        } else {
            println!(self.rt; "table {table} {count}")
        }
    }

    /// Prints lines that put the rows, in transactions.
    pub fn dump_rows(&self, dumped: &mut Dumped, rows: &[(Key, Row)]) -> io::Result<()> {
        for (key, row) in rows {
            if dumped.puts == 0 {
                println!(self.rt; "begin")?;
            }
            println!(self.rt; "put {} {} {}", key.table, key.key, self.shown(row))?;
            dumped.rows = dumped.rows.saturating_add(1);
            dumped.puts = dumped.puts.saturating_add(1) % MOST_PUTS;
            if dumped.puts == 0 {
                println!(self.rt; "commit")?;
            }
        }
        Ok(())
    }

    pub fn end_dump(&self, dumped: Dumped) -> io::Result<()> {
        if dumped.puts != 0 {
            println!(self.rt; "commit")?;
        }
        println!(self.rt; "end {}", dumped.rows)
    }
}
