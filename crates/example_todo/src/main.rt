//! A to-do list in a file, by the lines of standard input: add TEXT, done NUMBER, list.
#![tactic(auto)]

use anyhow::Error;
use store::{Geometry, Row, RowExt, Store, key};

const TODO: u16 = 7;

fn main(rt: HostRuntime) -> Result<(), Error> {
    let list = Store::open(rt, rt.alloc(), "todo.img", Geometry::wide(64, 2, 64)?)?;
    for line in rt.lines(rt.alloc()) {
        let line = line?;
        if let Some(text) = line.strip_prefix("add ") {
            let row = Row::of_text(text)?;
            list.transact(|t| {
                let number = t.last_key(TODO)?.unwrap_or(0).saturating_add(1);
                t.put(key(TODO, number), row)
            })?;
        } else if let Some(number) = line.strip_prefix("done ") {
            let number = number.parse::<u64>()?;
            list.transact(|t| t.delete(key(TODO, number)))?;
        } else {
            for (key, row) in list.read()?.scan(TODO, ..)? {
                println!(rt; "{} {}", key.key, row.as_text().unwrap_or("?"))?;
            }
        }
    }
    println!(rt; "{} left", list.read()?.count(TODO, ..)?)?;
    Ok(list.close()?)
}
