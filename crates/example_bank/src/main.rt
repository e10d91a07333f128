//! A bank in a file: two threads pay to and fro between the same accounts, and no payment is lost or made twice.
#![tactic(auto)]

use anyhow::{Context, Error};
use std::sync::Wait;
use store::{Geometry, Key, RowExt, Store, StoreError, key};

fn pay<R: Wait + Drop>(bank: &Store<R>, from: Key, to: Key, sum: u64) -> Result<(), StoreError> {
    bank.transact(|t| {
        let payer = t.number(from)?.unwrap_or(0);
        t.put_number(from, payer.checked_sub(sum).context("too little")?)?;
        t.put_number(to, t.number(to)?.unwrap_or(0).saturating_add(sum))
    })?;
    Ok(())
}

fn main(rt: HostRuntime) -> Result<(), Error> {
    let (ann, bob, geometry) = (key(1, 1), key(1, 2), Geometry::new(64, 2, 64)?);
    let bank = Store::open(rt, rt.alloc(), "bank.img", geometry)?;
    let mut late = bank.begin()?;
    late.put_number(ann, 0)?;
    bank.transact(|t| t.put_number(ann, 10))?;
    bank.transact(|t| t.put_number(bob, 10))?;
    println!(rt; "{}", late.commit().err().context("no conflict")?)?;
    let (to, fro) = std::thread::join(&rt, || pay(&bank, ann, bob, 6), || pay(&bank, bob, ann, 4));
    (to?, fro?);
    bank.close()?;
    let bank = Store::open(rt, rt.alloc(), "bank.img", geometry)?;
    for (key, row) in bank.read()?.scan(1, ..)? {
        println!(rt; "account {} has {}", key.key, row.as_u64().unwrap_or(0))?;
    }
    Ok(bank.close()?)
}
