use crate::calls::{CYCLES, READS_OF_A_KIND, Reading, Spent, TOGETHER};
use crate::engine::{Load, Made};
use pmem_model::Operations;
use std::alloc::Global;
use std::fs::File;
use std::io;
use std::rt::Files;
use std::time::Duration;

/// The load, and what its run did.
pub fn print_run<H: Print>(rt: &H, load: &Load, made: &Made) -> io::Result<()> {
    println!(rt;
        "slots {} keys {} commits {} batch {} reads {}",
        load.slots, load.keys, load.commits, load.batch, load.reads
    )?;
    println!(rt;
        "cycles {} ticks {} rows {}",
        made.cycles, made.ticks, made.rows
    )
}

/// How fast the commits and the reads of the load were.
pub fn print_rates<H: Print>(rt: &H, load: &Load, made: &Made) -> io::Result<()> {
    print_rate(rt, "commits", load.commits, made.committing)?;
    print_rate(rt, "reads", load.reads, made.reading)
}

/// What a device did.
pub fn print_operations<H: Print>(rt: &H, made: Operations) -> io::Result<()> {
    println!(rt;
        "stores {} flushes {} fences {}",
        made.stores, made.flushes, made.fences
    )
}

/// How many commits of the load were covered while a commit that was drawn before them wasn't stamped.
pub fn print_covered<H: Print>(rt: &H, covered: u64, load: &Load) -> io::Result<()> {
    println!(rt;
        "covered {covered} of {} beside one that never stamps",
        load.commits
    )
}

/// How long each kind of call took.
pub fn print_spent<H: Print>(rt: &H, spent: &Spent) -> io::Result<()> {
    let calls = CYCLES * u64::from(TOGETHER);
    print_each(rt, "put", calls, spent.puts)?;
    print_each(rt, "draw", calls, spent.draws)?;
    print_each(rt, "stamp", calls, spent.stamps)?;
    print_each(rt, "poll", calls, spent.polls)?;
    print_each(rt, "tick", spent.ticked, spent.ticks)
}

/// How long each kind of read took.
pub fn print_reading<H: Print>(rt: &H, took: &Reading) -> io::Result<()> {
    print_each(rt, "present", READS_OF_A_KIND, took.present)?;
    print_each(rt, "absent", READS_OF_A_KIND, took.absent)?;
    print_each(rt, "old", READS_OF_A_KIND, took.old)
}

/// How many nanoseconds one of these took.
pub fn print_each<H: Print>(rt: &H, name: &str, count: u64, took: u128) -> io::Result<()> {
    let each = took / u128::from(count).max(1);
    println!(rt; "{name} {each} ns")
}

/// How many of these there were, and how many per second.
pub fn print_rate<H: Print>(rt: &H, name: &str, count: u64, took: Duration) -> io::Result<()> {
    let rate = count as u128 * 1_000_000_000 / took.as_nanos().max(1);
    println!(rt;
        "{count} {name} in {}.{:06} seconds, {rate} a second",
        took.as_secs(),
        took.subsec_micros()
    )
}

/// How much memory the process has, and the most that it had.
pub fn print_memory<H: Print + Files<File = File>>(rt: &H, alloc: Global) -> io::Result<()> {
    let status = io::read_to_string(alloc, File::open(rt, "/proc/self/status")?)?;
    for line in status.lines() {
        if line.starts_with("VmRSS") || line.starts_with("VmHWM") {
            println!(rt; "{line}")?;
        }
    }
    Ok(())
}
