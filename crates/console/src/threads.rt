ghost use Rattle.std.specs.Prelude.{◌≡◌, ◌⊎◌, ◌*◌, [], filter, IfErr, IfOk, OnOk};
ghost use Rattle.std.specs.Io.KnownBytes.{Appends};
ghost use Rattle.machine.specs.Machine.{State, StandsClosed};
ghost use Rattle.base.specs.declared.fault.Fault.TheVariants.{OutOfMemory};
ghost use Rattle.pmem_model.specs.Sim.{device_of};
ghost use Rattle.room.specs.Room.{Shows};
ghost use Rattle.room.specs.Runs.{OpensTo};
ghost use Rattle.workload.specs.Load.{HasFree, HasNumbers, MakesTo};
ghost use Rattle.console.specs.BadLine.{BlamesNoLine};
ghost use Rattle.console.specs.Kept.{KeepsHistories};
ghost use Rattle.console.specs.Refusals.{IfRefused, IsClosingFault, IsFileFault};
ghost use Rattle.console.specs.Threads.{IsThreadsFault, PrintsThreads, is_of_thread, threads_text};

use crate::checking::show_rows;
use crate::run::close_room;
use crate::stop::{Stop, without_fuse};
use base::fault::Fault;
use base::key::Key;
use base::row::Row;
use command_line::image_file::{file_of_words, words_of_file};
use command_line::printed::{Printed, print};
use image_check::check;
use pmem_model::{Choice, SimPmem};
use room::Room;
use std::alloc::{AllocError, Global};
use std::io;
use std::io::Write;
use std::sync::Wait;
use std::thread::Threads;
use workload::{Load, run_load};

/// Opens the image in the file, and lets threads make their commits. Returns what the file is to hold then.
pub fn run_threads<T: Threads + Wait + Copy + Drop + Send + Sync + 'static, W: Write>(
    rt: &T,
    alloc: Global,
    file: &[u8],
    load: Load,
    output: &mut W,
) -> Result<Vec<u8>, Stop>
    ensures prints { IfOk result (λ left. PrintsThreads load.sessions load.commits file.now (W.contents output.old) (W.contents output.new) left.items) }

    // So no commits of theirs take a covered commit away.
    ensures keeps { IfOk result (λ left. ∥ KeepsHistories file.now left.items ∥₁) }
    ensures blames { IfErr result BlamesNoLine }
    ensures refused { IfErr result (IfRefused (λ fault. (fault ≡ OutOfMemory)
        ⊎ (IsFileFault file.now (IsThreadsFault load.sessions load.commits) fault × Appends (W.contents output.old) (W.contents output.new) []))) }
{
    let words = words_of_file(alloc, file)?;
    let room = worked_on(rt, alloc, words.as_slice(), load)?;
    let image = closed_image(room)?;
    let report = check(rt, alloc, image.as_slice())?;
    let left = file_of_words(alloc, image.as_slice())?;
    show_threads(alloc, load, report.rows.as_slice(), output)?;
    Ok(left)
}

// The room that these words are opened as, once the threads have made their commits.
fn worked_on<T: Threads + Wait + Copy + Drop + Send + Sync + 'static>(
    rt: &T,
    alloc: Global,
    words: &[u64],
    load: Load,
) -> Result<Room<SimPmem>, Fault>
    ensures made { IfOk result (λ room. MakesTo words.now load.sessions load.commits (Shows device_of room)) }
    ensures has_slots { OnOk result (OpensTo words.now (HasFree (2 * load.sessions))) }
    ensures has_numbers { OnOk result (OpensTo words.now (HasNumbers (load.sessions * load.commits))) }
    ensures fault { IfErr result (λ fault. (fault ≡ OutOfMemory) ⊎ IsThreadsFault load.sessions load.commits words.now fault) }
{
    let device = SimPmem::from_words(alloc, words)?;
    match run_load(rt, alloc, device, load) {
        Ok(room) => Ok(room),
        Err(fault) => Err(without_fuse(fault)),
    }
}

// What the device holds once the room is closed.
fn closed_image(room: Room<SimPmem>) -> Result<Vec<u64>, Fault>
    ensures closed { IfOk result (λ image. (q : State) → Shows device_of room q → StandsClosed q image.items) }
    ensures fault { IfErr result (λ fault. (fault ≡ OutOfMemory) ⊎ ((q : State) → Shows device_of room q → IsClosingFault q fault)) }
{
    let device = close_room(room)?;
    device.crash(&Choice::Oldest)?.image()
}

// How many commits the threads made, and the rows that they put.
fn show_threads<W: Write>(
    alloc: Global,
    load: Load,
    rows: &[(Key, Row)],
    output: &mut W,
) -> io::Result<()>
    ensures { OnOk result (Appends (W.contents output.old) (W.contents output.new) (threads_text load.sessions load.commits rows.now)) }
{
    let made = load.sessions.saturating_mul(load.commits);
    let own = rows_of_threads(alloc, load.sessions, rows)?;
    print(alloc, output, &Printed::Committed(made))?;
    show_rows(alloc, own.as_slice(), output)?;
    let end = Printed::End {
        rows: load.sessions as usize,
    };
    print(alloc, output, &end)?;
    print(alloc, output, &Printed::ThreadsClosed)
}

// The rows that this many threads put.
fn rows_of_threads(
    alloc: Global,
    sessions: u64,
    rows: &[(Key, Row)],
) -> Result<Vec<(Key, Row)>, AllocError>
    ensures { IfOk result (λ own. own.items ≡ filter (is_of_thread sessions) rows.now) }
{
    let mut own = Vec::new(alloc);
    for row in rows {
        if is_of_thread(sessions, row) {
            own.push(*row)?;
        }
    }
    Ok(own)
}

// Whether one of this many threads put the row.
fn is_of_thread(sessions: u64, row: &(Key, Row)) -> bool
    ensures { result ≡ is_of_thread sessions row.now }
{
    let (key, _) = row;
    key.table == 1 && key.key < sessions
}
