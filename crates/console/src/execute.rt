ghost use Rattle.std.specs.Prelude.{◌≡◌, ◌≢◌, ◌⊎◌, ◌≤◌, ◌↔◌, ◌++◌, ◌∷◌, [], codes, decimal, IfErr, IfOk, IfSome, IsSome, IsTrue, None, OnOk, Some, is_some};
ghost use Rattle.std.specs.Io.KnownBytes.{Appends};
ghost use Rattle.base.specs.Layout.{total_words};
ghost use Rattle.command_line.specs.ImageFile.{IsFileOf};
ghost use Rattle.base.specs.Fresh.{fresh_image};
ghost use Rattle.console.specs.BadLine.{BlamesNoLine, EndsAtLine, IfBadLine, IsLineOf, PrintsBadLine, ReportsLine};
ghost use Rattle.console.specs.Checked.{PrintsChecked};
ghost use Rattle.console.specs.Kept.{HasLimits, IfCheck, IfLives, IfReadsNoInput, Leaves, writes_file};
ghost use Rattle.console.specs.Printed.{Prints};
ghost use Rattle.console.specs.Scripts.{PrintsLives};
ghost use Rattle.console.specs.Refusals.{AreKnown, EndsRefused, EndsWith, IfRefused, IsFaultOf, Refuses, WantsMemory, refusal_line, status_of};
ghost use Rattle.console.specs.declared.stop.Stop.TheVariants.{Broken};
ghost use Rattle.base.specs.declared.fault.Fault.TheVariants.{OutOfMemory};
ghost use Rattle.std.specs.declared.io.ErrorKind.{ErrorKind as ErrorKindValue};
ghost use Rattle.std.specs.declared.io.ErrorKind.TheVariants.{OutOfMemory as NoMemory};

use crate::checking::check_file;
use crate::ended::Ended;
use crate::format::fresh_file;
use crate::run::run;
use crate::script::live_script;
use crate::stop::Stop;
use crate::threads::run_threads;
use base::fault::Fault;
use base::geometry::Geometry;
use command_line::orders::{Order, asked_geometry};
use command_line::printed::{Printed, print};
use std::alloc::Global;
use std::io::{ErrorKind, Read, Write};
use std::sync::Wait;
use std::thread::Threads;
use workload::Load;

/// Does the work of a subcommand. `file` is what FILE holds, or SCRIPT, and nothing for `format`.
pub fn execute<T: Threads + Wait + Copy + Drop + Send + Sync + 'static, R: Read, W: Write>(
    rt: &T,
    alloc: Global,
    order: &Order,
    file: &[u8],
    input: &mut R,
    output: &mut W,
) -> Ended
    // 0 if the work was done, 2 if a line isn't a command, and 1 if a refusal ended it, or the input or the output failed.
    // `stopped` says which fault, which line, or which kind of failure (`status_of`).
    ensures status { result.status ≡ status_of result.stopped }

    // There is something for FILE exactly if the status is 0 and the order is `format`, `run` or `threads`.
    ensures written { IsSome result.file ↔ ((result.status ≡ 0) × IsTrue (writes_file order.now)) }

    // For `format` it is byte for byte the fresh image's file. For `run` and `threads` it keeps, of whatever history the old
    // image stands for, all commits at its beginning, and the geometry (`KeepsHistories`).
    ensures file { IfSome result.file (λ left. Leaves order.now file.now left.items) }

    // A `format` that ends with 0 was asked for numbers within their limits.
    ensures limits { result.status ≡ 0 → HasLimits order.now }

    // The input is as it was, except for a `run`.
    ensures unread { IfReadsNoInput order.now (input.new ≡ input.old) }

    // `format` prints its line. `run` plays a whole life: the image opens, and the lines of the input, all or up to a crash, are
    // run from the opened state. It prints the lines of the opening, of each reply and of the end, and nothing else. After a
    // crash, what is left is an image as between two steps of the last state, with the survivor that the line names of each word
    // of a device that shows that state. Otherwise it is an image as after closing that state (`Lives`). `threads` prints how
    // many commits were asked for of all threads, and then the rows of table 1 that the image in FILE has under keys below the
    // number of threads. It also prints that number, and that the room is closed. The image opened, with two slots free for each
    // thread and numbers left for all commits. FILE is left with an image as closing leaves it. The state that was closed is the
    // very one to which a run came in which the threads made their commits (`PrintsThreads`).
    ensures printed { IfSome result.file (λ left. Prints order.now file.now (R.remaining input.old) (W.contents output.old) (W.contents output.new) left.items) }

    // For `check` with 0 the file is that of a sound image. Its ruling record, its tables' rows by rising key, and how many they
    // are, are printed, and nothing else.
    ensures checked { result.status ≡ 0 → IfCheck order.now (PrintsChecked file.now (W.contents output.old) (W.contents output.new)) }

    // For `lives` with 0 the script spells lives. Reports of a chain of these lives, asked as the script asks them, from a fresh
    // image of its geometry on, are printed line by line, and nothing else (`PrintsLives`, `AreLives`).
    ensures lived { result.status ≡ 0 → IfLives order.now (PrintsLives file.now (W.contents output.old) (W.contents output.new)) }

    // If a line is to blame, one of two things holds. Either `lives` found the script's line of the printed number wrong, and
    // printed nothing else. Or `run` came to a line that isn't a command, and those before it were run. Then the opening, their
    // replies and that line's number are printed, and nothing else.
    ensures bad_line { IfSome result.stopped (IfBadLine (ReportsLine order.now file.now (R.remaining input.old) (W.contents output.old) (W.contents output.new))) }

    // If a refusal ended the work, its fault is OutOfMemory or one of these. For `format` and `lives` it says that the numbers
    // are out of their limits, and for `run` and `check` it is the file's length or the first fault of its image. Exactly that
    // refusal's line is printed. For `run` it may also be the fault of closing after all lines were run, and then the opening,
    // the replies and that line are printed. For `threads` it is the file's length, why its image doesn't open, or SlotsOut if
    // two slots for each thread aren't free. If they are free, it is TimestampsOut if numbers aren't left, what `run_load` says
    // of the engine, or why the state to which the threads' commits led can't be closed. For `threads` that line alone is printed
    // (`Refuses`).
    ensures refused { IfSome result.stopped (IfRefused (Refuses order.now file.now (R.remaining input.old) (W.contents output.old) (W.contents output.new))) }

    // If the bytes of each writer of that kind are known, a refusal's line is the last that was printed, for lack of memory too.
    ensures last { AreKnown W.contents → IfSome result.stopped (IfRefused (λ fault. EndsWith (W.contents output.new) (refusal_line fault))) }
{
    match obey(rt, alloc, order, file, input, output) {
        Ok(file) => Ended {
            status: 0,
            file,
            stopped: None,
        },
        Err(stop) => report_stop(alloc, &stop, output),
    }
}

// What FILE is to hold, or `None` if it stays as it is.
fn obey<T: Threads + Wait + Copy + Drop + Send + Sync + 'static, R: Read, W: Write>(
    rt: &T,
    alloc: Global,
    order: &Order,
    file: &[u8],
    input: &mut R,
    output: &mut W,
) -> Result<Option<Vec<u8>>, Stop>
    ensures written { IfOk result (λ kept. is_some kept ≡ writes_file order.now) }
    ensures file { IfOk result (λ kept. IfSome kept (λ left. Leaves order.now file.now left.items)) }
    ensures limits { OnOk result (HasLimits order.now) }
    ensures unread { IfReadsNoInput order.now (input.new ≡ input.old) }
    ensures printed { IfOk result (λ kept. IfSome kept (λ left. Prints order.now file.now (R.remaining input.old) (W.contents output.old) (W.contents output.new) left.items)) }
    ensures checked { OnOk result (IfCheck order.now (PrintsChecked file.now (W.contents output.old) (W.contents output.new))) }
    ensures lived { OnOk result (IfLives order.now (PrintsLives file.now (W.contents output.old) (W.contents output.new))) }
    ensures bad_line { IfErr result (IfBadLine (λ number. EndsAtLine order.now file.now (R.remaining input.old) (W.contents output.old) (W.contents output.new) number [])) }
    ensures refused { IfErr result (IfRefused (λ fault. (fault ≡ OutOfMemory)
        ⊎ EndsRefused order.now file.now (R.remaining input.old) (W.contents output.old) (W.contents output.new) fault [])) }
{
    match *order {
        Order::Format {
            width,
            slots,
            places,
            window,
            ..
        } => {
            let geometry = match asked_geometry(width, slots, places, window) {
                Ok(geometry) => geometry,
                Err(fault) => return Err(Stop::Refused(fault)),
            };
            match format(alloc, geometry, output) {
                Ok(left) => Ok(Some(left)),
                Err(stop) => Err(stop),
            }
        }
        Order::Run { .. } => match run(rt, alloc, file, input, output) {
            Ok(left) => Ok(Some(left)),
            Err(stop) => Err(stop),
        },
        Order::Check { .. } => match check_file(rt, alloc, file, output) {
            Ok(()) => Ok(None),
            Err(stop) => Err(stop),
        },
        Order::Threads {
            sessions,
            commits,
            ..
        } => {
            let load = Load { sessions, commits };
            match run_threads(rt, alloc, file, load, output) {
                Ok(left) => Ok(Some(left)),
                Err(stop) => Err(stop),
            }
        }
        Order::Lives { .. } => match live_script(rt, alloc, file, output) {
            Ok(()) => Ok(None),
            Err(stop) => Err(stop),
        },
    }
}

fn format<W: Write>(alloc: Global, geometry: Geometry, output: &mut W) -> Result<Vec<u8>, Stop>
    ensures file { IfOk result (λ file. IsFileOf (fresh_image geometry) file.items) }
    ensures printed { OnOk result (Appends (W.contents output.old) (W.contents output.new)
        ((codes "formatted " ++ (decimal (total_words geometry) ++ codes " words")) ++ 10 ∷ [])) }
    ensures blames { IfErr result BlamesNoLine }
    ensures memory { IfErr result WantsMemory }
{
    let file = fresh_file(alloc, geometry)?;
    let words = geometry.words();
    print(alloc, output, &Printed::Formatted { words })?;
    Ok(file)
}

// Prints why the work ended early.
fn report_stop<W: Write>(alloc: Global, stop: &Stop, output: &mut W) -> Ended
    ensures some { 1 ≤ result.status }
    ensures status { result.status ≡ status_of result.stopped }
    ensures none { result.file ≡ None }

    // The line that isn't a command, or the fault, is the one with which the work stopped, and was printed. An input or an output
    // that failed is reported as failing, except for lack of memory, which is a refusal.
    ensures bad_line { IfSome result.stopped (IfBadLine (λ number. IsLineOf stop.now number × PrintsBadLine (W.contents output.old) (W.contents output.new) number)) }
    ensures refused { IfSome result.stopped (IfRefused (λ fault. IsFaultOf stop.now fault × Appends (W.contents output.old) (W.contents output.new) (refusal_line fault))) }
    ensures broken { (reason : ErrorKindValue) → stop.now ≡ Broken reason → reason ≢ NoMemory → result.stopped ≡ Some (Broken reason) }
{
    let printed = announce(alloc, stop, output);
    Ended {
        status: status_of(&printed),
        file: None,
        stopped: Some(printed),
    }
}

// Prints the line of a refusal, or of a line that isn't a command. If that fails, the failure is what ended the work.
fn announce<W: Write>(alloc: Global, stop: &Stop, output: &mut W) -> Stop
    // The line that isn't a command, or the fault, is the one with which the work stopped, and it was printed.
    ensures bad_line { IfBadLine (λ number. IsLineOf stop.now number × PrintsBadLine (W.contents output.old) (W.contents output.new) number) result }
    ensures refused { IfRefused (λ fault. IsFaultOf stop.now fault × Appends (W.contents output.old) (W.contents output.new) (refusal_line fault)) result }

    // An input or an output that failed for another reason than lack of memory is reported as failing.
    ensures broken { (reason : ErrorKindValue) → stop.now ≡ Broken reason → reason ≢ NoMemory → result ≡ Broken reason }
{
    match *stop {
        Stop::Refused(fault) => refuse(alloc, fault, output),
        Stop::NotACommand(line) => blame(alloc, line, output),
        Stop::Broken(ErrorKind::OutOfMemory) => refuse(alloc, Fault::OutOfMemory, output),
        Stop::Broken(reason) => Stop::Broken(reason),
    }
}

fn refuse<W: Write>(alloc: Global, fault: Fault, output: &mut W) -> Stop
    ensures refused { IfRefused (λ reported. (reported ≡ fault) × Appends (W.contents output.old) (W.contents output.new) (refusal_line fault)) result }
    ensures blames { BlamesNoLine result }
{
    match print(alloc, output, &Printed::Refused(fault)) {
        Ok(()) => Stop::Refused(fault),
        Err(error) => Stop::Broken(error.kind()),
    }
}

// Names the line that isn't a command.
fn blame<W: Write>(alloc: Global, line: u64, output: &mut W) -> Stop
    ensures bad_line { IfBadLine (λ reported. (reported ≡ line) × PrintsBadLine (W.contents output.old) (W.contents output.new) line) result }
    ensures refused { IfRefused (λ fault. ⊥) result }
{
    match print(alloc, output, &Printed::NotACommand { line }) {
        Ok(()) => Stop::NotACommand(line),
        Err(error) => Stop::Broken(error.kind()),
    }
}

// The exit status if this ended the work.
fn status_of(stop: &Stop) -> u8
    ensures { result ≡ status_of (Some stop.now) }
{
    match stop {
        Stop::Refused(_) | Stop::Broken(_) => 1,
        Stop::NotACommand(_) => 2,
    }
}
