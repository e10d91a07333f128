ghost use Rattle.std.specs.Prelude.{◌≡◌, ◌⊎◌, ◌++◌, ◌∷◌, [], None, Some, IfErr, IfOk, OnOk};
ghost use Rattle.std.specs.Io.KnownBytes.{Appends};
ghost use Rattle.machine.specs.Machine.{State};
ghost use Rattle.pmem.specs.Device.{MayLeave};
ghost use Rattle.pmem.specs.Words.{image_of};
ghost use Rattle.pmem_model.specs.Chosen.{IsChosen};
ghost use Rattle.pmem_model.specs.Sim.{device_of};
ghost use Rattle.room.specs.Room.{Shows, device_of as device_in};
ghost use Rattle.room.specs.Runs.{OpensTo};
ghost use Rattle.command_line.specs.ImageFile.{IsFileOf};
ghost use Rattle.command_line.specs.Numbers.{Text};
ghost use Rattle.console.specs.BadLine.{BlamesNoLine, EndsAtBadLine, IfBadLine};
ghost use Rattle.console.specs.Crash.{choice_of, IsFileKept, KeepsNamed};
ghost use Rattle.console.specs.Kept.{HasClosed, KeepsHistories};
ghost use Rattle.console.specs.Lives.{Ends, Lives, opened_text};
ghost use Rattle.console.specs.Refusals.{EndsAtClose, IfRefused, IsClosingFault, IsFileFault, IsOpeningFault, WantsMemory};
ghost use Rattle.base.specs.declared.fault.Fault.TheVariants.{OutOfMemory};

use crate::lines::obey_lines;
use crate::stop::{Stop, without_fuse};
use base::fault::Fault;
use command_line::command::Survivor;
use command_line::image_file::{file_of_words, words_of_file};
use command_line::printed::{Printed, print};
use pmem_model::{Choice, SimPmem};
use room::Room;
use std::alloc::Global;
use std::io::{Read, Write};
use std::thread::Threads;

/// Opens the image in the file and runs the lines of the input. Returns what the file is to hold then.
pub fn run<T: Threads + Sync, R: Read, W: Write>(
    rt: &T,
    alloc: Global,
    file: &[u8],
    input: &mut R,
    output: &mut W,
) -> Result<Vec<u8>, Stop>
    ensures lives { IfOk result (λ left. Lives file.now (R.remaining input.old) (W.contents output.old) (W.contents output.new) left.items) }

    // So no lines take a covered commit away.
    ensures keeps { IfOk result (λ left. KeepsHistories file.now left.items) }
    ensures bad_line { IfErr result (IfBadLine (λ number. EndsAtBadLine file.now (R.remaining input.old) (W.contents output.old) (W.contents output.new) number [])) }
    ensures refused { IfErr result (IfRefused (λ fault. (fault ≡ OutOfMemory)
        ⊎ ((IsFileFault file.now IsOpeningFault fault × Appends (W.contents output.old) (W.contents output.new) [])
        ⊎ EndsAtClose file.now (R.remaining input.old) (W.contents output.old) (W.contents output.new) fault []))) }
{
    let words = words_of_file(alloc, file)?;
    let mut room = open(rt, alloc, words.as_slice())?;
    show_opened(alloc, &room, output)?;
    let keeps = obey_lines(alloc, &mut room, input, output)?;
    let left = end(alloc, room, keeps, output)?;
    Ok(left)
}

fn open<T: Threads + Sync>(rt: &T, alloc: Global, words: &[u64]) -> Result<Room<SimPmem>, Fault>
    ensures opens { IfOk result (λ room. OpensTo words.now (Shows device_of room)) }
    ensures fault { IfErr result (λ fault. (fault ≡ OutOfMemory) ⊎ IsOpeningFault words.now fault) }
{
    let device = SimPmem::from_words(alloc, words)?;
    match Room::open(rt, alloc, device) {
        Ok(room) => Ok(room),
        Err((fault, _device)) => Err(without_fuse(fault)),
    }
}

fn show_opened<W: Write>(alloc: Global, room: &Room<SimPmem>, output: &mut W) -> Result<(), Stop>
    ensures printed { OnOk result ((said : Text) × Appends (W.contents output.old) (W.contents output.new) said
        × ((q : State) → Shows device_of room.now q → said ≡ opened_text q ++ 10 ∷ [])) }
    ensures blames { IfErr result BlamesNoLine }
    ensures memory { IfErr result WantsMemory }
{
    let status = room.status();
    let opened = Printed::Opened {
        gate: status.gate,
        persisted: status.persisted,
        dirty: status.dirty,
        next: status.next,
        gaps: status.gaps.as_slice(),
    };
    print(alloc, output, &opened)?;
    Ok(())
}

// Ends the life by a crash that keeps this, or by closing the room.
fn end<W: Write>(
    alloc: Global,
    room: Room<SimPmem>,
    keeps: Option<Survivor>,
    output: &mut W,
) -> Result<Vec<u8>, Stop>
    ensures ends { IfOk result (λ left. (said : Text) × Appends (W.contents output.old) (W.contents output.new) said
        × ((q : State) → Shows device_of room q → Ends q keeps said left.items)) }

    // After `crash` FILE has of each word the oldest survivor or the newest, as the line names it.
    ensures kept { IfOk result (λ left. KeepsNamed (device_in device_of room) keeps left.items) }

    ensures blames { IfErr result BlamesNoLine }
    ensures refused { IfErr result (IfRefused (λ fault. (fault ≡ OutOfMemory) ⊎ ((keeps ≡ None)
        × (W.contents output.new ≡ W.contents output.old) × ((q : State) → Shows device_of room q → IsClosingFault q fault)))) }
{
    match keeps {
        Some(keeps) => stop(alloc, room, keeps, output),
        None => close(alloc, room, output),
    }
}

// What a crash leaves now.
fn stop<W: Write>(
    alloc: Global,
    room: Room<SimPmem>,
    keeps: Survivor,
    output: &mut W,
) -> Result<Vec<u8>, Stop>
    ensures ends { IfOk result (λ left. (said : Text) × Appends (W.contents output.old) (W.contents output.new) said
        × ((q : State) → Shows device_of room q → Ends q (Some keeps) said left.items)) }
    ensures kept { IfOk result (λ left. IsFileKept (device_in device_of room) keeps left.items) }
    ensures blames { IfErr result BlamesNoLine }
    ensures memory { IfErr result WantsMemory }
{
    let device = room.into_device();
    let left = crashed(&device, keeps)?;
    let file = file_of_device(alloc, &left)?;
    print(alloc, output, &Printed::Stopped(keeps))?;
    Ok(file)
}

// The device after a crash that keeps this of each word.
fn crashed(device: &SimPmem, keeps: Survivor) -> Result<SimPmem, Fault>
    ensures chosen { IfOk result (λ left. IsChosen (choice_of keeps) (device_of device.now) (image_of (device_of left))) }
    ensures possible { IfOk result (λ left. MayLeave (device_of device.now) (image_of (device_of left))) }
    ensures memory { IfErr result (λ fault. fault ≡ OutOfMemory) }
{
    device.crash(&choice_of(keeps))
}

fn choice_of(keeps: Survivor) -> Choice
    ensures { result ≡ choice_of keeps }
{
    match keeps {
        Survivor::Oldest => Choice::Oldest,
        Survivor::Newest => Choice::Newest,
    }
}

// What is left once the room is closed.
fn close<W: Write>(alloc: Global, room: Room<SimPmem>, output: &mut W) -> Result<Vec<u8>, Stop>
    ensures ends { IfOk result (λ left. (said : Text) × Appends (W.contents output.old) (W.contents output.new) said
        × ((q : State) → Shows device_of room q → Ends q None said left.items)) }
    ensures blames { IfErr result BlamesNoLine }
    ensures refused { IfErr result (IfRefused (λ fault. (fault ≡ OutOfMemory)
        ⊎ ((W.contents output.new ≡ W.contents output.old) × ((q : State) → Shows device_of room q → IsClosingFault q fault)))) }
{
    let gate = room.closing_gate();
    let next = room.status().next;
    let closed = match close_room(room) {
        Ok(closed) => closed,
        Err(fault) => return Err(Stop::Refused(fault)),
    };
    let device = closed.crash(&Choice::Oldest)?;
    let file = file_of_device(alloc, &device)?;
    let line = Printed::Closed {
        gate,
        persisted: next.saturating_sub(1),
        dirty: next,
    };
    print(alloc, output, &line)?;
    Ok(file)
}

pub(crate) fn close_room(room: Room<SimPmem>) -> Result<SimPmem, Fault>
    ensures closed { IfOk result (λ device. HasClosed device_of room (device_of device)) }
    ensures fault { IfErr result (λ fault. (fault ≡ OutOfMemory) ⊎ ((q : State) → Shows device_of room q → IsClosingFault q fault)) }
{
    match room.close() {
        Ok(device) => Ok(device),
        Err((fault, _device)) => Err(without_fuse(fault)),
    }
}

fn file_of_device(alloc: Global, device: &SimPmem) -> Result<Vec<u8>, Stop>
    ensures file { IfOk result (λ file. IsFileOf (image_of (device_of device.now)) file.items) }
    ensures blames { IfErr result BlamesNoLine }
    ensures memory { IfErr result WantsMemory }
{
    let image = device.image()?;
    Ok(file_of_words(alloc, image.as_slice())?)
}
