ghost use Rattle.std.specs.Prelude.{◌≡◌, ◌++◌, ◌∷◌, [], List, IfErr, IfOk, OnOk, Some, None};
ghost use Rattle.std.specs.Io.KnownBytes.{Appends};
ghost use Rattle.command_line.specs.Lines.{line_of};
ghost use Rattle.command_line.specs.Numbers.{Text};
ghost use Rattle.console.specs.BadLine.{IfBadLine, MeetsBadLine, kept_by, kept_in, kept_of};
ghost use Rattle.console.specs.Input.{Reads};
ghost use Rattle.console.specs.Kept.{LeadsBy};
ghost use Rattle.console.specs.Refusals.{WantsMemory};
ghost use Rattle.console.specs.Obeyed.{Commits, Collects, Cycles, HasOutcome, ObeysLine, ObeysLines, is_answered, is_busy, is_tick};

use crate::long_rows::command_on;
use crate::replies::show;
use crate::rounds::visits_needed;
use crate::stop::Stop;
use base::fault::Fault;
use base::step::{Reply, Step};
use command_line::command::{Command, Survivor};
use command_line::line::{LineFault, parse_line};
use pmem::Pmem;
use room::Room;
use std::alloc::Global;
use std::io::{BufRead, BufReader, Read, Write};

/// What a command comes to.
#[derive(Drop)]
enum Outcome {
    Replied(Reply),
    /// A crash, which keeps this.
    Crashed(Survivor),
}

/// Runs the lines of the input up to its end, or up to a crash. Returns what a crash keeps.
pub fn obey_lines<D: Pmem + Drop, R: Read, W: Write>(
    alloc: Global,
    room: &mut Room<D>,
    input: &mut R,
    output: &mut W,
) -> Result<Option<Survivor>, Stop>
    ensures obeys { IfOk result (λ keeps. (lines : List Text) × Reads (R.remaining input.old) lines keeps
        × (said : Text) × Appends (W.contents output.old) (W.contents output.new) said
        × LeadsBy D.state room.old room.new (λ q q'. ObeysLines q lines said keeps q')) }
    ensures bad_line { IfErr result (IfBadLine (MeetsBadLine D.state room.old (R.remaining input.old) (W.contents output.old) (W.contents output.new))) }
    ensures memory { IfErr result WantsMemory }
{
    let mut number: u64 = 0;
    for line in BufReader::new(alloc, input)?.split(alloc, b'\n') {
        let line = line?;
        number = number.saturating_add(1);
        let kept = obey_line(alloc, room, number, line.as_slice(), output)?;
        if kept.is_some() {
            return Ok(kept);
        }
    }
    Ok(None)
}

// Runs one line and prints the reply. A crash is left to the caller: then returns what it keeps. A device without a fuse fails
// only if a store takes memory and there is none.
fn obey_line<D: Pmem + Drop, W: Write>(
    alloc: Global,
    room: &mut Room<D>,
    number: u64,
    line: &[u8],
    output: &mut W,
) -> Result<Option<Survivor>, Stop>
    ensures obeys { IfOk result (λ keeps. (said : Text) × Appends (W.contents output.old) (W.contents output.new) said
        × LeadsBy D.state room.old room.new (λ q q'. ObeysLine q line.now said keeps q')) }
    ensures kept { IfOk result (λ keeps. kept_in line.now ≡ Some keeps) }
    ensures bad_line { IfErr result (IfBadLine (λ at. (at ≡ number) × (line_of line.now ≡ None) × (W.contents output.new ≡ W.contents output.old))) }
    ensures memory { IfErr result WantsMemory }
{
    let Some(command) = read_command(alloc, number, line)? else {
        return Ok(None);
    };
    match perform(room, &command) {
        Outcome::Replied(reply) => {
            if reply.is_failure() {
                return Err(Stop::Refused(Fault::OutOfMemory));
            }
            show(alloc, &reply, output)?;
            Ok(None)
        }
        Outcome::Crashed(keeps) => Ok(Some(keeps)),
    }
}

fn read_command(alloc: Global, number: u64, line: &[u8]) -> Result<Option<Command>, Stop>
    ensures ok { IfOk result (λ read. line_of line.now ≡ Some read) }
    ensures bad_line { IfErr result (IfBadLine (λ at. (at ≡ number) × (line_of line.now ≡ None))) }
    ensures memory { IfErr result WantsMemory }
{
    match parse_line(alloc, line) {
        Ok(command) => Ok(command),
        Err(LineFault::NotACommand) => Err(Stop::NotACommand(number)),
        Err(LineFault::OutOfMemory) => Err(Stop::Refused(Fault::OutOfMemory)),
    }
}

fn perform<D: Pmem + Drop>(room: &mut Room<D>, command: &Command) -> Outcome
    ensures comes { LeadsBy D.state room.old room.new (λ q q'. HasOutcome q command.now result q') }
    ensures kept { kept_of result ≡ kept_by command.now }
{
    match command_on(room.geometry(), command) {
        Command::Step(asked) => Outcome::Replied(room.step(Step::from(asked))),
        Command::LongRow => Outcome::Replied(Reply::Refused(Fault::TooLong)),
        Command::Commit { ticks } => Outcome::Replied(tick(room, ticks)),
        Command::Collect { visits } => Outcome::Replied(collect(room, visits)),
        Command::Cycle => Outcome::Replied(cycle(room)),
        Command::Crash { keeps } => Outcome::Crashed(keeps),
    }
}

// Ticks the committer that often, and returns the last reply. It stops at a refusal, and if nothing is left to do, since no
// further tick would find anything.
fn tick<D: Pmem + Drop>(room: &mut Room<D>, ticks: u64) -> Reply
    ensures { LeadsBy D.state room.old room.new (λ q q'. Commits q ticks result q') }
{
    let mut reply = room.step(Step::Commit);
    for _ in 1..ticks {
        if !is_busy(&reply) {
            break;
        }
        reply = room.step(Step::Commit);
    }
    reply
}

// Lets the collector visit that many places, and returns the last reply. It stops at a refusal. After a round of all places
// further ones change nothing, so they are counted and not made.
fn collect<D: Pmem + Drop>(room: &mut Room<D>, visits: u64) -> Reply
    ensures { LeadsBy D.state room.old room.new (λ q q'. Collects q visits result q') }
{
    let needed = visits_needed(room.geometry(), visits);
    let mut reply = room.step(Step::Collect);
    for _ in 1..needed {
        if !is_answered(&reply) {
            break;
        }
        reply = room.step(Step::Collect);
    }
    reply
}

// Ticks the committer until it has covered a batch, has nothing to do, or is refused.
fn cycle<D: Pmem + Drop>(room: &mut Room<D>) -> Reply
    ensures { LeadsBy D.state room.old room.new (λ q q'. Cycles q result q') }
{
    let mut reply = room.step(Step::Commit);
    for _ in 1..u64::MAX {
        if !is_tick(&reply) {
            break;
        }
        reply = room.step(Step::Commit);
    }
    reply
}

// Is there, after this reply, more that a tick may find to do?
fn is_busy(reply: &Reply) -> bool
    ensures { result ≡ is_busy reply.now }
{
    match reply {
        Reply::Idle | Reply::Refused(_) => false,
        _ => true,
    }
}

fn is_answered(reply: &Reply) -> bool
    ensures { result ≡ is_answered reply.now }
{
    !matches!(reply, Reply::Refused(_))
}

// Is a cycle under way after this reply?
fn is_tick(reply: &Reply) -> bool
    ensures { result ≡ is_tick reply.now }
{
    matches!(reply, Reply::Ticked(_))
}
