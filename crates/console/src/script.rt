ghost use Rattle.std.specs.Prelude.{◌≡◌, ◌⊎◌, ◌++◌, ◌∷◌, [], IfErr, IfOk, OnOk, map};
ghost use Rattle.std.specs.Io.KnownBytes.{Appends};
ghost use Rattle.base.specs.declared.fault.Fault.TheVariants.{BadGeometry, OutOfMemory};
ghost use Rattle.command_line.specs.Scripts.{HasBadGeometry, IsWrongLine};
ghost use Rattle.console.specs.BadLine.{BlamesNoLine, IfBadLine};
ghost use Rattle.console.specs.Refusals.{IfRefused, WantsMemory};
ghost use Rattle.console.specs.Scripts.{PrintsLives, PrintsReports, answer_text, asked_by, asked_of, closed_text, life_text, lived_text, lives_text, opened_text, repeated_of, replies_text, report_text, stop_of};
ghost use Rattle.console.specs.Crash.{choice_of};

use crate::long_rows::command_on;
use crate::replies::show;
use crate::rounds::visits_needed;
use crate::stop::Stop;
use base::fault::Fault;
use base::geometry::Geometry;
use base::step::{Reply, Step};
use command_line::command::{Command, Survivor};
use command_line::printed::{Printed, print};
use command_line::script::{Script, ScriptFault, ScriptLife, read_script};
use lives::{Life, LifeReport, Numbers, Opened, Repeated, run_lives};
use pmem_model::Choice;
use std::alloc::{AllocError, Global};
use std::io;
use std::io::Write;
use std::thread::Threads;

/// Lives the lives of a script, and prints what they report.
pub fn live_script<T: Threads + Sync, W: Write>(
    rt: &T,
    alloc: Global,
    text: &[u8],
    output: &mut W,
) -> Result<(), Stop>
    ensures lived { OnOk result (PrintsLives text.now (W.contents output.old) (W.contents output.new)) }
    ensures bad_line { IfErr result (IfBadLine (λ number. IsWrongLine text.now number × (W.contents output.new ≡ W.contents output.old))) }
    ensures refused { IfErr result (IfRefused (λ fault. (fault ≡ OutOfMemory)
        ⊎ ((fault ≡ BadGeometry) × HasBadGeometry text.now × (W.contents output.new ≡ W.contents output.old)))) }
{
    match read_script(alloc, text) {
        Ok(script) => match live(rt, alloc, &script, output) {
            Ok(()) => Ok(()),
            Err(stop) => Err(stop),
        },
        Err(fault) => Err(stop_of(fault)),
    }
}

// How the subcommand ends if a text isn't a script.
fn stop_of(fault: ScriptFault) -> Stop
    ensures { result ≡ stop_of fault }
{
    match fault {
        ScriptFault::WrongLine(number) => Stop::NotACommand(number),
        ScriptFault::BadGeometry => Stop::Refused(Fault::BadGeometry),
        ScriptFault::OutOfMemory => Stop::Refused(Fault::OutOfMemory),
    }
}

// Lives the lives, and prints their reports.
fn live<T: Threads + Sync, W: Write>(
    rt: &T,
    alloc: Global,
    script: &Script,
    output: &mut W,
) -> Result<(), Stop>
    ensures lived { OnOk result (PrintsReports script.now.geometry script.now.lives.items (W.contents output.old) (W.contents output.new)) }
    ensures blames { IfErr result BlamesNoLine }
    ensures memory { IfErr result WantsMemory }
{
    let lives = asked_lives(alloc, script.geometry, script.lives.as_slice())?;
    let reports = run_lives(rt, alloc, script.geometry, lives.as_slice())?;
    print_lives(alloc, reports.as_slice(), output)?;
    Ok(())
}

// What the lives are asked to do.
fn asked_lives(
    alloc: Global,
    geometry: Geometry,
    lives: &[ScriptLife],
) -> Result<Vec<Life>, AllocError>
    ensures { IfOk result (λ asked. map asked_of asked.items ≡ map (asked_by geometry) lives.now) }
{
    let mut asked = Vec::new(alloc);
    for life in lives {
        asked.push(asked_life(alloc, geometry, life)?)?;
    }
    Ok(asked)
}

fn asked_life(alloc: Global, geometry: Geometry, life: &ScriptLife) -> Result<Life, AllocError>
    ensures { IfOk result (λ asked. asked_of asked ≡ asked_by geometry life.now) }
{
    let mut steps = Vec::new(alloc);
    for command in life.commands.as_slice() {
        let Repeated { step, times } = repeated(geometry, command);
        steps.push(Repeated { step, times })?;
    }
    Ok(Life {
        steps,
        close: life.closes,
        fuse: life.fuse,
        choice: choice_of(life.keeps),
    })
}

fn choice_of(keeps: Survivor) -> Choice
    ensures { result ≡ choice_of keeps }
{
    match keeps {
        Survivor::Oldest => Choice::Oldest,
        Survivor::Newest => Choice::Newest,
    }
}

// The step of a command, and how often it is taken. A put of a row that is too long (`command_on`) has none.
fn repeated(geometry: Geometry, command: &Command) -> Repeated
    ensures { result ≡ repeated_of geometry command.now }
{
    match command_on(geometry, command) {
        Command::Step(asked) => Repeated {
            step: Step::from(asked),
            times: 1,
        },
        Command::Commit { ticks } => Repeated {
            step: Step::Commit,
            times: ticks,
        },
        Command::Collect { visits } => Repeated {
            step: Step::Collect,
            times: visits_needed(geometry, visits),
        },
        Command::LongRow | Command::Cycle | Command::Crash { .. } => Repeated {
            step: Step::Commit,
            times: 0,
        },
    }
}

fn print_lives<W: Write>(alloc: Global, reports: &[LifeReport], output: &mut W) -> io::Result<()>
    ensures { OnOk result (Appends (W.contents output.old) (W.contents output.new) (lives_text 1 reports.now)) }
{
    for index in 0..reports.len() {
        print_life(alloc, index + 1, &reports[index], output)?;
    }
    Ok(())
}

fn print_life<W: Write>(
    alloc: Global,
    number: usize,
    report: &LifeReport,
    output: &mut W,
) -> io::Result<()>
    ensures { OnOk result (Appends (W.contents output.old) (W.contents output.new) (life_text number report.now)) }
{
    print(alloc, output, &Printed::Life(number))?;
    print_report(alloc, report, output)?;
    print(alloc, output, &Printed::LifeStopped)
}

fn print_report<W: Write>(alloc: Global, report: &LifeReport, output: &mut W) -> io::Result<()>
    ensures { OnOk result (Appends (W.contents output.old) (W.contents output.new) (report_text report.now)) }
{
    match &report.opening {
        Ok(opened) => print_lived(alloc, opened, report, output),
        Err(fault) => print(alloc, output, &Printed::Refused(*fault)),
    }
}

fn print_lived<W: Write>(
    alloc: Global,
    opened: &Opened,
    report: &LifeReport,
    output: &mut W,
) -> io::Result<()>
    ensures { OnOk result (Appends (W.contents output.old) (W.contents output.new) (lived_text opened.now report.now)) }
{
    print_opened(alloc, opened, output)?;
    print_replies(alloc, report.replies.as_slice(), output)?;
    print_closed(alloc, &report.closed, output)
}

fn print_opened<W: Write>(alloc: Global, opened: &Opened, output: &mut W) -> io::Result<()>
    ensures { OnOk result (Appends (W.contents output.old) (W.contents output.new) (opened_text opened.now ++ 10 ∷ [])) }
{
    let line = Printed::Opened {
        gate: opened.numbers.gate,
        persisted: opened.numbers.persisted,
        dirty: opened.numbers.dirty,
        next: opened.next,
        gaps: opened.gaps.as_slice(),
    };
    print(alloc, output, &line)
}

fn print_closed<W: Write>(
    alloc: Global,
    closed: &Option<Result<Numbers, Fault>>,
    output: &mut W,
) -> io::Result<()>
    ensures { OnOk result (Appends (W.contents output.old) (W.contents output.new) (closed_text closed.now)) }
{
    match closed {
        None => Ok(()),
        Some(Ok(numbers)) => {
            let line = Printed::Closed {
                gate: numbers.gate,
                persisted: numbers.persisted,
                dirty: numbers.dirty,
            };
            print(alloc, output, &line)
        }
        Some(Err(fault)) => print(alloc, output, &Printed::Refused(*fault)),
    }
}

// Prints what is reported of each command.
fn print_replies<W: Write>(
    alloc: Global,
    replies: &[Option<Reply>],
    output: &mut W,
) -> io::Result<()>
    ensures { OnOk result (Appends (W.contents output.old) (W.contents output.new) (replies_text replies.now)) }
{
    for reply in replies {
        print_answer(alloc, reply, output)?;
    }
    Ok(())
}

// Prints the line of a command's reply. What has none is a row that is too long.
fn print_answer<W: Write>(alloc: Global, reply: &Option<Reply>, output: &mut W) -> io::Result<()>
    ensures { OnOk result (Appends (W.contents output.old) (W.contents output.new) (answer_text reply.now ++ 10 ∷ [])) }
{
    match reply {
        Some(reply) => show(alloc, reply, output),
        None => print(alloc, output, &Printed::Refused(Fault::TooLong)),
    }
}
