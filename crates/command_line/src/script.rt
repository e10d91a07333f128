ghost use Rattle.std.specs.Prelude.{◌≡◌, ◌++◌, ◌∷◌, [], false, IfOk, IfErr, IfSome, IfNone, OnOk};
ghost use Rattle.std.specs.List.{flat_map};
ghost use Rattle.base.specs.Layout.{is_in_limits, layout_with, plain_version};
ghost use Rattle.command_line.specs.Scripts.{HasBadGeometry, IfBadGeometry, IfWrongLine, IsNoLineOf, IsOutOfPlace, IsShut, IsWrongAfter, IsWrongLine, SpellsScript, TakesLine, lines_in, lines_of, lines_of_life, lines_so_far};
ghost use Rattle.command_line.specs.declared.script.ScriptFault.TheVariants.{BadGeometry};
ghost use Rattle.command_line.specs.declared.script_line.ScriptLine.TheVariants as line;

use crate::command::{Command, Survivor};
use crate::line::LineFault;
use crate::script_line::{ScriptLine, parse_script_line};
use base::geometry::Geometry;
use std::alloc::{AllocError, Global};

/// A life that a script asks for.
#[derive(Drop)]
pub struct ScriptLife {
    /// The device fails after this many operations. `None`: it doesn't.
    pub fuse: Option<u64>,
    /// What the stop keeps.
    pub keeps: Survivor,
    pub commands: Vec<Command>,
    pub closes: bool,
}

/// A script: lives on one device.
#[derive(Drop)]
pub struct Script {
    pub geometry: Geometry,
    pub lives: Vec<ScriptLife>,
}

/// Why a text isn't a script.
#[derive(Clone, Copy)]
pub enum ScriptFault {
    /// The line of this number, from 1 on, can't come there.
    WrongLine(u64),
    BadGeometry,
    OutOfMemory,
}

impl From<AllocError> for ScriptFault {
    ghost use Rattle.std.specs.Prelude.{◌≡◌};
    ghost use Rattle.command_line.specs.declared.script.ScriptFault.TheVariants.{OutOfMemory};

    ghost from_gives = { λ _ fault. fault ≡ OutOfMemory };

    fn from(_error: AllocError) -> ScriptFault {
        ScriptFault::OutOfMemory
    }
}

// A script as its lines spell it: the numbers of its image may be out of their limits.
#[derive(Drop)]
struct Draft {
    slots: u64,
    places: u64,
    window: u64,
    lives: Vec<ScriptLife>,
}

/// Reads the whole script.
pub fn read_script(alloc: Global, text: &[u8]) -> Result<Script, ScriptFault>
    // The lines of the text, except those that are skipped, are exactly those of the script: its geometry, and of each life its
    // beginning, its commands, and a `close` if it has one (`SpellsScript`).
    ensures spelled { IfOk result (λ script. SpellsScript text.now script.geometry script.lives.items) }

    // At WrongLine the line of that number is the first wrong one: it isn't a line of a script, or can't follow those before it,
    // which are the beginning of one. Or there are only skipped lines, and the number is 1 (`IsWrongLine`).
    ensures wrong_line { IfErr result (IfWrongLine (IsWrongLine text.now)) }

    // BadGeometry only if no line is wrong, and the numbers of the image are out of their limits.
    ensures geometry { IfErr result (IfBadGeometry (HasBadGeometry text.now)) }
{
    let mut number: u64 = 0;
    let mut draft = None;
    for line in text.split(|byte| *byte == b'\n') {
        number = number.saturating_add(1);
        match take_line(alloc, draft, number, line) {
            Ok(now) => draft = now,
            Err(fault) => return Err(fault),
        }
    }
    match draft {
        Some(draft) => finish(draft),
        None => Err(ScriptFault::WrongLine(1)),
    }
}

// The script of a draft, if the numbers of its image are within their limits.
fn finish(draft: Draft) -> Result<Script, ScriptFault>
    ensures ok { IfOk result (λ script. lines_of script.geometry script.lives.items ≡ lines_in draft) }
    ensures newest { IfOk result (λ script. script.geometry.version ≡ plain_version) }
    ensures fault { IfErr result (λ fault. (fault ≡ BadGeometry) × (is_in_limits (layout_with plain_version draft.slots draft.places draft.window) ≡ false)) }
{
    let Draft {
        slots,
        places,
        window,
        lives,
    } = draft;
    match Geometry::new(slots, places, window) {
        Ok(geometry) => Ok(Script { geometry, lives }),
        Err(_) => Err(ScriptFault::BadGeometry),
    }
}

// The draft with one more line, which may be one that is skipped.
fn take_line(
    alloc: Global,
    draft: Option<Draft>,
    number: u64,
    line: &[u8],
) -> Result<Option<Draft>, ScriptFault>
    ensures ok { IfOk result (λ now. TakesLine draft line.now now) }
    ensures wrong_line { IfErr result (IfWrongLine (λ at. (at ≡ number) × IsWrongAfter (lines_so_far draft) line.now)) }
    ensures geometry { IfErr result (IfBadGeometry ⊥) }
{
    match parse_script_line(alloc, line) {
        Ok(None) => Ok(draft),
        Ok(Some(line)) => match add_line(alloc, draft, number, line) {
            Ok(draft) => Ok(Some(draft)),
            Err(fault) => Err(fault),
        },
        Err(LineFault::NotACommand) => Err(ScriptFault::WrongLine(number)),
        Err(LineFault::OutOfMemory) => Err(ScriptFault::OutOfMemory),
    }
}

fn add_line(
    alloc: Global,
    draft: Option<Draft>,
    number: u64,
    line: ScriptLine,
) -> Result<Draft, ScriptFault>
    ensures ok { IfOk result (λ now. lines_in now ≡ lines_so_far draft ++ line ∷ []) }
    ensures wrong_line { IfErr result (IfWrongLine (λ at. (at ≡ number) × IsOutOfPlace (lines_so_far draft) line)) }
    ensures geometry { IfErr result (IfBadGeometry ⊥) }
{
    match draft {
        None => first_line(alloc, number, line),
        Some(draft) => later_line(alloc, draft, number, line),
    }
}

// A script begins with the numbers of its image.
fn first_line(alloc: Global, number: u64, line: ScriptLine) -> Result<Draft, ScriptFault>
    ensures ok { IfOk result (λ draft. lines_in draft ≡ line ∷ []) }
    ensures wrong_line { IfErr result (IfWrongLine (λ at. (at ≡ number) × IsOutOfPlace [] line)) }
    ensures geometry { IfErr result (IfBadGeometry ⊥) }
{
    match line {
        ScriptLine::Geometry {
            slots,
            places,
            window,
        } => Ok(Draft {
            slots,
            places,
            window,
            lives: Vec::new(alloc),
        }),
        _ => Err(ScriptFault::WrongLine(number)),
    }
}

fn later_line(
    alloc: Global,
    draft: Draft,
    number: u64,
    line: ScriptLine,
) -> Result<Draft, ScriptFault>
    ensures ok { IfOk result (λ now. lines_in now ≡ lines_in draft ++ line ∷ []) }
    ensures wrong_line { IfErr result (IfWrongLine (λ at. (at ≡ number) × IsOutOfPlace (lines_in draft) line)) }
    ensures geometry { IfErr result (IfBadGeometry ⊥) }
{
    let Draft {
        slots,
        places,
        window,
        lives,
    } = draft;
    match add_to_lives(alloc, lives, number, line) {
        Ok(lives) => Ok(Draft {
            slots,
            places,
            window,
            lives,
        }),
        Err(fault) => Err(fault),
    }
}

// The lives with one more line after the geometry.
fn add_to_lives(
    alloc: Global,
    lives: Vec<ScriptLife>,
    number: u64,
    line: ScriptLine,
) -> Result<Vec<ScriptLife>, ScriptFault>
    ensures ok { IfOk result (λ now. flat_map lines_of_life now.items ≡ flat_map lines_of_life lives.items ++ line ∷ []) }
    ensures wrong_line { IfErr result (IfWrongLine (λ at. (at ≡ number) × IsNoLineOf lives.items line)) }
    ensures geometry { IfErr result (IfBadGeometry ⊥) }
{
    match line {
        ScriptLine::Life { fuse, keeps } => {
            let lives = begin_life(alloc, lives, fuse, keeps)?;
            Ok(lives)
        }
        ScriptLine::Command(command) => add_command(lives, number, command),
        ScriptLine::Close => close_life(lives, number),
        ScriptLine::Geometry { .. } => Err(ScriptFault::WrongLine(number)),
    }
}

fn begin_life(
    alloc: Global,
    mut lives: Vec<ScriptLife>,
    fuse: Option<u64>,
    keeps: Survivor,
) -> Result<Vec<ScriptLife>, AllocError>
    ensures { IfOk result (λ now. flat_map lines_of_life now.items ≡ flat_map lines_of_life lives.items ++ line.Life fuse keeps ∷ []) }
{
    lives.push(ScriptLife {
        fuse,
        keeps,
        commands: Vec::new(alloc),
        closes: false,
    })?;
    Ok(lives)
}

fn add_command(
    mut lives: Vec<ScriptLife>,
    number: u64,
    command: Command,
) -> Result<Vec<ScriptLife>, ScriptFault>
    ensures ok { IfOk result (λ now. flat_map lines_of_life now.items ≡ flat_map lines_of_life lives.items ++ line.Command command ∷ []) }
    ensures wrong_line { IfErr result (IfWrongLine (λ at. (at ≡ number) × IsShut lives.items)) }
    ensures geometry { IfErr result (IfBadGeometry ⊥) }
{
    let Some(mut life) = take_open_life(&mut lives) else {
        return Err(ScriptFault::WrongLine(number));
    };
    if push_command(&mut life.commands, command).is_err() || lives.push(life).is_err() {
        return Err(ScriptFault::OutOfMemory);
    }
    Ok(lives)
}

// Adds a command to others. It names the step within: a push is proved only if the function names the types that the value holds.
fn push_command(commands: &mut Vec<Command>, command: Command) -> Result<(), AllocError>
    ensures { OnOk result (commands.new.items ≡ commands.old.items ++ command ∷ []) }
{
    match command {
        Command::Step(step) => commands.push(Command::Step(step))?,
        other => commands.push(other)?,
    }
    Ok(())
}

fn close_life(mut lives: Vec<ScriptLife>, number: u64) -> Result<Vec<ScriptLife>, ScriptFault>
    ensures ok { IfOk result (λ now. flat_map lines_of_life now.items ≡ flat_map lines_of_life lives.items ++ line.Close ∷ []) }
    ensures wrong_line { IfErr result (IfWrongLine (λ at. (at ≡ number) × IsShut lives.items)) }
    ensures geometry { IfErr result (IfBadGeometry ⊥) }
{
    let Some(mut life) = take_open_life(&mut lives) else {
        return Err(ScriptFault::WrongLine(number));
    };
    life.closes = true;
    if lives.push(life).is_err() {
        return Err(ScriptFault::OutOfMemory);
    }
    Ok(lives)
}

// Takes the last life out, if its close hasn't come.
fn take_open_life(lives: &mut Vec<ScriptLife>) -> Option<ScriptLife>
    ensures open { IfSome result (λ life. (lives.old.items ≡ lives.new.items ++ life ∷ []) × (life.closes ≡ false)) }
    ensures shut { IfNone result (IsShut lives.old.items) }
{
    let life = lives.pop()?;
    if life.closes {
        return None;
    }
    Some(life)
}
