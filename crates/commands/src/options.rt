use crate::command::{Command, Request};
use crate::rows::may_be_text;
use crate::unreadable::Unreadable;
use crate::words::parse_words;
use anyhow::anyhow;
use base::fault::Fault;
use base::geometry::Geometry;
use clap::{Arg, ArgAction, ArgMatches, value_parser};
use std::alloc::{AllocError, Global};

/// What the words of the command line ask for.
#[derive(Clone, Copy)]
pub struct Options<'a> {
    pub file: &'a str,
    pub layout: Layout,
    /// Rows that are text are printed as text.
    pub is_text: bool,
    /// The run ends at the first line that is refused.
    pub bails: bool,
    /// The one command that is run instead of lines, if there is one.
    pub command: Option<Given>,
}

impl Options<'_> {
    /// Whether the file has to be a store already: only lines and commands that put rows create one.
    pub fn needs_store(&self) -> bool {
        match &self.command {
            Some(given) => !given.command.creates(),
            None => false,
        }
    }
}

/// The layout of a new store: what the options ask for, and the default for the rest.
#[derive(Clone, Copy)]
pub struct Layout {
    slots: Option<u64>,
    places: Option<u64>,
    window: Option<u64>,
    is_wide: bool,
    lines: Option<u64>,
    pub geometry: Geometry,
}

impl Layout {
    /// Whether a store of this layout is one that is asked for.
    pub fn allows(&self, found: &Geometry) -> bool {
        self.slots.unwrap_or(found.slots()) == found.slots()
            && self.places.unwrap_or(found.places()) == found.places()
            && self.window.unwrap_or(found.window()) == found.window()
            && (2 <= found.slot_lines() || !self.is_wide)
            && (self.lines.is_none() || found.version() == self.geometry.version())
    }
}

/// A command after the file's name.
#[derive(Clone, Copy)]
pub struct Given {
    pub command: Command,
    /// Whether its last word is a row of hexadecimal digits that may have been meant as text.
    pub is_doubtful: bool,
}

const ABOUT: &str =
    "Key-value store in FILE. Runs COMMAND, or else the lines of standard input, and prints an answer to each; kv FILE help lists the \
commands. Only put, load and lines create FILE. Once \"committed\" is printed, a change survives a kill or a power failure.";

const AFTER: &str =
    "Exit status: 0 success, 3 a line or the command was refused, 1 FILE or the output failed, 2 wrong words.
For example:         kv shop.img put 1 5 '\"milk\"'
To change a layout:  kv old.img dump | kv new.img --slots 1000000 load";

/// The options and arguments of the command line.
pub fn command_line<'a>(alloc: Global) -> Result<clap::Command<'a>, AllocError> {
    let command = clap::Command::new(alloc, "kv")
        .about(ABOUT)
        .after_help(AFTER);
    with_layout(alloc, with_words(alloc, command)?)
}

// The arguments that say which file to use, and what to do.
fn with_words<'a>(
    alloc: Global,
    command: clap::Command<'a>,
) -> Result<clap::Command<'a>, AllocError> {
    let file = Arg::new(alloc, "FILE")
        .required(true)
        .action(ArgAction::Set)
        .help("the store file (write ./-NAME if it begins with -)");
    let words = Arg::new(alloc, "COMMAND")
        .num_args(0..)
        .trailing_var_arg(true)
        .action(ArgAction::Append)
        .help("a single command, e.g. get 1 5; put options before it");
    let text = flag(
        alloc,
        "text",
        "prints rows that are text in quotation marks, as at a terminal",
    );
    let bail = flag(alloc, "bail", "ends at the first line that is refused");
    command.arg(file)?.arg(words)?.arg(text)?.arg(bail)
}

// The options for a new store.
fn with_layout<'a>(
    alloc: Global,
    command: clap::Command<'a>,
) -> Result<clap::Command<'a>, AllocError> {
    with_width(alloc, with_numbers(alloc, command)?)
}

// The options that have a number: of slots, of places, and of timestamps.
fn with_numbers<'a>(
    alloc: Global,
    command: clap::Command<'a>,
) -> Result<clap::Command<'a>, AllocError> {
    let slots = number(alloc, "slots")
        .value_parser(value_parser!(u64).range(1..=16_777_216))
        .help(
            "number of row versions that a new store has room for, 1 to 16777216 (default 65536)",
        );
    let places = number(alloc, "places")
        .value_parser(value_parser!(u64).range(2..=64))
        .help("number of commit records that a new store keeps, 2 to 64 (default 2)");
    let window = number(alloc, "window")
        .value_parser(value_parser!(u64).range(4..=1_024))
        .help("number of timestamps that a new store reserves at a time, 4 to 1024 (default 1024)");
    command.arg(slots)?.arg(places)?.arg(window)
}

// The options that say how long a row may be.
fn with_width<'a>(
    alloc: Global,
    command: clap::Command<'a>,
) -> Result<clap::Command<'a>, AllocError> {
    let wide = flag(
        alloc,
        "wide",
        "creates a store for rows of up to 96 bytes instead of 32",
    );
    let lines = Arg::new(alloc, "lines")
        .long("lines")
        .value_name("W")
        .value_parser(value_parser!(u64).range(1..=8))
        .help(
            "creates a store of version 4, as for more than 65536 slots, with slots of 1 line, for rows of up to 32 bytes, and 64 more bytes for each further line, up to 8",
        );
    command.arg(wide)?.arg(lines)
}

fn flag<'a>(alloc: Global, name: &'a str, help: &'a str) -> Arg<'a> {
    Arg::new(alloc, name)
        .long(name)
        .action(ArgAction::SetTrue)
        .help(help)
}

fn number<'a>(alloc: Global, name: &'a str) -> Arg<'a> {
    Arg::new(alloc, name).long(name).value_name("N")
}

/// What the words of the command line ask for. What no option sets comes from the standard layout.
pub fn read_options<'a>(
    matches: &ArgMatches<'a>,
    standard: &Geometry,
) -> Result<Options<'a>, Unreadable> {
    let Some(file) = matches.get_str("FILE") else {
        return Err(Unreadable::Words(anyhow!("no file is named")));
    };
    let layout = read_layout(matches, standard)?;
    let command = read_command(matches.get_strs("COMMAND").unwrap_or(&[]))?;
    Ok(Options {
        file,
        layout,
        is_text: matches.get_flag("text"),
        bails: matches.get_flag("bail"),
        command,
    })
}

fn read_layout(matches: &ArgMatches<'_>, standard: &Geometry) -> Result<Layout, Unreadable> {
    let slots = matches.get_one::<u64>("slots");
    let places = matches.get_one::<u64>("places");
    let window = matches.get_one::<u64>("window");
    let lines = matches.get_one::<u64>("lines");
    let is_wide = matches.get_flag("wide");
    if is_wide && lines.is_some() {
        return Err(Unreadable::Words(anyhow!(
            "--wide and --lines are two ways to ask for a width"
        )));
    }
    let geometry = geometry_of(
        lines,
        is_wide,
        slots.unwrap_or(standard.slots()),
        places.unwrap_or(standard.places()),
        window.unwrap_or(standard.window()),
    )?;
    Ok(Layout {
        slots,
        places,
        window,
        is_wide,
        lines,
        geometry,
    })
}

// The layout that is asked for: of version 4 if its lines are named or there are more slots than another version has.
fn geometry_of(
    lines: Option<u64>,
    is_wide: bool,
    slots: u64,
    places: u64,
    window: u64,
) -> Result<Geometry, Fault> {
    match lines {
        Some(lines) => Geometry::large(lines, slots, places, window),
        None if slots > Geometry::MOST_SLOTS => {
            Geometry::large(if is_wide { 2 } else { 1 }, slots, places, window)
        }
        None if is_wide => Geometry::wide(slots, places, window),
        None => Geometry::new(slots, places, window),
    }
}

// The command after the file's name, if there is one.
fn read_command(words: &[&str]) -> Result<Option<Given>, Unreadable> {
    if words.is_empty() {
        return Ok(None);
    }
    let command = parse_words(words)?;
    match command.why_not_alone() {
        Some(reason) => Err(Unreadable::Words(anyhow!("{reason}"))),
        None => Ok(Some(Given {
            command,
            is_doubtful: is_doubtful(&command, words),
        })),
    }
}

// Whether a put has a row of digits that may have been meant as text: a shell removes quotation marks.
fn is_doubtful(command: &Command, words: &[&str]) -> bool {
    match (command, words.last()) {
        (Command::Ask(Request::Put { .. }), Some(row)) => may_be_text(row),
        _ => false,
    }
}
