ghost use Rattle.std.specs.Prelude.{◌≡◌, ◌⊎◌, [], ◌∷◌, codes, false, IfErr, IfOk, IsOkAnd};
ghost use Rattle.clap.specs.Words.{AddsArg, AddsSubcommand, app_of, kind_of, rule_of, shape_of};
ghost use Rattle.clap.specs.declared.error.kind.ErrorKind.TheVariants.{OutOfMemory as OutOfMemoryKind};
ghost use Rattle.command_line.specs.Help.{AnswersHelp, ReportsKind, UnlessOutOfMemory, app_with, check_shape, choice_rule, flag_rule, format_shape, lives_shape, name_rule, number_rule, run_shape, threads_shape, wbl, wbl_alone};
ghost use Rattle.command_line.specs.Lines.{texts};
ghost use Rattle.command_line.specs.Words.{Gives, GivesNothing};
ghost use Rattle.command_line.specs.declared.orders.WordFault.{WordFault as WordFaultValue};

use crate::found::found_order;
use crate::orders::{MOST_COMMITS, MOST_SESSIONS, Order, WordFault};
use clap::builder::ValueParser;
use clap::error::ErrorKind;
use clap::{Arg, ArgAction, Command};
use std::alloc::{AllocError, Global};

/// What the words after the program's name ask for: a subcommand, a file, and numbers that have
/// defaults. Fails with the text for the user.
pub fn order<'a>(alloc: Global, words: &'a [&'a str]) -> Result<Order<'a>, WordFault>
    // At Ok exactly what the words give by the statements of `clap`: the subcommand, the file, each option's number or its
    // default, within the limits, and the width of slots that `--wide` or `--lines` asks for.
    ensures gives { IfOk result (Gives (texts words.now)) }

    // At Err the words give no order, unless memory was lacking.
    ensures refused { IfErr result (UnlessOutOfMemory (GivesNothing (texts words.now))) }

    // Help is returned only for words that may get it, and words for which help is the only reply aren't blamed as bad
    // (`AnswersHelp`). Both are by the statements of `clap` for this command line.
    ensures help { IfErr result (AnswersHelp (texts words.now)) }
{
    let mut command = match command_line(alloc) {
        Ok(command) => command,
        Err(error) => return Err(WordFault::OutOfMemory(error)),
    };
    match parsed_order(&mut command, words) {
        Ok(order) => Ok(order),
        Err(error) => Err(word_fault(alloc, &error)),
    }
}

// The order in the words, or what clap reports about them. If it takes them and they give no order, they are unusual.
fn parsed_order<'a>(
    command: &mut Command<'a>,
    words: &'a [&'a str],
) -> Result<Order<'a>, clap::Error>
    requires { app_of command.old ≡ wbl }
    ensures gives { IfOk result (Gives (texts words.now)) }
    ensures refused { IfErr result (λ error. (kind_of error ≡ OutOfMemoryKind) ⊎ GivesNothing (texts words.now)) }
    ensures help { IfErr result (λ error. (fault : WordFaultValue) → ReportsKind (kind_of error) fault → AnswersHelp (texts words.now) fault) }
{
    let matches = command.try_get_matches_from_mut(words)?;
    match found_order(&matches) {
        Some(order) => Ok(order),
        None => Err(command.error(ErrorKind::InvalidValue, UNUSUAL_WORDS)?),
    }
}

const UNUSUAL_WORDS: &str =
    "a number has 1 to 20 digits and nothing else, a file whose name begins with '-' is written as ./-NAME, and --wide goes with at most 65536 slots and without --lines";

fn word_fault(alloc: Global, error: &clap::Error) -> WordFault
    ensures { ReportsKind (kind_of error.now) result }
{
    if matches!(error.kind(), ErrorKind::OutOfMemory) {
        return WordFault::OutOfMemory(AllocError);
    }
    match error.to_string(alloc) {
        Ok(text) if matches!(error.kind(), ErrorKind::DisplayHelp) => WordFault::Help(text),
        Ok(text) => WordFault::BadWords(text),
        Err(error) => WordFault::OutOfMemory(error),
    }
}

fn command_line<'a>(alloc: Global) -> Result<Command<'a>, AllocError>
    ensures { IfOk result (λ command. app_of command ≡ wbl) }
{
    let format = with_subcommand(program(alloc), format_command(alloc));
    let run = with_subcommand(format, run_command(alloc));
    let check = with_subcommand(run, check_command(alloc));
    let lives = with_subcommand(check, lives_command(alloc));
    with_subcommand(lives, threads_command(alloc))
}

// Adds a subcommand, if there was memory for both. An error is passed on as it is, since a function with many ways out takes the prover
// long.
fn with_subcommand<'a>(
    made: Result<Command<'a>, AllocError>,
    subcommand: Result<Command<'a>, AllocError>,
) -> Result<Command<'a>, AllocError>
    ensures { IfOk result (λ new. IsOkAnd made.entry (λ command. IsOkAnd subcommand.entry (λ added. AddsSubcommand command added new))) }
{
    made?.subcommand(subcommand?)
}

// Adds an argument, if there was memory for the command so far.
fn with_argument<'a>(
    made: Result<Command<'a>, AllocError>,
    argument: Arg<'a>,
) -> Result<Command<'a>, AllocError>
    ensures { IfOk result (λ new. IsOkAnd made.entry (λ command. AddsArg command argument.entry new)) }
{
    made?.arg(argument)
}

// The program, still without subcommands.
fn program<'a>(alloc: Global) -> Result<Command<'a>, AllocError>
    ensures { IfOk result (λ command. app_of command ≡ wbl_alone) }
{
    let command = Command::new(alloc, "wbl")
        .no_binary_name(true)
        .bin_name("wbl")?
        .about(
            "A row engine with write-behind logging, over an image of persistent memory in a file.",
        )
        .subcommand_required(true);
    Ok(command)
}

// A subcommand with an argument that has to be given, before the options.
fn subcommand<'a>(
    alloc: Global,
    name: &'a str,
    about: &'a str,
    example: &'a str,
    argument: Arg<'a>,
) -> Result<Command<'a>, AllocError>
    requires { argument.global ≡ false }
    ensures { IfOk result (λ command. app_of command ≡ app_with name.now (rule_of argument.entry ∷ [])) }
{
    Command::new(alloc, name)
        .about(about)
        .after_help(example)
        .arg(argument)
}

fn format_command<'a>(alloc: Global) -> Result<Command<'a>, AllocError>
    ensures { IfOk result (λ command. shape_of command ≡ format_shape) }
{
    let file = subcommand(
        alloc,
        "format",
        "Writes a new, empty image into FILE",
        "Example: wbl format db.img --slots 8 --places 2 --window 8\nprints: formatted 136 words",
        file_argument(alloc),
    );
    let slots = with_argument(
        file,
        number_option(alloc, "slots", "1024", 1, 16_777_216).help(
            "How many row versions there is room for, 1 to 16777216: with more than 65536 an image of version 4",
        ),
    );
    let places = with_argument(
        slots,
        number_option(alloc, "places", "4", 2, 64).help(
            "How many places there are for commit records, 2 to 64",
        ),
    );
    let window = with_argument(
        places,
        number_option(alloc, "window", "64", 4, 1024).help(
            "How many timestamps a commit record leaves for later commits, 4 to 1024",
        ),
    );
    let wide = with_argument(window, wide_option(alloc));
    with_argument(wide, lines_option(alloc))
}

fn run_command<'a>(alloc: Global) -> Result<Command<'a>, AllocError>
    ensures { IfOk result (λ command. shape_of command ≡ run_shape) }
{
    subcommand(
        alloc,
        "run",
        "Opens the image in FILE and runs the lines of standard input",
        RUN_EXAMPLE,
        file_argument(alloc),
    )
}

const RUN_EXAMPLE: &str = "Example: wbl run db.img, with the lines
  begin
  put 2 1 7 6162
  draw 2
  stamp 2
  cycle
  poll 2
puts the row 6162 under key 7 of table 1, and commits it. At the end of the input the image is
closed and written back.";

fn check_command<'a>(alloc: Global) -> Result<Command<'a>, AllocError>
    ensures { IfOk result (λ command. shape_of command ≡ check_shape) }
{
    subcommand(
        alloc,
        "check",
        "Tests the image in FILE without opening it, and prints its rows",
        "Example: wbl check db.img\nprints: sound gate 4 p 1 d 2 gaps -\n        1 7 6162\n        end 1",
        file_argument(alloc),
    )
}

fn lives_command<'a>(alloc: Global) -> Result<Command<'a>, AllocError>
    ensures { IfOk result (λ command. shape_of command ≡ lives_shape) }
{
    subcommand(
        alloc,
        "lives",
        "Runs the lives of the script in SCRIPT, each ended by a simulated crash, and reports them",
        LIVES_EXAMPLE,
        name_argument(alloc, "SCRIPT", "The file that holds the script"),
    )
}

const LIVES_EXAMPLE: &str = "Example: wbl lives two.script, with the lines
  geometry 4 2 8
  life 90 newest
  begin
  put 2 1 7 6162
  draw 2
  stamp 2
  commit 42
  life - oldest
  begin
  get 2 1 7
formats a device. In the first life it fails after 90 operations, within the covering of the commit,
and of each word the newest value that may have survived is kept. So the second life reads the row.";

fn threads_command<'a>(alloc: Global) -> Result<Command<'a>, AllocError>
    ensures { IfOk result (λ command. shape_of command ≡ threads_shape) }
{
    let file = subcommand(
        alloc,
        "threads",
        "Opens the image in FILE, and commits rows from several threads at once",
        "Example: wbl threads db.img --sessions 2 --commits 3\nprints: committed 6\n        1 0 0300000000000000\n        1 1 0300000000000000\n        end 2\n        closed",
        file_argument(alloc),
    );
    let sessions = with_argument(
        file,
        number_option(alloc, "sessions", "4", 1, MOST_SESSIONS).help(
            "How many threads there are, each with a session of its own, 1 to 32",
        ),
    );
    with_argument(
        sessions,
        number_option(alloc, "commits", "8", 1, MOST_COMMITS).help(
            "How many commits each of them makes, 1 to 1000",
        ),
    )
}

fn file_argument<'a>(alloc: Global) -> Arg<'a>
    ensures rule { rule_of result ≡ name_rule (codes "FILE") }
    ensures global { result.global ≡ false }
{
    name_argument(alloc, "FILE", "The file that holds the image")
}

fn name_argument<'a>(alloc: Global, id: &'a str, help: &'a str) -> Arg<'a>
    ensures rule { rule_of result ≡ name_rule id.now }
    ensures global { result.global ≡ false }
{
    Arg::new(alloc, id)
        .required(true)
        .action(ArgAction::Set)
        .help(help)
}

fn wide_option<'a>(alloc: Global) -> Arg<'a>
    ensures rule { rule_of result ≡ flag_rule (codes "wide") }
    ensures global { result.global ≡ false }
{
    Arg::new(alloc, "wide")
        .long("wide")
        .action(ArgAction::SetTrue)
        .help("Slots of two lines, for rows of up to 96 bytes instead of 32")
}

fn lines_option<'a>(alloc: Global) -> Arg<'a>
    ensures rule { rule_of result ≡ choice_rule (codes "lines") 1 8 }
    ensures global { result.global ≡ false }
{
    Arg::new(alloc, "lines")
        .long("lines")
        .value_name("W")
        .value_parser(ValueParser::unsigned(1, 8))
        .help(
            "An image of version 4, with slots of 1 line for rows of up to 32 bytes, and 64 more for each further line",
        )
}

fn number_option<'a>(
    alloc: Global,
    name: &'a str,
    default: &'a str,
    least: u64,
    most: u64,
) -> Arg<'a>
    ensures rule { rule_of result ≡ number_rule name.now default.now least most }
    ensures global { result.global ≡ false }
{
    Arg::new(alloc, name)
        .long(name)
        .value_name("N")
        .default_value(default)
        .value_parser(ValueParser::unsigned(least, most))
}
