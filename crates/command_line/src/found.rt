ghost use Rattle.std.specs.Prelude.{◌≡◌, codes, IfNone, IfSome, Bool, option_map};
ghost use Rattle.clap.specs.Words.{first_of, found_of, rows_of, subcommand_rows_of};
ghost use Rattle.command_line.specs.Numbers.{Text};
ghost use Rattle.command_line.specs.Words.{FindsIn, FindsNothing, FindsOrder, HasFile, HasFlag, HasWidth, is_file_name, number_in};
ghost use Rattle.command_line.specs.declared.orders.Order.{Order as OrderValue};
ghost use Rattle.command_line.specs.declared.orders.Width.{Width as WidthValue};

use crate::number::number;
use crate::orders::{MOST_COMMITS, MOST_SESSIONS, Order, Width, asked_geometry};
use clap::ArgMatches;

/// The order of the subcommand that clap found in the words.
pub(crate) fn found_order<'a>(matches: &ArgMatches<'a>) -> Option<Order<'a>>
    ensures gives { IfSome result (FindsIn (subcommand_rows_of matches.now)) }
    ensures none { IfNone result ((order : OrderValue) → FindsIn (subcommand_rows_of matches.now) order → ⊥) }
{
    let (name, found) = matches.subcommand()?;
    if name == "format" {
        found_format(found)
    } else if name == "run" {
        found_run(found)
    } else if name == "check" {
        found_check(found)
    } else if name == "lives" {
        found_lives(found)
    } else if name == "threads" {
        found_threads(found)
    } else {
        None
    }
}

fn found_run<'a>(found: &ArgMatches<'a>) -> Option<Order<'a>>
    ensures gives { IfSome result (FindsOrder (codes "run") (rows_of (found_of found.now))) }
    ensures none { IfNone result (FindsNothing (codes "run") (rows_of (found_of found.now))) }
{
    let file = found_file(found, "FILE")?;
    Some(Order::Run { file })
}

fn found_check<'a>(found: &ArgMatches<'a>) -> Option<Order<'a>>
    ensures gives { IfSome result (FindsOrder (codes "check") (rows_of (found_of found.now))) }
    ensures none { IfNone result (FindsNothing (codes "check") (rows_of (found_of found.now))) }
{
    let file = found_file(found, "FILE")?;
    Some(Order::Check { file })
}

fn found_lives<'a>(found: &ArgMatches<'a>) -> Option<Order<'a>>
    ensures gives { IfSome result (FindsOrder (codes "lives") (rows_of (found_of found.now))) }
    ensures none { IfNone result (FindsNothing (codes "lives") (rows_of (found_of found.now))) }
{
    let file = found_file(found, "SCRIPT")?;
    Some(Order::Lives { file })
}

fn found_format<'a>(found: &ArgMatches<'a>) -> Option<Order<'a>>
    ensures gives { IfSome result (FindsOrder (codes "format") (rows_of (found_of found.now))) }
    ensures none { IfNone result (FindsNothing (codes "format") (rows_of (found_of found.now))) }
{
    let file = found_file(found, "FILE")?;
    let width = found_width(found)?;
    let slots = found_number(found, "slots")?;
    let places = found_number(found, "places")?;
    let window = found_number(found, "window")?;
    if asked_geometry(width, slots, places, window).is_err() {
        return None;
    }
    Some(Order::Format {
        file,
        width,
        slots,
        places,
        window,
    })
}

// The width that the options ask for.
#[tactic(auto, using(crate::proofs::Matches::no_width))]
fn found_width(found: &ArgMatches<'_>) -> Option<Width>
    ensures is { IfSome result (HasWidth (rows_of (found_of found.now))) }
    ensures none { IfNone result ((width : WidthValue) → HasWidth (rows_of (found_of found.now)) width → ⊥) }
{
    let wide = found_flag(found, "wide")?;
    match (wide, found_text(found, "lines")) {
        (false, None) => Some(Width::Plain),
        (true, None) => Some(Width::Wide),
        (false, Some(text)) => match number(text.as_bytes()) {
            Some(lines) => Some(Width::Lines(lines)),
            None => None,
        },
        (true, Some(_)) => None,
    }
}

fn found_threads<'a>(found: &ArgMatches<'a>) -> Option<Order<'a>>
    ensures gives { IfSome result (FindsOrder (codes "threads") (rows_of (found_of found.now))) }
    ensures none { IfNone result (FindsNothing (codes "threads") (rows_of (found_of found.now))) }
{
    let file = found_file(found, "FILE")?;
    let sessions = found_number(found, "sessions")?;
    let commits = found_number(found, "commits")?;
    if sessions < 1 || sessions > MOST_SESSIONS || commits < 1 || commits > MOST_COMMITS {
        return None;
    }
    Some(Order::Threads {
        file,
        sessions,
        commits,
    })
}

fn found_file<'a>(found: &ArgMatches<'a>, argument: &str) -> Option<&'a str>
    ensures is { IfSome result (λ name. HasFile (rows_of (found_of found.now)) argument.now name.now) }
    ensures none { IfNone result ((name : Text) → HasFile (rows_of (found_of found.now)) argument.now name → ⊥) }
{
    match found_text(found, argument) {
        Some(name) if is_file_name(name) => Some(name),
        _ => None,
    }
}

fn is_file_name(word: &str) -> bool
    ensures { result ≡ is_file_name word.now }
{
    !word.starts_with('-')
}

fn found_number(found: &ArgMatches<'_>, option: &str) -> Option<u64>
    ensures { result ≡ number_in (rows_of (found_of found.now)) option.now }
{
    match found_text(found, option) {
        Some(text) => number(text.as_bytes()),
        None => None,
    }
}

fn found_text<'a>(found: &ArgMatches<'a>, argument: &str) -> Option<&'a str>
    ensures { option_map (λ text. text.now) result ≡ first_of argument.now (rows_of (found_of found.now)) }
{
    found.get_str(argument)
}

fn found_flag(found: &ArgMatches<'_>, option: &str) -> Option<bool>
    ensures is { IfSome result (HasFlag (rows_of (found_of found.now)) option.now) }
    ensures none { IfNone result ((given : Bool) → HasFlag (rows_of (found_of found.now)) option.now given → ⊥) }
{
    found.get_one(option)
}
