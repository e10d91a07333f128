ghost use Rattle.std.specs.Prelude.{◌≡◌, ◌↔◌, IfErr, IfOk, IsOk, IsTrue};
ghost use Rattle.base.specs.Layout.{is_in_limits};
ghost use Rattle.base.specs.declared.fault.Fault.TheVariants.{BadGeometry};
ghost use Rattle.command_line.specs.Words.{asked_layout};

use base::fault::Fault;
use base::geometry::Geometry;
use std::alloc::AllocError;
use thiserror::Error;

/// What the words of the command line ask for.
#[derive(Clone, Copy)]
pub enum Order<'a> {
    /// A new image is written into the file.
    Format {
        file: &'a str,
        width: Width,
        slots: u64,
        places: u64,
        window: u64,
    },
    /// The image in the file is opened, and the lines of commands are run.
    Run {
        file: &'a str,
    },
    /// The image in the file is tested, and what it holds is printed.
    Check {
        file: &'a str,
    },
    /// The lives of the script in the file are lived, on a modelled device of their own.
    Lives {
        file: &'a str,
    },
    /// The image in the file is opened, and this many threads, each with a session of its own, make
    /// this many commits each.
    Threads {
        file: &'a str,
        sessions: u64,
        commits: u64,
    },
}

/// The slots that a format asks for.
#[derive(Clone, Copy)]
pub enum Width {
    /// Slots of one line.
    Plain,
    /// Slots of two lines, in an image of version 3.
    Wide,
    /// Slots of this many lines, in an image of version 4.
    Lines(u64),
}

/// How many threads with a session there may be, from 1 on.
pub const MOST_SESSIONS: u64 = 32;

/// How many commits each of them may make, from 1 on.
pub const MOST_COMMITS: u64 = 1_000;

/// The layout that a format asks for: of version 3 with wide slots, of version 4 if it says how many lines a slot has or has
/// more than 65,536 slots, and otherwise of version 2.
pub fn asked_geometry(width: Width, slots: u64, places: u64, window: u64) -> Result<Geometry, Fault>
    ensures ok { IfOk result (λ geometry. geometry ≡ asked_layout width slots places window) }

    // Ok exactly within the limits, and otherwise BadGeometry.
    ensures limits { IsOk result ↔ IsTrue (is_in_limits (asked_layout width slots places window)) }
    ensures fault { IfErr result (λ fault. fault ≡ BadGeometry) }
{
    match width {
        Width::Plain if slots <= Geometry::MOST_SLOTS => Geometry::new(slots, places, window),
        Width::Plain => Geometry::large(1, slots, places, window),
        Width::Wide => Geometry::wide(slots, places, window),
        Width::Lines(lines) => Geometry::large(lines, slots, places, window),
    }
}

/// Why the words give no order. Each carries the text for the user.
#[derive(Debug, Drop, Error)]
pub enum WordFault {
    /// Help was asked for: its text goes to the standard output, and the exit status is 0.
    #[error("{0}")]
    Help(String),
    /// The words are bad: the text goes to the standard error, and the exit status is 2.
    #[error("{0}")]
    BadWords(String),
    #[error("error: out of memory\n")]
    OutOfMemory(#[from(alloc)] AllocError),
}
