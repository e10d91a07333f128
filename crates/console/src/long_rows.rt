ghost use Rattle.std.specs.Prelude.{◌≡◌, ◌≤◌};
ghost use Rattle.base.specs.Layout.{row_limit};
ghost use Rattle.console.specs.BadLine.{kept_by};
ghost use Rattle.console.specs.LongRows.{command_on, most_bytes};

use base::geometry::Geometry;
use base::row::Row;
use base::step::SessionStep;
use command_line::command::Command;

/// What a command asks for on an image of this geometry. A put of a row that is longer than `most_bytes` makes no step.
pub fn command_on(geometry: Geometry, command: &Command) -> Command
    ensures value { result ≡ command_on geometry.version command.now }
    ensures kept { kept_by result ≡ kept_by command.now }
{
    match command {
        Command::Step(SessionStep::Put { row, .. })
            if row.as_bytes().len() > most_bytes(geometry) => { Command::LongRow }
        _ => *command,
    }
}

// The longest row of images of versions 1 to 3, or of version 4.
#[tactic(auto, unfolding(base::specs::Layout::slot_words, base::specs::Layout::slot_lines), using(base::proofs::Layouts::some_lines))]
fn most_bytes(geometry: Geometry) -> usize
    ensures value { result ≡ most_bytes geometry.version }

    // So no row that fits into a slot is too long.
    ensures fits { row_limit geometry.version ≤ result }
{
    if Geometry::is_large_version(geometry.version()) {
        Row::LIMIT
    } else {
        96
    }
}
