ghost use Rattle.std.specs.Prelude.{◌≡◌, ◌++◌, ◌∷◌, [], OnOk};
ghost use Rattle.std.specs.Io.KnownBytes.{Appends};
ghost use Rattle.command_line.specs.Texts.{text_of};
ghost use Rattle.console.specs.Obeyed.{reply_text};

use base::step::Reply;
use command_line::printed::{Printed, print};
use std::alloc::Global;
use std::io;
use std::io::Write;

/// Prints the line of a reply.
pub fn show<W: Write>(alloc: Global, reply: &Reply, output: &mut W) -> io::Result<()>
    ensures { OnOk result (Appends (W.contents output.old) (W.contents output.new) (reply_text reply.now ++ 10 ∷ [])) }
{
    print(alloc, output, &printed(reply))
}

fn printed<'a>(reply: &'a Reply) -> Printed<'a>
    ensures { text_of result ≡ reply_text reply.now }
{
    match reply {
        Reply::Began(session) => Printed::Session(*session),
        Reply::Row(Some(row)) => Printed::Row(row.as_bytes()),
        Reply::Row(None) => Printed::NoRow,
        Reply::Rows(rows) => Printed::Rows(rows.as_slice()),
        Reply::Done => Printed::Done,
        Reply::Drawn(timestamp) => Printed::Drawn(*timestamp),
        Reply::More => Printed::More,
        Reply::Stamped => Printed::Stamped,
        Reply::Waiting => Printed::Waiting,
        Reply::Committed(timestamp) => Printed::Committed(*timestamp),
        Reply::Idle => Printed::Idle,
        Reply::Ticked(_) => Printed::Tick,
        Reply::Covered(batch) => Printed::Covered(batch.stamp()),
        Reply::Visited(slot) => Printed::Visited(*slot),
        Reply::SweepEnd => Printed::SweepEnd,
        Reply::Refused(fault) => Printed::Refused(*fault),
    }
}
