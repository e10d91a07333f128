ghost use Rattle.std.specs.Prelude.{◌≡◌, ◌⊎◌, [], IfErr, OnOk};
ghost use Rattle.std.specs.Io.KnownBytes.{Appends};
ghost use Rattle.console.specs.BadLine.{BlamesNoLine};
ghost use Rattle.command_line.specs.Texts.{entries_text};
ghost use Rattle.console.specs.Checked.{PrintsChecked};
ghost use Rattle.console.specs.Refusals.{IfRefused, IsDamage, IsFileFault};
ghost use Rattle.base.specs.declared.fault.Fault.TheVariants.{OutOfMemory};

use crate::stop::Stop;
use base::key::Key;
use base::row::Row;
use command_line::image_file::words_of_file;
use command_line::printed::{Printed, print};
use image_check::check;
use std::alloc::Global;
use std::io;
use std::io::Write;
use std::thread::Threads;

/// Prints what the image in the file holds, if it is sound.
pub fn check_file<T: Threads + Sync, W: Write>(
    rt: &T,
    alloc: Global,
    file: &[u8],
    output: &mut W,
) -> Result<(), Stop>
    ensures checked { OnOk result (PrintsChecked file.now (W.contents output.old) (W.contents output.new)) }
    ensures blames { IfErr result BlamesNoLine }
    ensures refused { IfErr result (IfRefused (λ fault. (fault ≡ OutOfMemory)
        ⊎ (IsFileFault file.now IsDamage fault × Appends (W.contents output.old) (W.contents output.new) []))) }
{
    let words = words_of_file(alloc, file)?;
    let report = check(rt, alloc, words.as_slice())?;
    let sound = Printed::Sound {
        gate: report.gate,
        persisted: report.persisted,
        dirty: report.dirty,
        gaps: report.gaps.as_slice(),
        longs: report.longs.as_slice(),
    };
    print(alloc, output, &sound)?;
    show_rows(alloc, report.rows.as_slice(), output)?;
    let rows = report.rows.len();
    print(alloc, output, &Printed::End { rows })?;
    Ok(())
}

pub(crate) fn show_rows<W: Write>(
    alloc: Global,
    rows: &[(Key, Row)],
    output: &mut W,
) -> io::Result<()>
    ensures { OnOk result (Appends (W.contents output.old) (W.contents output.new) (entries_text rows.now)) }
{
    for (key, row) in rows {
        let entry = Printed::Entry {
            key: *key,
            row: row.as_bytes(),
        };
        print(alloc, output, &entry)?;
    }
    Ok(())
}
