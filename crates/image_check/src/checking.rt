ghost use Rattle.std.specs.Prelude.{IfOk, IfErr};
ghost use Rattle.recovery.specs.Read.{IsReadRefusal};
ghost use Rattle.image_check.specs.Checked.{Reports};

use crate::sorting::by_rising_key;
use base::Ts;
use base::fault::Fault;
use base::gap::Gaps;
use base::key::Key;
use base::longs::Longs;
use base::row::Row;
use recovery::read_image;
use std::alloc::Global;
use std::thread::Threads;

/// What a sound image holds.
#[derive(Debug, Drop)]
pub struct Report {
    /// The number of the record that rules it.
    pub gate: u64,
    pub persisted: Ts,
    pub dirty: Ts,
    pub gaps: Gaps,
    /// The long commits that the record names.
    pub longs: Longs,
    /// The rows of its tables, by rising key.
    pub rows: Vec<(Key, Row)>,
}

/// Tests all words of an image that count, and reports what it holds. It doesn't open the image, so it also checks one whose
/// opening would find no timestamps left. An image that isn't sound is refused for the first thing that is wrong with it.
pub fn check<R: Threads + Sync>(rt: &R, alloc: Global, words: &[u64]) -> Result<Report, Fault>
    // The image is sound. These are its ruling record's gate, timestamps, gaps and long commits, and its tables' rows, each once,
    // by rising key.
    ensures ok { IfOk result (λ report. Reports words.now report.gate report.persisted report.dirty report.gaps report.longs report.rows.items) }

    // At Err it is the image's first damage. Or it is OutOfMemory, if the superblock, the gates and the ruling record are right.
    // So each sound image passes, unless memory is lacking.
    ensures fault { IfErr result (IsReadRefusal words.now) }
{
    let found = match read_image(rt, alloc, words) {
        Ok(found) => found,
        Err(fault) => return Err(fault),
    };
    let ruling = found.ruling;
    match by_rising_key(alloc, found.rows) {
        Ok(rows) => Ok(Report {
            gate: ruling.gate(),
            persisted: ruling.persisted(),
            dirty: ruling.dirty(),
            gaps: ruling.gaps(),
            longs: ruling.longs(),
            rows,
        }),
        Err(_) => Err(Fault::OutOfMemory),
    }
}
