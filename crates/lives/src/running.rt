//! One device goes through all the lives, since what a stop may leave depends on all that was done to it before.

ghost use Rattle.std.specs.Prelude.{◌≡◌, [], IfOk, IfErr};
ghost use Rattle.base.specs.declared.fault.Fault.TheVariants.{OutOfMemory};
ghost use Rattle.base.specs.Fresh.{fresh_image};
ghost use Rattle.base.specs.Stands.{Stands};
ghost use Rattle.pmem.specs.Words.{image_of};
ghost use Rattle.pmem_model.specs.Sim.{device_of};
ghost use Rattle.lives.specs.Chains.{AreLives};
ghost use Rattle.lives.specs.Stops.{IsRestarted};

use crate::beginning::live;
use crate::ending::stop;
use crate::life::{Life, LifeReport};
use base::fault::Fault;
use base::geometry::Geometry;
use pmem_model::{Choice, SimPmem};
use recovery::format;
use std::alloc::Global;
use std::thread::Threads;

/// Formats a device and plays the lives on it, each over the image that the one before it left, under its own fuse and with its
/// own choice.
pub fn run_lives<R: Threads + Sync>(
    rt: &R,
    alloc: Global,
    geometry: Geometry,
    lives: &[Life],
) -> Result<Vec<LifeReport>, Fault>
    // The reports are those of a chain of lives, asked as given, from a fresh image of the geometry on (`AreLives`,
    // `specs/Chains.antt`). Each opening has the numbers, the gaps and the tables of what the life before it left, each reply is
    // the plain machine's, and each closing is as defined. A report keeps the last reply of a step that is taken many times,
    // which is that of its first refusal (`AreReported`, `specs/ReportedReplies.antt`). So (`Keeps`) the last image stands for a
    // history, and each life added a beginning of what it drew, in log order. All that was acknowledged is in the history, what a
    // stop left out never returns, and no timestamp was drawn twice. Each life was stopped as asked (`AreStopped`,
    // `specs/Stops.antt`). It made no more operations than its fuse allows, and exactly that many if the report says that the
    // device failed, as it does if an operation failed. The image that the next life opens has of each word the survivor that its
    // choice names.
    ensures ok { IfOk result (λ reports. AreLives geometry lives.now reports.items) }

    // It fails only for lack of memory: for a report, or because the modelled device could not keep what was done to it. Lack of
    // memory within a life is in its report.
    ensures fault { IfErr result (λ fault. fault ≡ OutOfMemory) }
{
    let mut device = formatted(alloc, geometry)?;
    let mut reports = Vec::new(alloc);
    for life in lives {
        let (report, left) = live(rt, alloc, device, life)?;
        device = left;
        let Ok(()) = reports.push(report) else {
            return Err(Fault::OutOfMemory);
        };
    }
    Ok(reports)
}

// A device at rest with a fresh image. A format without a fuse fails only for lack of memory.
fn formatted(alloc: Global, geometry: Geometry) -> Result<SimPmem, Fault>
    ensures image { IfOk result (λ device. image_of (device_of device) ≡ fresh_image geometry) }
    ensures empty { IfOk result (λ device. Stands (image_of (device_of device)) [] [] 1) }
    ensures rests { IfOk result (λ device. IsRestarted (device_of device)) }
    ensures fault { IfErr result (λ fault. fault ≡ OutOfMemory) }
{
    let Ok(words) = vec![in alloc; 0; geometry.words() as usize] else {
        return Err(Fault::OutOfMemory);
    };
    let mut device = SimPmem::from_words(alloc, words.as_slice())?;
    match format(&mut device, geometry) {
        Ok(()) => stop(&device, &Choice::Oldest),
        Err(_) => Err(Fault::OutOfMemory),
    }
}
