//! A store whose history is kept has a name for it, which is picked below: an application doesn't write one.

ghost use Rattle.std.specs.Prelude.{◌≡◌, IfErr, OnOk, true};
ghost use Rattle.std.specs.String.{string_bytes};
ghost use Rattle.pmem_file.specs.Devices.{state_of};
ghost use Rattle.file_laws.specs.Found.{OpensFirst};
ghost use Rattle.store.specs.Files.{IsFoundWith, OpensLayout};
ghost use Rattle.store.specs.Opening.{IsOpeningError};

use crate::error::StoreError;
use crate::files::{Device, open_file, refusal_of};
use crate::store::{Store, not_opened, over};
use base::geometry::Geometry;
use database::{Database, History, Origin, Refused};
use std::alloc::Global;
use std::fs::File;
use std::marker::Brand;
use std::rt::Files;
use std::sync::Wait;
use std::thread::Threads;

/// What an application does with a store whose history is kept.
pub trait Program {
    ghost use Rattle.std.specs.Prelude.{◌≡◌, true};
    ghost use Rattle.file_laws.specs.Found.{OpensFirst};
    ghost use Rattle.store.specs.Files.{MayOpen};

    type Answer;

    /// It may start threads that share the store.
    fn run<R: Threads + Wait + Copy + Drop + Send + Sync, J: Origin + Send + Sync>(
        self,
        rt: R,
        store: Store<R, J>,
    ) -> Self::Answer
        // The history is kept, from the opening of this device: it was at rest, and its image has a layout and isn't refused. What
        // a crash might have left of it before isn't formatted, or is that image.
        requires kept { J.kept ≡ true }
        requires opened { MayOpen J.opened }
        requires first { OpensFirst J.opened };
}

/// Opens the file as `Store::open` does, keeps the history from then on, and runs the application with the store.
pub fn run<
    R: Files<File = File> + Threads + Wait + Copy + Drop + Send + Sync + 'static,
    P: Program + Drop,
>(rt: R, alloc: Global, name: &str, geometry: Geometry, program: P) -> Result<P::Answer, StoreError>
    // As for `Store::open`.
    ensures ok { OnOk result (OpensLayout geometry) }
    ensures err { IfErr result (IsOpeningError name.now geometry) }
{
    let name = String::from_str(alloc, name)?;
    match open_file(&rt, alloc, name.as_str(), geometry) {
        Ok(device) => run_named::<Brand, R, P>(
            rt,
            alloc,
            name,
            geometry,
            device,
            program,
            History::new(),
        ),
        Err(refusal) => Err(not_opened(name, geometry, refusal)),
    }
}

// The same over this device, under the name of this history.
fn run_named<
    J: Origin + Send + Sync + 'static,
    R: Threads + Wait + Copy + Drop + Send + Sync + 'static,
    P: Program + Drop,
>(
    rt: R,
    alloc: Global,
    name: String,
    geometry: Geometry,
    device: Device,
    program: P,
    history: History,
) -> Result<P::Answer, StoreError>
    requires found { IsFoundWith geometry (state_of device) }
    requires kept { J.kept ≡ true }
    requires name { history ≡ J.book }
    requires opened { state_of device ≡ J.opened }
    requires first { OpensFirst (state_of device) }

    ensures ok { OnOk result (OpensLayout geometry) }
    ensures err { IfErr result (IsOpeningError (string_bytes name) geometry) }
{
    match Database::<Device, R, J>::open_kept(rt, alloc, device, history) {
        Ok(database) => Ok(program.run::<R, J>(rt, over(alloc, name, database))),
        Err(Refused { fault, device }) => {
            Err(not_opened(name, geometry, refusal_of(device, fault)))
        }
    }
}
