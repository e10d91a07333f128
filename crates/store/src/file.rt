//! Opening a store writes to its file. A caller that takes only some layouts looks at the file's layout first.

ghost use Rattle.pmem.specs.Device.{restarted};
ghost use Rattle.log_area.specs.Rulings.{IsLaidOut};
ghost use Rattle.pmem.specs.Words.{IsAtRest, image_of};
ghost use Rattle.pmem_file.specs.Devices.{places_of, state_of};
ghost use Rattle.store.specs.Files.{IsFoundWith};

use crate::error::StoreError;
use crate::files::{Device, find_file, open_over};
use crate::store::{Store, not_opened, over};
use base::geometry::Geometry;
use pmem_file::OpenError;
use std::alloc::Global;
use std::fs::File;
use std::io;
use std::rt::Files;
use std::sync::Wait;
use std::thread::Threads;

/// The file of a store that isn't opened yet.
#[derive(Drop)]
pub struct StoreFile {
    name: String,
    device: Device,
    layout: Geometry,
    ghost rest: { IsAtRest (state_of device) },
    ghost laid_out: { IsLaidOut layout (image_of (state_of device)) },
}

impl StoreFile {
    ghost use Rattle.std.specs.Prelude.{◌≡◌, IfOk, IfErr, OnOk};
    ghost use Rattle.std.specs.String.{string_bytes};
    ghost use Rattle.store.specs.Files.{OpensExisting};
    ghost use Rattle.store.specs.Opening.{IsFindingError};

    /// The file of this name, if a store is in it. It creates no file, and waits for no other process.
    pub fn find<R: Files<File = File>>(
        rt: &R,
        alloc: Global,
        name: &str,
    ) -> Result<StoreFile, StoreError>
        // A device was opened over it that is at rest. Its image has the layout that `layout` returns, and it has that layout's places.
        // Nothing was done to it since it was opened.
        ensures found { IfOk result (λ file. IsFoundWith file.layout (state_of file.device)) }
        ensures places { IfOk result (λ file. places_of file.device ≡ file.layout.places) }
        ensures untouched { IfOk result (λ file. state_of file.device ≡ restarted (image_of (state_of file.device))) }

        // The file keeps the name.
        ensures name { IfOk result (λ file. string_bytes file.name ≡ name.now) }

        // As for `Store::open_existing`.
        ensures err { IfErr result (IsFindingError name.now) }
    {
        let name = String::from_str(alloc, name)?;
        match find_file(rt, alloc, name.as_str()) {
            Ok((device, layout)) => Ok(StoreFile {
                name,
                device,
                layout,
            }),
            Err(OpenError::Missing) => Err(StoreError::Missing { name }),
            Err(cause) => Err(StoreError::File { name, cause }),
        }
    }

    /// The layout of the store.
    pub fn layout(&self) -> Geometry
        // That of the device's image.
        ensures { result ≡ self.now.layout }
    {
        self.layout
    }

    /// Closes the file, and the store in it is what it was. After an error it is too, with a journal that is read when it is opened.
    pub fn close(self) -> io::Result<()> {
        let _ = self.device.close()?;
        Ok(())
    }

    /// Opens the store, as `Store::open_existing` does.
    pub fn open<R: Threads + Wait + Copy + Drop + Send + Sync + 'static>(
        self,
        rt: R,
        alloc: Global,
    ) -> Result<Store<R>, StoreError>
        // As for `Store::open_existing`.
        ensures ok { OnOk result OpensExisting }
        ensures name { IfOk result (λ store. string_bytes store.name ≡ string_bytes self.name) }
        ensures err { IfErr result (IsFindingError (string_bytes self.name)) }
    {
        let StoreFile {
            name,
            device,
            layout,
        } = self;
        match open_over(&rt, alloc, device) {
            Ok(database) => Ok(over(alloc, name, database)),
            Err(refusal) => Err(not_opened(name, layout, refusal)),
        }
    }
}
