//! A file's layout is known only once the file is open. It is compared with the one that was asked for before a database is
//! opened over the file, since that writes to it. If the file itself failed, its own error is reported, since the fault says
//! less.

ghost use Rattle.std.specs.Prelude.{◌≡◌, ◌↔◌, None, IfOk, IfErr, IfSome, IfNone, OnOk, IsTrue};
ghost use Rattle.base.specs.Images.{opening_fault};
ghost use Rattle.base.specs.Layout.{Layout, opened_layout};
ghost use Rattle.file_laws.specs.Found.{OpensFirst};
ghost use Rattle.log_area.specs.Rulings.{IsLaidOut};
ghost use Rattle.pmem.specs.Device.{restarted};
ghost use Rattle.pmem.specs.Words.{IsAtRest, image_of};
ghost use Rattle.pmem_file.specs.Devices.{failure_of, places_of, state_of};
ghost use Rattle.store.specs.declared.files.Refusal.{Refusal};
ghost use Rattle.store.specs.Files.{IsFoundWith, IsRefusedWith, IsUnopened, OpensLayout, ReportsFault, ReportsFound, ReportsLayout};

use base::fault::Fault;
use base::geometry::Geometry;
use database::{Database, Refused};
use log_area::read_geometry;
use pmem_file::{FileDevice, OpenError};
use recovery::format_new;
use std::alloc::Global;
use std::fs::File;
use std::io;
use std::rt::Files;
use std::sync::Wait;
use std::thread::Threads;

/// The device of a store.
pub type Device = FileDevice;

/// Why a store isn't opened.
#[derive(Drop)]
pub enum Refusal {
    File(OpenError),
    OtherLayout(Geometry),
    Lost(io::Error),
    Fault(Fault),
}

/// Opens the file, which is created and formatted if it is missing or empty.
pub fn open_file<R: Files<File = File>>(
    rt: &R,
    alloc: Global,
    name: &str,
    geometry: Geometry,
) -> Result<Device, Refusal>
    // The device is at rest, as `Database::open` needs it, and its image has the layout that was asked for, except that an image
    // of version 1 is opened as 2.
    ensures found { IfOk result (λ device. IsFoundWith geometry (state_of device)) }

    // It has the image that the file had, or one that was just formatted: nothing else was left of it before (`OpensFirst`).
    ensures first { IfOk result (λ device. OpensFirst (state_of device)) }

    // It has the places of its image's layout.
    ensures places { IfOk result (λ device. (found : Layout) × IsLaidOut found (image_of (state_of device)) × (places_of device ≡ found.places)) }

    // As for `open_database`.
    ensures other { IfErr result (ReportsLayout geometry) }
    ensures fault { IfErr result (ReportsFault geometry) }
{
    let device = match open_formatted(rt, alloc, name, geometry) {
        Ok(device) => device,
        Err(refusal) => return Err(refusal),
    };
    let found = match read_geometry(&device) {
        Ok(found) => found,
        Err(fault) => return Err(refusal_of(device, fault)),
    };
    if found.opened() != geometry.opened() {
        let _ = device.close();
        return Err(Refusal::OtherLayout(found));
    }
    if device.places() as u64 != found.places() {
        let _ = device.close();
        return Err(Refusal::File(OpenError::Image(Fault::BadGeometry)));
    }
    Ok(device)
}

/// Opens an existing file with the layout that its image has, and returns that layout too. It creates no file and formats none.
pub fn find_file<R: Files<File = File>>(
    rt: &R,
    alloc: Global,
    name: &str,
) -> Result<(Device, Geometry), OpenError>
    // The device is at rest and its image has the layout that is handed out. Nothing was done to it since it was opened. It has
    // the places of that layout.
    ensures found { IfOk result (λ found. IsFoundWith found.1 (state_of found.0)) }
    ensures rest { IfOk result (λ found. IsAtRest (state_of found.0)) }
    ensures layout { IfOk result (λ found. IsLaidOut found.1 (image_of (state_of found.0))) }
    ensures untouched { IfOk result (λ found. state_of found.0 ≡ restarted (image_of (state_of found.0))) }
    ensures places { IfOk result (λ found. places_of found.0 ≡ found.1.places) }
{
    let device = match FileDevice::open_existing(rt, alloc, name) {
        Ok(device) => device,
        Err(error) => return Err(error),
    };
    match read_geometry(&device) {
        Ok(layout) => Ok((device, layout)),
        Err(fault) => {
            let _ = device.close();
            Err(OpenError::Image(fault))
        }
    }
}

// The device of the file, which is created and formatted if it is missing or empty.
fn open_formatted<R: Files<File = File>>(
    rt: &R,
    alloc: Global,
    name: &str,
    geometry: Geometry,
) -> Result<Device, Refusal>
    ensures ok { IfOk result (λ device. IsAtRest (state_of device)) }
    ensures first { IfOk result (λ device. OpensFirst (state_of device)) }
    ensures err { (layout : Layout) → IfErr result (ReportsLayout layout) }
    ensures fault { IfErr result (ReportsFault geometry) }
{
    let mut device = match FileDevice::open(rt, alloc, name, geometry) {
        Ok(device) => device,
        Err(error) => return Err(Refusal::File(error)),
    };
    match format_new(&mut device, geometry) {
        Ok(_) => Ok(device),
        Err(fault) => Err(refusal_of(device, fault)),
    }
}

/// Opens a database over the file, which is created with this layout if it is missing or empty.
pub fn open_database<R: Files<File = File> + Threads + Wait + Copy + Drop + Send + Sync + 'static>(
    rt: &R,
    alloc: Global,
    name: &str,
    geometry: Geometry,
) -> Result<Database<Device, R>, Refusal>
    // A device was opened that was at rest, whose image has the layout that was asked for and isn't refused.
    ensures ok { OnOk result (OpensLayout geometry) }

    // Another layout is reported only if a device at rest has it, and it isn't the one that was asked for.
    ensures err { IfErr result (ReportsLayout geometry) }

    // A fault is reported only if it keeps a device at rest from being opened. Either that device isn't formatted with the layout
    // because of this fault, or its superblock is wrong in this way. Or it has the layout that was asked for, and opening it as a
    // database is refused with this fault. That a file failed is reported only if a write or a sync of one did, for that cause.
    ensures fault { IfErr result (ReportsFault geometry) }
{
    match open_file(rt, alloc, name, geometry) {
        Ok(device) => match open_over(rt, alloc, device) {
            Ok(database) => Ok(database),
            Err(refusal) => Err(refusal),
        },
        Err(refusal) => Err(refusal),
    }
}

/// Opens a database over this device.
pub fn open_over<R: Threads + Wait + Copy + Drop + Send + Sync + 'static>(
    rt: &R,
    alloc: Global,
    device: Device,
) -> Result<Database<Device, R>, Refusal>
    requires at_rest { IsAtRest (state_of device) }
    ensures ok { OnOk result (opening_fault (image_of (state_of device)) ≡ None) }
    ensures err { (layout : Layout) → IfErr result (ReportsLayout layout) }
    ensures fault { (layout : Layout) → IsFoundWith layout (state_of device) → IfErr result (ReportsFault layout) }

    // For a device at rest of a layout: opening it as a database is refused with this fault, or a write or a sync of its file
    // failed.
    ensures found { (layout : Layout) → IsFoundWith layout (state_of device) → IfErr result (ReportsFound layout) }
{
    match Database::open(*rt, alloc, device) {
        Ok(database) => Ok(database),
        Err(Refused { fault, device }) => Err(refusal_of(device, fault)),
    }
}

/// If a write or a sync of the file failed, the cause. Otherwise the fault with which opening was refused; then the file is closed.
pub fn refusal_of(device: Device, fault: Fault) -> Refusal
    ensures layout { (layout : Layout) → ReportsLayout layout result }

    // If a write or a sync of the file failed, that is reported, and otherwise the fault.
    ensures lost { IfSome (failure_of device) (λ cause. result ≡ Refusal.Lost cause) }
    ensures fault { IfNone (failure_of device) (result ≡ Refusal.Fault fault) }

    ensures why { (layout : Layout) → IsUnopened layout fault → ReportsFault layout result }
    ensures found { (layout : Layout) → IsRefusedWith layout fault → ReportsFound layout result }
{
    match device.failure() {
        Some(cause) => Refusal::Lost(cause),
        None => {
            let _ = device.close();
            Refusal::Fault(fault)
        }
    }
}
