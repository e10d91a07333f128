ghost use Rattle.std.specs.Prelude.{◌≡◌, IfErr, IfOk};
ghost use Rattle.base.specs.declared.fault.Fault.TheVariants.{OutOfMemory};
ghost use Rattle.command_line.specs.ImageFile.{IsFileOf};
ghost use Rattle.base.specs.Fresh.{fresh_image};

use base::fault::Fault;
use base::geometry::Geometry;
use command_line::image_file::file_of_words;
use pmem_model::SimPmem;
use std::alloc::Global;

/// A file that holds a fresh image.
pub fn fresh_file(alloc: Global, geometry: Geometry) -> Result<Vec<u8>, Fault>
    ensures file { IfOk result (λ file. IsFileOf (fresh_image geometry) file.items) }

    // It is refused only for lack of memory.
    ensures fault { IfErr result (λ fault. fault ≡ OutOfMemory) }
{
    let Ok(words) = Vec::from_elem(alloc, 0, geometry.words() as usize) else {
        return Err(Fault::OutOfMemory);
    };
    let mut device = SimPmem::from_words(alloc, words.as_slice())?;
    // A device without a fuse fails only if a store takes memory and there is none.
    let Ok(()) = recovery::format(&mut device, geometry) else {
        return Err(Fault::OutOfMemory);
    };
    let image = device.image()?;
    file_of_words(alloc, image.as_slice()).map_err(|_| Fault::OutOfMemory)
}
