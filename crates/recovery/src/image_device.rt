//! An image that is only read goes through the same functions as a device that is opened. Every operation fails on it, so none
//! of them can change it unseen.

ghost use Rattle.recovery.specs.Words.{AreWords};

use base::actor::Actor;
use base::fault::Fault;
use pmem::{Pmem, Tally};

/// The words of an image, read in place, as a device on which every operation fails.
#[derive(Drop)]
pub struct ImageDevice<'a> {
    words: &'a [u64],
    failures: Tally,
    ghost fits: { AreWords words.now },
}

impl<'a> ImageDevice<'a> {
    ghost use Rattle.std.specs.Prelude.{◌≡◌};
    ghost use Rattle.pmem.specs.Device.{restarted, failed};
    ghost use Rattle.recovery.specs.ImageDevice.{device_of};

    /// An image at rest.
    pub fn of(words: &'a [u64]) -> ImageDevice<'a>
        ensures { device_of result ≡ restarted words.now }
    {
        ImageDevice {
            words,
            failures: Tally::Zero,
        }
    }

    // An operation fails.
    fn refuse(&mut self) -> Fault
        ensures failed { device_of self.new ≡ failed (device_of self.old) }
        ensures fault { result ≡ Fault.Device }
    {
        self.failures.add();
        Fault::Device
    }
}

impl<'a> Pmem for ImageDevice<'a> {
    ghost use Rattle.pmem.specs.Tallies.{number_of};
    ghost use Rattle.recovery.specs.ImageDevice.{device_of, orderly_image};

    ghost state = { device_of };

    ghost orderly = { λ image. orderly_image image.words.now (number_of image.failures) image.fits };

    fn words(&self) -> usize {
        self.words.len()
    }

    fn load(&self, word: usize) -> u64 {
        self.words[word]
    }

    fn store(&mut self, _word: usize, _value: u64) -> Result<(), Fault> {
        Err(self.refuse())
    }

    fn flush(&mut self, _actor: Actor, _line: usize) -> Result<(), Fault> {
        Err(self.refuse())
    }

    fn fence(&mut self, _actor: Actor) -> Result<(), Fault> {
        Err(self.refuse())
    }
}
