//! Recovery: what an image that was found holds, how it is opened, and how a device is formatted.
//!
//! Opening has two halves. `examine` reads what the image holds, and takes all the memory that opening takes. `Examined::open`
//! makes the operations, and takes none.
#![tactic(auto)]

mod clearing;
mod examining;
mod formatting;
mod gaps;
mod holding;
mod image_device;
mod opening;
mod reading;
mod rows;
mod slots;
mod sweeping;
mod updating;

pub use examining::{Examined, Found, Readings, examine, read};
pub use formatting::{format, format_new};
pub use opening::{Opened, OpenedImage, open};
pub use reading::{ImageContents, read_image};
pub use rows::{KeptSlot, LiveSlot, OpenedSlot};
pub use slots::{SlotContent, SlotReading};
