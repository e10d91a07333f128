//! What is found of a room over a device whose whole image is kept now and then, as in a file: that it stands for what was
//! covered by then.
//!
//! The laws of `src/law.rt` are about a room over any device. The others are about a room over a `JournaledPmem` that came from a
//! device at rest, whose clock is 0: `RunsSince` with 0, as `journaled_rooms_begin` gives it. A device at an instant within a
//! step goes on to the one that the step leaves (`Continues`).
#![tactic(auto)]

mod journaled;
mod law;

pub use journaled::{
    covered_logs_stay_found, journaled_images_stand, journaled_images_stand_at_a_close,
    journaled_images_stand_at_an_opening, journaled_logs_stand, journaled_rooms_begin,
};
pub use law::{
    each_gate_has_one_cover, found_images_stand, found_images_stand_at_a_close,
    rooms_come_from_their_openings,
};
