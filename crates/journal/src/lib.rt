//! A journal in a file, behind an image: its entries, how a torn one is distinguished from a whole one, and what the file
//! stands for at each instant.
//!
//! A keep of an image is one append to the journal. If the journal has no room for it, the lines of its entries are written in
//! place before that, which takes two waits more.
#![tactic(auto)]

mod appending;
mod eight;
mod entry;
mod file_image;
mod images;
mod journal;
mod journaled;
mod law;
mod line;
mod part;
mod position;
mod rewriting;
mod storage;
mod unplaced;

pub use entry::read_entry;
pub use file_image::{extent_of, image_in};
pub use images::{Images, Nowhere};
pub use journal::read_journal;
pub use journaled::{JournaledImages, Unclosed, Unopened};
pub use law::{
    appends_are_whole, begun_files_name_no_other, decided_files_stand_still, files_are_whole,
    images_in_place_stay, images_leave_their_shape, left_files_name_their_shape, lines_return,
    next_begins_with_what_was_left, passes_follow, scrubbed_entries_stay_torn,
    stretches_are_by_places, torn_entries_are_seen,
};
pub use line::{Line, line_of};
pub use storage::{Storage, write_back};
