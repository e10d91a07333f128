//! A receipt names the place of its entry, so that the two can be compared later.

use base::step::{Note, Step};

/// The entry that a step made: its place in the history, the step and its note.
#[derive(Debug, Drop)]
pub struct Receipt {
    pub place: u64,
    pub step: Step,
    pub note: Note,
}
