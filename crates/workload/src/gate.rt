use base::step::Note;
use engine::{Gate, Go};
use std::thread::yield_now;

/// Never holds its worker, which ends when the engine is closed. If there is nothing to do, it lets other threads run.
#[derive(Drop)]
pub struct Always;

impl Gate for Always {
    fn pass(&mut self, after: &Note) -> Go {
        if matches!(after, Note::Idle | Note::SweepEnd) {
            yield_now();
        }
        Go::Tick
    }
}
