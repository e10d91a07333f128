/// How far a journal is written: its first `words` are whole entries of this pass.
#[derive(Clone, Copy, Debug)]
pub(crate) struct Position {
    pub(crate) pass: bool,
    pub(crate) words: usize,
}
