use crate::stop::Stop;

/// How a subcommand ended.
#[derive(Drop)]
pub struct Ended {
    /// The exit status.
    pub status: u8,
    /// What FILE is to hold, or `None` if it stays as it was.
    pub file: Option<Vec<u8>>,
    /// Why it ended before its work was done, or `None` if the work was done. The line of a refusal, or of a line that isn't a
    /// command, was printed last. If the input or the output failed, less may be printed.
    pub stopped: Option<Stop>,
}
