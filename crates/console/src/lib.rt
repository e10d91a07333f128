//! The work of the program wbl: makes the file of a fresh image, opens an image and runs lines of commands, and checks an image
//! without opening it.
//!
//! If the bytes of the reader or of the writer aren't known, as those of standard input and output, nothing is said about them.
//! If memory was refused, no clause says what was printed before the line of that refusal. If the input or the output failed,
//! none says what was printed at all.
#![tactic(auto)]

mod checking;
pub mod ended;
pub mod execute;
pub mod format;
pub mod law;
mod lines;
mod long_rows;
mod replies;
mod rounds;
mod run;
mod script;
pub mod stop;
mod threads;
