//! The program wbl without its process: does what its words ask for, on the files that they name, an input and an output.
#![tactic(auto)]

mod files;
mod heard;
mod image;
mod running;

pub use running::{Diagnostic, Exit, run_words};
