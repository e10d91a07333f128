//! The words of the command line, the lines of its scripts, the lines that it prints, and the bytes
//! of its files.
#![tactic(auto)]

pub mod command;
mod found;
pub mod image_file;
pub mod law;
pub mod line;
pub mod number;
pub mod orders;
pub mod printed;
pub mod row_text;
pub mod script;
pub mod script_line;
pub mod words;
