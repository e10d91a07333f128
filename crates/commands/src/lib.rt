//! What `kv` is told: the words of its command line, and the commands that lines spell. The text of what can't be read is what a user reads.
#![tactic(auto)]

mod command;
pub mod help;
mod input;
mod load_line;
mod numbers;
mod options;
mod rows;
mod unreadable;
mod words;

pub use command::{Command, Range, Request};
pub use input::Lines;
pub use load_line::{LoadLine, MOST_PUTS, read_load_line};
pub use options::{Given, Layout, Options, command_line, read_options};
pub use unreadable::Unreadable;
pub use words::{may_begin, parse_line};
