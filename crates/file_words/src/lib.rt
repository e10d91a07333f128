//! A file that holds words, and an account of the calls that were made on it: what its words may be is what the account allows.
#![tactic(auto)]

mod account;
mod word_file;

pub use account::Account;
pub use word_file::WordFile;
