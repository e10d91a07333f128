//! Lives over the words of a file with a journal: for each write and sync, lives in which it is the first to fail. And databases over
//! such words, which are opened again.
#![tactic(auto)]

#[cfg(test)]
mod endings;
#[cfg(test)]
mod groups;
#[cfg(test)]
mod histories;
#[cfg(test)]
mod journaled;
#[cfg(test)]
mod transactions;
