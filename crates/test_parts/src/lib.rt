//! One part of the engine at a time, by its public calls: gaps, snapshots, free slots, touched lines, transactions, versions,
//! batches, timestamps and boards.
#![tactic(auto)]

#[cfg(test)]
mod batches;
#[cfg(test)]
mod boards;
#[cfg(test)]
mod free_slots;
#[cfg(test)]
mod gaps;
#[cfg(test)]
mod number_sets;
#[cfg(test)]
mod numbers;
#[cfg(test)]
mod snapshots;
#[cfg(test)]
mod touched_lines;
#[cfg(test)]
mod transactions;
#[cfg(test)]
mod versions;
