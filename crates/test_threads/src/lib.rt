//! The engine's threads at work. A cycle is held within while another session works and a reader reads; a committer stops; a
//! collector is held; a device fails. Many sessions conflict, another thread learns a token of acknowledged commits, and
//! workers sleep.
#![tactic(auto)]

#[cfg(test)]
mod acknowledged;
#[cfg(test)]
mod calls;
#[cfg(test)]
mod counting;
#[cfg(test)]
mod failing;
#[cfg(test)]
mod fixture;
#[cfg(test)]
mod held;
#[cfg(test)]
mod hold;
#[cfg(test)]
mod sleeping;
#[cfg(test)]
mod stopped;
#[cfg(test)]
mod stress;
