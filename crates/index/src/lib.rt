//! The slots of each key's versions, and reading rows as a snapshot sees them: links are followed from the newest on.
#![tactic(auto)]

mod counting;
mod entry;
mod hints;
mod map;
mod parts;
mod placed;
mod ranges;
mod walking;

pub use entry::{Entry, KeyedEntry};
pub use map::{HintedEntries, Index, Known};
pub use parts::Part;
pub use placed::PlacedKey;
pub use ranges::{KeyRange, listed};
pub use walking::Found;
