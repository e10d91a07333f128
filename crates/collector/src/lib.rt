//! The collector visits the slots round after round, frees those whose versions nobody reads any more, and sweeps the
//! gaps once in a life.
#![tactic(auto)]

mod readers;
mod replaced;
mod rounds;
mod sweeping;
mod visit;

pub use readers::Readers;
pub use replaced::ReplacedSlots;
pub use rounds::Collector;
pub use visit::Visit;
