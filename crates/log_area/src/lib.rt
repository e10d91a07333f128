//! The superblock and the log area: what they hold, which record rules, and how a record is written.
#![tactic(auto)]

mod law;
mod order;
mod reading;
mod record;
mod ruling;
mod stage;
mod superblock;
mod updating;
mod write;
mod writing;

pub use law::{records_are_replaced_among_others, records_are_replaced_whole};
pub use reading::latest;
pub use record::Record;
pub use ruling::Ruling;
pub use stage::WritingStage;
pub use superblock::{FORMATTED, read_geometry, write_geometry};
pub use updating::update_version;
pub use write::write_record;
pub use writing::Writing;
