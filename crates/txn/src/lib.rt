//! Open transactions by the numbers of their sessions, what each writes, and the commits that are drawn.
#![tactic(auto)]

pub mod drawn;
pub mod held;
pub mod transaction;
pub mod transactions;
pub mod write;
pub mod write_set;

pub use drawn::{DrawnCommit, DrawnCommits};
pub use held::HeldSnapshot;
pub use transaction::Transaction;
pub use transactions::Transactions;
pub use write::Write;
pub use write_set::WriteSet;
