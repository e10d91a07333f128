//! What the steps of a life tell about each session and each commit.
#![tactic(auto)]

mod law;

pub use law::{
    begins_take_free_sessions, commits_are_exact, crashes_keep_commits, histories_only_grow,
    lives_go_on, logs_follow_runs, quiet_sessions_stay, reads_repeat, transactions_add_up,
    two_sessions_side_by_side,
};
