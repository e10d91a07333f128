//! What follows from the definitions. The functions do nothing: the contract of each is a law.

ghost use Rattle.session_laws.specs.Laws.{RunsAreLogs, StepsAdd, SilentStepsGo, LivesBegin, LivesGoOn, LogsSplit, MarksTell, QuietStays, DrawnWaits, StampedGoesOn, HistoryGrows, DrawnIsKept, FreeIsClosed, BeginsFresh, AccessesAddUp, ReadsSnapshot, ReadsRepeat, DrawsWrites, DrawnStaysOne, EndsCovered, CommitsExactly, KeptStays, NothingElse};
ghost use Rattle.session_laws.specs.Images.{CommitsSurvive, RunsStandInLogs};
ghost use Rattle.session_laws.specs.Transactions.{TransactionsAddUp};
ghost use Rattle.session_laws.specs.Example.{SideBySide};

/// A log is what a run has made: the steps that weren't refused, in their order.
pub fn logs_follow_runs()
    // What a run has made can be made, and leads to the run's last state, or to that with a failed device.
    ensures runs { RunsAreLogs }
    // So a step adds itself to a log, or nothing if it was refused.
    ensures steps { StepsAdd }
    // Reads and polls may be left out of it.
    ensures silent { SilentStepsGo }
    // A log goes on with a log from the state that it leads to, and splits at each of a session's own steps.
    ensures split { LogsSplit }
    // A place that is moved to the end at each own step of a session tells whether the session was quiet since.
    ensures marks { MarksTell }
{}

/// What each state of a life keeps.
pub fn lives_go_on()
    // An opened state is one of a life: it has the image's history, has drawn nothing, and has no session.
    ensures opened { LivesBegin }
    // A log leads from a state of a life to another.
    ensures kept { LivesGoOn }
{}

/// What other sessions, the committer and the collector leave as it is.
pub fn quiet_sessions_stay()
    // While an open session makes no step, it has the same state, writes, timestamp and snapshot.
    ensures quiet { QuietStays }
    // Once it has drawn, nothing but its own end changes it.
    ensures drawn { DrawnWaits }
    // A commit that is stamped as a whole stays so until it is covered, and then it stays covered.
    ensures stamped { StampedGoesOn }
{}

/// Nothing that was drawn or covered vanishes within a life.
pub fn histories_only_grow()
    // The history grows at its end alone.
    ensures grows { HistoryGrows }
    // What is drawn stays drawn, with its writes, until the history has it.
    ensures drawn { DrawnIsKept }
{}

/// How a session begins.
pub fn begins_take_free_sessions()
    // The number that is free is a session's, and no open session has it.
    ensures free { FreeIsClosed }
    // A begin opens a session under it that sees exactly what is covered and has written nothing; no other session changes.
    ensures begins { BeginsFresh }
{}

/// What a session reads.
pub fn reads_repeat()
    // An active session that reads and writes has the writes that it made, one over the other, and its snapshot.
    ensures adds { AccessesAddUp }
    // Each of its reads returns what it wrote since its begin, over the tables that were covered then.
    ensures reads { ReadsSnapshot }
    // As long as it writes nothing, the same read returns the same.
    ensures again { ReadsRepeat }
{}

/// What a session commits.
pub fn commits_are_exact()
    // A draw makes one commit of what the session wrote, under the next timestamp, which nothing has had; or none if it wrote nothing.
    ensures draws { DrawsWrites }
    // From then on that is the only commit under its timestamp; once the timestamp is covered, the history has it.
    ensures one { DrawnStaysOne }
    // A session that has drawn ends only once that is covered, and a poll reports its own timestamp alone.
    ensures ends { EndsCovered }
    // Of a session that began, wrote, drew and ended the history has exactly what it wrote since its begin.
    ensures exact { CommitsExactly }
    // So it stays, whatever steps follow.
    ensures stays { KeptStays }
    // Each commit of a state was there before, or is made by the draw of a session that the log has.
    ensures only { NothingElse }
{}

/// What a crash leaves while a log goes on.
pub fn crashes_keep_commits()
    // What represents something along a run represents what a beginning of its log leads to, or what is within the next step.
    ensures along { RunsStandInLogs }
    // So it stands for a history that has each commit which was covered before.
    ensures survive { CommitsSurvive }
{}

/// A transaction by beginnings of one log: it has begun after what was known, its calls add one step each to what it did, its
/// reads return that over the snapshot of its begin, and once it has committed, the history has exactly that.
pub fn transactions_add_up()
    ensures { TransactionsAddUp }
{}

/// Two sessions side by side: whose the steps are, what the one commits, and that the other doesn't see it.
pub fn two_sessions_side_by_side()
    ensures { SideBySide }
{}
