//! What follows from the definitions. The functions do nothing: the contract of each is a law.

ghost use Rattle.state_invariant.specs.Laws.{StepsKeep, RunsKeep, CoveringKeeps, OpenedKeeps, Reading, CoveringShows, StepsShow, PutShows, StampShows, OpenedLinks, StoresLink, StepsLink, CoveringLinks, PutLinks};

/// Every step keeps what a plain state of a life keeps: one that replies or is refused, one that is refused for lack of
/// memory, and one in which the device fails. So does every run.
pub fn steps_keep_the_state()
    ensures step { StepsKeep }
    ensures run { RunsKeep }
{}

/// A batch of any number of commits may be covered: the state then keeps what it kept, and the slots show what it says.
pub fn covering_keeps_the_state()
    ensures keeps { CoveringKeeps }
    ensures shows { CoveringShows }
{}

/// Over each step except a put and a stamp the slots show what the state says, with the values that they had.
pub fn steps_keep_the_slots()
    ensures { StepsShow }
{}

/// An opened state keeps this, and the words of its slots are those of the image that was opened.
pub fn openings_keep_the_state()
    ensures { OpenedKeeps }
{}

/// In use are the snapshots of active sessions and that of all that is covered. At each, the slots whose begin counts
/// there and whose end doesn't are the rows of the tables after its commits, each key once; in a failed state too.
pub fn snapshots_read_their_tables()
    ensures { Reading }
{}

/// After a put the slots show what the next state says: its slot has the version, no begin and no end. If the device
/// stopped it midway, they show what the failed state says.
pub fn puts_show_their_version()
    ensures { PutShows }
{}

/// After a stamp the slots show what the next state says: the begin of its version has the timestamp, and so has the end
/// of the newest covered version of the key.
pub fn stamps_show_their_timestamp()
    ensures { StampShows }
{}

/// Each version that can still be covered names the row version before it on its key, while that is held. Openings, stores in
/// begins and ends, all steps, a batch that is covered and a device that fails keep that; a put that names the newest
/// version that is held keeps it too.
pub fn versions_stay_linked()
    ensures opened { OpenedLinks }
    ensures stores { StoresLink }
    ensures steps { StepsLink }
    ensures covering { CoveringLinks }
    ensures puts { PutLinks }
{}
