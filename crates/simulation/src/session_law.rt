//! What the sessions of an engine rely on: which commits a snapshot sees, which keys were drawn since, and what a reader
//! at a snapshot finds in the slots.

ghost use Rattle.simulation.specs.sessions.Laws.{PresentSees, StepsKeepSight, Reads, ChainsLead, LinksLead, Conflicts, BatchesCover};

/// The snapshot of all that is covered covers exactly what counts, and each snapshot stays exact over every step.
pub fn snapshots_stay_exact()
    ensures present { PresentSees }
    ensures step { StepsKeepSight }
{}

/// What a snapshot in use covers in the slots is exactly the rows of its tables, each key once; also in a failed state.
pub fn snapshots_read_their_tables()
    ensures { Reads }
{}

/// From a key's newest version that is held, links lead to the version that a snapshot sees; also in a failed state.
pub fn links_lead_to_what_is_seen()
    // They lead there in the words of an image whose slots and links are those of a state. This holds for each snapshot of some
    // number of first commits, in use or not, that has three properties. Of the opening's record and of what this life drew, it
    // covers exactly what these commits have. It has no gap that the opening didn't leave. It covers the end of each version that
    // was freed in this life or that the opening found ended (`CoversFreed`, `SeesBegins`).
    ensures chains { ChainsLead }

    // They do so on a device for each snapshot in use.
    ensures device { LinksLead }
{}

/// A session's key conflicts exactly if its snapshot doesn't cover the last timestamp that was drawn for the key.
pub fn conflicts_are_of_last_draws()
    ensures { Conflicts }
{}

/// A batch has exactly the drawn commits that its record commits. The others stay drawn, and the versions of the batch are the
/// newest on the keys that it writes.
pub fn records_say_who_is_covered()
    ensures { BatchesCover }
{}
