//! Counts who is expected in the next group of commits. All commits of a group are covered by one record and one sync, so
//! waiting briefly for threads that are about to commit saves a sync for each. A wrong guess costs half a millisecond or more:
//! the counts below keep a reader that stays open, or a thread that doesn't come back, from delaying group after group.

ghost use Rattle.std.specs.Prelude.{◌<◌};

/// Every session has a lower number.
pub const SESSIONS: u8 = 64;

// The most groups in a row that aren't allowed to grow.
const MOST_SKIPS: u64 = 8;

// The place of this session in a table of sessions.
fn place_of(session: u8) -> usize
    ensures { result < 64 }
{
    usize::from(session % SESSIONS)
}

/// The commits that are stamped and wait for their record, which will cover them together.
#[derive(Clone, Copy, Drop)]
pub struct Group {
    // The place where each session waits for its reply, unless it leads.
    places: [Option<usize>; 64],
    // How many of them wait there.
    followers: u64,

    count: u64,
    // How many commits got a reply whose threads haven't come back.
    answered: u64,
    // How many transactions were open when the last group was closed, and weren't in it.
    lingering: u64,
    // How many more groups aren't allowed to grow, because waiting didn't help, and how many weren't the last time.
    skips: u64,
    pause: u64,
}

impl Group {
    pub fn new() -> Group {
        Group {
            places: [None; 64],
            followers: 0,
            count: 0,
            answered: 0,
            lingering: 0,
            skips: 0,
            pause: 0,
        }
    }

    pub fn is_empty(&self) -> bool {
        self.count == 0
    }

    /// A commit comes. It is counted as one of those that got a reply.
    pub fn join(&mut self) {
        self.count = self.count.saturating_add(1);
        self.answered = self.answered.saturating_sub(1);
    }

    /// This session waits at this place for its reply.
    pub fn follow(&mut self, session: u8, place: usize) {
        self.places[place_of(session)] = Some(place);
        self.followers = self.followers.saturating_add(1);
    }

    /// Whether a session waits for its reply that doesn't lead.
    pub fn has_followers(&self) -> bool {
        self.followers > 0
    }

    /// The place where the session waits for its reply.
    pub fn place(&self, session: u8) -> Option<usize> {
        self.places[place_of(session)]
    }

    /// The session got its reply.
    pub fn leave(&mut self, session: u8) {
        if self.places[place_of(session)].take().is_some() {
            self.followers = self.followers.saturating_sub(1);
        }
        self.count = self.count.saturating_sub(1);
        self.answered = self.answered.saturating_add(1);
    }

    /// How many are expected when this many transactions are open: those that got a reply, and those that are open, except the ones that
    /// weren't in the last group.
    pub fn missing(&self, open: u64) -> u64 {
        let known = self.lingering.saturating_add(self.count);
        self.answered.saturating_add(open.saturating_sub(known))
    }

    /// One open transaction isn't expected, since it waits for this group.
    pub fn excuse(&mut self) {
        self.lingering = self.lingering.saturating_add(1);
    }

    /// Whether this group may wait for others.
    pub fn may_grow(&mut self) -> bool {
        let may = self.skips == 0;
        self.skips = self.skips.saturating_sub(1);
        may
    }

    /// The group waited: this many were missing before and after. If fewer than half of them came, waiting didn't help.
    pub fn grew(&mut self, before: u64, after: u64) {
        self.pause = if before < after.saturating_mul(2) {
            self.pause.saturating_mul(2).clamp(1, MOST_SKIPS)
        } else {
            0
        };
        self.skips = self.pause;
    }

    /// The group waits for nobody more, while this many transactions are open: those that haven't come are no longer expected.
    pub fn close(&mut self, open: u64) {
        self.answered = 0;
        self.lingering = open.saturating_sub(self.count);
    }
}
