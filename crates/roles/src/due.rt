//! What two workers have to do, so that they sleep while there is nothing, and who wasn't told yet. A tick that found nothing finds
//! nothing again until a step makes one due. A round finds something once enough was covered, or if a slot is needed.

ghost use Rattle.std.specs.Prelude.{◌≡◌, ◌+◌, ◌-◌, ◌^◌, ◌&&◌, ◌||◌, not, if◌then◌else◌, min, true, false};
ghost use Rattle.roles.specs.Dues.{enough_for, falls_due, first_due, nobody};

/// How much has to be covered for a round of the collector: a fourth of the slots, and at least one.
pub fn enough_for_round(slots: u64) -> u64
    ensures { result ≡ enough_for slots }
{
    (slots / 4).max(1)
}

/// What is due, and who wasn't told yet.
#[derive(Clone, Copy, Debug, PartialEq, Eq, PartialOrd, Ord, Drop)]
pub struct Due {
    /// A tick of the committer.
    pub tick: bool,
    /// A visit of the collector, which is within a round or is to begin one.
    pub visit: bool,
    /// How much was covered since that round fell due.
    pub covered: u64,
    /// A slot was needed since, and none was free.
    pub is_slot_wanted: bool,
    pub news: News,
}

/// Who has to be told of a step.
#[derive(Clone, Copy, Debug, PartialEq, Eq, PartialOrd, Ord, Drop)]
pub struct News {
    pub committer: bool,
    pub collector: bool,
    /// Those who wait for a commit.
    pub waiting: bool,
}

impl News {
    pub fn none() -> News
        ensures { result ≡ nobody }
    {
        News {
            committer: false,
            collector: false,
            waiting: false,
        }
    }
}

impl Due {
    /// Both are due: a room that is just there may have gaps to sweep, and a record may be due.
    pub fn new() -> Due
        ensures { result ≡ first_due }
    {
        Due {
            tick: true,
            visit: true,
            covered: 0,
            is_slot_wanted: false,
            news: News::none(),
        }
    }

    /// The committer found nothing to do.
    pub fn end_ticks(&mut self)
        ensures { self.new ≡ record self.old { tick = false } }
    {
        self.tick = false;
    }

    /// A tick of the committer is due. The committer is told if none was.
    pub fn want_tick(&mut self)
        ensures tick { self.new.tick ≡ true }
        ensures committer { self.new.news.committer ≡ (self.old.news.committer || not self.old.tick) }
        ensures others { (self.new.news.collector ≡ self.old.news.collector) × (self.new.news.waiting ≡ self.old.news.waiting) }
        ensures visit { self.new.visit ≡ self.old.visit }
        ensures counts { (self.new.covered ≡ self.old.covered) × (self.new.is_slot_wanted ≡ self.old.is_slot_wanted) }
    {
        if !self.tick {
            self.tick = true;
            self.news.committer = true;
        }
    }

    /// A round of the collector has ended.
    pub fn end_round(&mut self)
        ensures { self.new ≡ record self.old { visit = false } }
    {
        self.visit = false;
    }

    /// This much more is covered.
    pub fn cover(&mut self, count: u64)
        ensures covered { self.new.covered ≡ min (self.old.covered + count) (2 ^ 64 - 1) }
        ensures due { (self.new.tick ≡ self.old.tick) × (self.new.visit ≡ self.old.visit) × (self.new.is_slot_wanted ≡ self.old.is_slot_wanted) }
        ensures news { self.new.news ≡ self.old.news }
    {
        self.covered = self.covered.saturating_add(count);
    }

    /// A slot is needed, and none is free.
    pub fn want_slot(&mut self)
        ensures { self.new ≡ record self.old { is_slot_wanted = true } }
    {
        self.is_slot_wanted = true;
    }

    /// Those who wait for a commit are to look again.
    pub fn tell_waiting(&mut self)
        ensures { self.new ≡ record self.old { news = record self.old.news { waiting = true } } }
    {
        self.news.waiting = true;
    }

    /// A round of the collector falls due if there is reason for one and none goes on: it must begin, a slot is needed, or enough was
    /// covered. What comes from then on makes a further one due. The collector is told.
    pub fn begin_round(&mut self, enough: u64, must: bool)
        ensures visit { self.new.visit ≡ (self.old.visit || falls_due enough must self.old.visit self.old.is_slot_wanted self.old.covered) }
        ensures collector { self.new.news.collector ≡ (self.old.news.collector || falls_due enough must self.old.visit self.old.is_slot_wanted self.old.covered) }
        ensures covered { self.new.covered ≡ if falls_due enough must self.old.visit self.old.is_slot_wanted self.old.covered then 0 else self.old.covered }
        ensures wanted { self.new.is_slot_wanted ≡ (not (falls_due enough must self.old.visit self.old.is_slot_wanted self.old.covered) && self.old.is_slot_wanted) }
        ensures tick { self.new.tick ≡ self.old.tick }
        ensures others { (self.new.news.committer ≡ self.old.news.committer) × (self.new.news.waiting ≡ self.old.news.waiting) }
    {
        let has_reason = self.is_slot_wanted || enough <= self.covered || must;
        if has_reason && !self.visit {
            self.visit = true;
            self.covered = 0;
            self.is_slot_wanted = false;
            self.news.collector = true;
        }
    }

    /// Whom to tell of what came since the last call.
    pub fn take_news(&mut self) -> News
        ensures news { result ≡ self.old.news }
        ensures told { self.new ≡ record self.old { news = nobody } }
    {
        let news = self.news;
        self.news = News::none();
        news
    }
}
