use crate::random::slots::{KEYS, SLOTS, Slots, Version, Writer};
use base::fault::Fault;
use base::gap::Gap;
use base::geometry::Geometry;
use base::key::Key;
use base::row::Row;
use base::rows::Rows;
use base::step::{Note, Stage, Step};
use std::alloc::Global;

/// The window of the device that the model is for.
pub const WINDOW: u64 = 8;

/// The rows of the first keys of table 1, each of one byte.
pub type Tables = [Option<u8>; KEYS];

// What is written under these keys: a row, or a deletion.
type Writes = [Option<Option<u8>>; KEYS];

#[derive(Clone, Copy)]
struct Commit {
    timestamp: u64,
    writes: Writes,
    lines: u64,
    stamps_left: u64,
    /// It is in the batch of the cycle that runs.
    taken: bool,
}

#[derive(Clone, Copy)]
enum State {
    Active,
    /// It has the timestamp of its commit.
    Drawn(u64),
    ReadOnly,
}

#[derive(Clone, Copy)]
struct Session {
    /// How many covered commits it sees.
    begun: usize,
    writes: Writes,
    state: State,
}

// A cycle: up to which timestamp it persists, how many ticks are left, what it reserves, and whether it drops the gaps.
#[derive(Clone, Copy)]
struct Cycle {
    persisted: u64,
    ticks: u64,
    dirty: u64,
    drops_gaps: bool,
}

/// The engine as plain tables: the commits that are covered, in the order in which that happened; those that are drawn, by rising
/// timestamp; four sessions; and what takes each slot. A drawn commit at or below the persisted timestamp is long.
#[derive(Drop)]
pub struct Model {
    alloc: Global,
    geometry: Geometry,
    covered: Vec<Commit>,
    drawn: Vec<Commit>,
    sessions: [Option<Session>; 4],
    cycle: Option<Cycle>,
    gate: u64,
    persisted: u64,
    next: u64,
    dirty: u64,
    gaps: Vec<Gap>,
    swept: bool,
    /// The slot that the collector visits next, or the number of slots for the closing place.
    place: usize,
    slots: Slots,
}

impl Model {
    /// A fresh device of this layout, which was opened.
    pub fn new(alloc: Global, geometry: Geometry) -> Model {
        Model {
            alloc,
            geometry,
            covered: Vec::new(alloc),
            drawn: Vec::new(alloc),
            sessions: [None; 4],
            cycle: None,
            gate: 2,
            persisted: 0,
            next: 1,
            dirty: 1 + WINDOW,
            gaps: Vec::new(alloc),
            swept: false,
            place: 0,
            slots: Slots::new(),
        }
    }

    /// The gate, the dirty and the next timestamp.
    pub fn numbers(&self) -> (u64, u64, u64) {
        (self.gate, self.dirty, self.next)
    }

    pub fn gaps(&self) -> &[Gap] {
        self.gaps.as_slice()
    }

    /// What the covered commits leave.
    pub fn tables(&self) -> Tables {
        self.tables_after(self.covered.len())
    }

    /// The timestamps of the long commits.
    pub fn longs(&self) -> Result<Vec<u64>, Fault> {
        let mut longs = Vec::new(self.alloc);
        for commit in &self.drawn {
            if commit.timestamp <= self.persisted && longs.push(commit.timestamp).is_err() {
                return Err(Fault::OutOfMemory);
            }
        }
        Ok(longs)
    }

    /// A row that begins with this byte: one in eight is as long as any may be.
    pub fn row(&self, byte: u8) -> Result<Row, Fault> {
        if byte % 8 > 0 {
            Row::new(&[byte])
        } else {
            Row::new(&[byte; Row::LIMIT][..self.geometry.row_limit()])
        }
    }

    /// The layout of the device.
    pub fn geometry(&self) -> Geometry {
        self.geometry
    }

    fn tables_after(&self, commits: usize) -> Tables {
        let mut tables = [None; KEYS];
        for commit in self.covered.iter().take(commits) {
            write_all(&mut tables, &commit.writes);
        }
        tables
    }

    /// Are four sessions open?
    pub fn is_full(&self) -> bool {
        self.sessions.iter().all(|place| place.is_some())
    }

    /// The note of a step. Of the ticks of a cycle it is that of the first.
    pub fn step(&mut self, step: Step) -> Note {
        match step {
            Step::Begin => self.begin(),
            Step::Commit => self.tick(),
            Step::Collect => self.visit(),
            _ => self.step_of_session(step),
        }
    }

    fn step_of_session(&mut self, step: Step) -> Note {
        let at = session_of(&step).saturating_sub(2) as usize;
        let Some(session) = self.sessions.get(at).copied().flatten() else {
            return Note::Refused(Fault::NoSession);
        };
        let (note, after) = self.step_of(at, session, step);
        if let Some(place) = self.sessions.get_mut(at) {
            *place = after;
        }
        note
    }

    fn begin(&mut self) -> Note {
        for (number, place) in (2..).zip(self.sessions.iter_mut()) {
            if place.is_none() {
                *place = Some(Session {
                    begun: self.covered.len(),
                    writes: [None; KEYS],
                    state: State::Active,
                });
                return Note::Began(number);
            }
        }
        Note::Refused(Fault::SessionsFull)
    }

    fn step_of(&mut self, at: usize, session: Session, step: Step) -> (Note, Option<Session>) {
        match session.state {
            State::Active => self.step_of_active(at, session, step),
            State::Drawn(commit) => match step {
                Step::Stamp { .. } => (self.stamp(commit), Some(session)),
                Step::Poll { .. } => (self.poll(commit), Some(session)),
                Step::End { .. } if self.is_covered(commit) => (Note::Done, None),
                _ => (Note::Refused(Fault::WrongState), Some(session)),
            },
            State::ReadOnly => match step {
                Step::Poll { .. } => (Note::Done, Some(session)),
                Step::End { .. } => (Note::Done, None),
                _ => (Note::Refused(Fault::WrongState), Some(session)),
            },
        }
    }

    fn step_of_active(
        &mut self,
        at: usize,
        session: Session,
        step: Step,
    ) -> (Note, Option<Session>) {
        match step {
            Step::Get { key, .. } => (Note::Row(self.seen(&session, key.key)), Some(session)),
            Step::Scan { table, lo, hi, .. } => (self.scan(&session, table, lo, hi), Some(session)),
            Step::Put { key, row, .. } => self.put(at, session, key, row),
            Step::Delete { key, .. } => {
                self.slots.free_version(own_version(at, key));
                (Note::Done, Some(with(session, key, Some(None))))
            }
            Step::Draw { .. } => self.draw(at, session),
            Step::Abort { .. } => {
                self.slots.free_writer(Writer::Session(at));
                (Note::Done, None)
            }
            _ => (Note::Refused(Fault::WrongState), Some(session)),
        }
    }

    fn put(&mut self, at: usize, session: Session, key: Key, row: Row) -> (Note, Option<Session>) {
        if !self.slots.take(own_version(at, key)) {
            return (Note::Refused(Fault::SlotsOut), Some(session));
        }
        let written = Some(row.as_bytes().first().copied());
        (Note::Done, Some(with(session, key, written)))
    }

    // The row of the key of table 1 that the session sees.
    fn seen(&self, session: &Session, key: u64) -> Option<Row> {
        let at = key as usize;
        let tables = self.tables_after(session.begun);
        let seen = tables.get(at).copied().flatten();
        match session.writes.get(at).copied().flatten().unwrap_or(seen) {
            Some(byte) => self.row(byte).ok(),
            None => None,
        }
    }

    fn scan(&self, session: &Session, table: u16, lo: u64, hi: u64) -> Note {
        let mut rows = Vec::new(self.alloc);
        for key in 0..3 {
            if table == 1 && lo <= key && key <= hi {
                if let Some(row) = self.seen(session, key) {
                    if rows.push((Key { table, key }, row)).is_err() {
                        return Note::Refused(Fault::OutOfMemory);
                    }
                }
            }
        }
        Note::Rows(Rows::new(rows))
    }

    fn draw(&mut self, at: usize, session: Session) -> (Note, Option<Session>) {
        match self.drawn_by(at, &session) {
            Ok(None) => {
                let state = State::ReadOnly;
                (Note::Done, Some(Session { state, ..session }))
            }
            Ok(Some(timestamp)) => {
                let state = State::Drawn(timestamp);
                (Note::Drawn(timestamp), Some(Session { state, ..session }))
            }
            Err(fault) => (Note::Refused(fault), Some(session)),
        }
    }

    // Draws a commit of what the session writes, if it writes anything: its timestamp.
    fn drawn_by(&mut self, at: usize, session: &Session) -> Result<Option<u64>, Fault> {
        let drawn = self.commit_of(session)?;
        if drawn.stamps_left == 0 {
            return Ok(None);
        }
        if self.next == self.dirty {
            return Err(Fault::WindowFull);
        }
        if self.drawn.push(drawn).is_err() {
            return Err(Fault::OutOfMemory);
        }
        let commit = Writer::Commit(drawn.timestamp);
        self.slots.hand_over(Writer::Session(at), commit);
        self.next = self.next.saturating_add(1);
        Ok(Some(drawn.timestamp))
    }

    // The first committer wins: a commit that the session doesn't see and that writes one of its keys.
    fn commit_of(&self, session: &Session) -> Result<Commit, Fault> {
        let mut commit = Commit {
            timestamp: self.next,
            writes: session.writes,
            lines: 0,
            stamps_left: 0,
            taken: false,
        };
        let tables = self.tables_after(session.begun);
        for ((key, write), row) in (0..).zip(session.writes.iter()).zip(tables.iter()) {
            if let Some(written) = write {
                if self.is_written_after(session.begun, key) {
                    return Err(conflict_at(key));
                }
                let lines = self.lines(written.is_some(), row.is_some());
                commit.lines = commit.lines.saturating_add(lines);
                commit.stamps_left = commit.stamps_left.saturating_add(1);
            }
        }
        Ok(commit)
    }

    // How many lines a write touches: those of the slot of its row, and the first one of the slot of the row that it ends.
    fn lines(&self, writes: bool, ends: bool) -> u64 {
        let own = if writes {
            self.geometry.slot_lines() as u64
        } else {
            0
        };
        own.saturating_add(u64::from(ends))
    }

    fn is_written_after(&self, begun: usize, key: usize) -> bool {
        for commit in self.covered.iter().skip(begun).chain(self.drawn.iter()) {
            if let Some(Some(_)) = commit.writes.get(key) {
                return true;
            }
        }
        false
    }

    fn stamp(&mut self, timestamp: u64) -> Note {
        for commit in self.drawn.iter_mut() {
            if commit.timestamp == timestamp && commit.stamps_left > 0 {
                commit.stamps_left -= 1;
                return if commit.stamps_left == 0 {
                    Note::Stamped
                } else {
                    Note::More
                };
            }
        }
        Note::Refused(Fault::WrongState)
    }

    fn poll(&self, timestamp: u64) -> Note {
        if self.is_covered(timestamp) {
            Note::Committed(timestamp)
        } else {
            Note::Waiting
        }
    }

    fn is_covered(&self, timestamp: u64) -> bool {
        self.covered
            .iter()
            .any(|commit| commit.timestamp == timestamp)
    }

    fn tick(&mut self) -> Note {
        let Some(cycle) = self.cycle else {
            return self.choose();
        };
        if cycle.ticks > 1 {
            let ticks = cycle.ticks - 1;
            self.cycle = Some(Cycle { ticks, ..cycle });
            return Note::Ticked(Stage::Chosen);
        }
        match self.cover() {
            Ok(()) => Note::Covered(self.gate),
            Err(fault) => Note::Refused(fault),
        }
    }

    // Takes the stamped commits up to the reach, unless there are none, half of the window is left, and no swept gap has to be
    // dropped.
    fn choose(&mut self) -> Note {
        let persisted = self.reach();
        let mut ticks: u64 = 40;
        let mut some = false;
        for commit in self.drawn.iter_mut() {
            if commit.stamps_left == 0 && commit.timestamp <= persisted {
                commit.taken = true;
                some = true;
                ticks = ticks.saturating_add(commit.lines);
            }
        }
        let drops_gaps = self.swept && !self.gaps.is_empty();
        let window_stays = self.dirty.saturating_sub(self.next) >= WINDOW / 2;
        if !some && window_stays && !drops_gaps {
            return Note::Idle;
        }
        let dirty = self.next.saturating_add(WINDOW);
        self.cycle = Some(Cycle {
            persisted,
            ticks,
            dirty,
            drops_gaps,
        });
        Note::Ticked(Stage::Chosen)
    }

    // The greatest timestamp of a stamped commit that has few enough unstamped ones below it, and no less than what is persisted.
    fn reach(&self) -> u64 {
        let mut reach = self.persisted;
        let mut unstamped: usize = 0;
        for commit in &self.drawn {
            if commit.stamps_left > 0 {
                unstamped = unstamped.saturating_add(1);
            } else if unstamped <= self.geometry.most_longs() {
                reach = reach.max(commit.timestamp);
            }
        }
        reach
    }

    fn cover(&mut self) -> Result<(), Fault> {
        if let Some(cycle) = self.cycle {
            self.cover_taken()?;
            self.persisted = cycle.persisted;
            self.dirty = cycle.dirty;
            self.gate = self.gate.saturating_add(1);
            if cycle.drops_gaps {
                self.gaps.clear();
            }
        }
        self.cycle = None;
        Ok(())
    }

    // The drawn commits that were taken are covered, by rising timestamp.
    fn cover_taken(&mut self) -> Result<(), Fault> {
        for commit in &self.drawn {
            if commit.taken && self.covered.push(*commit).is_err() {
                return Err(Fault::OutOfMemory);
            }
        }
        self.drawn.retain(|commit| !commit.taken);
        Ok(())
    }

    // The collector frees the slot of its place if no session reads its version any more, or ends a sweep.
    fn visit(&mut self) -> Note {
        let slot = self.place;
        if slot >= SLOTS {
            self.place = 0;
            self.swept = true;
            return Note::SweepEnd;
        }
        self.place = slot + 1;
        if let Some(version) = self.slots.at(slot) {
            if self.is_replaced_for_all(version) {
                self.slots.free(slot);
            }
        }
        Note::Visited(slot as u64)
    }

    // Do the covered commits replace the version, and so those that each Active session sees?
    fn is_replaced_for_all(&self, version: Version) -> bool {
        for place in self.sessions.iter() {
            if let Some(session) = place {
                let reads = matches!(session.state, State::Active);
                if reads && !self.is_replaced(version, session.begun) {
                    return false;
                }
            }
        }
        self.is_replaced(version, self.covered.len())
    }

    // Is the version of one of this many commits, and is a later one of them on its key?
    fn is_replaced(&self, version: Version, commits: usize) -> bool {
        for commit in self.covered.iter().take(commits) {
            if version.writer == Writer::Commit(commit.timestamp) {
                return self.last_writer(version.key, commits) != commit.timestamp;
            }
        }
        false
    }

    // The last of this many commits that writes the key.
    fn last_writer(&self, key: usize, commits: usize) -> u64 {
        let mut last = 0;
        for commit in self.covered.iter().take(commits) {
            if let Some(Some(_)) = commit.writes.get(key) {
                last = commit.timestamp;
            }
        }
        last
    }

    /// The power fails, and the device is opened with this gate. Of a cycle either all survives or nothing.
    pub fn stop(&mut self, gate: u64) -> Result<(), Fault> {
        if gate > self.gate.saturating_add(1) {
            self.cover()?;
        }
        for timestamp in self.longs()? {
            self.add_gap(timestamp, timestamp)?;
        }
        let first = self.persisted.saturating_add(1);
        let last = self.dirty.saturating_sub(1);
        if first <= last {
            self.add_gap(first, last)?;
        }
        if self.gaps.len() > 8 {
            self.gaps.clear();
        }
        self.next = self.dirty;
        self.open();
        Ok(())
    }

    /// The room is closed, and the device opened.
    pub fn close(&mut self) -> Result<(), Fault> {
        self.cover()?;
        self.gate = self.gate.saturating_add(1);
        for commit in self.drawn.iter_mut() {
            commit.taken = true;
        }
        self.cover_taken()?;
        if self.swept {
            self.gaps.clear();
        }
        self.open();
        Ok(())
    }

    // One more gap, after the others. It is joined to the last if the two are adjacent.
    fn add_gap(&mut self, first: u64, last: u64) -> Result<(), Fault> {
        let mut gap = Gap { first, last };
        if let Some(before) = self.gaps.last().copied() {
            if before.last.saturating_add(1) == first {
                gap.first = before.first;
                self.gaps.pop();
            }
        }
        if self.gaps.push(gap).is_err() {
            return Err(Fault::OutOfMemory);
        }
        Ok(())
    }

    // What is drawn is gone.
    fn open(&mut self) {
        self.drawn.clear();
        self.gate = self.gate.saturating_add(1);
        self.persisted = self.next.saturating_sub(1);
        self.dirty = self.next.saturating_add(WINDOW);
        self.cycle = None;
        self.sessions = [None; 4];
        self.swept = false;
        self.place = 0;
        let mut kept = [0; KEYS];
        for (key, commit) in kept.iter_mut().enumerate() {
            *commit = self.last_writer(key, self.covered.len());
        }
        self.slots.free_others(kept);
    }
}

// The tables after what is written.
fn write_all(tables: &mut Tables, writes: &Writes) {
    for (row, write) in tables.iter_mut().zip(writes.iter()) {
        if let Some(written) = write {
            *row = *written;
        }
    }
}

// The number of the session that makes the step, or 0.
fn session_of(step: &Step) -> u8 {
    match *step {
        Step::Begin | Step::Commit | Step::Collect => 0,
        Step::Get { session, .. } | Step::Scan { session, .. } => session,
        Step::Put { session, .. } | Step::Delete { session, .. } => session,
        Step::Draw { session } | Step::Stamp { session } | Step::Poll { session } => session,
        Step::Abort { session } | Step::End { session } => session,
    }
}

fn conflict_at(key: usize) -> Fault {
    let key = key as u64;
    Fault::Conflict(Key { table: 1, key })
}

// The version that the session at this place writes under a key.
fn own_version(at: usize, key: Key) -> Version {
    Version {
        key: key.key as usize,
        writer: Writer::Session(at),
    }
}

// The session with another write under this key.
fn with(session: Session, key: Key, written: Option<Option<u8>>) -> Session {
    let mut session = session;
    if let Some(write) = session.writes.get_mut(key.key as usize) {
        *write = written;
    }
    session
}
