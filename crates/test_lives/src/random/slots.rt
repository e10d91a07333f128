/// How many slots the device has.
pub const SLOTS: usize = 8;

/// How many keys of a table are written.
pub const KEYS: usize = 3;

/// Who wrote a version: the session at a place, or the commit with a timestamp.
#[derive(Clone, Copy, PartialEq, Eq)]
pub enum Writer {
    Session(usize),
    Commit(u64),
}

/// A version of a key, which takes a slot.
#[derive(Clone, Copy, PartialEq, Eq)]
pub struct Version {
    pub key: usize,
    pub writer: Writer,
}

/// What takes each slot.
#[derive(Clone, Copy)]
pub struct Slots {
    held: [Option<Version>; SLOTS],
}

impl Slots {
    pub fn new() -> Slots {
        Slots {
            held: [None; SLOTS],
        }
    }

    /// The version in a slot.
    pub fn at(&self, slot: usize) -> Option<Version> {
        self.held.get(slot).copied().flatten()
    }

    /// Takes the lowest free slot for a version, unless it has one. Is there one?
    pub fn take(&mut self, version: Version) -> bool {
        if self.has(version) {
            return true;
        }
        for place in self.held.iter_mut() {
            if place.is_none() {
                *place = Some(version);
                return true;
            }
        }
        false
    }

    fn has(&self, version: Version) -> bool {
        for place in self.held.iter() {
            if *place == Some(version) {
                return true;
            }
        }
        false
    }

    pub fn free(&mut self, slot: usize) {
        if let Some(place) = self.held.get_mut(slot) {
            *place = None;
        }
    }

    /// Frees the slot of a version, if it has one.
    pub fn free_version(&mut self, version: Version) {
        for place in self.held.iter_mut() {
            if *place == Some(version) {
                *place = None;
            }
        }
    }

    /// Frees the slots of all versions of a writer.
    pub fn free_writer(&mut self, writer: Writer) {
        for place in self.held.iter_mut() {
            if let Some(version) = *place {
                if version.writer == writer {
                    *place = None;
                }
            }
        }
    }

    /// Frees the slots of all versions except those of these commits, one for
    /// each key.
    pub fn free_others(&mut self, kept: [u64; KEYS]) {
        for place in self.held.iter_mut() {
            if let Some(version) = *place {
                let commit = kept.get(version.key).copied().unwrap_or(0);
                if version.writer != Writer::Commit(commit) {
                    *place = None;
                }
            }
        }
    }

    /// The versions of one writer become those of another.
    pub fn hand_over(&mut self, from: Writer, to: Writer) {
        for place in self.held.iter_mut() {
            if let Some(version) = *place {
                if version.writer == from {
                    *place = Some(Version {
                        key: version.key,
                        writer: to,
                    });
                }
            }
        }
    }
}
