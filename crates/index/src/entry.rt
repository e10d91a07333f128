use base::key::Key;
use base::{SlotNo, Ts};
use std::marker::Model;

/// The slots of a key's versions.
#[derive(Clone, Copy, Debug, PartialEq, Eq)]
pub struct Entry {
    /// The newest covered version that has a row and isn't freed.
    pub newest: Option<SlotNo>,
    /// Whether a covered deletion ended it.
    pub ended: bool,
    /// The version that a drawn commit wrote.
    pub drawn: Option<SlotNo>,
    /// The last timestamp drawn for the key in this life.
    pub last: Option<Ts>,
}

impl Entry {
    ghost use Rattle.std.specs.Prelude.{◌≡◌, is_some, if◌then◌else◌};
    ghost use Rattle.index.specs.Entries.{blank, live_of, head_of};

    // The entry of a key without versions.
    pub(crate) fn blank() -> Entry
        ensures { result ≡ blank }
    {
        Entry {
            newest: None,
            ended: false,
            drawn: None,
            last: None,
        }
    }

    // The version that is the key's covered row.
    pub(crate) fn live(&self) -> Option<SlotNo>
        ensures { result ≡ live_of self.now }
    {
        if self.ended { None } else { self.newest }
    }

    // How many covered rows its key has.
    #[inline(always)]
    pub(crate) fn live_number(&self) -> usize
        ensures { result ≡ (if is_some (live_of self.now) then 1 else 0) }
    {
        if self.live().is_some() { 1 } else { 0 }
    }

    // The newest version with a row.
    pub(crate) fn head(&self) -> Option<SlotNo>
        ensures { result ≡ head_of self.now }
    {
        self.drawn.or(self.newest)
    }
}

/// The number that stands for no slot.
const NO_SLOT: u32 = u32::MAX;

ghost use Rattle.std.specs.Prelude.{◌≡◌, IsTrue};
ghost use Rattle.index.specs.Keyed.{is_kept, slot_in, joined};

// The number that stands for the slot, or for none.
#[inline(always)]
fn kept(slot: Option<SlotNo>) -> u32
    requires { IsTrue (is_kept slot) }
    ensures { slot_in result ≡ slot }
{
    match slot {
        Some(slot) => slot as u32,
        None => NO_SLOT,
    }
}

// The slot that the number stands for.
#[inline(always)]
fn slot_of(number: u32) -> Option<SlotNo>
    ensures { result ≡ slot_in number }
{
    if number < NO_SLOT {
        Some(u64::from(number))
    } else {
        None
    }
}

/// A number in two halves, so that a struct that has it begins at a multiple of four bytes, and isn't padded to eight.
#[derive(Clone, Copy)]
pub(crate) struct Halves {
    low: u32,
    high: u32,
}

impl Halves {
    #[inline(always)]
    pub(crate) fn of(number: u64) -> Halves
        ensures { joined result ≡ number }
    {
        Halves {
            low: (number % (1 << 32)) as u32,
            high: (number / (1 << 32)) as u32,
        }
    }

    #[inline(always)]
    pub(crate) fn number(self) -> u64
        ensures { result ≡ joined self }
    {
        u64::from(self.high) * (1 << 32) + u64::from(self.low)
    }
}

/// A key with its entry, in as little memory as possible: there is one for each live slot. Opening makes them, and pages of fresh
/// memory cost more time than what is written there.
#[derive(Drop)]
pub struct KeyedEntry {
    key: Halves,
    last: Halves,
    newest: u32,
    drawn: u32,
    table: u16,
    ended: bool,
    has_last: bool,
}

const _: () = prove!(size_of::<KeyedEntry>() == 28);

impl Model for KeyedEntry {
    ghost use Rattle.base.specs.declared.key.Key.{Key};
    ghost use Rattle.index.specs.declared.entry.Entry.{Entry};

    ghost Value = { Key × Entry };

    ghost use Rattle.index.specs.Keyed.{key_in, entry_in};

    ghost view = { λ k. (key_in k, entry_in k) };
}

impl KeyedEntry {
    ghost use Rattle.std.specs.Prelude.{◌<◌, ◌^◌, ◌-◌, Some};
    ghost use Rattle.base.specs.Keys.{key_eq};
    ghost use Rattle.index.specs.Entries.{blank};
    ghost use Rattle.index.specs.Keyed.{are_kept};

    /// The entry of a key whose covered row is in the slot, in a life that has drawn nothing for it.
    pub fn live(key: Key, slot: SlotNo) -> KeyedEntry
        requires { slot < 2 ^ 32 - 1 }
        ensures { result ≡ (key, record blank { newest = Some slot }) }
    {
        KeyedEntry {
            key: Halves::of(key.key),
            last: Halves::of(0),
            newest: slot as u32,
            drawn: NO_SLOT,
            table: key.table,
            ended: false,
            has_last: false,
        }
    }

    #[inline(always)]
    pub(crate) fn new(key: Key, entry: Entry) -> KeyedEntry
        requires { IsTrue (are_kept entry) }
        ensures { result ≡ (key, entry) }
    {
        KeyedEntry {
            key: Halves::of(key.key),
            last: Halves::of(entry.last.unwrap_or(0)),
            newest: kept(entry.newest),
            drawn: kept(entry.drawn),
            table: key.table,
            ended: entry.ended,
            has_last: entry.last.is_some(),
        }
    }

    #[inline(always)]
    pub(crate) fn key(&self) -> Key
        ensures { result ≡ self.now.0 }
    {
        Key {
            table: self.table,
            key: self.key.number(),
        }
    }

    #[inline(always)]
    pub(crate) fn entry(&self) -> Entry
        ensures value { result ≡ self.now.1 }
        ensures kept { IsTrue (are_kept result) }
    {
        Entry {
            newest: slot_of(self.newest),
            ended: self.ended,
            drawn: slot_of(self.drawn),
            last: self.has_last.then_some(self.last.number()),
        }
    }

    // The version that a drawn commit wrote, and its timestamp.
    #[inline(always)]
    pub(crate) fn draw(&mut self, slot: Option<SlotNo>, ts: Ts)
        requires { IsTrue (is_kept slot) }
        ensures { self.new ≡ (self.old.0, record self.old.1 { drawn = slot; last = Some ts }) }
    {
        self.drawn = kept(slot);
        self.last = Halves::of(ts);
        self.has_last = true;
    }
}
