use crate::hostile::judge::{Counts, opened_rows};
use crate::hostile::life::{formatted, leave, opened};
use asks::Ask::{Begin, End, Put};
use asks::{Life, TWO_LINES_COVERED, steps};
use base::fault::Fault;
use base::key::Key;
use base::row::Row;
use base::step::{Reply, Step};
use image_check::check;
use pmem::Pmem;
use pmem_model::SimPmem;
use rand_core::utils::NextWord;
use rand_pcg::Pcg32;
use room::Room;
use std::alloc::Global;
use std::thread::Threads;

/// Words and their values.
type Changes = &'static [(usize, u64)];

/// What checking and opening report of an image.
#[derive(Clone, Copy)]
enum Answer {
    /// Both find it damaged in this way.
    Damaged(u64),
    /// It is sound, has this many rows, and opens.
    Rows(usize),
    /// It is sound, and opening finds no timestamps left.
    NoTimestamps,
    /// Neither knows this version of the format.
    Unknown(u64),
    /// Both refuse the geometry.
    Misfit,
}

use Answer::{Damaged, Misfit, NoTimestamps, Rows, Unknown};

/// The fault that checking finds, the one that opening finds, and how many rows both find.
type Found = (Option<Fault>, Option<Fault>, usize);

fn found_as(answer: Answer) -> Found {
    match answer {
        Damaged(place) => {
            let fault = Some(Fault::Damaged(place));
            (fault, fault, 0)
        }
        Rows(rows) => (None, None, rows),
        NoTimestamps => (None, Some(Fault::TimestampsOut), 0),
        Unknown(version) => {
            let fault = Some(Fault::Version(version));
            (fault, fault, 0)
        }
        Misfit => (Some(Fault::BadGeometry), Some(Fault::BadGeometry), 0),
    }
}

// Table 1, key 7 has the row `6162`, of the first commit.
const FIRST_COMMIT: Changes = &[
    (41, 1),
    (42, 2),
    (72, 1),
    (74, 7),
    (75, 131_073),
    (76, 25_185),
];

// Changes of the fresh image of 4 slots, 2 places and a window of 8.
const OF_FRESH: &[(Changes, Answer)] = &[
    (&[], Rows(0)),
    (&[(42, 0)], Damaged(1)),
    (&[(43, 9)], Damaged(1)),
    (&[(43, 4_294_967_296)], Damaged(1)),
    (&[(71, 1)], Damaged(1)),
    (&[(72, 1)], Damaged(2)),
    (&[(73, 1)], Damaged(2)),
    (&[(9, 5)], Rows(0)),
    (&[(8, 4_611_686_018_427_387_904)], Damaged(0)),
    (&[(8, 4)], Damaged(0)),
    (&[(42, 4_611_686_018_427_387_888)], NoTimestamps),
    (&[(42, 4_611_686_018_427_387_887)], Rows(0)),
    (&[(40, 4_611_686_018_427_387_903)], NoTimestamps),
];

// Changes of that image with the first commit.
const OF_FIRST_COMMIT: &[(Changes, Answer)] = &[
    (&[], Rows(1)),
    (&[(76, 65_536)], Damaged(2)),
    (&[(75, 2_162_689)], Damaged(2)),
    (&[(75, 16_908_289)], Damaged(2)),
    (&[(75, 21_474_967_553)], Damaged(2)),
    (&[(75, 17_180_000_257)], Rows(1)),
    (&[(73, 1)], Rows(0)),
    (&[(80, 2)], Damaged(3)),
    (&[(80, 1), (82, 7), (83, 131_073), (84, 25_185)], Damaged(3)),
];

// That image under a record with twelve long commits, 2 to 13, each of which leaves its number in its word.
const LONG_COMMITS: Changes = &[
    (41, 14),
    (42, 15),
    (43, 51_539_607_552),
    (60, 2),
    (61, 3),
    (62, 4),
    (63, 5),
    (64, 6),
    (65, 7),
    (66, 8),
    (67, 9),
    (68, 10),
    (69, 11),
    (70, 12),
    (71, 13),
    (72, 1),
    (74, 7),
    (75, 131_073),
    (76, 25_185),
];

// Changes of the image with long commits: one of 0, one above the persisted timestamp, two that don't rise, a thirteenth,
// and one that is still named though there are fewer. Also one in a gap, and the first version, which has none.
const OF_LONG_COMMITS: &[(Changes, Answer)] = &[
    (&[], Rows(1)),
    (&[(71, 14)], Rows(1)),
    (&[(60, 1)], Rows(0)),
    (&[(60, 0)], Damaged(1)),
    (&[(71, 15)], Damaged(1)),
    (&[(61, 2)], Damaged(1)),
    (&[(43, 55_834_574_848)], Damaged(1)),
    (&[(43, 47_244_640_256)], Damaged(1)),
    (&[(43, 47_244_640_256), (71, 0)], Rows(1)),
    (
        &[(43, 47_244_640_257), (71, 0), (44, 13), (45, 14)],
        Rows(1),
    ),
    (
        &[(43, 47_244_640_257), (71, 0), (44, 12), (45, 14)],
        Damaged(1),
    ),
    (&[(1, 1)], Damaged(1)),
];

// Table 1, key 7 has a row of 96 bytes in the first of 4 slots of two lines, of the first commit.
const WIDE_COMMIT: Changes = &[
    (41, 1),
    (42, 2),
    (72, 1),
    (74, 7),
    (75, 6_291_457),
    (76, 25_185),
    (79, 25_185),
    (80, 25_185),
    (87, 25_185),
];

// Changes of that image: rows of 97 and 90 bytes with and without bytes after them, and of 40 bytes without, unused bits, and
// links to the fifth slot and the fourth. Also a begin of a slot at the dirty timestamp, an end, and a second version of the key.
const OF_WIDE_COMMIT: &[(Changes, Answer)] = &[
    (&[], Rows(1)),
    (&[(87, 0)], Rows(1)),
    (&[(75, 6_356_993)], Damaged(2)),
    (&[(75, 5_898_241)], Rows(1)),
    (&[(75, 5_898_241), (87, 65_536)], Damaged(2)),
    (&[(75, 2_621_441), (87, 0)], Rows(1)),
    (&[(75, 23_068_673)], Damaged(2)),
    (&[(75, 21_481_127_937)], Damaged(2)),
    (&[(75, 17_186_160_641)], Rows(1)),
    (&[(73, 1)], Rows(0)),
    (&[(88, 2)], Damaged(3)),
    (&[(88, 1), (90, 7), (91, 131_073), (92, 25_185)], Damaged(3)),
];

// A row of 40 bytes with bytes in a word behind its own: in version 4 nothing reads them.
const OF_WIDE_PADDING: &[(Changes, Answer)] = &[(&[(75, 2_621_441)], Damaged(2))];

const OF_LARGE_PADDING: &[(Changes, Answer)] = &[(&[(75, 2_621_441)], Rows(1))];

// Changes of the image of 4 slots of eight lines with the first commit: a byte behind the row in its word, words behind it, rows of 480
// and of 481 bytes, and a begin of the second slot at the dirty timestamp.
const OF_WIDEST_COMMIT: &[(Changes, Answer)] = &[
    (&[], Rows(1)),
    (&[(76, 65_536)], Damaged(2)),
    (&[(77, 1), (135, 1)], Rows(1)),
    (&[(75, 31_457_281)], Rows(1)),
    (&[(75, 31_522_817)], Damaged(2)),
    (&[(136, 2)], Damaged(3)),
];

// Changes of the superblock of a large image with the first commit: word 1 without lines, with 65 and with nine, and with two and three,
// which make another length. Then 2^24 slots, which make another length too, 2^24 + 1 slots, and each with its own length in word 5. Then a
// word that is 0. As version 2 it is sound, unless it has 65,537 slots.
const OF_LARGE: &[(Changes, Answer)] = &[
    (&[(1, 4)], Unknown(4)),
    (&[(1, 16_644)], Unknown(16_644)),
    (&[(1, 2_308)], Unknown(2_308)),
    (&[(1, 772)], Misfit),
    (&[(1, 261)], Unknown(261)),
    (&[(1, 516)], Misfit),
    (&[(2, 16_777_216)], Misfit),
    (&[(2, 16_777_217)], Misfit),
    (&[(2, 16_777_216), (5, 134_217_800)], Misfit),
    (&[(2, 16_777_217), (5, 134_217_808)], Misfit),
    (&[(6, 1)], Misfit),
    (&[(7, 1)], Misfit),
    (&[(1, 2)], Rows(1)),
    (&[(1, 2), (2, 65_537)], Misfit),
];

// The version of a fresh image, its first words, and changes of it.
const TABLES: &[(u64, Changes, &[(Changes, Answer)])] = &[
    (2, &[], OF_FRESH),
    (2, FIRST_COMMIT, OF_FIRST_COMMIT),
    (2, LONG_COMMITS, OF_LONG_COMMITS),
    (3, WIDE_COMMIT, OF_WIDE_COMMIT),
    (260, FIRST_COMMIT, OF_FIRST_COMMIT),
    (260, FIRST_COMMIT, OF_LARGE),
    (516, WIDE_COMMIT, OF_WIDE_COMMIT),
    (3, WIDE_COMMIT, OF_WIDE_PADDING),
    (516, WIDE_COMMIT, OF_LARGE_PADDING),
    (2_052, FIRST_COMMIT, OF_WIDEST_COMMIT),
];

// An update of key 7, or its first row.
const A_COMMIT: Life = &[&[Begin, Put(2, 7, 9)], TWO_LINES_COVERED, &[End(2)]];

fn change(words: &mut [u64], changes: Changes) {
    for (at, value) in changes {
        if let Some(word) = words.get_mut(*at) {
            *word = *value;
        }
    }
}

/// Each change of the tables, checked and opened.
pub fn change_each<R: Threads + Sync>(rt: &R, alloc: Global) -> Result<Counts, Fault> {
    let mut counts = Counts::none();
    for (version, first, table) in TABLES {
        change_table(rt, alloc, (*version, first), table, &mut counts)?;
    }
    Ok(counts)
}

// Each change of a table, on a fresh image of this version with these words.
fn change_table<R: Threads + Sync>(
    rt: &R,
    alloc: Global,
    before: (u64, Changes),
    table: &[(Changes, Answer)],
    counts: &mut Counts,
) -> Result<(), Fault> {
    let (version, first) = before;
    for (changes, answer) in table {
        let mut words = formatted(alloc, version, 4)?;
        change(&mut words, first);
        change(&mut words, changes);
        let found = found_in(rt, alloc, &words);
        counts.images = counts.images.saturating_add(1);
        counts.expect(found == found_as(*answer));
    }
    Ok(())
}

// Checks the words, and opens them. If the rows differ, opening is reported as faulty.
fn found_in<R: Threads + Sync>(rt: &R, alloc: Global, words: &[u64]) -> Found {
    let opened = opened_rows(rt, alloc, words);
    match check(rt, alloc, words) {
        Ok(report) => found_beside(&report.rows, opened),
        Err(fault) => (Some(fault), opened.err(), 0),
    }
}

// What opening found, next to the rows of a check.
fn found_beside(checked: &[(Key, Row)], opened: Result<(u64, Vec<(Key, Row)>), Fault>) -> Found {
    match opened {
        Ok((_, rows)) => {
            let alike = rows.as_slice() == checked;
            let fault = if alike { None } else { Some(Fault::WrongState) };
            (None, fault, rows.len())
        }
        Err(fault) => (None, Some(fault), 0),
    }
}

/// Each shorter part of the fresh image.
pub fn cut_each<R: Threads + Sync>(rt: &R, alloc: Global) -> Result<Counts, Fault> {
    let mut counts = Counts::none();
    let words = formatted(alloc, 2, 4)?;
    for length in 0..104 {
        let fault = if length < 8 {
            Fault::NotFormatted
        } else {
            Fault::BadGeometry
        };
        let found = found_in(rt, alloc, words.get(..length).unwrap_or(&[]));
        counts.images = counts.images.saturating_add(1);
        counts.expect(found == (Some(fault), Some(fault), 0));
    }
    Ok(counts)
}

// A value that an image may have, or that is just out of range, or any.
fn value(chance: &mut Pcg32) -> u64 {
    let any = u64::from(chance.next_word());
    match any % 8 {
        0 => 0,
        1 => 1,
        2 => any / 8 % 16,
        3 => 131_073,
        4 => 4_611_686_018_427_387_888 + any / 8 % 32,
        5 => any / 8 % 131_072,
        6 => u64::MAX,
        _ => any << 32 | u64::from(chance.next_word()),
    }
}

/// Random changes of this image: this many times, of this many words at most, with random numbers from this seed.
pub fn change_at_random<R: Threads + Sync>(
    rt: &R,
    alloc: Global,
    words: &[u64],
    given: (u64, u64, u32),
    counts: &mut Counts,
) -> Result<(), Fault> {
    let (seed, images, most) = given;
    let mut chance = Pcg32::new(seed, 54);
    for _ in 0..images {
        let Ok(mut words) = words.to_vec(alloc) else {
            return Err(Fault::OutOfMemory);
        };
        change_some(&mut words, &mut chance, most);
        judge_words(rt, alloc, &words, counts);
    }
    Ok(())
}

/// Judges words: checking and opening report the same of them, and what opens is used. Are they sound?
pub fn judge_words<R: Threads + Sync>(
    rt: &R,
    alloc: Global,
    words: &[u64],
    counts: &mut Counts,
) -> bool {
    let found = found_in(rt, alloc, words);
    counts.images = counts.images.saturating_add(1);
    counts.expect(are_alike(found));
    counts.expect(is_usable(rt, alloc, words));
    found.0.is_none()
}

// Changes one word, or up to this many.
fn change_some(words: &mut [u64], chance: &mut Pcg32, most: u32) {
    for _ in 0..1 + chance.next_word() % most.max(1) {
        let at = chance.next_word() as usize % words.len().max(1);
        if let Some(word) = words.get_mut(at) {
            *word = value(chance);
        }
    }
}

// A sound image opens, limits of numbers aside. No other does, for the fault that the check finds.
fn are_alike(found: Found) -> bool {
    match found {
        (None, opened, _) => matches!(opened, None | Some(Fault::TimestampsOut)),
        (checked, opened, _) => checked == opened,
    }
}

// An image that opens takes a commit and is closed, limits of slots and numbers aside, and is opened once more.
fn is_usable<R: Threads + Sync>(rt: &R, alloc: Global, words: &[u64]) -> bool {
    match used(rt, alloc, words) {
        Ok(kept) => kept,
        Err(fault) => !matches!(
            fault,
            Fault::Device | Fault::Failed | Fault::WrongState | Fault::OutOfMemory
        ),
    }
}

// Opens the words, makes a commit, closes and opens what is left: are all rows there, and that of the commit?
fn used<R: Threads + Sync>(rt: &R, alloc: Global, words: &[u64]) -> Result<bool, Fault> {
    let steps = steps(alloc, A_COMMIT)?;
    match opened(rt, alloc, SimPmem::from_words(alloc, words)?) {
        Ok(room) => closed_and_opened(rt, alloc, committed(room, &steps)?),
        Err((fault, _device)) => Err(fault),
    }
}

// The room once it has made the steps, none of which is refused.
fn committed(room: Room<SimPmem>, steps: &[Step]) -> Result<Room<SimPmem>, Fault> {
    let mut room = room;
    match refusal_of(&mut room, steps) {
        None => Ok(room),
        Some(fault) => {
            leave(room);
            Err(fault)
        }
    }
}

// Makes the steps up to the one that is refused, and returns the reason, if one is.
fn refusal_of(room: &mut Room<SimPmem>, steps: &[Step]) -> Option<Fault> {
    for step in steps {
        if let Reply::Refused(fault) = room.step(*step) {
            return Some(fault);
        }
    }
    None
}

fn closed_and_opened<R: Threads + Sync>(
    rt: &R,
    alloc: Global,
    room: Room<SimPmem>,
) -> Result<bool, Fault> {
    let rows = room.tables();
    let words = closed_words(room);
    are_kept(rt, alloc, &rows?, &words?)
}

// Does opening the words find these rows, and that of the commit among them?
fn are_kept<R: Threads + Sync>(
    rt: &R,
    alloc: Global,
    rows: &[(Key, Row)],
    words: &[u64],
) -> Result<bool, Fault> {
    let (_, again) = opened_rows(rt, alloc, words)?;
    Ok(has_commit(rows) && rows == again.as_slice())
}

// The words that closing leaves.
fn closed_words(room: Room<SimPmem>) -> Result<Vec<u64>, Fault> {
    match room.close() {
        Ok(device) => device.image(),
        Err((fault, _device)) => Err(fault),
    }
}

// Is the row of the commit among these?
fn has_commit(rows: &[(Key, Row)]) -> bool {
    for (key, row) in rows {
        if key.table == 1 && key.key == 7 {
            return row.as_bytes() == [9].as_slice();
        }
    }
    false
}

/// The words of the fresh image, with the first commit if that is asked.
pub fn sound_words(alloc: Global, commits: bool) -> Result<Vec<u64>, Fault> {
    let mut words = formatted(alloc, 2, 4)?;
    if commits {
        change(&mut words, FIRST_COMMIT);
    }
    Ok(words)
}
