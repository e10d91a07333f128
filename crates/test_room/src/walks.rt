//! Walks over links that form a ring, and over one that leads to another key.

ghost use Rattle.std.specs.Prelude.{IsTrue, Some};
ghost use Rattle.index.specs.Keyed.{is_kept};

use crate::fixture::changed_words;
use base::fault::Fault;
use base::geometry::Geometry;
use base::key::Key;
use base::longs::Longs;
use gap_list::GapList;
use index::Index;
use pmem_model::SimPmem;
use snapshot::Snapshot;
use std::alloc::Global;

const KEY: Key = Key { table: 1, key: 7 };

// What a walk finds of the key on a device with these words, if its newest version is in the slot: the row's first byte.
fn walked(
    alloc: Global,
    words: &[u64; 104],
    newest: u64,
    persisted: u64,
) -> Result<Option<u8>, Fault>
    requires { IsTrue (is_kept (Some newest)) }
{
    let geometry = Geometry::new(4, 2, 8)?;
    if geometry.words() != 104 {
        return Err(Fault::BadGeometry);
    }
    let device = SimPmem::from_words(alloc, words)?;
    let mut index = Index::new(alloc);
    index.reserve(KEY, None)?;
    index.draw(KEY, None, Some(newest), 9);
    index.cover(KEY, None, Some(newest));
    let snapshot = Snapshot::new(persisted, GapList::none(), Longs::none());
    match index.walk(&device, geometry, KEY, &snapshot) {
        Some(found) => Ok(found.row.as_bytes().first().copied()),
        None => Ok(None),
    }
}

// Slot 0 was freed and taken again, so that its version, of commit 3, and that of commit 2 in slot 1 name each other.
const RING: &[(usize, u64)] = &[
    (72, 3),
    (74, 7),
    (75, 8_590_000_129),
    (76, 3),
    (80, 2),
    (81, 3),
    (82, 7),
    (83, 4_295_032_833),
    (84, 2),
];

#[test]
fn ring_of_links_ends(rt: HostRuntime) -> Result<(), Fault> {
    let words = changed_words(RING);
    for (persisted, row) in [(3, Some(3)), (2, Some(2)), (1, None)] {
        assert_eq!(rt; walked(rt.alloc(), &words, 0, persisted)?, row);
    }
    Ok(())
}

// Slot 0 was freed and taken for key 8.
const OTHER_KEY: &[(usize, u64)] = &[
    (72, 3),
    (74, 8),
    (75, 65_537),
    (76, 3),
    (80, 2),
    (82, 7),
    (83, 4_295_032_833),
    (84, 2),
];

#[test]
fn link_to_another_key_is_not_followed(rt: HostRuntime) -> Result<(), Fault> {
    let words = changed_words(OTHER_KEY);
    for (persisted, row) in [(3, Some(2)), (0, None)] {
        assert_eq!(rt; walked(rt.alloc(), &words, 1, persisted)?, row);
    }
    Ok(())
}
