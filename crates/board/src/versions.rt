//! What the batches above the floor wrote, by key and stamp.
ghost use Rattle.std.specs.Prelude.{◌≡◌, ℕ, None, Some, false, ◌&&◌, nat_eq, if◌then◌else◌, is_some, OnOk, OnErr};
ghost use Rattle.std.specs.Option.{option_or};
ghost use Rattle.base.specs.declared.key.Key.{Key as KeyOf};
ghost use Rattle.base.specs.Keys.{key_eq, lookup_key};
ghost use Rattle.board.specs.Cells.{is_written};
ghost use Rattle.board.specs.Versions.{lookup_version, version_after, IsLatest};

use base::batch::Commit;
use base::key::Key;
use base::row::Row;
use std::alloc::AllocError;
use std::collections::BTreeMap;

/// The place of a version: under its key, by rising stamp.
#[derive(Clone, Copy, PartialEq, Eq, PartialOrd, Ord)]
pub struct Place {
    pub key: Key,
    pub stamp: u64,
}

/// The row that the batch of a stamp leaves under a key that it writes, or `None` if it deletes the row.
pub type Versions = BTreeMap<Place, Option<Row>>;

/// The key's last version up to the stamp.
pub fn latest(versions: &Versions, stamp: u64, key: &Key) -> Option<Option<Row>>
    ensures { IsLatest versions.now.entries key.now stamp result }
{
    let first = Place {
        key: *key,
        stamp: 0,
    };
    let last = Place { key: *key, stamp };
    let (_, row) = versions.range(first..=last).next_back()?;
    Some(*row)
}

/// Enters what the commits of a stamp leave, or nothing if memory runs out. Nothing may be there at the stamp yet.
pub fn enter(versions: &mut Versions, stamp: u64, commits: &[Commit]) -> Result<(), AllocError>
    requires { (k : KeyOf) → lookup_version versions.old.entries k stamp ≡ None }
    ensures done { OnOk result ((k : KeyOf) (s : ℕ) → lookup_version versions.new.entries k s ≡ (if nat_eq stamp s then version_after k None commits.now else lookup_version versions.old.entries k s)) }
    ensures same { OnErr result ((k : KeyOf) (s : ℕ) → lookup_version versions.new.entries k s ≡ lookup_version versions.old.entries k s) }
{
    if enter_some(versions, stamp, commits).is_err() {
        forget(versions, stamp, commits);
        return Err(AllocError);
    }
    Ok(())
}

// Enters what the commits of a stamp leave, as far as memory goes.
fn enter_some(versions: &mut Versions, stamp: u64, commits: &[Commit]) -> Result<(), AllocError>
    ensures done { OnOk result ((k : KeyOf) (s : ℕ) → lookup_version versions.new.entries k s ≡ (if nat_eq stamp s then version_after k (lookup_version versions.old.entries k s) commits.now else lookup_version versions.old.entries k s)) }
    ensures others { (k : KeyOf) (s : ℕ) → (stamp ≡ s → is_written k commits.now ≡ false) → lookup_version versions.new.entries k s ≡ lookup_version versions.old.entries k s }
{
    for commit in commits {
        enter_writes(versions, stamp, commit.writes())?;
    }
    Ok(())
}

// Enters what a commit writes, as far as memory goes.
fn enter_writes(
    versions: &mut Versions,
    stamp: u64,
    writes: &[(Key, Option<Row>)],
) -> Result<(), AllocError>
    ensures done { OnOk result ((k : KeyOf) (s : ℕ) → lookup_version versions.new.entries k s ≡ (if nat_eq stamp s then option_or (lookup_key writes.now k) (lookup_version versions.old.entries k s) else lookup_version versions.old.entries k s)) }
    ensures others { (k : KeyOf) (s : ℕ) → (stamp ≡ s → lookup_key writes.now k ≡ None) → lookup_version versions.new.entries k s ≡ lookup_version versions.old.entries k s }
{
    let mut left = writes.len();
    while left > 0 {
        left -= 1;
        let write = writes[left];
        let place = Place {
            key: write.0,
            stamp,
        };
        enter_one(versions, place, write.1)?;
    }
    Ok(())
}

// Enters one write.
fn enter_one(versions: &mut Versions, place: Place, row: Option<Row>) -> Result<(), AllocError>
    ensures done { OnOk result ((k : KeyOf) (s : ℕ) → lookup_version versions.new.entries k s ≡ (if key_eq place.key k && nat_eq place.stamp s then Some row else lookup_version versions.old.entries k s)) }
    ensures same { OnErr result (versions.new.entries ≡ versions.old.entries) }
{
    match versions.insert(place, row) {
        Ok(_) => Ok(()),
        Err(_) => Err(AllocError),
    }
}

/// Removes what the commits wrote at the stamp.
pub fn forget(versions: &mut Versions, stamp: u64, commits: &[Commit])
    ensures { (k : KeyOf) (s : ℕ) → lookup_version versions.new.entries k s ≡ (if is_written k commits.now && nat_eq stamp s then None else lookup_version versions.old.entries k s) }
{
    for commit in commits {
        forget_writes(versions, stamp, commit.writes());
    }
}

// Removes what a commit wrote at the stamp.
fn forget_writes(versions: &mut Versions, stamp: u64, writes: &[(Key, Option<Row>)])
    ensures { (k : KeyOf) (s : ℕ) → lookup_version versions.new.entries k s ≡ (if is_some (lookup_key writes.now k) && nat_eq stamp s then None else lookup_version versions.old.entries k s) }
{
    for write in writes {
        versions.remove(&Place {
            key: write.0,
            stamp,
        });
    }
}
