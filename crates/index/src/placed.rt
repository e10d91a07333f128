ghost use Rattle.std.specs.Prelude.{◌≡◌};
ghost use Rattle.std.proofs.Common.{rules};
ghost use Rattle.std.specs.Cmp.{partial_order_from_own_ties};
ghost use Rattle.std.specs.Cmp.Rules.{comparing};
ghost use Rattle.std.specs.Ordering.{nat_cmp, on, then_cmp, as_partial_cmp, eq_by_cmp};

use crate::entry::Halves;
use base::key::Key;
use std::cmp::Ordering;
use std::marker::Model;

/// A key in as little memory as possible, for the map of the places of entries. It is ordered as keys are.
#[derive(Drop)]
pub struct PlacedKey {
    number: Halves,
    table: u16,
}

const _: () = prove!(size_of::<PlacedKey>() == 12);

impl Model for PlacedKey {
    ghost use Rattle.base.specs.declared.key.Key.{Key};

    ghost Value = { Key };

    ghost use Rattle.index.specs.Placed.{placed_in};

    ghost view = { placed_in };
}

impl PlacedKey {
    #[inline(always)]
    pub fn of(key: Key) -> PlacedKey
        ensures { result ≡ key }
    {
        PlacedKey {
            number: Halves::of(key.key),
            table: key.table,
        }
    }

    #[inline(always)]
    pub fn key(&self) -> Key
        ensures { result ≡ self.now }
    {
        Key {
            table: self.table,
            key: self.number.number(),
        }
    }
}

impl PartialEq for PlacedKey {
    ghost use Rattle.base.specs.Keys.{key_eq};

    ghost eq = { key_eq };

    ghost laws = { Prim.search (comparing, rules) };

    fn eq(&self, other: &PlacedKey) -> bool {
        self.key() == other.key()
    }
}

impl Eq for PlacedKey {
    ghost laws = { Prim.search (comparing, rules) };
}

impl Ord for PlacedKey {
    ghost use Rattle.index.specs.Entries.{key_cmp};

    ghost cmp = { key_cmp };

    ghost total = { Prim.search (comparing, rules) };

    ghost matches_partial_cmp = { Prim.search (comparing, rules) };

    ghost matches_eq = { Prim.search (comparing, rules) };

    fn cmp(&self, other: &PlacedKey) -> Ordering {
        self.key().cmp(&other.key())
    }
}

impl PartialOrd for PlacedKey {
    ghost use Rattle.index.specs.Entries.{key_cmp};

    ghost partial_cmp = { as_partial_cmp key_cmp };

    ghost laws = { partial_order_from_own_ties (Prim.search (comparing, rules)) (Prim.search (comparing, rules)) };

    fn partial_cmp(&self, other: &PlacedKey) -> Option<Ordering> {
        Some(self.cmp(other))
    }
}
