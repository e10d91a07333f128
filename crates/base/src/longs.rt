use crate::Ts;
use std::marker::Model;

/// The timestamps of long commits: at most twelve. Contracts see them as a list.
#[derive(Clone, Copy, Debug, PartialEq, Eq)]
pub struct Longs {
    len: u8,
    timestamps: [Ts; 12],
}

impl Model for Longs {
    ghost use Rattle.std.specs.Prelude.{ℕ, List, length, take, drop, replicate, ◌≡◌, ◌≤◌, ◌-◌, ◌++◌};
    ghost use Rattle.base.specs.Longs.{inverse_ok_lem};

    ghost Value = { List ℕ };

    ghost view = { λ l. take l.len l.timestamps };

    ghost invariant = { λ l. (l.len ≤ 12) × (length l.timestamps ≡ 12) × (drop l.len l.timestamps ≡ replicate (12 - l.len) 0) };

    ghost inverse = { λ longs. record { len = length longs; timestamps = longs ++ replicate (12 - length longs) 0 } };

    ghost inverse_ok = { λ l h. inverse_ok_lem l.len l.timestamps h.0 h.1 h.2 };
}

impl Longs {
    ghost use Rattle.std.specs.Prelude.{◌≡◌, ◌<◌, ◌≤◌, ◌++◌, ◌∷◌, [], length, nat_eq};
    ghost use Rattle.std.specs.List.{list_any};

    /// How many there may be.
    pub const LIMIT: usize = 12;

    pub fn none() -> Longs
        ensures { result ≡ [] }
    {
        Longs {
            len: 0,
            timestamps: [0; 12],
        }
    }

    pub fn as_slice(&self) -> &[Ts]
        ensures slice { result.now ≡ self.now }
        ensures few { length self.now ≤ 12 }
    {
        &self.timestamps[..self.len as usize]
    }

    /// Adds a timestamp after the others, of which there may be twelve.
    pub fn push(&mut self, timestamp: Ts)
        requires { length self.old < 12 }
        ensures { self.new ≡ self.old ++ timestamp ∷ [] }
    {
        self.timestamps[self.len as usize] = timestamp;
        self.len += 1;
    }

    /// Is the timestamp one of them?
    pub fn contains(&self, timestamp: Ts) -> bool
        ensures { result ≡ list_any (nat_eq timestamp) self.now }
    {
        self.as_slice().iter().any(|long| timestamp == *long)
    }
}
