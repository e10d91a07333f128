ghost use Rattle.std.specs.Prelude.{ℕ, ◌≡◌, ◌<◌, ◌≤◌, ◌||◌, ◌&&◌, not, nat_eq, false, IsTrue, IfSome, IfNone};
ghost use Rattle.dirty_table.specs.Touches.{has, meets, IsNextIn};

use number_set::lowest_bit;

/// A set of numbers of sessions, a bit each.
#[derive(Clone, Copy)]
pub struct SessionSet {
    bits: u64,
}

impl SessionSet {
    /// Above every number of a session.
    pub const LIMIT: u8 = 64;

    /// No session.
    pub fn none() -> SessionSet
        ensures { (n : ℕ) → has result n ≡ false }
    {
        SessionSet { bits: 0 }
    }

    /// Adds a session. The others are as before.
    #[inline(always)]
    pub fn insert(&mut self, session: u8)
        requires { session < 64 }
        ensures { (n : ℕ) → has self.new n ≡ (nat_eq n session || has self.old n) }
    {
        self.bits |= 1 << session;
    }

    /// Takes a session out. The others are as before.
    #[inline(always)]
    pub fn remove(&mut self, session: u8)
        requires { session < 64 }
        ensures { (n : ℕ) → has self.new n ≡ (has self.old n && not (nat_eq n session)) }
    {
        let bits = self.bits;
        self.bits = bits & !(1 << session);
    }

    /// Whether the session is in the set.
    #[inline(always)]
    pub fn contains(&self, session: u8) -> bool
        ensures { result ≡ has self.now session }
    {
        let bits = self.bits;
        session < SessionSet::LIMIT && bits >> session & 1 == 1
    }

    /// The lowest session of the set, from this number on.
    #[inline(always)]
    pub fn next(&self, from: u8) -> Option<u8>
        // None exactly if there is none (`IsNextIn`).
        ensures some { IfSome result (λ n. IsNextIn self.now from n) }
        ensures none { IfNone result ((n : ℕ) → from ≤ n → has self.now n ≡ false) }
    {
        let bits = self.bits;
        if from >= SessionSet::LIMIT {
            return None;
        }
        match lowest_bit(bits, u32::from(from)) {
            Some(bit) => Some(bit as u8),
            None => None,
        }
    }

    /// Whether some session is in both sets.
    #[inline(always)]
    pub(crate) fn meets(&self, other: &SessionSet) -> bool
        ensures { result ≡ meets other.now self.now }
    {
        other.bits & self.bits != 0
    }

    /// Whether no session is in the set.
    #[inline(always)]
    pub(crate) fn is_empty(&self) -> bool
        ensures { IsTrue result → (n : ℕ) → has self.now n ≡ false }
    {
        self.bits == 0
    }

    /// Takes out those of the other set.
    #[inline(always)]
    pub(crate) fn remove_all(&mut self, other: &SessionSet)
        ensures { (n : ℕ) → has self.new n ≡ (has self.old n && not (has other.now n)) }
    {
        self.bits ^= self.bits & other.bits;
    }
}
