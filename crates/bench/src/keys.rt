use base::key::Key;

// The step from one key to the next one, if no two that are near each other come in turn. It is prime, so that each key comes.
const STRIDE: u64 = 2_654_435_761;

/// Which keys have rows, and which of them is next.
#[derive(Clone, Copy)]
pub enum Order {
    /// The numbers from 0 on, in turn.
    Counted,
    /// Numbers as if by chance from all over 64 bits, in turn.
    Scattered,
    /// The same keys in another order, in which none is near the one before.
    Random,
}

impl Order {
    /// The same keys in turn.
    pub fn in_turn(self) -> Order {
        match self {
            Order::Random => Order::Scattered,
            order => order,
        }
    }

    /// The key of table 1 that comes next, out of `keys` keys, once this many have come.
    pub fn key(self, number: u64, keys: u64) -> Key {
        let keys = keys.max(1);
        let key = match self {
            Order::Counted => number % keys,
            Order::Scattered => mixed(number % keys),
            Order::Random => mixed(number.wrapping_mul(STRIDE) % keys),
        };
        Key { table: 1, key }
    }
}

// A number as if by chance. Each has one of its own.
fn mixed(number: u64) -> u64 {
    let high = number.wrapping_mul(0x9E37_79B9_7F4A_7C15);
    let low = (high ^ (high >> 32)).wrapping_mul(0xBF58_476D_1CE4_E5B9);
    low ^ (low >> 29)
}
