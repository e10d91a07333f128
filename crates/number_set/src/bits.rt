//! Sets of numbers as bits, 64 to a word.

ghost use Rattle.std.specs.Prelude.{ℕ, ◌≡◌, ◌≢◌, ◌*◌, ◌/◌, ◌^◌, ◌<◌, ◌≤◌, ◌||◌, ◌&&◌, not, false, nat_eq, length, slice_index_or, IfSome, IfNone};
ghost use Rattle.number_set.specs.Bits.{has_bit, is_in, IsLowestBit, IsLowest, IsClearFrom};

/// The lowest bit of the word, from this one on.
#[inline(always)]
pub fn lowest_bit(word: u64, low: u32) -> Option<u32>
    requires { low < 64 }

    // None exactly if there is none (`IsLowestBit`).
    ensures some { IfSome result (IsLowestBit word low) }
    ensures none { IfNone result ((i : ℕ) → low ≤ i → has_bit word i ≡ false) }
{
    let rest = word & u64::MAX << low;
    if rest == 0 {
        None
    } else {
        Some(rest.trailing_zeros())
    }
}

/// The lowest number of the set, from this one on: by a look at each word.
pub(crate) fn lowest(words: &[u64], from: usize) -> Option<usize>
    requires { length words.now < 2 ^ 57 }
    ensures some { IfSome result (IsLowest words.now from) }
    ensures none { IfNone result (IsClearFrom words.now from) }
{
    let mut low = (from % 64) as u32;
    for at in from / 64..words.len() {
        if let Some(bit) = lowest_bit(words[at], low) {
            return Some(64 * at + bit as usize);
        }
        low = 0;
    }
    None
}

/// Puts the number in.
#[inline(always)]
pub(crate) fn insert(words: &mut [u64], k: usize)
    requires { k / 64 < length words.old }
    ensures is_in { (i : ℕ) → is_in words.new i ≡ (nat_eq i k || is_in words.old i) }
    ensures others { (at : ℕ) → at ≢ k / 64 → slice_index_or words.new at 0 ≡ slice_index_or words.old at 0 }
    ensures size { length words.new ≡ length words.old }
{
    words[k / 64] |= 1 << (k % 64);
}

/// Takes the number out.
#[inline(always)]
pub(crate) fn remove(words: &mut [u64], k: usize)
    requires { k / 64 < length words.old }
    ensures is_in { (i : ℕ) → is_in words.new i ≡ (is_in words.old i && not (nat_eq i k)) }
    ensures others { (at : ℕ) → at ≢ k / 64 → slice_index_or words.new at 0 ≡ slice_index_or words.old at 0 }
    ensures less { (at : ℕ) → slice_index_or words.new at 0 ≤ slice_index_or words.old at 0 }
    ensures size { length words.new ≡ length words.old }
{
    words[k / 64] &= !(1 << (k % 64));
}
