ghost use Rattle.std.specs.Prelude.{◌≡◌, ◌↔◌, ◌+◌, ◌-◌, ◌*◌, ◌^◌, ◌<◌, ◌≤◌, ℕ, drop, length, slice_index, EachIndex, IsTrue};
ghost use Rattle.std.specs.Int.{from_le_bytes, w64};
ghost use Rattle.version_slot.specs.Words.{link_number, slot_byte};

// The eight bytes from `from` on as a number, the first lowest, with 0 past the end.
#[inline(always)]
pub fn word_at(bytes: &[u8], from: usize) -> u64
    requires { from ≤ 480 }
    ensures { result ≡ from_le_bytes w64 (drop from bytes.now) }
{
    if bytes.len() <= from {
        return 0;
    }
    let rest = &bytes[from..];
    match rest.first_chunk::<8>() {
        Some(eight) => u64::from_le_bytes(*eight),
        None => last_word(rest),
    }
}

// Fewer than eight bytes as a number, with 0 past the end.
#[inline(never)]
fn last_word(bytes: &[u8]) -> u64
    requires { length bytes.now < 8 }
    ensures { result ≡ from_le_bytes w64 bytes.now }
{
    let mut eight = [0; 8];
    eight[..bytes.len()].copy_from_slice(bytes);
    u64::from_le_bytes(eight)
}

// The bytes of the row words of a slot of which `count` words count, the lowest byte of each word first.
#[inline(always)]
pub fn row_bytes(words: &[u64; 64], count: usize) -> [u8; 480]
    requires { (4 ≤ count) × (count ≤ 64) }
    ensures size { length result ≡ 480 }
    ensures bytes { (i : ℕ) → i < 8 * (count - 4) → slice_index result i ≡ slot_byte (slice_index words.now) i }
{
    let mut bytes = [0; 480];
    for k in 0..count - 4 {
        bytes[8 * k..8 * k + 8].copy_from_slice(&words[4 + k].to_le_bytes());
    }
    bytes
}

// The bytes of the row words of a slot of one line.
#[inline(always)]
pub fn line_bytes(words: &[u64; 8]) -> [u8; 32]
    ensures size { length result ≡ 32 }
    ensures bytes { (i : ℕ) → i < 32 → slice_index result i ≡ slot_byte (slice_index words.now) i }
{
    let mut bytes = [0; 32];
    for k in 0..4 {
        bytes[8 * k..8 * k + 8].copy_from_slice(&words[4 + k].to_le_bytes());
    }
    bytes
}

// Whether the row words of a slot of which `count` words count have only 0 bytes from byte `size` on.
#[inline(always)]
pub fn is_padded(words: &[u64], size: usize, count: usize) -> bool
    requires few { (4 ≤ count) × (count ≤ length words.now) }
    requires row { size ≤ 8 * (count - 4) }
    ensures { IsTrue result ↔ ((i : ℕ) → size ≤ i → i < 8 * (count - 4) → slot_byte (slice_index words.now) i ≡ 0) }
{
    let last = 4 + size / 8;
    if last == count {
        return true;
    }
    words[last] >> (8 * (size % 8)) == 0 && are_zero(&words[last + 1..count])
}

fn are_zero(words: &[u64]) -> bool
    ensures { IsTrue result ↔ EachIndex words.now (λ k. slice_index words.now k ≡ 0) }
{
    words.iter().all(|word| *word == 0)
}

// A slot's word of the table, the row's length and the link.
pub fn header(table: u16, length: usize, link: u64) -> u64
    requires length { length < 2 ^ 16 }
    requires link { link < 2 ^ 32 }
    ensures { result ≡ table + 2 ^ 16 * length + 2 ^ 32 * link }
{
    u64::from(table) + ((length as u64) << 16) + (link << 32)
}

// The number that stands for the previous slot.
pub fn link_of(previous: Option<u64>) -> u64
    requires { link_number previous < 2 ^ 32 }
    ensures { result ≡ link_number previous }
{
    match previous {
        Some(slot) => slot + 1,
        None => 0,
    }
}

// The previous slot that the number stands for.
pub fn previous_of(link: u64) -> Option<u64>
    ensures { link_number result ≡ link }
{
    link.checked_sub(1)
}
