ghost use Rattle.std.specs.Prelude.{◌≡◌, ℕ, ◌+◌, ◌*◌, ◌<◌, ◌≤◌, length, slice_index};

/// The eight words of the line at this place.
pub(crate) fn eight_at(words: &[u64], at: usize) -> [u64; 8]
    requires { 8 * at + 8 ≤ length words.now }
    ensures size { length result ≡ 8 }
    ensures each { (place : ℕ) → place < 8 → slice_index result place ≡ slice_index words.now (8 * at + place) }
{
    let mut eight = [0; 8];
    eight.copy_from_slice(&words[8 * at..8 * at + 8]);
    eight
}
