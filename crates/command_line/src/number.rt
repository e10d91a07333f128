ghost use Rattle.std.specs.Prelude.{◌≡◌, ◌^◌};
ghost use Rattle.command_line.specs.Numbers.{number_below};

const MOST_DIGITS: usize = 20;

/// Exactly the number that 1 to 20 decimal digits write, if it fits in 64 bits.
pub fn number(word: &[u8]) -> Option<u64>
    ensures { result ≡ number_below (2 ^ 64) word.now }
{
    if word.is_empty() || word.len() > MOST_DIGITS {
        return None;
    }
    let mut value: u64 = 0;
    for digit in word {
        if !digit.is_ascii_digit() {
            return None;
        }
        value = value
            .checked_mul(10)?
            .checked_add(u64::from(*digit - b'0'))?;
    }
    Some(value)
}

/// A number that fits in 8 bits, as a session has.
pub fn small_number(word: &[u8]) -> Option<u8>
    ensures { result ≡ number_below (2 ^ 8) word.now }
{
    u8::try_from(number(word)?).ok()
}

/// A number that fits in 16 bits, as a table has.
pub fn middle_number(word: &[u8]) -> Option<u16>
    ensures { result ≡ number_below (2 ^ 16) word.now }
{
    u16::try_from(number(word)?).ok()
}
