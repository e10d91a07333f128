ghost use Rattle.std.specs.Prelude.{◌≡◌, ◌%◌, ◌==◌, ◌&&◌, length, IfOk, IfErr, IsSome};
ghost use Rattle.std.specs.Char.{is_ascii_hexdigit, is_ascii_uppercase};
ghost use Rattle.std.specs.List.{list_all, list_any};
ghost use Rattle.command_line.specs.Rows.{IsNoRow, row_of, row_text};
ghost use Rattle.command_line.specs.declared.line.LineFault.TheVariants.{NotACommand, OutOfMemory};

use crate::line::LineFault;
use std::alloc::Global;

/// The bytes of a row, written as two lower case hex digits each, or as `-` if there are none.
pub fn row(alloc: Global, word: &[u8]) -> Result<Vec<u8>, LineFault>
    // These bytes have the word as their one spelling.
    ensures value { IfOk result (λ row. row_of word.now ≡ Some row.items) }
    ensures spelled { IfOk result (λ row. word.now ≡ row_text row.items) }

    // NotACommand only for a word that doesn't write a row.
    ensures refused { IfErr result (λ fault. fault ≡ NotACommand → row_of word.now ≡ None) }
    ensures unspelled { IfErr result (λ fault. fault ≡ NotACommand → IsNoRow word.now) }

    // OutOfMemory only for a word that writes one: bad digits need no memory.
    ensures memory { IfErr result (λ fault. fault ≡ OutOfMemory → IsSome (row_of word.now)) }
{
    decoded(alloc, word)
}

fn decoded(alloc: Global, word: &[u8]) -> Result<Vec<u8>, LineFault>
    ensures value { IfOk result (λ row. row_of word.now ≡ Some row.items) }
    ensures refused { IfErr result (λ fault. fault ≡ NotACommand → row_of word.now ≡ None) }
    ensures memory { IfErr result (λ fault. fault ≡ OutOfMemory → IsSome (row_of word.now)) }
{
    if word == b"-".as_slice() {
        return Ok(Vec::new(alloc));
    }
    if word.is_empty() || has_upper_case(word) || !is_hex(word) {
        return Err(LineFault::NotACommand);
    }
    match hex::decode(alloc, word) {
        Ok(bytes) => Ok(bytes),
        Err(_) => Err(LineFault::OutOfMemory),
    }
}

// Is it an even number of hex digits?
fn is_hex(word: &[u8]) -> bool
    ensures { result ≡ (length word.now % 2 == 0 && list_all is_ascii_hexdigit word.now) }
{
    word.len() % 2 == 0 && has_only_digits(word)
}

fn has_only_digits(word: &[u8]) -> bool
    ensures { result ≡ list_all is_ascii_hexdigit word.now }
{
    word.iter().all(|byte| byte.is_ascii_hexdigit())
}

fn has_upper_case(word: &[u8]) -> bool
    ensures { result ≡ list_any is_ascii_uppercase word.now }
{
    word.iter().any(|byte| byte.is_ascii_uppercase())
}
