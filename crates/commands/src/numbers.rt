use anyhow::{Error, bail};
use base::key::Key;

/// The key that two words of a command spell.
pub fn parse_key(command: &str, table: &str, key: &str) -> Result<Key, Error> {
    Ok(Key {
        table: parse_table(command, table)?,
        key: parse_number(command, "KEY", key)?,
    })
}

/// A table's number.
pub fn parse_table(command: &str, word: &str) -> Result<u16, Error> {
    match u16::try_from(parse_number(command, "TABLE", word)?) {
        Ok(table) => Ok(table),
        Err(_) => bail!("{command}: TABLE {word} is greater than {}", u16::MAX),
    }
}

/// A number, which the messages of the command call by this name.
pub fn parse_number(command: &str, name: &str, word: &str) -> Result<u64, Error> {
    match word.parse::<u64>() {
        Ok(number) => Ok(number),
        Err(_) if is_decimal(word) => bail!(
            "{command}: {name} {word} is greater than {}",
            u64::MAX
        ),
        Err(_) => bail!("{command}: {name} {word:?} is not a number"),
    }
}

fn is_decimal(word: &str) -> bool {
    !word.is_empty() && word.bytes().all(|byte| byte.is_ascii_digit())
}
