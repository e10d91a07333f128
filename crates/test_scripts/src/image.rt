use anyhow::Error;
use command_line::image_file::{file_of_words, words_of_file};
use std::alloc::Global;

/// Prints this many words of the image, from this one on, in one line.
pub fn print_words<H: Print>(
    rt: &H,
    alloc: Global,
    file: &[u8],
    first: &str,
    count: &str,
) -> Result<(), Error> {
    let words = words_of_file(alloc, file)?;
    let first = first.parse::<usize>()?;
    let count = count.parse::<usize>()?;
    for (at, word) in words.iter().skip(first).take(count).enumerate() {
        let space = if at == 0 { "" } else { " " };
        print!(rt; "{space}{word}")?;
    }
    println!(rt; "")?;
    Ok(())
}

/// Prints this many bytes of the file, from this one on, in one line, each as two hexadecimal digits.
pub fn print_bytes<H: Print>(rt: &H, file: &[u8], first: &str, count: &str) -> Result<(), Error> {
    let first = first.parse::<usize>()?;
    let count = count.parse::<usize>()?;
    for byte in file.iter().skip(first).take(count) {
        print!(rt; "{byte:02x}")?;
    }
    println!(rt; "")?;
    Ok(())
}

/// Changes words of the image: each change is a word and its new value.
pub fn set_words(alloc: Global, file: &mut Vec<u8>, changes: &[&str]) -> Result<(), Error> {
    let mut words = words_of_file(alloc, file.as_slice())?;
    for change in changes.chunks_exact(2) {
        if let [word, value] = change
            && let Some(word) = words.get_mut(word.parse::<usize>()?)
        {
            *word = value.parse::<u64>()?;
        }
    }
    *file = file_of_words(alloc, words.as_slice())?;
    Ok(())
}
