ghost use Rattle.std.specs.Prelude.{◌≡◌, ◌⊎◌, ◌↔◌, IfOk, IfErr, length, true, false};
ghost use Rattle.command_line.specs.ImageFile.{HoldsWords, IsFileOf, is_image_length};
ghost use Rattle.base.specs.declared.fault.Fault.TheVariants.{BadGeometry, OutOfMemory};

use base::fault::Fault;
use byteorder::{ByteOrder, LittleEndian};
use std::alloc::{AllocError, Global};

/// The bytes of the longest image.
pub const MOST_FILE_BYTES: usize = 8_589_951_040;

const WORD_BYTES: usize = 8;

/// The words of a file, which holds them in order, 8 bytes each, the lowest byte first.
pub fn words_of_file(alloc: Global, file: &[u8]) -> Result<Vec<u64>, Fault>
    ensures ok { IfOk result (λ words. HoldsWords file.now words.items) }
    ensures length { IfOk result (λ _. is_image_length (length file.now) ≡ true) }

    // BadGeometry exactly if the length isn't a multiple of 8 or is over 8,589,951,040, and otherwise OutOfMemory.
    ensures fault { IfErr result (λ fault. (fault ≡ OutOfMemory) ⊎ (fault ≡ BadGeometry)) }
    ensures geometry { result ≡ Err BadGeometry ↔ (is_image_length (length file.now) ≡ false) }
{
    if file.len() % WORD_BYTES != 0 || file.len() > MOST_FILE_BYTES {
        return Err(Fault::BadGeometry);
    }
    let Ok(mut words) = Vec::from_elem(alloc, 0, file.len() / WORD_BYTES) else {
        return Err(Fault::OutOfMemory);
    };
    LittleEndian::read_u64_into(file, words.as_mut_slice());
    Ok(words)
}

/// The bytes of a file that holds these words, which is read back as them. If they are more than memory can hold, they are
/// refused for lack of memory.
pub fn file_of_words(alloc: Global, words: &[u64]) -> Result<Vec<u8>, AllocError>
    ensures { IfOk result (λ file. IsFileOf words.now file.items) }
{
    let Some(size) = words.len().checked_mul(WORD_BYTES) else {
        return Err(AllocError);
    };
    let mut file = Vec::from_elem(alloc, 0, size)?;
    LittleEndian::write_u64_into(words, file.as_mut_slice());
    Ok(file)
}
