//! The bytes of a file, as tables write them.

use std::alloc::{AllocError, Global};

/// The bytes of words, each some hexadecimal digits, or `N*HEX` for N times these. There are none if a word is
/// anything else.
pub(crate) fn bytes_of(alloc: Global, words: &str) -> Result<Option<Vec<u8>>, AllocError> {
    let mut bytes = Vec::new(alloc);
    for word in words.split(' ') {
        if !add_word(alloc, &mut bytes, word)? {
            return Ok(None);
        }
    }
    Ok(Some(bytes))
}

/// Adds the bytes of a word; whether it has some.
fn add_word(alloc: Global, bytes: &mut Vec<u8>, word: &str) -> Result<bool, AllocError> {
    let (count, digits) = word.split_once('*').unwrap_or(("1", word));
    let (Ok(count), Ok(more)) = (count.parse::<u32>(), hex::decode(alloc, digits.as_bytes())) else {
        return Ok(false);
    };
    for _ in 0..count {
        bytes.extend_from_slice(more.as_slice())?;
    }
    Ok(true)
}
