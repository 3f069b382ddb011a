//! A question of a table: a verb, perhaps with a word after a colon, and the text that is asked about.

use crate::bytes::bytes_of;
use bstr::ByteVec;
use std::alloc::{AllocError, Global};

/// A question `VERB:WORD TEXT`.
#[derive(Clone, Copy)]
pub(crate) struct Question<'a> {
    pub(crate) verb: &'a str,
    /// The word after the colon, if there is one.
    pub(crate) word: &'a str,
    pub(crate) text: &'a str,
}

/// The question that a line asks.
pub(crate) fn question_of(line: &str) -> Question<'_> {
    let (asked, text) = line.split_once(' ').unwrap_or((line, ""));
    let (verb, word) = asked.split_once(':').unwrap_or((asked, ""));
    Question { verb, word, text }
}

impl<'a> Question<'a> {
    /// The number after the colon.
    pub(crate) fn number(self) -> usize {
        self.word.parse().unwrap_or(0usize)
    }

    /// The bytes of the text, in which `\n`, `\t`, `\x1b` and the like are escapes; after `hex` those of its words,
    /// if each is some digits.
    pub(crate) fn bytes(self, alloc: Global) -> Result<Option<Vec<u8>>, AllocError> {
        if self.word == "hex" {
            return bytes_of(alloc, self.text);
        }
        Ok(Some(Vec::unescape_bytes(alloc, self.text)?))
    }
}
