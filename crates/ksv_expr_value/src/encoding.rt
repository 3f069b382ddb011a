//! The encodings of texts.
ghost use Rattle.std.specs.Prelude.{◌≡◌, ◌<◌, IfOk, IsTrue, nat_lt};
ghost use Rattle.std.specs.List.{list_all};
ghost use Rattle.std.specs.Str.{is_utf8};
ghost use Rattle.ksv_expr_value.specs.Bytes.{content};
ghost use Rattle.ksv_expr_value.specs.Encodings.{encoding_named, decoded};

use crate::parts::Parts;
use crate::text::Text;
use std::alloc::{AllocError, Global};

/// An encoding of texts.
#[derive(Clone, Copy, PartialEq, Eq, Debug)]
pub enum Encoding {
    /// Bytes below 128, each a character.
    Ascii,
    /// UTF-8.
    Utf8,
}

impl Encoding {
    /// The encoding of this name, in any letter case.
    pub fn named(name: &[u8]) -> Option<Encoding>
        ensures { result ≡ encoding_named name.now }
    {
        if name.eq_ignore_ascii_case(b"ASCII") {
            Some(Encoding::Ascii)
        } else if name.eq_ignore_ascii_case(b"UTF-8") {
            Some(Encoding::Utf8)
        } else {
            None
        }
    }

    /// The text that these bytes spell, if they spell one.
    pub fn decode(self, alloc: Global, parts: Parts) -> Result<Option<Text>, AllocError>
        ensures { IfOk result (λ text. text ≡ decoded self (content parts.entry)) }
    {
        let mut bytes = Vec::with_capacity(alloc, parts.front.len())?;
        bytes.extend_from_slice(parts.front)?;
        bytes.extend_from_slice(parts.back)?;
        match self {
            Encoding::Ascii => ascii(alloc, bytes),
            Encoding::Utf8 => utf8(alloc, bytes),
        }
    }
}

#[tactic(auto, using(crate::proofs::Encodings::ascii_is_text, crate::proofs::Encodings::ascii_is_no_text))]
fn ascii(alloc: Global, bytes: Vec<u8>) -> Result<Option<Text>, AllocError>
    ensures { IfOk result (λ text. text ≡ decoded Encoding.Ascii bytes.items) }
{
    if bytes.is_ascii() {
        utf8(alloc, bytes)
    } else {
        Ok(None)
    }
}

fn utf8(alloc: Global, bytes: Vec<u8>) -> Result<Option<Text>, AllocError>
    ensures { IfOk result (λ text. text ≡ decoded Encoding.Utf8 bytes.items) }
{
    match String::from_utf8(bytes) {
        Ok(string) => Ok(Some(Text::new(alloc, string)?)),
        Err(_) => Ok(None),
    }
}
