//! Ids with `::` between them, such as the path of an enum.

ghost use Rattle.std.specs.Prelude.{◌≡◌, IfOk, Some, None, if◌then◌else◌, drop, option_map, string_bytes};
ghost use Rattle.ksv_schema.specs.Keys.{is_id};
ghost use Rattle.ksv_schema.specs.KeyTexts.{ids_of};
ghost use Rattle.ksv_schema.specs.KeyCode.{seen_path, begins_with_colons, IsFirstName};

use crate::keys::forms::is_id;
use std::alloc::{AllocError, Global};

/// Whether `::` is at a place.
fn has_colons(text: &[u8], at: usize) -> bool
    ensures { result ≡ begins_with_colons (drop at text.now) }
{
    match text.get(at..) {
        Some([b':', b':', ..]) => true,
        _ => false,
    }
}

/// How many bytes come before the first `::`, or how many there are if there is none.
fn first_name(text: &[u8]) -> usize
    ensures { IsFirstName text.now result }
{
    for at in 0..text.len() {
        if has_colons(text, at) {
            return at;
        }
    }
    text.len()
}

/// A text that is an id.
fn id(alloc: Global, text: &[u8]) -> Result<Option<String>, AllocError>
    ensures { IfOk result (λ o. option_map string_bytes o ≡ (if is_id text.now then Some text.now else None)) }
{
    if !is_id(text) {
        return Ok(None);
    }
    match str::from_utf8(text) {
        Ok(text) => Ok(Some(String::from_str(alloc, text)?)),
        Err(_) => unreachable!(),
    }
}

/// The ids in a text with `::` between them.
pub(crate) fn ids_of(alloc: Global, text: &[u8]) -> Result<Option<Vec<String>>, AllocError>
    ensures { IfOk result (λ o. seen_path o ≡ ids_of text.now) }
{
    let mut names = Vec::new(alloc);
    let mut rest = text;
    'names: loop {
        let size = first_name(rest);
        match id(alloc, &rest[..size])? {
            Some(name) => names.push(name)?,
            None => return Ok(None),
        }
        if size == rest.len() {
            return Ok(Some(names));
        }
        rest = &rest[size + 2..];
    }
}
