//! The bytes that a row spells.

use std::alloc::{AllocError, Global};

/// The bytes of a text in which `{HEX}` means these bytes, and `{N*TEXT}` N times this text.
pub(crate) fn spelled(alloc: Global, text: &str) -> Result<Vec<u8>, AllocError> {
    let mut bytes = Vec::new(alloc);
    for (before, piece) in text.split('{').enumerate() {
        match piece.split_once('}') {
            Some((told, rest)) if before > 0 => {
                add_told(alloc, &mut bytes, told)?;
                bytes.extend_from_slice(rest.as_bytes())?;
            }
            _ => bytes.extend_from_slice(piece.as_bytes())?,
        }
    }
    Ok(bytes)
}

/// Adds the bytes that are between braces.
fn add_told(alloc: Global, bytes: &mut Vec<u8>, told: &str) -> Result<(), AllocError> {
    match told.split_once('*') {
        Some((count, text)) => {
            for _ in 0..count.parse().unwrap_or(0u32) {
                bytes.extend_from_slice(text.as_bytes())?;
            }
        }
        None => {
            if let Ok(more) = hex::decode(alloc, told.as_bytes()) {
                bytes.extend_from_slice(more.as_slice())?;
            }
        }
    }
    Ok(())
}
