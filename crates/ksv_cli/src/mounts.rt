//! The files and folders over which something is mounted. Nothing takes their names.

use std::alloc::{AllocError, Global};
use std::fs::File;
use std::io::{self, Read};

/// Where the system lists them, a line for each, whose fifth word is its path.
const TABLE: &str = "/proc/self/mountinfo";

/// How many bytes of the list are read.
const TABLE_LIMIT: u64 = 1 << 24;

/// A path as the list has it.
fn listed(alloc: Global, path: &str) -> Result<String, AllocError> {
    let mut text = String::new(alloc);
    for letter in path.chars() {
        match letter {
            ' ' => text.push_str("\\040")?,
            '\t' => text.push_str("\\011")?,
            '\n' => text.push_str("\\012")?,
            '\\' => text.push_str("\\134")?,
            _ => text.push(letter)?,
        }
    }
    Ok(text)
}

/// Whether a line of the list is that of a path.
fn is_of(line: &[u8], path: &[u8]) -> bool {
    line.split(|byte| *byte == b' ').nth(4) == Some(path)
}

/// Whether something is mounted over a path without links. Where there is no list, nothing is known to be.
pub(crate) fn is_mounted(rt: &HostRuntime, path: &str) -> io::Result<bool> {
    let Ok(table) = File::open(rt, TABLE) else {
        return Ok(false);
    };
    let mut bytes = Vec::new(rt.alloc());
    table.take(TABLE_LIMIT).read_to_end(&mut bytes)?;
    let path = listed(rt.alloc(), path)?;
    let mut lines = bytes.as_slice().split(|byte| *byte == b'\n');
    Ok(lines.any(|line| is_of(line, path.as_bytes())))
}
