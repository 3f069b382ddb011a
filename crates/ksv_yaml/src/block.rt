//! Blocks that are open, and lines that fit none of them.

use crate::fault::{ReadFault, ReadKind, kind_of, no_memory};
use ksv_yaml_scan::fault::{ScanError, ScanFault};
use ksv_yaml_scan::line::Line;
use ksv_yaml_scan::start::{Start, is_dash, read_start};
use std::alloc::{AllocError, Global};

/// A block that is open, with those around it.
#[derive(Clone, Copy)]
pub(crate) struct Open<'o> {
    pub(crate) column: usize,
    pub(crate) is_mapping: bool,
    pub(crate) around: Option<&'o Open<'o>>,
}

/// The fault of a line that isn't allowed here; a quote on it that isn't closed is reported first.
pub(crate) fn misplaced(alloc: Global, line: Line, kind: ReadKind) -> ReadFault {
    let kind = match read_start(alloc, line.content) {
        Err(ScanError::NoMemory) => return no_memory(),
        Err(ScanError::Fault(ScanFault::NotClosed)) => ReadKind::NotClosed,
        Err(ScanError::Fault(_)) => kind,
        Ok(_) => kind,
    };
    ReadFault {
        line: line.number,
        kind,
    }
}

/// The fault of a line that isn't deep enough for the flow node that it is in.
pub(crate) fn misplaced_in(alloc: Global, line: Line, open: Option<&Open>) -> ReadFault {
    let mut kind = ReadKind::Indentation;
    let mut at = open;
    while let Some(block) = at {
        if block.column == line.indent && kind != ReadKind::LeftOut {
            kind = match begins_entry(alloc, line, block.is_mapping) {
                Ok(true) => ReadKind::LeftOut,
                Ok(false) => ReadKind::ValueForKey,
                Err(_) => return no_memory(),
            };
        }
        at = block.around;
    }
    misplaced(alloc, line, kind)
}

/// Whether an entry of a mapping, or else an item of a sequence, begins on the line.
fn begins_entry(alloc: Global, line: Line, of_mapping: bool) -> Result<bool, AllocError> {
    if !of_mapping {
        return Ok(is_dash(line.content));
    }
    match read_start(alloc, line.content) {
        Ok(start) => Ok(matches!(start, Start::Key { .. })),
        Err(ScanError::Fault(_)) => Ok(false),
        Err(ScanError::NoMemory) => Err(AllocError),
    }
}
