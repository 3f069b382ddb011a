//! Scalars and flow nodes, which begin on a line and may go on over others.

ghost use Rattle.std.specs.Prelude.{◌≡◌, ◌≤◌, ◌∷◌, [], true, false, length, IfOk, IfErr, MatchOption};
ghost use Rattle.ksv_yaml.specs.Reading.{weight};
ghost use Rattle.ksv_yaml.specs.Code.{GivesInline, wants_memory};
ghost use Rattle.ksv_yaml_scan.specs.Starts.{Refused, Flowing, start_of};
ghost use Rattle.ksv_yaml_scan.specs.Views.{line_view, lines_view, kind_view, start_view, StartsWithin};

use crate::block::{Open, misplaced_in};
use crate::fault::{ReadFault, ReadKind, at_line, kind_of, no_memory};
use crate::flow::{flow_node, left_over};
use crate::make::make_text;
use ksv_yaml_scan::block::block_scalar;
use ksv_yaml_scan::fault::ScanError;
use ksv_yaml_scan::flow::flow_parts;
use ksv_yaml_scan::line::Line;
use ksv_yaml_scan::plain::continue_plain;
use ksv_yaml_scan::quiet::{block_lines, flow_lines, skip_quiet};
use ksv_yaml_scan::start::{InlineKind, Start, read_start};
use ksv_yaml_tree::Yaml;
use std::alloc::Global;

/// What begins on a line, or in the middle of one, with this content.
pub(crate) fn start_at(alloc: Global, line: usize, content: &[u8]) -> Result<Start<'_>, ReadFault>
    ensures ok { IfOk result (λ s. start_of content.now ≡ start_view s) }
    ensures within { IfOk result (λ s. StartsWithin (length content.now) s) }
    ensures err { IfErr result (λ e. wants_memory e.kind ≡ false → start_of content.now ≡ Refused) }
{
    match read_start(alloc, content) {
        Ok(start) => Ok(start),
        Err(ScanError::Fault(fault)) => Err(ReadFault {
            line,
            kind: kind_of(fault),
        }),
        Err(ScanError::NoMemory) => Err(no_memory()),
    }
}

/// The scalar or flow node of this kind that begins on a line, and the lines after it and the quiet ones that
/// follow.
///
/// It continues on lines none of which is before the column `floor`, with at most `depth` nested flow nodes.
#[inline(always)]
pub(crate) fn scalar<'a, 'b>(
    alloc: Global,
    depth: u32,
    floor: usize,
    kind: InlineKind,
    first: Line<'a>,
    rest: &'b [Line<'a>],
    open: Option<&Open>,
) -> Result<(Yaml, &'b [Line<'a>]), ReadFault>
    ensures read { GivesInline depth floor (kind_view kind) (line_view first.entry) (lines_view rest.now) result }
{
    match kind {
        InlineKind::Plain { text, commented } => {
            let (text, left) = continue_plain(alloc, text, commented, floor, rest)?;
            Ok((make_text(first.number, false, text), left))
        }
        InlineKind::Quoted { text } => Ok((make_text(first.number, true, text), skip_quiet(rest))),
        InlineKind::Block { folded, keep } => {
            let (lines, behind) = block_lines(rest, floor);
            let text = block_scalar(alloc, folded, keep, lines)?;
            Ok((make_text(first.number, false, text), skip_quiet(behind)))
        }
        InlineKind::Flow => flow(alloc, depth, floor, first, rest, open),
    }
}

/// The flow node that begins on a line, and the lines after it and the quiet ones that follow.
fn flow<'a, 'b>(
    alloc: Global,
    depth: u32,
    floor: usize,
    first: Line<'a>,
    rest: &'b [Line<'a>],
    open: Option<&Open>,
) -> Result<(Yaml, &'b [Line<'a>]), ReadFault>
    ensures read { GivesInline depth floor Flowing (line_view first.entry) (lines_view rest.now) result }
{
    let (lines, behind) = flow_lines(rest, floor);
    let parts = flow_parts(alloc, first, lines)?;
    let end = match parts.fault {
        Some(fault) => at_line(fault),
        None => not_closed(first, lines, behind),
    };
    let (tree, left) = match flow_node(alloc, depth, &parts.tokens, end) {
        Ok(found) => found,
        Err(fault) => return Err(named(alloc, fault, behind, open)),
    };
    if parts.fault.is_some() {
        return Err(left_over(alloc, &parts.tokens, left, end, lines));
    }
    if !left.is_empty() {
        return Err(left_over(alloc, &parts.tokens, left, end, lines));
    }
    Ok((tree, behind))
}

/// The fault of a flow node that ends with these lines before it is closed: it is on the next line, or at the end
/// of the text.
fn not_closed(first: Line, lines: &[Line], behind: &[Line]) -> ReadFault {
    let line = match behind.first() {
        Some(next) => next.number,
        None => match lines.last() {
            Some(last) => last.number,
            None => first.number,
        },
    };
    ReadFault {
        line,
        kind: ReadKind::NotClosed,
    }
}

/// The fault of a flow node, with its kind if the node was cut short by a line that isn't deep enough.
fn named(alloc: Global, fault: ReadFault, behind: &[Line], open: Option<&Open>) -> ReadFault
    ensures { wants_memory fault.kind ≡ true → wants_memory result.kind ≡ true }
{
    match behind.first() {
        Some(next) => {
            if fault.kind == ReadKind::NotClosed && fault.line == next.number {
                misplaced_in(alloc, *next, open)
            } else {
                fault
            }
        }
        None => fault,
    }
}
