//! Reads blocks from front to back.

ghost use Rattle.std.specs.Prelude.{◌≡◌, ◌+◌, ◌≤◌, ◌<◌, [], ◌∷◌, true, false, length, IfOk, IfErr, MatchOption};
ghost use Rattle.ksv_yaml.specs.Reading.{weight};
ghost use Rattle.ksv_yaml.specs.Code.{GivesHere, GivesNode, GivesEntries, GivesItems, GivesValue, GivesItem, wants_memory};
ghost use Rattle.ksv_yaml_scan.specs.Lines.{loud};
ghost use Rattle.ksv_yaml_scan.specs.Starts.{Dash, Key, start_of, is_dash as is_dash_start, is_key};
ghost use Rattle.ksv_yaml_scan.specs.Views.{line_view, lines_view};

use crate::block::{Open, misplaced};
use crate::fault::{ReadFault, ReadKind};
use crate::flow::too_deep;
use crate::keys::{add_key, no_keys};
use crate::make::{make_entry, make_list, make_mapping, make_text};
use crate::scalar::{scalar, start_at};
use ksv_yaml_scan::line::Line;
use ksv_yaml_scan::quiet::skip_quiet;
use ksv_yaml_scan::start::{Start, is_dash};
use ksv_yaml_tree::{Entry, Yaml};
use std::alloc::Global;

/// The position of a loop: a line, and those after it.
#[derive(Clone, Copy)]
struct Place<'a, 'b> {
    line: Line<'a>,
    rest: &'b [Line<'a>],
}

/// The first line, and those after it.
pub(crate) fn next<'a, 'b>(lines: &'b [Line<'a>]) -> Option<(Line<'a>, &'b [Line<'a>])>
    ensures { MatchOption result (lines.now ≡ []) (λ x. lines.now ≡ x.0 ∷ x.1.now) }
{
    match lines {
        [] => None,
        [first, rest @ ..] => Some((*first, rest)),
    }
}

/// The lines after the quiet ones at the front; their weight is not greater.
fn skip<'a, 'b>(lines: &'b [Line<'a>]) -> &'b [Line<'a>]
    ensures value { lines_view result.now ≡ loud (lines_view lines.now) }
    ensures shorter { weight (lines_view result.now) ≤ weight (lines_view lines.now) }
{
    skip_quiet(lines)
}

/// The key that begins on a line of a mapping, and what comes after it.
fn read_key<'a>(alloc: Global, line: Line<'a>) -> Result<(Vec<u8>, &'a [u8]), ReadFault>
    ensures ok { IfOk result (λ x. start_of line.entry.content.now ≡ Key x.0.items x.1.now) }
    ensures within { IfOk result (λ x. length x.1.now < length line.entry.content.now) }
    ensures err { IfErr result (λ e. wants_memory e.kind ≡ false → is_key (start_of line.entry.content.now) ≡ false) }
{
    match start_at(alloc, line.number, line.content) {
        Ok(Start::Key { key, behind }) => Ok((key, behind)),
        Ok(_) => Err(misplaced(alloc, line, ReadKind::ValueForKey)),
        Err(fault) => Err(no_entry(fault)),
    }
}

/// The fault of a line of a mapping on which nothing of the subset begins.
fn no_entry(fault: ReadFault) -> ReadFault
    ensures { wants_memory fault.kind ≡ true → wants_memory result.kind ≡ true }
{
    match fault.kind {
        ReadKind::LeftOut => ReadFault {
            line: fault.line,
            kind: ReadKind::ValueForKey,
        },
        _ => fault,
    }
}

/// What comes after the dash on a line of a sequence: how many columns further, whether a tab is between them, and
/// the bytes.
fn read_dash<'a>(alloc: Global, line: Line<'a>) -> Result<(usize, bool, &'a [u8]), ReadFault>
    ensures ok { IfOk result (λ x. start_of line.entry.content.now ≡ Dash (record { columns = x.0; tab = x.1; behind = x.2.now })) }
    ensures within { IfOk result (λ x. (0 < x.0) × (x.0 + length x.2.now ≤ length line.entry.content.now)) }
    ensures err { IfErr result (λ e. wants_memory e.kind ≡ false → is_dash_start (start_of line.entry.content.now) ≡ false) }
{
    match start_at(alloc, line.number, line.content)? {
        Start::Dash {
            columns,
            tab,
            behind,
        } => Ok((columns, tab, behind)),
        _ => Err(misplaced(alloc, line, ReadKind::ValueForKey)),
    }
}

/// The scalar or flow node after a key, or after a dash and a tab, on the line of its entry.
fn value_here<'a, 'b>(
    alloc: Global,
    depth: u32,
    line: Line<'a>,
    behind: &'a [u8],
    rest: &'b [Line<'a>],
    open: Option<&Open>,
) -> Result<(Yaml, &'b [Line<'a>]), ReadFault>
    requires { length behind.now ≤ length line.content.now }
    ensures read { GivesHere depth (line_view line.entry) behind.now (lines_view rest.now) result }
    ensures shorter { IfOk result (λ x. weight (lines_view x.1.now) ≤ weight (lines_view rest.now)) }
{
    match start_at(alloc, line.number, behind)? {
        Start::Inline(kind) => {
            let first = Line {
                number: line.number,
                indent: line.indent,
                content: behind,
                ended: line.ended,
            };
            scalar(alloc, depth, line.indent + 1, kind, first, rest, open)
        }
        Start::Key { .. } => Err(no_value(line, behind, ReadKind::ValueForKey)),
        _ => Err(no_value(line, behind, ReadKind::LeftOut)),
    }
}

/// The fault of an entry or item where a value should be. A quoted key is no plain scalar with a colon inside;
/// after a dash it is the tab that forbids it.
fn no_value(line: Line, behind: &[u8], kind: ReadKind) -> ReadFault {
    let kind = if is_dash(line.content) {
        ReadKind::Tab
    } else if matches!(behind.first(), Some(b'"' | b'\'')) {
        ReadKind::LeftOut
    } else {
        kind
    };
    ReadFault {
        line: line.number,
        kind,
    }
}

/// The node that begins on a line, none of whose lines is before the column `floor`, and the lines after it and the
/// quiet ones that follow; at most `depth` nested nodes.
#[cycle(reader)]
pub(crate) fn node<'a, 'b>(
    alloc: Global,
    depth: u32,
    floor: usize,
    first: Line<'a>,
    rest: &'b [Line<'a>],
    open: Option<&Open>,
) -> Result<(Yaml, &'b [Line<'a>]), ReadFault>
    ensures read { GivesNode depth floor (line_view first.entry) (lines_view rest.now) result }
    ensures shorter { IfOk result (λ x. weight (lines_view x.1.now) ≤ weight (lines_view rest.now)) }
{
    match start_at(alloc, first.number, first.content)? {
        Start::Dash { .. } => {
            if depth == 0 {
                return Err(too_deep(first.number));
            }
            let (items, left) = sequence(alloc, depth - 1, first, rest, open)?;
            if let Some((line, _)) = next(left) {
                if line.indent >= first.indent {
                    return Err(misplaced(alloc, line, ReadKind::ValueForKey));
                }
            }
            Ok((make_list(first.number, items), left))
        }
        Start::Key { .. } => {
            if depth == 0 {
                return Err(too_deep(first.number));
            }
            let (entries, left) = mapping(alloc, depth - 1, first, rest, open)?;
            Ok((make_mapping(first.number, entries), left))
        }
        Start::Inline(kind) => scalar(alloc, depth, floor, kind, first, rest, open),
        Start::Nothing => Err(misplaced(alloc, first, ReadKind::LeftOut)),
    }
}

/// The entries of a mapping from this line on.
#[cycle(reader)]
fn mapping<'a, 'b>(
    alloc: Global,
    depth: u32,
    first: Line<'a>,
    rest: &'b [Line<'a>],
    open: Option<&Open>,
) -> Result<(Vec<Entry>, &'b [Line<'a>]), ReadFault>
    ensures read { GivesEntries depth (line_view first.entry) (lines_view rest.now) result }
    ensures shorter { IfOk result (λ x. weight (lines_view x.1.now) ≤ weight (lines_view rest.now)) }
{
    let inner = Open {
        column: first.indent,
        is_mapping: true,
        around: open,
    };
    let mut keys = no_keys(alloc);
    let mut entries = Vec::new(alloc);
    let mut at = Place { line: first, rest };
    'entries: loop {
        let Place { line, rest: others } = at;
        let (key, behind) = read_key(alloc, line)?;
        let fresh = add_key(alloc, &mut keys, &key)?;
        if !fresh {
            return Err(ReadFault {
                line: line.number,
                kind: ReadKind::KeyTwice,
            });
        }
        let (value, left) = value(alloc, depth, line, behind, others, Some(&inner))?;
        entries.push(make_entry(line.number, key, value))?;
        let Some((next, after)) = next(left) else {
            return Ok((entries, left));
        };
        if next.indent < first.indent {
            return Ok((entries, left));
        }
        if next.indent > first.indent {
            return Err(misplaced(alloc, next, ReadKind::Indentation));
        }
        at = Place {
            line: next,
            rest: after,
        };
    }
}

/// What comes after a key, on its line and below it.
#[cycle(reader)]
fn value<'a, 'b>(
    alloc: Global,
    depth: u32,
    line: Line<'a>,
    behind: &'a [u8],
    rest: &'b [Line<'a>],
    open: Option<&Open>,
) -> Result<(Yaml, &'b [Line<'a>]), ReadFault>
    requires { length behind.now < length line.content.now }
    ensures read { GivesValue depth (line_view line.entry) behind.now (lines_view rest.now) result }
    ensures shorter { IfOk result (λ x. weight (lines_view x.1.now) ≤ weight (lines_view rest.now)) }
{
    if !behind.is_empty() {
        return value_here(alloc, depth, line, behind, rest, open);
    }
    let below = skip(rest);
    let Some((first, others)) = next(below) else {
        return Ok((make_text(line.number, false, Vec::new(alloc)), below));
    };
    if first.indent > line.indent {
        return node(alloc, depth, line.indent + 1, first, others, open);
    }
    if first.indent < line.indent {
        return Ok((make_text(line.number, false, Vec::new(alloc)), below));
    }
    if !is_dash(first.content) {
        return Ok((make_text(line.number, false, Vec::new(alloc)), below));
    }
    if depth == 0 {
        return Err(too_deep(first.number));
    }
    let (items, left) = sequence(alloc, depth - 1, first, others, open)?;
    Ok((make_list(first.number, items), left))
}

/// The items of a sequence from this line on.
#[cycle(reader)]
fn sequence<'a, 'b>(
    alloc: Global,
    depth: u32,
    first: Line<'a>,
    rest: &'b [Line<'a>],
    open: Option<&Open>,
) -> Result<(Vec<Yaml>, &'b [Line<'a>]), ReadFault>
    ensures read { GivesItems depth (line_view first.entry) (lines_view rest.now) result }
    ensures shorter { IfOk result (λ x. weight (lines_view x.1.now) ≤ weight (lines_view rest.now)) }
{
    let inner = Open {
        column: first.indent,
        is_mapping: false,
        around: open,
    };
    let mut items = Vec::new(alloc);
    let mut at = Place { line: first, rest };
    'items: loop {
        let Place { line, rest: others } = at;
        let (columns, tab, behind) = read_dash(alloc, line)?;
        let (value, left) = item(
            alloc,
            depth,
            line,
            columns,
            tab,
            behind,
            others,
            Some(&inner),
        )?;
        items.push(value)?;
        let Some((next, after)) = next(left) else {
            return Ok((items, left));
        };
        if next.indent < first.indent {
            return Ok((items, left));
        }
        if next.indent > first.indent {
            return Err(misplaced(alloc, next, ReadKind::Indentation));
        }
        if !is_dash(next.content) {
            return Ok((items, left));
        }
        at = Place {
            line: next,
            rest: after,
        };
    }
}

/// What comes after a dash, on its line and below it, as if the dash were a space.
#[cycle(reader)]
fn item<'a, 'b>(
    alloc: Global,
    depth: u32,
    line: Line<'a>,
    columns: usize,
    tab: bool,
    behind: &'a [u8],
    rest: &'b [Line<'a>],
    open: Option<&Open>,
) -> Result<(Yaml, &'b [Line<'a>]), ReadFault>
    requires { columns + length behind.now ≤ length line.content.now }
    ensures read { GivesItem depth (line_view line.entry) columns tab behind.now (lines_view rest.now) result }
    ensures shorter { IfOk result (λ x. weight (lines_view x.1.now) ≤ weight (lines_view rest.now)) }
{
    if behind.is_empty() {
        let below = skip(rest);
        let Some((first, others)) = next(below) else {
            return Ok((make_text(line.number, false, Vec::new(alloc)), below));
        };
        if first.indent > line.indent {
            return node(alloc, depth, line.indent + 1, first, others, open);
        }
        return Ok((make_text(line.number, false, Vec::new(alloc)), below));
    }
    if tab {
        return value_here(alloc, depth, line, behind, rest, open);
    }
    let first = Line {
        number: line.number,
        indent: line.indent + columns,
        content: behind,
        ended: line.ended,
    };
    node(alloc, depth, line.indent + 1, first, rest, open)
}
