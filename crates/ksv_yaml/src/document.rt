//! Reads whole texts.

ghost use Rattle.std.specs.Prelude.{◌≡◌, ◌<◌, ◌≤◌, ℕ, List, max, length, true, false, Some, None, IfOk, IfErr};
ghost use Rattle.ksv_yaml_tree.specs.Tree.{Tree};
ghost use Rattle.ksv_yaml_tree.specs.View.{view};
ghost use Rattle.ksv_yaml.specs.Code.{wants_memory, names_memory, IsOfLines};
ghost use Rattle.ksv_yaml.specs.Faults.{Refuses, IsTreeOrNoMemory};
ghost use Rattle.ksv_yaml.specs.Grammar.{is_mark as is_mark_line};
ghost use Rattle.ksv_yaml.specs.Reading.{behind_mark, tree_of};
ghost use Rattle.ksv_yaml.specs.Text.{Spells};
ghost use Rattle.ksv_yaml_scan.specs.Lines.{loud};
ghost use Rattle.ksv_yaml_scan.specs.Views.{line_view, lines_view, RefusesText};

use crate::block::misplaced;
use crate::fault::{ReadFault, ReadKind, YamlFault, YamlKind, published};
use crate::reader::{next, node};
use ksv_yaml_scan::cut::{Text, cut};
use ksv_yaml_scan::fault::TextError;
use ksv_yaml_scan::line::Line;
use ksv_yaml_scan::quiet::{is_quiet, skip_quiet};
use ksv_yaml_tree::Yaml;
use std::alloc::Global;

/// How many mappings, sequences and flow nodes may be nested.
pub const MAX_DEPTH: u32 = 64;

/// The tree that a text spells.
///
/// A text of more than 1,048,576 bytes is Y2. A shorter one that isn't UTF-8 is Y1, on the line of its first bad
/// byte. For any other text without a tree the line is the first at which the text can no longer become valid,
/// whatever follows; if it only ends too early, its last line.
pub fn read(alloc: Global, text: &[u8]) -> Result<Yaml, YamlFault>
    ensures ok { IfOk result (λ tree. Spells text.now (view tree)) }
    ensures err { IfErr result (λ fault. Refuses text.now fault.kind fault.line) }
    ensures exact { (t : Tree) → Spells text.now t → IsTreeOrNoMemory t result }
{
    let Text { lines, stray } = match cut(alloc, text) {
        Ok(text) => text,
        Err(error) => return Err(of_text(error)),
    };
    match read_allowed(alloc, &lines, stray) {
        Ok(tree) => Ok(tree),
        Err(fault) => Err(on_a_line(fault, &lines)),
    }
}

/// The tree that lines spell; lines with a control character have none.
fn read_allowed(alloc: Global, lines: &[Line], stray: Option<usize>) -> Result<Yaml, ReadFault>
    ensures allowed { IfOk result (λ _. stray ≡ None) }
    ensures ok { IfOk result (λ tree. tree_of (lines_view lines.now) ≡ Some (view tree)) }
    ensures err { IfErr result (λ fault. wants_memory fault.kind ≡ false → stray ≡ None → tree_of (lines_view lines.now) ≡ None) }
{
    let tree = match read_lines(alloc, lines) {
        Ok(tree) => tree,
        Err(fault) => return Err(earlier(fault, stray)),
    };
    match stray {
        None => Ok(tree),
        Some(line) => Err(ReadFault {
            line,
            kind: ReadKind::LeftOut,
        }),
    }
}

/// The fault of a text that has no lines.
fn of_text(error: TextError) -> YamlFault
    ensures { (text : List ℕ) → RefusesText text error → Refuses text result.kind result.line }
{
    match error {
        TextError::TooLong => YamlFault {
            line: 1,
            kind: YamlKind::TooLong,
        },
        TextError::NotUtf8 { line } => YamlFault {
            line,
            kind: YamlKind::NotUtf8,
        },
        TextError::NoMemory => YamlFault {
            line: 1,
            kind: YamlKind::NoMemory,
        },
    }
}

/// The earlier of a fault and a control character, which no line may have; on one line, the fault.
fn earlier(fault: ReadFault, stray: Option<usize>) -> ReadFault
    ensures { wants_memory fault.kind ≡ true → wants_memory result.kind ≡ true }
{
    match stray {
        Some(line) => {
            if fault.kind != ReadKind::NoMemory && line < fault.line {
                ReadFault {
                    line,
                    kind: ReadKind::LeftOut,
                }
            } else {
                fault
            }
        }
        None => fault,
    }
}

/// The fault as callers see it: on one of the lines, and a tab's if one is in front of that line.
fn on_a_line(fault: ReadFault, lines: &[Line]) -> YamlFault
    ensures low { 0 < result.line }
    ensures high { result.line ≤ max 1 (length lines.now) }
    ensures kind { IsOfLines result.kind }
    ensures memory { wants_memory fault.kind ≡ true → names_memory result.kind ≡ true }
{
    let last = lines.len().max(1);
    let line = fault.line.max(1).min(last);
    let kind = if fault.kind != ReadKind::NoMemory && has_tab(lines, line) {
        ReadKind::Tab
    } else {
        fault.kind
    };
    YamlFault {
        line,
        kind: published(kind),
    }
}

/// Whether a tab is in the white space in front of the content of the line of this number.
fn has_tab(lines: &[Line], number: usize) -> bool {
    match lines.get(number.saturating_sub(1)) {
        Some(line) => line.content.first() == Some(&b'\t') && !is_quiet(line),
        None => false,
    }
}

/// The tree that lines spell.
fn read_lines(alloc: Global, lines: &[Line]) -> Result<Yaml, ReadFault>
    ensures ok { IfOk result (λ tree. tree_of (lines_view lines.now) ≡ Some (view tree)) }
    ensures err { IfErr result (λ fault. wants_memory fault.kind ≡ false → tree_of (lines_view lines.now) ≡ None) }
{
    let Some((first, rest)) = next(skip_mark(skip_quiet(lines))) else {
        return Err(ReadFault {
            line: lines.len(),
            kind: ReadKind::LeftOut,
        });
    };
    let (tree, left) = node(alloc, MAX_DEPTH, 0, first, rest, None)?;
    match next(left) {
        None => Ok(tree),
        Some((line, _)) => Err(misplaced(alloc, line, ReadKind::Indentation)),
    }
}

/// The lines after the mark `---`, if it is the first line, and after the quiet ones that follow it.
fn skip_mark<'a, 'b>(lines: &'b [Line<'a>]) -> &'b [Line<'a>]
    ensures { lines_view result.now ≡ behind_mark (lines_view lines.now) }
{
    match next(lines) {
        Some((first, rest)) => {
            if is_mark(first) {
                skip_quiet(rest)
            } else {
                lines
            }
        }
        None => lines,
    }
}

/// Whether the line is the mark `---` alone.
fn is_mark(line: Line) -> bool
    ensures { result ≡ is_mark_line (line_view line.entry) }
{
    line.indent == 0 && line.content == b"---".as_slice()
}
