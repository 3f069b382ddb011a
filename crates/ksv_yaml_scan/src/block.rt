//! Block scalars.

ghost use Rattle.std.specs.Prelude.{◌≡◌, ◌++◌, ◌&&◌, ◌+◌, ◌<◌, ◌≤◌, [], ◌∷◌, if◌then◌else◌, List, Some, None, true, false, replicate, IfOk, IfErr, OnOk, IfSome, MatchOption};
ghost use Rattle.std.specs.Option.{option_map};
ghost use Rattle.ksv_yaml_scan.specs.Lines.{is_nil, HasNumber};
ghost use Rattle.ksv_yaml_scan.specs.Blocks.{Row, make_row, inner_indent, is_level as is_level_at, is_led as is_led_at, starts_white as starts_white_of, block_text};
ghost use Rattle.ksv_yaml_scan.specs.Rows.{gap, rows, rows_on, last_ended};
ghost use Rattle.ksv_yaml_scan.specs.Views.{lines_view, UnlessOn};

use crate::fault::{LineError, LineFault, ScanFault};
use crate::line::Line;
use crate::white::{is_white, next};
use std::alloc::{AllocError, Global};

/// The text of a block scalar of these lines.
///
/// `folded` means that its sign is `>`, and `keep` that its last line end is kept: no `-` follows the sign.
pub fn block_scalar(
    alloc: Global,
    folded: bool,
    keep: bool,
    lines: &[Line],
) -> Result<Vec<u8>, LineError>
    ensures ok { IfOk result (λ t. block_text folded keep (lines_view lines.now) ≡ Some t.items) }
    ensures err { IfErr result (λ e. UnlessOn e (lines_view lines.now) (block_text folded keep (lines_view lines.now) ≡ None)) }
{
    let Some(first) = first_inner(lines) else {
        return Ok(Vec::new(alloc));
    };
    if !is_led(lines, first.indent) {
        return Err(LineError::Fault(misplaced(first)));
    }
    if let Some(line) = shallow_line(lines, first.indent) {
        return Err(LineError::Fault(misplaced(line)));
    }
    let Joined {
        mut text,
        ended,
        ..
    } = join_rows(alloc, folded, first.indent, lines)?;
    push_end(&mut text, keep, ended)?;
    Ok(text)
}

/// The indentation of this line is wrong, or has a tab in it.
fn misplaced(line: Line) -> LineFault
    ensures { result.line ≡ line.entry.number }
{
    let fault = match line.content.first() {
        Some(b'\t') => ScanFault::Tab,
        _ => ScanFault::Indentation,
    };
    LineFault {
        line: line.number,
        fault,
    }
}

/// The first line that isn't blank.
fn first_inner<'a>(lines: &[Line<'a>]) -> Option<Line<'a>>
    ensures indent { option_map (λ l. l.indent) result ≡ inner_indent (lines_view lines.now) }
    ensures number { IfSome result (λ l. HasNumber (lines_view lines.now) l.number) }
{
    for line in lines {
        if !line.content.is_empty() {
            return Some(*line);
        }
    }
    None
}

/// Whether no blank line at the front has more spaces than this.
fn is_led(lines: &[Line], indent: usize) -> bool
    ensures { result ≡ is_led_at indent (lines_view lines.now) }
{
    for line in lines {
        if !line.content.is_empty() {
            return true;
        }
        if line.indent > indent {
            return false;
        }
    }
    true
}

/// The first line that isn't blank and has less than this indentation.
fn shallow_line<'a>(lines: &[Line<'a>], indent: usize) -> Option<Line<'a>>
    ensures { MatchOption result (is_level_at indent (lines_view lines.now) ≡ true) (λ l. (is_level_at indent (lines_view lines.now) ≡ false) × HasNumber (lines_view lines.now) l.number) }
{
    for line in lines {
        if !line.content.is_empty() && line.indent < indent {
            return Some(*line);
        }
    }
    None
}

/// Rows joined so far.
#[derive(Drop)]
struct Joined {
    /// Their text.
    text: Vec<u8>,
    /// Whether the last row that isn't empty begins with white space; None if there is no such row.
    before: Option<bool>,
    /// How many empty rows come after it.
    empty: usize,
    /// Whether it has a line end.
    ended: bool,
}

/// The rows without this indentation, joined.
fn join_rows(
    alloc: Global,
    folded: bool,
    indent: usize,
    lines: &[Line],
) -> Result<Joined, AllocError>
    ensures text { IfOk result (λ j. j.text.items ≡ rows_on folded None 0 (rows indent (lines_view lines.now))) }
    ensures ended { IfOk result (λ j. j.ended ≡ last_ended false (rows indent (lines_view lines.now))) }
{
    let mut joined = Joined {
        text: Vec::new(alloc),
        before: None,
        empty: 0,
        ended: false,
    };
    for line in lines {
        let spaces = line.indent.saturating_sub(indent);
        push_row(&mut joined, folded, spaces, *line)?;
    }
    Ok(joined)
}

/// Adds the row of a line that has this many spaces more than the indentation.
fn push_row(joined: &mut Joined, folded: bool, spaces: usize, line: Line) -> Result<(), AllocError>
    requires { joined.old.empty < usize.MAX }
    ensures text { OnOk result ((rs : List Row) → joined.new.text.items ++ rows_on folded joined.new.before joined.new.empty rs ≡ joined.old.text.items ++ rows_on folded joined.old.before joined.old.empty (make_row spaces line.entry.content.now line.entry.ended ∷ rs)) }
    ensures ended { OnOk result ((rs : List Row) → last_ended joined.new.ended rs ≡ last_ended joined.old.ended (make_row spaces line.entry.content.now line.entry.ended ∷ rs)) }
    ensures empty { OnOk result (joined.new.empty ≤ joined.old.empty + 1) }
{
    if is_empty_row(spaces, line.content) {
        joined.empty += 1;
        return Ok(());
    }
    let white = starts_white(spaces, line.content);
    push_gap(&mut joined.text, folded, joined.before, white, joined.empty)?;
    push_all(&mut joined.text, b' ', spaces)?;
    joined.text.extend_from_slice(line.content)?;
    joined.before = Some(white);
    joined.empty = 0;
    joined.ended = line.ended;
    Ok(())
}

/// Whether a row is empty.
fn is_empty_row(spaces: usize, content: &[u8]) -> bool
    ensures { result ≡ is_nil (replicate spaces 32 ++ content.now) }
{
    spaces == 0 && content.is_empty()
}

/// Whether a row begins with white space.
fn starts_white(spaces: usize, content: &[u8]) -> bool
    ensures { result ≡ starts_white_of (replicate spaces 32 ++ content.now) }
{
    if spaces > 0 {
        return true;
    }
    match next(content) {
        None => false,
        Some((byte, _)) => is_white(byte),
    }
}

/// Adds what is between a row and the one before it, if there is one, with this many empty rows between them. The
/// truth values are whether the two begin with white space.
fn push_gap(
    text: &mut Vec<u8>,
    folded: bool,
    before: Option<bool>,
    white: bool,
    empty: usize,
) -> Result<(), AllocError>
    ensures { OnOk result (text.new.items ≡ text.old.items ++ gap folded before white empty) }
{
    if let Some(before) = before {
        if !folded || before || white {
            text.push(b'\n')?;
        } else if empty == 0 {
            text.push(b' ')?;
        }
    }
    push_all(text, b'\n', empty)
}

/// Adds the line end of the last row, if it has one and it is kept.
fn push_end(text: &mut Vec<u8>, keep: bool, ended: bool) -> Result<(), AllocError>
    ensures { OnOk result (text.new.items ≡ text.old.items ++ (if keep then (if ended then 10 ∷ [] else []) else [])) }
{
    if keep && ended {
        text.push(b'\n')?;
    }
    Ok(())
}

/// Adds a byte this many times.
fn push_all(text: &mut Vec<u8>, byte: u8, count: usize) -> Result<(), AllocError>
    ensures { OnOk result (text.new.items ≡ text.old.items ++ replicate count byte) }
{
    for _ in 0..count {
        text.push(byte)?;
    }
    Ok(())
}
