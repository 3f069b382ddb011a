//! Lines without content, and runs of lines.

ghost use Rattle.std.specs.Prelude.{◌≡◌};
ghost use Rattle.ksv_yaml_scan.specs.Lines.{is_quiet as is_quiet_line, loud, front, behind, is_within};
ghost use Rattle.ksv_yaml_scan.specs.Blocks.{is_inner};
ghost use Rattle.ksv_yaml_scan.specs.Views.{line_view, lines_view};

use crate::line::Line;
use crate::white::shown;

/// Whether the line is quiet: it is white space, perhaps with a comment after it.
pub fn is_quiet(line: &Line) -> bool
    ensures { result ≡ is_quiet_line (line_view line.now) }
{
    shown(line.content).is_empty()
}

/// The lines after the quiet ones at the front.
pub fn skip_quiet<'a, 'b>(lines: &'b [Line<'a>]) -> &'b [Line<'a>]
    ensures { lines_view result.now ≡ loud (lines_view lines.now) }
{
    for (i, line) in lines.iter().enumerate() {
        if !is_quiet(line) {
            return &lines[i..];
        }
    }
    &lines[lines.len()..]
}

/// The lines of a block scalar, which are blank or not before this column, and the lines after them.
pub fn block_lines<'a, 'b>(lines: &'b [Line<'a>], column: usize) -> (&'b [Line<'a>], &'b [Line<'a>])
    ensures front { lines_view result.0.now ≡ front (is_inner column) (lines_view lines.now) }
    ensures behind { lines_view result.1.now ≡ behind (is_inner column) (lines_view lines.now) }
{
    for (i, line) in lines.iter().enumerate() {
        if !line.content.is_empty() && line.indent < column {
            return lines.split_at(i);
        }
    }
    lines.split_at(lines.len())
}

/// The lines that a flow node may continue on, which are quiet or not before this column, and the lines after them.
pub fn flow_lines<'a, 'b>(lines: &'b [Line<'a>], column: usize) -> (&'b [Line<'a>], &'b [Line<'a>])
    ensures front { lines_view result.0.now ≡ front (is_within column) (lines_view lines.now) }
    ensures behind { lines_view result.1.now ≡ behind (is_within column) (lines_view lines.now) }
{
    for (i, line) in lines.iter().enumerate() {
        if line.indent < column && !is_quiet(line) {
            return lines.split_at(i);
        }
    }
    lines.split_at(lines.len())
}
