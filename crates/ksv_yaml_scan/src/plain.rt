//! Plain scalars.

ghost use Rattle.std.specs.Prelude.{◌≡◌, ◌≤◌, None, length, IfSome, IfOk, IfErr};
ghost use Rattle.std.specs.Option.{option_map};
ghost use Rattle.ksv_yaml_scan.specs.Got.{got};
ghost use Rattle.ksv_yaml_scan.specs.Plain.{plain_text, more_of, is_bracket as is_bracket_byte, is_special as is_special_byte, is_indicator as is_indicator_byte, is_lone as is_lone_byte, starts_plain as starts_plain_of, stop, run};
ghost use Rattle.ksv_yaml_scan.specs.Views.{lines_view, ending_view, run_view, more_view, EndsWithin, UnlessOn};

use crate::fault::{LineError, LineFault, ScanFault};
use crate::line::Line;
use crate::quiet::{is_quiet, skip_quiet};
use crate::white::{is_white, is_white_or_end, next, skip};
use std::alloc::Global;

/// Why a plain run ends.
#[derive(Clone, Copy)]
pub(crate) enum Ending<'a> {
    /// A colon before white space or the end of the line, and what comes after it.
    Colon(&'a [u8]),
    /// A bracket or a comma of a flow node, and what comes after it.
    Bracket(&'a [u8]),
    /// A comment.
    Comment,
    /// The end of the line.
    End,
}

/// A plain run: its text without white space at the end, and why it ends.
#[derive(Clone, Copy)]
pub(crate) struct Run<'a> {
    pub(crate) text: &'a [u8],
    pub(crate) ending: Ending<'a>,
}

/// Whether the byte is a bracket, a brace or the comma of a flow node.
pub(crate) fn is_bracket(byte: u8) -> bool
    ensures { result ≡ is_bracket_byte byte }
{
    matches!(byte, b',' | b'[' | b']' | b'{' | b'}')
}

/// Whether no plain scalar begins with the byte, whatever follows.
fn is_special(byte: u8) -> bool
    ensures { result ≡ is_special_byte byte }
{
    is_bracket(byte) || is_white(byte) || is_indicator(byte)
}

/// Whether the byte is an indicator with which no plain scalar begins.
fn is_indicator(byte: u8) -> bool
    ensures { result ≡ is_indicator_byte byte }
{
    matches!(
        byte,
        b'#' | b'&' | b'*' | b'!' | b'|' | b'>' | b'\'' | b'"' | b'%' | b'@' | b'`'
    )
}

/// Whether the byte is one with which no plain scalar begins before white space or the end of the line.
fn is_lone(byte: u8) -> bool
    ensures { result ≡ is_lone_byte byte }
{
    matches!(byte, b'-' | b'?' | b':')
}

/// Whether a plain scalar begins here.
pub(crate) fn starts_plain(content: &[u8]) -> bool
    ensures { result ≡ starts_plain_of content.now }
{
    match next(content) {
        None => false,
        Some((byte, rest)) => !is_special(byte) && !(is_lone(byte) && is_white_or_end(rest)),
    }
}

/// The plain run that begins here. `flow` means that it is in a flow node, and `white` that white space is before
/// it.
pub(crate) fn plain_run(content: &[u8], flow: bool, white: bool) -> Run<'_>
    ensures value { run_view result ≡ run flow white content.now }
    ensures within { EndsWithin (length content.now) result.ending }
{
    let mut blank = white;
    let mut end = 0;
    for (i, byte) in content.iter().enumerate() {
        let (_, here) = content.split_at(i);
        if let Some(ending) = ending_at(here, flow, blank) {
            return Run {
                text: &content[..end],
                ending,
            };
        }
        blank = is_white(*byte);
        if !blank {
            end = i + 1;
        }
    }
    Run {
        text: &content[..end],
        ending: Ending::End,
    }
}

/// Why a plain run ends at the byte here, if it does.
fn ending_at(here: &[u8], flow: bool, white: bool) -> Option<Ending<'_>>
    ensures value { option_map ending_view result ≡ stop flow white here.now }
    ensures within { IfSome result (λ e. EndsWithin (length here.now) e) }
{
    let (byte, behind) = next(here)?;
    if white && byte == b'#' {
        return Some(Ending::Comment);
    }
    if byte == b':' && is_white_or_end(behind) {
        return Some(Ending::Colon(behind));
    }
    if flow && is_bracket(byte) {
        return Some(Ending::Bracket(here));
    }
    None
}

/// The text of a line that continues a plain scalar, and whether a comment ends it.
fn more_text(content: &[u8]) -> Option<(&[u8], bool)>
    ensures { option_map more_view result ≡ more_of content.now }
{
    let run = plain_run(skip(content), false, false);
    match run.ending {
        Ending::Comment => Some((run.text, true)),
        Ending::End => Some((run.text, false)),
        Ending::Colon(_) | Ending::Bracket(_) => None,
    }
}

/// The text of a plain scalar that continues on these lines, where a line before this column ends it; and the lines
/// after it, from the first that isn't quiet.
///
/// `text` is the part on the scalar's first line, and `commented` is whether a comment ended it there.
pub fn continue_plain<'a, 'b>(
    alloc: Global,
    text: Vec<u8>,
    commented: bool,
    column: usize,
    lines: &'b [Line<'a>],
) -> Result<(Vec<u8>, &'b [Line<'a>]), LineError>
    ensures ok { IfOk result (λ x. plain_text text.items column commented (lines_view lines.now) ≡ got x.0.items (lines_view x.1.now)) }
    ensures err { IfErr result (λ e. UnlessOn e (lines_view lines.now) (plain_text text.items column commented (lines_view lines.now) ≡ None)) }
{
    let mut text = text;
    let mut commented = commented;
    for (i, line) in lines.iter().enumerate() {
        let (_, here) = lines.split_at(i);
        if is_quiet(line) {
            return Ok((text, skip_quiet(here)));
        }
        if commented {
            return Ok((text, here));
        }
        if line.indent < column {
            return Ok((text, here));
        }
        let Some((more, ended)) = more_text(line.content) else {
            return Err(LineError::Fault(LineFault {
                line: line.number,
                fault: ScanFault::ValueForKey,
            }));
        };
        text.push(b' ')?;
        text.extend_from_slice(more)?;
        commented = ended;
    }
    let (_, behind) = lines.split_at(lines.len());
    Ok((text, behind))
}
