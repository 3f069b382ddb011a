//! What begins on a line.

ghost use Rattle.std.specs.Prelude.{◌≡◌, ℕ, ◌+◌, ◌<◌, ◌≤◌, List, Some, None, length, true, false, IfSome, IfNone, IfOk, IfErr};
ghost use Rattle.std.specs.Option.{option_map};
ghost use Rattle.ksv_yaml_scan.specs.Lines.{is_nil, shown as shown_of, columns as columns_of, has_tab as has_tab_of};
ghost use Rattle.ksv_yaml_scan.specs.Plain.{starts_plain as starts_plain_of};
ghost use Rattle.ksv_yaml_scan.specs.Starts.{Refused, starts_quote, dash_of, key_at_colon, block_kind as block_kind_of, start_of, is_dash as is_dash_start};
ghost use Rattle.ksv_yaml_scan.specs.Views.{kind_view, start_view, StartsWithin, Unless};

use crate::fault::{ScanError, ScanFault};
use crate::plain::{Ending, plain_run, starts_plain};
use crate::quoted::{Quote, read_quote};
use crate::white::{is_clear, is_white, is_white_or_end, next, shown, skip};
use std::alloc::Global;

/// A scalar or a flow node.
#[derive(Debug, Drop)]
pub enum InlineKind {
    /// A plain scalar: its text on this line, and whether a comment ends it.
    Plain { text: Vec<u8>, commented: bool },
    /// A quoted scalar: its text.
    Quoted { text: Vec<u8> },
    /// A block scalar: whether it is folded, and whether its last line end is kept.
    Block { folded: bool, keep: bool },
    /// A flow sequence or mapping.
    Flow,
}

/// What begins on a line.
#[derive(Drop)]
pub enum Start<'a> {
    /// The line is quiet.
    Nothing,
    /// An item of a sequence: how many columns after the dash its content begins, whether a tab is between them,
    /// and the content. It is empty if there is nothing or a comment.
    Dash {
        columns: usize,
        tab: bool,
        behind: &'a [u8],
    },
    /// An entry of a mapping: the key, and what comes after its colon, empty if that is nothing or a comment.
    Key {
        key: Vec<u8>,
        behind: &'a [u8],
    },
    /// A scalar or a flow node.
    Inline(InlineKind),
}

/// What begins on a line with this content.
///
/// A `ScanFault` means that nothing of the subset begins there.
pub fn read_start(alloc: Global, content: &[u8]) -> Result<Start<'_>, ScanError>
    ensures ok { IfOk result (λ s. start_of content.now ≡ start_view s) }
    ensures within { IfOk result (λ s. StartsWithin (length content.now) s) }
    ensures err { IfErr result (λ e. Unless e (start_of content.now ≡ Refused)) }
{
    if shown(content).is_empty() {
        return Ok(Start::Nothing);
    }
    if let Some(dash) = read_dash(content) {
        return Ok(dash);
    }
    if starts_plain(content) {
        return read_plain(alloc, content);
    }
    read_marked(alloc, content)
}

/// The dash that begins here, and what comes after it.
fn read_dash(content: &[u8]) -> Option<Start<'_>>
    ensures some { IfSome result (λ s. start_of content.now ≡ start_view s) }
    ensures within { IfSome result (λ s. StartsWithin (length content.now) s) }
    ensures none { IfNone result (dash_of content.now ≡ None) }
{
    let (byte, rest) = next(content)?;
    if byte != b'-' {
        return None;
    }
    if !is_white_or_end(rest) {
        return None;
    }
    Some(Start::Dash {
        columns: columns(rest) + 1,
        tab: has_tab(rest),
        behind: shown(rest),
    })
}

/// The plain scalar that begins here, as a key or a value.
fn read_plain(alloc: Global, content: &[u8]) -> Result<Start<'_>, ScanError>
    requires { starts_plain_of content.now ≡ true }
    ensures ok { IfOk result (λ s. start_of content.now ≡ start_view s) }
    ensures within { IfOk result (λ s. StartsWithin (length content.now) s) }
    ensures err { IfErr result (λ e. Unless e (start_of content.now ≡ Refused)) }
{
    let run = plain_run(content, false, false);
    let text = Vec::from_slice(alloc, run.text)?;
    match run.ending {
        Ending::Colon(rest) => Ok(Start::Key {
            key: text,
            behind: shown(rest),
        }),
        Ending::Comment => Ok(Start::Inline(InlineKind::Plain {
            text,
            commented: true,
        })),
        Ending::End => Ok(Start::Inline(InlineKind::Plain {
            text,
            commented: false,
        })),
        Ending::Bracket(_) => unreachable!(),
    }
}

/// What begins here with a sign of its own: a quote, a bracket or a block scalar's.
fn read_marked(alloc: Global, content: &[u8]) -> Result<Start<'_>, ScanError>
    requires loud { is_nil (shown_of content.now) ≡ false }
    requires dash { dash_of content.now ≡ None }
    requires plain { starts_plain_of content.now ≡ false }
    ensures ok { IfOk result (λ s. start_of content.now ≡ start_view s) }
    ensures within { IfOk result (λ s. StartsWithin (length content.now) s) }
    ensures err { IfErr result (λ e. Unless e (start_of content.now ≡ Refused)) }
{
    let Some((byte, rest)) = next(content) else {
        return Err(ScanError::Fault(ScanFault::LeftOut));
    };
    let kind = match byte {
        b'\'' | b'"' => return read_quoted(alloc, content),
        b'[' | b'{' => Some(InlineKind::Flow),
        b'|' => block_kind(rest, false),
        b'>' => block_kind(rest, true),
        b' ' | b'\t' => return Err(ScanError::Fault(ScanFault::Tab)),
        _ => None,
    };
    match kind {
        Some(kind) => Ok(Start::Inline(kind)),
        None => Err(ScanError::Fault(ScanFault::LeftOut)),
    }
}

/// The quoted scalar that begins here, as a key or a value.
fn read_quoted(alloc: Global, content: &[u8]) -> Result<Start<'_>, ScanError>
    requires { starts_quote content.now ≡ true }
    ensures ok { IfOk result (λ s. start_of content.now ≡ start_view s) }
    ensures within { IfOk result (λ s. StartsWithin (length content.now) s) }
    ensures err { IfErr result (λ e. Unless e (start_of content.now ≡ Refused)) }
{
    let Quote { text, rest } = read_quote(alloc, content)?;
    if let Some(behind) = behind_colon(skip(rest)) {
        return Ok(Start::Key { key: text, behind });
    }
    if is_clear(rest) {
        return Ok(Start::Inline(InlineKind::Quoted { text }));
    }
    Err(ScanError::Fault(ScanFault::LeftOut))
}

/// What comes after a colon that ends a key.
fn behind_colon(content: &[u8]) -> Option<&[u8]>
    ensures some { IfSome result (λ rest. (key : List ℕ) → key_at_colon key content.now ≡ Some (key, rest.now)) }
    ensures shorter { IfSome result (λ rest. length rest.now < length content.now) }
    ensures none { IfNone result ((key : List ℕ) → key_at_colon key content.now ≡ None) }
{
    let (byte, rest) = next(content)?;
    if byte != b':' {
        return None;
    }
    if !is_white_or_end(rest) {
        return None;
    }
    Some(shown(rest))
}

/// The block scalar whose sign is followed by this.
fn block_kind(content: &[u8], folded: bool) -> Option<InlineKind>
    ensures { option_map kind_view result ≡ block_kind_of folded content.now }
{
    let Some((byte, rest)) = next(content) else {
        return Some(InlineKind::Block { folded, keep: true });
    };
    let keep = byte != b'-';
    if is_clear(if keep { content } else { rest }) {
        Some(InlineKind::Block { folded, keep })
    } else {
        None
    }
}

/// How many columns of white space are at the front.
fn columns(content: &[u8]) -> usize
    ensures value { result ≡ columns_of content.now }
    ensures within { result + length (shown_of content.now) ≤ length content.now }
{
    for (i, byte) in content.iter().enumerate() {
        if !is_white(*byte) {
            return i;
        }
    }
    content.len()
}

/// Whether a tab is among the white space at the front.
fn has_tab(content: &[u8]) -> bool
    ensures { result ≡ has_tab_of content.now }
{
    for byte in content {
        if *byte != b' ' {
            return *byte == b'\t';
        }
    }
    false
}

/// Whether an item of a sequence begins on a line with this content.
pub fn is_dash(content: &[u8]) -> bool
    ensures { result ≡ is_dash_start (start_of content.now) }
{
    match next(content) {
        None => false,
        Some((byte, rest)) => byte == b'-' && is_white_or_end(rest),
    }
}
