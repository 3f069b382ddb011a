//! Flow nodes, from their parts.

ghost use Rattle.std.specs.Prelude.{◌≡◌, ◌<◌, ◌∷◌, [], List, length, map, IfOk, IfSome, MatchOption};
ghost use Rattle.ksv_yaml.specs.Reading.{is_among};
ghost use Rattle.ksv_yaml_tree.specs.View.{pair};
ghost use Rattle.ksv_yaml.specs.Code.{keys_of, behind_close as behind_close_of, behind_close_map as behind_close_map_of, behind_comma as behind_comma_of, key_at as key_at_of, seen_behind, seen_key, GivesFlow, GivesFlowItems, GivesFlowEntries};
ghost use Rattle.ksv_yaml_scan.specs.Views.{tokens_view};

use crate::block::misplaced;
use crate::fault::{ReadFault, ReadKind};
use crate::keys::{add_key, no_keys};
use crate::make::{make_entry, make_list, make_mapping, make_text};
use ksv_yaml_scan::flow::{Part, Token};
use ksv_yaml_scan::line::Line;
use ksv_yaml_tree::{Entry, Yaml};
use std::alloc::Global;

/// The part at the front, and those after it.
fn next(tokens: &[Token]) -> Option<(&Token, &[Token])>
    ensures { MatchOption result (tokens.now ≡ []) (λ x. tokens.now ≡ x.0.now ∷ x.1.now) }
{
    match tokens {
        [] => None,
        [token, rest @ ..] => Some((token, rest)),
    }
}

/// What comes after a `]` at the front.
fn behind_close(tokens: &[Token]) -> Option<&[Token]>
    ensures value { seen_behind result ≡ behind_close_of (tokens_view tokens.now) }
    ensures shorter { IfSome result (λ rest. length (tokens_view rest.now) < length (tokens_view tokens.now)) }
{
    let [token, rest @ ..] = tokens else {
        return None;
    };
    match token.part {
        Part::Close => Some(rest),
        _ => None,
    }
}

/// What comes after a `}` at the front.
fn behind_close_map(tokens: &[Token]) -> Option<&[Token]>
    ensures value { seen_behind result ≡ behind_close_map_of (tokens_view tokens.now) }
    ensures shorter { IfSome result (λ rest. length (tokens_view rest.now) < length (tokens_view tokens.now)) }
{
    let [token, rest @ ..] = tokens else {
        return None;
    };
    match token.part {
        Part::CloseMap => Some(rest),
        _ => None,
    }
}

/// What comes after a comma at the front.
fn behind_comma(tokens: &[Token]) -> Option<&[Token]>
    ensures value { seen_behind result ≡ behind_comma_of (tokens_view tokens.now) }
    ensures shorter { IfSome result (λ rest. length (tokens_view rest.now) < length (tokens_view tokens.now)) }
{
    let [token, rest @ ..] = tokens else {
        return None;
    };
    match token.part {
        Part::Comma => Some(rest),
        _ => None,
    }
}

/// The key at the front with its line, and what comes after it.
fn key_at(tokens: &[Token]) -> Option<(usize, &[u8], &[Token])>
    ensures value { seen_key result ≡ key_at_of (tokens_view tokens.now) }
    ensures shorter { IfSome result (λ x. length (tokens_view x.2.now) < length (tokens_view tokens.now)) }
{
    let [token, rest @ ..] = tokens else {
        return None;
    };
    match &token.part {
        Part::Key { text, .. } => Some((token.line, text.as_slice(), rest)),
        _ => None,
    }
}

/// The fault if this part, or the end of the parts, isn't allowed here.
fn unexpected(tokens: &[Token], end: ReadFault) -> ReadFault {
    let [token, ..] = tokens else {
        return end;
    };
    ReadFault {
        line: token.line,
        kind: unexpected_kind(&token.part),
    }
}

/// The kind of a part that isn't allowed here: a plain scalar with a colon inside, or an unsupported form.
fn unexpected_kind(part: &Part) -> ReadKind {
    match part {
        Part::Key { quoted, .. } => {
            if *quoted {
                ReadKind::LeftOut
            } else {
                ReadKind::ValueForKey
            }
        }
        _ => ReadKind::LeftOut,
    }
}

/// The flow node at the front, with at most `depth` nested nodes, and the parts after it; `end` is the fault if no
/// part is left.
#[cycle(flow)]
pub(crate) fn flow_node(
    alloc: Global,
    depth: u32,
    tokens: &[Token],
    end: ReadFault,
) -> Result<(Yaml, &[Token]), ReadFault>
    ensures read { GivesFlow depth (tokens_view tokens.now) result }
    ensures shorter { IfOk result (λ x. length (tokens_view x.1.now) < length (tokens_view tokens.now)) }
{
    let Some((token, rest)) = next(tokens) else {
        return Err(end);
    };
    match &token.part {
        Part::Scalar { quoted, text } => {
            let text = Vec::from_slice(alloc, text)?;
            Ok((make_text(token.line, *quoted, text), rest))
        }
        Part::Open => {
            if depth == 0 {
                return Err(too_deep(token.line));
            }
            let (items, behind) = flow_items(alloc, depth - 1, rest, end)?;
            Ok((make_list(token.line, items), behind))
        }
        Part::OpenMap => {
            if depth == 0 {
                return Err(too_deep(token.line));
            }
            let (entries, behind) = flow_entries(alloc, depth - 1, rest, end)?;
            Ok((make_mapping(token.line, entries), behind))
        }
        Part::Close | Part::CloseMap | Part::Comma | Part::Key { .. } => {
            Err(unexpected(tokens, end))
        }
    }
}

/// The items up to the bracket that closes them, and the parts after it.
#[cycle(flow)]
fn flow_items(
    alloc: Global,
    depth: u32,
    tokens: &[Token],
    end: ReadFault,
) -> Result<(Vec<Yaml>, &[Token]), ReadFault>
    ensures read { GivesFlowItems depth (tokens_view tokens.now) result }
    ensures shorter { IfOk result (λ x. length (tokens_view x.1.now) < length (tokens_view tokens.now)) }
{
    let mut items = Vec::new(alloc);
    let mut at = tokens;
    'items: loop {
        if let Some(behind) = behind_close(at) {
            return Ok((items, behind));
        }
        let (item, left) = flow_node(alloc, depth, at, end)?;
        items.push(item)?;
        if let Some(behind) = behind_close(left) {
            return Ok((items, behind));
        }
        let Some(behind) = behind_comma(left) else {
            return Err(unexpected(left, end));
        };
        at = behind;
    }
}

/// The entries up to the brace that closes them, and the parts after it.
#[cycle(flow)]
fn flow_entries(
    alloc: Global,
    depth: u32,
    tokens: &[Token],
    end: ReadFault,
) -> Result<(Vec<Entry>, &[Token]), ReadFault>
    ensures read { GivesFlowEntries depth (tokens_view tokens.now) result }
    ensures shorter { IfOk result (λ x. length (tokens_view x.1.now) < length (tokens_view tokens.now)) }
{
    let mut keys = no_keys(alloc);
    let mut entries = Vec::new(alloc);
    let mut at = tokens;
    'entries: loop {
        if let Some(behind) = behind_close_map(at) {
            return Ok((entries, behind));
        }
        let Some((line, key, rest)) = key_at(at) else {
            return Err(unexpected(at, end));
        };
        let fresh = add_key(alloc, &mut keys, key)?;
        if !fresh {
            return Err(ReadFault {
                line,
                kind: ReadKind::KeyTwice,
            });
        }
        let (value, left) = flow_node(alloc, depth, rest, end)?;
        let key = Vec::from_slice(alloc, key)?;
        entries.push(make_entry(line, key, value))?;
        if let Some(behind) = behind_close_map(left) {
            return Ok((entries, behind));
        }
        let Some(behind) = behind_comma(left) else {
            return Err(unexpected(left, end));
        };
        at = behind;
    }
}

/// The fault of a node that is nested in 64 others.
pub(crate) fn too_deep(line: usize) -> ReadFault {
    ReadFault {
        line,
        kind: ReadKind::TooDeep,
    }
}

/// The fault of what follows a flow node: these parts, or `end` if there are none. On the node's last line it is an
/// unsupported form; a line below isn't allowed there.
pub(crate) fn left_over(
    alloc: Global,
    tokens: &[Token],
    left: &[Token],
    end: ReadFault,
    lines: &[Line],
) -> ReadFault {
    let fault = match next(left) {
        Some((token, _)) => ReadFault {
            line: token.line,
            kind: ReadKind::LeftOut,
        },
        None => end,
    };
    for line in lines {
        if line.number == fault.line && line.number > last_line(tokens, left) {
            return misplaced(alloc, *line, ReadKind::Indentation);
        }
    }
    fault
}

/// The line of the last part of a flow node after which these parts are left.
fn last_line(tokens: &[Token], left: &[Token]) -> usize {
    let count = tokens.len().saturating_sub(left.len());
    match tokens.get(count.saturating_sub(1)) {
        Some(last) => last.line,
        None => 0,
    }
}
