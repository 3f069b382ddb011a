//! Values that are read at a key: an expression, the path of an enum, contents.

ghost use Rattle.std.specs.Prelude.{◌≡◌, IfOk, OnOk, map, option_map, option_to_list};
ghost use Rattle.ksv_yaml_tree.specs.View.{pair, view as view_node, seen_entry};
ghost use Rattle.ksv_yaml_tree.specs.Tree.{entry_at};
ghost use Rattle.ksv_expr_tree.specs.Tree.{view};
ghost use Rattle.ksv_schema.specs.Expressions.{expression_of};
ghost use Rattle.ksv_schema.specs.Faults.{noted};
ghost use Rattle.ksv_schema.specs.Reading.{perhaps, must};
ghost use Rattle.ksv_schema.specs.Values.{name_fault, of_expression, expression, enumeration, own_enum, item, items, contents};
ghost use Rattle.ksv_schema.specs.Code.{seen_fault, seen_home, items_of, joined, text_bytes, Reads};

use crate::keys::expressions::read_expression;
use crate::keys::ids::ids_of;
use crate::keys::texts::{Piece, looks_like_number, piece_of};
use crate::values::fault::DescFaultKind::{
    BadValue, LeftOut, MissingKey, NoExpression, UnknownName,
};
use crate::values::fault::{Least, note};
use crate::values::reader::{Home, Read, Reader, kept, position_at, present};
use ksv_expr_tree::Expr;
use ksv_schema_names::{NameFault, Site, name_fault};
use ksv_yaml_tree::{Entry, Yaml, find};
use std::alloc::Global;

// ---- expressions

/// Notes what is wrong with a name.
#[tactic(auto, using(crate::proofs::Noted::steps))]
pub(crate) fn note_name(least: &mut Least, line: usize, found: Option<NameFault>)
    ensures { seen_fault least.new ≡ noted (seen_fault least.old) (option_to_list (option_map (name_fault line) found)) }
{
    match found {
        None => {}
        Some(NameFault::Unknown) => note(least, line, UnknownName),
        Some(NameFault::LeftOut) => note(least, line, LeftOut),
    }
}

/// The expression that a text spells.
#[tactic(auto, using(crate::proofs::Noted::steps, ksv_desc::proofs::Dots::steps), unfolding(crate::specs::Values::of_expression))]
pub(crate) fn expression_in(
    reader: &mut Reader,
    home: &Home,
    site: Site,
    line: usize,
    text: &[u8],
) -> Read<Expr>
    ensures { Reads (of_expression (seen_home home.now) site line (expression_of text.now)) view reader.old reader.new result }
{
    match read_expression(reader.alloc, text)? {
        Ok(expr) => {
            let found = name_fault(home.scopes, home.within, position_at(home, site), &expr);
            note_name(&mut reader.least, line, found);
            let added = reader.names.add_dotted(&expr);
            kept(expr, added)
        }
        Err(fault) => {
            note(&mut reader.least, line, NoExpression(fault));
            Ok(None)
        }
    }
}

/// The expression at a key.
#[tactic(auto, using(crate::proofs::Noted::steps, ksv_desc::proofs::Dots::steps), unfolding(crate::specs::Values::expression))]
pub(crate) fn expression(reader: &mut Reader, home: &Home, site: Site, entry: &Entry) -> Read<Expr>
    ensures { Reads (expression (seen_home home.now) site (pair entry.now)) view reader.old reader.new result }
{
    match entry.value().text() {
        Some(text) => expression_in(reader, home, site, entry.line(), text),
        None => {
            note(&mut reader.least, entry.line(), BadValue);
            Ok(None)
        }
    }
}

/// The expression at a key that may be absent.
#[tactic(auto, using(crate::proofs::Noted::steps, ksv_desc::proofs::Dots::steps))]
pub(crate) fn perhaps_expression(
    reader: &mut Reader,
    home: &Home,
    site: Site,
    at: Option<&Entry>,
) -> Read<Option<Expr>>
    ensures { Reads (perhaps (expression (seen_home home.now) site) (seen_entry at.entry)) (λ o. option_map view o) reader.old reader.new result }
{
    match at {
        None => Ok(Some(None)),
        Some(entry) => present(expression(reader, home, site, entry)),
    }
}

/// The expression at a key that must be in a mapping of this line.
#[tactic(auto, using(crate::proofs::Noted::steps, ksv_desc::proofs::Dots::steps))]
pub(crate) fn needed_expression(
    reader: &mut Reader,
    home: &Home,
    site: Site,
    line: usize,
    at: Option<&Entry>,
) -> Read<Expr>
    ensures { Reads (must line (expression (seen_home home.now) site) (seen_entry at.entry)) view reader.old reader.new result }
{
    match at {
        None => {
            note(&mut reader.least, line, MissingKey);
            Ok(None)
        }
        Some(entry) => expression(reader, home, site, entry),
    }
}

// ---- enums

/// The number of the enum whose path is at a key.
#[tactic(auto, using(crate::proofs::Noted::steps, ksv_desc::proofs::Dots::steps), unfolding(crate::specs::Values::enumeration))]
fn enumeration(reader: &mut Reader, home: &Home, entry: &Entry) -> Read<u32>
    ensures { Reads (enumeration (seen_home home.now) (pair entry.now)) (λ n. n) reader.old reader.new result }
{
    let line = entry.line();
    let Some(text) = entry.value().text() else {
        note(&mut reader.least, line, BadValue);
        return Ok(None);
    };
    let Some(path) = ids_of(reader.alloc, text)? else {
        note(&mut reader.least, line, BadValue);
        return Ok(None);
    };
    match home.scopes.enum_named(home.within, path.as_slice()) {
        Some(number) => Ok(Some(number)),
        None => {
            note(&mut reader.least, line, UnknownName);
            Ok(None)
        }
    }
}

/// The number of the enum at the key `enum`, which may be absent.
#[tactic(auto, using(crate::proofs::Noted::steps, ksv_desc::proofs::Dots::steps))]
pub(crate) fn own_enum(reader: &mut Reader, home: &Home, entries: &[Entry]) -> Read<Option<u32>>
    ensures { Reads (own_enum (seen_home home.now) (map pair entries.now)) (λ o. o) reader.old reader.new result }
{
    match find(entries, b"enum") {
        None => Ok(Some(None)),
        Some(entry) => present(enumeration(reader, home, entry)),
    }
}

// ---- contents

/// Bytes, if there are any so far, and these after them.
fn extended(made: Option<Vec<u8>>, bytes: &[u8]) -> Read<Vec<u8>>
    ensures { IfOk result (λ o. items_of o ≡ joined (items_of made) (Some bytes.now)) }
{
    match made {
        Some(mut made) => {
            made.extend_from_slice(bytes)?;
            Ok(Some(made))
        }
        None => Ok(None),
    }
}

/// Bytes, if there are any so far, and those of an item of a list after them.
#[tactic(auto, using(crate::proofs::Noted::steps), unfolding(crate::specs::Values::item))]
fn with_item(least: &mut Least, made: Option<Vec<u8>>, node: &Yaml) -> Read<Vec<u8>>
    ensures value { IfOk result (λ o. items_of o ≡ joined (items_of made) (item (view_node node.now)).value) }
    ensures faults { seen_fault least.new ≡ noted (seen_fault least.old) (item (view_node node.now)).faults }
{
    match piece_of(node) {
        Piece::Byte(byte) => extended(made, &[byte]),
        Piece::Text(text) => extended(made, text),
        Piece::Bad => {
            note(least, node.line(), BadValue);
            Ok(None)
        }
        Piece::LeftOut => {
            note(least, node.line(), LeftOut);
            Ok(None)
        }
    }
}

/// The bytes of the items of a list.
fn items(alloc: Global, least: &mut Least, nodes: &[Yaml]) -> Read<Vec<u8>>
    ensures value { IfOk result (λ o. items_of o ≡ (items (map view_node nodes.now)).value) }
    ensures faults { OnOk result (seen_fault least.new ≡ noted (seen_fault least.old) (items (map view_node nodes.now)).faults) }
{
    let mut made = Some(Vec::new(alloc));
    for node in nodes {
        made = with_item(least, made, node)?;
    }
    Ok(made)
}

/// The bytes of a text at a key; a plain number alone is unsupported.
#[tactic(auto, using(crate::proofs::Noted::steps, ksv_desc::proofs::Dots::steps))]
fn text_bytes(reader: &mut Reader, line: usize, is_quoted: bool, text: &[u8]) -> Read<Vec<u8>>
    ensures { Reads (text_bytes line is_quoted text.now) (λ v. v.items) reader.old reader.new result }
{
    let is_number = !is_quoted & looks_like_number(text);
    if is_number {
        note(&mut reader.least, line, LeftOut);
        return Ok(None);
    }
    Ok(Some(Vec::from_slice(reader.alloc, text)?))
}

/// The bytes of a text or of a list at a key.
#[tactic(auto, using(crate::proofs::Noted::steps, crate::proofs::Items::steps), unfolding(crate::specs::Values::contents))]
fn contents(reader: &mut Reader, entry: &Entry) -> Read<Vec<u8>>
    ensures { Reads (contents (pair entry.now)) (λ v. v.items) reader.old reader.new result }
{
    let value = entry.value();
    match value.text() {
        Some(text) => text_bytes(reader, entry.line(), value.is_quoted(), text),
        None => match value.items() {
            Some(nodes) => items(reader.alloc, &mut reader.least, nodes),
            None => {
                note(&mut reader.least, entry.line(), BadValue);
                Ok(None)
            }
        },
    }
}

/// The bytes at a key that may be absent.
#[tactic(auto, using(crate::proofs::Noted::steps))]
pub(crate) fn perhaps_contents(reader: &mut Reader, at: Option<&Entry>) -> Read<Option<Vec<u8>>>
    ensures { Reads (perhaps contents (seen_entry at.entry)) (λ o. option_map (λ v. v.items) o) reader.old reader.new result }
{
    match at {
        None => Ok(Some(None)),
        Some(entry) => present(contents(reader, entry)),
    }
}
