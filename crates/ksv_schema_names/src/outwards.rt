//! Names that are looked up in the table of types, and byte order and encoding in force.

ghost use Rattle.std.specs.Prelude.{◌≡◌, ◌<◌, [], find, map, string_bytes, codes, length, IfSome};
ghost use Rattle.ksv_yaml_tree.specs.View.{pair, seen_text};
ghost use Rattle.ksv_schema_names.specs.Types.{keys_at, outer_of, from, nearest_row, root_named, type_along, type_named, enum_behind, enum_from, order_named, order_in, setting};
ghost use Rattle.ksv_schema_names.specs.View.{row_of, has_sought};

use crate::rows::{Rows, row_in};
use ksv_desc::ByteOrder;
use ksv_yaml_tree::Entry;
use ksv_yaml_tree::keys::{entries_at, text_at};

/// The keys of the type `n`, or the entries of the enum `n`.
#[tactic(auto, unfolding(crate::specs::Types::keys_at))]
pub(crate) fn keys_at<'a>(rows: &Rows<'a>, n: usize) -> &'a [Entry]
    ensures { map pair result.now ≡ keys_at (map row_of rows.now) n }
{
    match rows.as_slice().get(n) {
        Some(row) => row.entries(),
        None => &[],
    }
}

/// The byte order that a text names.
pub fn order_named(text: &[u8]) -> Option<ByteOrder>
    ensures { result ≡ order_named text.now }
{
    if text == b"le".as_slice() {
        return Some(ByteOrder::Little);
    }
    if text == b"be".as_slice() {
        return Some(ByteOrder::Big);
    }
    None
}

/// The text at a key of the `meta` of the type `n`.
pub(crate) fn setting<'a>(types: &Rows<'a>, key: &[u8], n: usize) -> Option<&'a [u8]>
    ensures { seen_text result ≡ setting key.now (map row_of types.now) n }
{
    text_at(entries_at(keys_at(types, n), b"meta"), key)
}

/// The byte order that the type `n` itself sets.
pub(crate) fn order_in(types: &Rows, n: usize) -> Option<ByteOrder>
    ensures { result ≡ order_in (map row_of types.now) n }
{
    order_named(setting(types, b"endian", n)?)
}

/// What is looked for from a type outwards.
#[derive(Clone, Copy)]
pub(crate) enum Sought<'a> {
    /// One of these rows, by its name.
    Named(&'a Rows<'a>, &'a [u8]),
    /// A byte order.
    Order,
    /// An encoding.
    Encoding,
}

/// Whether the type `n` has what is sought.
fn has_sought(types: &Rows, sought: Sought, n: usize) -> bool
    ensures { result ≡ has_sought (map row_of types.now) sought.entry n }
{
    match sought {
        Sought::Named(rows, name) => row_in(rows, name, n).is_some(),
        Sought::Order => order_in(types, n).is_some(),
        Sought::Encoding => setting(types, b"encoding", n).is_some(),
    }
}

/// The type around the type `n`.
#[tactic(auto, unfolding(crate::specs::Types::outer_of))]
fn outer_of(types: &Rows, n: usize) -> Option<usize>
    ensures { result ≡ outer_of (map row_of types.now) n }
{
    types.as_slice().get(n)?.within
}

/// The nearest type, from the type `n` outwards, that has what is sought.
#[tactic(auto, unfolding(crate::specs::Types::from))]
pub(crate) fn nearest(types: &Rows, sought: Sought, n: usize) -> Option<usize>
    ensures { result ≡ find (has_sought (map row_of types.now) sought.entry) (from (map row_of types.now) n) }
{
    let mut at = n;
    for step in 0..types.as_slice().len() {
        if has_sought(types, sought, at) {
            return Some(at);
        }
        match outer_of(types, at) {
            Some(outer) => at = outer,
            None => return None,
        }
    }
    None
}

/// The nearest of these rows that has this name, from the type `n` outwards.
#[tactic(auto, unfolding(crate::specs::Types::nearest_row))]
fn nearest_row(types: &Rows, rows: &Rows, name: &[u8], n: usize) -> Option<usize>
    ensures value { result ≡ nearest_row (map row_of types.now) (map row_of rows.now) name.now n }
    ensures inside { IfSome result (λ k. k < length rows.now) }
{
    row_in(rows, name, nearest(types, Sought::Named(rows, name), n)?)
}

/// The root, by its own id.
fn root_named(types: &Rows, name: &[u8]) -> Option<usize>
    ensures value { result ≡ root_named (map row_of types.now) name.now }
    ensures inside { IfSome result (λ k. k < length types.now) }
{
    match types.as_slice().first() {
        Some(root) => { if root.id == name { Some(0) } else { None } }
        None => None,
    }
}

/// The type to which a path of names leads from the type `n` inwards.
fn type_along(types: &Rows, n: usize, path: &[String]) -> Option<usize>
    requires { n < length types.now }
    ensures value { result ≡ type_along (map row_of types.now) n (map string_bytes path.now) }
    ensures inside { IfSome result (λ k. k < length types.now) }
{
    let mut at = n;
    for name in path {
        match row_in(types, name.as_str().as_bytes(), at) {
            Some(found) => at = found,
            None => return None,
        }
    }
    Some(at)
}

/// The type that a path of names means where it is used in the type `n`.
#[tactic(auto, unfolding(crate::specs::Types::type_named))]
pub(crate) fn type_named(types: &Rows, n: usize, path: &[String]) -> Option<usize>
    ensures value { result ≡ type_named (map row_of types.now) n (map string_bytes path.now) }
    ensures inside { IfSome result (λ k. k < length types.now) }
{
    let (first, rest) = path.split_first()?;
    let name = first.as_str().as_bytes();
    match nearest_row(types, types, name, n) {
        Some(found) => type_along(types, found, rest),
        None => type_along(types, root_named(types, name)?, rest),
    }
}

/// The enum of this name that a path of types leads to, or the nearest one where there is no path.
#[tactic(auto, unfolding(crate::specs::Types::enum_behind))]
fn enum_behind(types: &Rows, enums: &Rows, n: usize, path: &[String], name: &[u8]) -> Option<usize>
    ensures value { result ≡ enum_behind (map row_of types.now) (map row_of enums.now) n (map string_bytes path.now) name.now }
    ensures inside { IfSome result (λ k. k < length enums.now) }
{
    match path {
        [] => nearest_row(types, enums, name, n),
        [_, ..] => row_in(enums, name, type_named(types, n, path)?),
    }
}

/// The enum that a path of names means where it is used in the type `n`: types, and last the enum.
pub(crate) fn enum_named(types: &Rows, enums: &Rows, n: usize, path: &[String]) -> Option<usize>
    ensures value { result ≡ enum_from (map row_of types.now) (map row_of enums.now) n [] (map string_bytes path.now) }
    ensures inside { IfSome result (λ k. k < length enums.now) }
{
    match path.split_last() {
        Some((last, before)) => enum_behind(types, enums, n, before, last.as_str().as_bytes()),
        None => None,
    }
}
