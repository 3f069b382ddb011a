//! The rows of a description's types and enums, in the order of the text.

ghost use Rattle.std.specs.Prelude.{◌≡◌, ◌++◌, ◌<◌, length, map, OnOk, IfOk, IfSome};
ghost use Rattle.ksv_yaml_tree.specs.View.{view, pair};
ghost use Rattle.ksv_schema_names.specs.Rows.{with_types, types_of, named_row, enums_from, row_in};
ghost use Rattle.ksv_schema_names.specs.Placed.{Puts, ArePlaced};
ghost use Rattle.ksv_schema_names.specs.View.{row_of};

use crate::row::Row;
use ksv_yaml_tree::keys::{entries_at, entries_in, text_at};
use ksv_yaml_tree::{Entry, Yaml};
use std::alloc::{AllocError, Global};
use std::collections::HashMap;
use std::marker::Model;

/// The row of a type or an enum in the type `n`.
fn named_row<'a>(n: usize, entry: &'a Entry) -> Row<'a>
    ensures { row_of result ≡ named_row n (pair entry.now) }
{
    Row {
        within: Some(n),
        line: entry.line(),
        id: entry.key(),
        value: entry.value(),
    }
}

/// Adds the types in the type `n`, whose value this is, each with those in it.
#[cycle(types)]
fn add_types<'a>(rows: &mut Vec<Row<'a>>, n: usize, value: &'a Yaml) -> Result<(), AllocError>
    ensures { OnOk result (map row_of rows.new.items ≡ with_types n (view value.now) (map row_of rows.old.items)) }
{
    for name in entries_at(entries_in(value), b"types") {
        let number = rows.len();
        rows.push(named_row(n, name))?;
        add_types(rows, number, name.value())?;
    }
    Ok(())
}

/// The types of a description: the root, and those in it.
#[tactic(auto, unfolding(crate::specs::Rows::types_of))]
pub(crate) fn types_of<'a>(alloc: Global, tree: &'a Yaml) -> Result<Vec<Row<'a>>, AllocError>
    ensures { IfOk result (λ v. map row_of v.items ≡ types_of (view tree.now)) }
{
    let id = text_at(entries_at(entries_in(tree), b"meta"), b"id").unwrap_or(&[]);
    let mut rows = Vec::new(alloc);
    rows.push(Row {
        within: None,
        line: tree.line(),
        id,
        value: tree,
    })?;
    add_types(&mut rows, 0, tree)?;
    Ok(rows)
}

/// Adds the enums of the type `n`.
fn add_enums<'a>(rows: &mut Vec<Row<'a>>, n: usize, names: &'a [Entry]) -> Result<(), AllocError>
    ensures { OnOk result (map row_of rows.new.items ≡ map row_of rows.old.items ++ map (named_row n) (map pair names.now)) }
{
    for name in names {
        rows.push(named_row(n, name))?;
    }
    Ok(())
}

/// The enums of all types.
pub(crate) fn enums_of<'a>(alloc: Global, types: &[Row<'a>]) -> Result<Vec<Row<'a>>, AllocError>
    ensures { IfOk result (λ v. map row_of v.items ≡ enums_from 0 (map row_of types.now)) }
{
    let mut rows = Vec::new(alloc);
    for (n, row) in types.iter().enumerate() {
        add_enums(&mut rows, n, entries_at(row.entries(), b"enums"))?;
    }
    Ok(rows)
}

/// Puts the place of a row into a table, by the type that it is in and its name.
fn put_place<'a>(
    places: &mut HashMap<(usize, &'a [u8]), usize>,
    place: usize,
    row: &Row<'a>,
) -> Result<(), AllocError>
    ensures { OnOk result (Puts places.old places.new place (row_of row.now)) }
{
    match row.within {
        Some(within) => {
            places.insert((within, row.id), place)?;
            Ok(())
        }
        None => Ok(()),
    }
}

/// The place of the first row of each name in each type. Rows are put in from the last one on, so that of two rows of one name the
/// first is there in the end.
fn places_of<'a>(
    alloc: Global,
    rows: &[Row<'a>],
) -> Result<HashMap<(usize, &'a [u8]), usize>, AllocError>
    ensures { IfOk result (ArePlaced rows.now) }
{
    let mut left = rows.len();
    let mut places = HashMap::with_capacity(alloc, left)?;
    while left > 0 {
        left -= 1;
        put_place(&mut places, left, &rows[left])?;
    }
    Ok(places)
}

/// Rows, and where each is found by the type that it is in and its name. Contracts see the list.
#[derive(Drop)]
pub(crate) struct Rows<'a> {
    list: Vec<Row<'a>>,
    /// The place of the first row of each name in each type.
    places: HashMap<(usize, &'a [u8]), usize>,
}

impl<'a> Model for Rows<'a> {
    ghost use Rattle.std.specs.Prelude.{List};
    ghost use Rattle.std.specs.Coded.{codes};
    ghost use Rattle.ksv_yaml_tree.specs.contracts.tree.Yaml as yaml;
    ghost use Rattle.ksv_schema_names.specs.declared.row.Row.{Row};

    ghost Value = { List Row };

    ghost coded = { Prim.hlevel (codes, yaml.the_row.coded) };

    ghost use Rattle.ksv_schema_names.specs.Placed.{ArePlaced};

    ghost view = { λ r. r.list.items };

    ghost invariant = { λ r. ArePlaced r.list.items r.places };
}

impl<'a> Rows<'a> {
    /// These rows.
    pub(crate) fn new(alloc: Global, list: Vec<Row<'a>>) -> Result<Self, AllocError>
        ensures { IfOk result (λ r. r ≡ list.entry.items) }
    {
        let places = places_of(alloc, &list)?;
        Ok(Rows { list, places })
    }

    /// All of them.
    pub(crate) fn as_slice(&self) -> &[Row<'a>]
        ensures { result.now ≡ self.now }
    {
        self.list.as_slice()
    }
}

/// The first row of this name directly within the type `n`.
pub(crate) fn row_in(rows: &Rows, name: &[u8], n: usize) -> Option<usize>
    ensures value { result ≡ row_in (map row_of rows.now) name.now n }
    ensures inside { IfSome result (λ k. k < length rows.now) }
{
    rows.places.get(&(n, name)).copied()
}
