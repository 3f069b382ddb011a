//! What is wrong with a whole description: with the keys of its types, and what is past a limit.

ghost use Rattle.std.specs.Prelude.{◌≡◌, ◌++◌, OnOk, IfOk, map, flat_map, slice_get};
ghost use Rattle.ksv_yaml_tree.specs.View.{pair};
ghost use Rattle.ksv_schema_names.specs.Rows.{keys_of};
ghost use Rattle.ksv_schema_names.specs.View.{row_of, member_of};
ghost use Rattle.ksv_schema.specs.Faults.{noted};
ghost use Rattle.ksv_schema.specs.Description.{line_at, line_past, most_types, most_members, most_entries, past, meta_faults, type_keys_faults, type_faults, all_types_faults};
ghost use Rattle.ksv_schema.specs.Code.{seen_fault};
ghost use Rattle.ksv_schema.specs.Plain.{AreRising};

use crate::DescFaultKind::{BadValue, LeftOut, OverLimit};
use crate::keys::forms::{MappingKind, is_id};
use crate::values::fault::{Least, note, note_if};
use crate::values::key::{note_keys, note_missing};
use crate::values::rule::note_at_if;
use ksv_schema_names::{Member, Row};
use ksv_yaml_tree::{Entry, find};
use std::alloc::{AllocError, Global};

// ---- limits: 1,024 types, 256 members of a type, 65,536 entries of enums

/// The line of the first type past the limit.
pub(crate) fn type_past(types: &[Row]) -> Option<usize>
    ensures { result ≡ line_at (λ r. r.line) most_types (map row_of types.now) }
{
    Some(types.get(1024)?.line)
}

/// The line of the first member past the limit.
pub(crate) fn member_past(members: &[Member]) -> Option<usize>
    ensures { result ≡ line_at (λ m. m.line) most_members (map member_of members.now) }
{
    Some(members.get(256)?.line)
}

/// Adds the lines of entries.
fn add_lines(lines: &mut Vec<usize>, entries: &[Entry]) -> Result<(), AllocError>
    ensures { OnOk result (lines.new.items ≡ lines.old.items ++ map (λ p. p.line) (map pair entries.now)) }
{
    for entry in entries {
        lines.push(entry.line())?;
    }
    Ok(())
}

/// The lines of the entries of all enums.
fn lines_of(alloc: Global, enums: &[Row]) -> Result<Vec<usize>, AllocError>
    ensures { IfOk result (λ v. v.items ≡ map (λ p. p.line) (flat_map keys_of (map row_of enums.now))) }
{
    let mut lines = Vec::new(alloc);
    for row in enums {
        add_lines(&mut lines, row.entries())?;
    }
    Ok(lines)
}

/// The lines of the entries of all enums, in ascending order.
fn rising_lines(alloc: Global, enums: &[Row]) -> Result<Vec<usize>, AllocError>
    ensures { IfOk result (λ v. AreRising (map (λ p. p.line) (flat_map keys_of (map row_of enums.now))) v.items) }
{
    let mut lines = lines_of(alloc, enums)?;
    lines.sort()?;
    Ok(lines)
}

/// The line of this number.
fn line_of(lines: &[usize], number: usize) -> Option<usize>
    ensures { result ≡ slice_get lines.now number }
{
    lines.get(number).copied()
}

/// The lowest line up to which there are more entries of enums than the limit.
pub(crate) fn line_past(alloc: Global, enums: &[Row]) -> Result<Option<usize>, AllocError>
    ensures { IfOk result (λ o. o ≡ line_past most_entries (map (λ p. p.line) (flat_map keys_of (map row_of enums.now)))) }
{
    let lines = rising_lines(alloc, enums)?;
    Ok(line_of(lines.as_slice(), 65536))
}

/// Notes what is past a limit.
#[tactic(auto, using(crate::proofs::Noted::steps))]
pub(crate) fn note_past(least: &mut Least, line: Option<usize>)
    ensures { seen_fault least.new ≡ noted (seen_fault least.old) (past line) }
{
    match line {
        None => {}
        Some(line) => note(least, line, OverLimit),
    }
}

// ---- types, whose members are read by themselves

/// Notes what is wrong with the `meta` of the type of this number.
#[tactic(auto, using(crate::proofs::Noted::steps), unfolding(crate::specs::Description::meta_faults))]
fn note_meta(least: &mut Least, number: usize, meta: &Entry)
    ensures { seen_fault least.new ≡ noted (seen_fault least.old) (meta_faults number (pair meta.now)) }
{
    let value = meta.value();
    match value.entries() {
        Some(keys) => {
            if number == 0 {
                note_keys(least, MappingKind::RootMeta, keys);
                note_missing(least, b"id", value.line(), keys);
            } else {
                note_keys(least, MappingKind::Meta, keys);
            }
        }
        None => {}
    }
}

/// Notes what is wrong with the keys of the type of this number.
#[tactic(auto, using(crate::proofs::Noted::steps), unfolding(crate::specs::Description::type_keys_faults))]
fn note_type_keys(least: &mut Least, number: usize, line: usize, entries: &[Entry])
    ensures { seen_fault least.new ≡ noted (seen_fault least.old) (type_keys_faults number line (map pair entries.now)) }
{
    if number == 0 {
        note_keys(least, MappingKind::Root, entries);
        note_missing(least, b"meta", line, entries);
        note_at_if(least, true, find(entries, b"params"), LeftOut);
    } else {
        note_keys(least, MappingKind::Type, entries);
    }
    match find(entries, b"meta") {
        Some(meta) => note_meta(least, number, meta),
        None => {}
    }
}

/// Notes what is wrong with the type of this number.
#[tactic(auto, using(crate::proofs::Noted::steps), unfolding(crate::specs::Description::type_faults))]
fn note_type(least: &mut Least, number: usize, row: &Row)
    ensures { seen_fault least.new ≡ noted (seen_fault least.old) (type_faults number (row_of row.now)) }
{
    match row.value.entries() {
        Some(entries) => note_type_keys(least, number, row.line, entries),
        None => note(least, row.line, BadValue),
    }
    let is_inner = number != 0;
    note_if(least, is_inner & !is_id(row.id), row.line, BadValue);
}

/// Notes what is wrong with each type.
pub(crate) fn note_types(least: &mut Least, types: &[Row])
    ensures { seen_fault least.new ≡ noted (seen_fault least.old) (all_types_faults 0 (map row_of types.now)) }
{
    for (number, row) in types.iter().enumerate() {
        note_type(least, number, row);
    }
}
