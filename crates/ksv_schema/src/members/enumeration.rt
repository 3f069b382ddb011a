//! Enums and their entries.

ghost use Rattle.std.specs.Prelude.{◌≡◌, ◌++◌, ◌∷◌, [], List, OnOk, IfOk, option_map, map, take, false, string_bytes};
ghost use Rattle.std.specs.Option.{option_map_or};
ghost use Rattle.std.specs.Ordering.{int_eq};
ghost use Rattle.std.specs.Str.{bytes_eq};
ghost use Rattle.ksv_yaml_tree.specs.Tree.{Pair};
ghost use Rattle.ksv_yaml_tree.specs.View.{pair, view};
ghost use Rattle.ksv_desc.specs.Description.{as_text};
ghost use Rattle.ksv_desc.specs.Pieces.{plain_entry, plain_enum};
ghost use Rattle.ksv_schema_names.specs.View.{row_of};
ghost use Rattle.ksv_schema_names.specs.Enums.{number_of, id_of, is_numbered, is_named};
ghost use Rattle.ksv_schema.specs.Faults.{noted};
ghost use Rattle.ksv_schema.specs.Reading.{each, each_from};
ghost use Rattle.ksv_schema.specs.Members.{id_line};
ghost use Rattle.ksv_schema.specs.Description.{whole, id_text, id, entry_id, constant, enum};
ghost use Rattle.ksv_schema.specs.Code.{seen_fault, paired, Reads};
ghost use Rattle.ksv_schema.specs.Plain.{has_number, has_id, Gives, Adds, AreOf};

use crate::DescFaultKind::{BadValue, KeysAgainst, LeftOut, MissingKey};
use crate::keys::forms::{MappingKind, is_id};
use crate::values::fault::{Least, note, note_if};
use crate::values::key::note_keys;
use crate::values::reader::{Read, Reader, both, paired, pushed};
use ksv_desc::{EnumDesc, EnumEntry, as_text};
use ksv_schema_names::{Row, id_of, number_of};
use ksv_yaml_tree::keys::entries_in;
use ksv_yaml_tree::{Entry, Numeral, Yaml, find, signed_number};
use std::alloc::{AllocError, Global};
use std::collections::HashSet;

// ---- texts

/// An owned text, if these bytes are one.
pub(crate) fn owned_text(alloc: Global, bytes: &[u8]) -> Read<String>
    ensures { IfOk result (λ o. option_map string_bytes o ≡ as_text bytes.now) }
{
    match as_text(bytes) {
        Some(text) => Ok(Some(String::from_str(alloc, text)?)),
        None => Ok(None),
    }
}

// ---- numbers and ids

/// The number of a numeral on this line.
#[tactic(auto, using(crate::proofs::Noted::steps))]
fn whole(least: &mut Least, line: usize, numeral: Numeral) -> Option<i128>
    ensures value { result ≡ (whole line numeral).value }
    ensures faults { seen_fault least.new ≡ noted (seen_fault least.old) (whole line numeral).faults }
{
    match numeral {
        Numeral::Whole(number) => Some(number),
        Numeral::LeadingZero => {
            note(least, line, LeftOut);
            None
        }
        Numeral::NoNumeral => {
            note(least, line, BadValue);
            None
        }
    }
}

/// A text that must be an id, on this line.
#[tactic(auto, using(crate::proofs::Noted::steps, crate::proofs::Texts::id_is_text))]
fn id_text(reader: &mut Reader, line: usize, text: &[u8]) -> Read<String>
    ensures { Reads (id_text line text.now) string_bytes reader.old reader.new result }
{
    if !is_id(text) {
        note(&mut reader.least, line, BadValue);
        return Ok(None);
    }
    owned_text(reader.alloc, text)
}

/// The id at a key.
#[tactic(auto, using(crate::proofs::Noted::steps))]
fn id_at(reader: &mut Reader, entry: &Entry) -> Read<String>
    ensures { Reads (id (pair entry.now)) string_bytes reader.old reader.new result }
{
    match entry.value().text() {
        Some(text) => id_text(reader, entry.line(), text),
        None => {
            note(&mut reader.least, entry.line(), BadValue);
            Ok(None)
        }
    }
}

/// The id of an entry of an enum: its value, or at a key of it.
#[tactic(auto, using(crate::proofs::Noted::steps), unfolding(crate::specs::Description::entry_id))]
fn entry_id(reader: &mut Reader, entry: &Entry) -> Read<String>
    ensures { Reads (entry_id (pair entry.now)) string_bytes reader.old reader.new result }
{
    let value = entry.value();
    if let Some(text) = value.text() {
        return id_text(reader, entry.line(), text);
    }
    let Some(keys) = value.entries() else {
        note(&mut reader.least, entry.line(), BadValue);
        return Ok(None);
    };
    note_keys(&mut reader.least, MappingKind::Constant, keys);
    match find(keys, b"id") {
        Some(id) => id_at(reader, id),
        None => {
            note(&mut reader.least, value.line(), MissingKey);
            Ok(None)
        }
    }
}

/// The line of an `id`, or this one.
pub(crate) fn id_line(value: &Yaml, line: usize) -> usize
    ensures { result ≡ id_line (view value.now) line }
{
    match find(entries_in(value), b"id") {
        Some(entry) => entry.line(),
        None => line,
    }
}

// ---- numbers and ids that were given before

/// Whether a number was given before; afterwards it is given.
fn give_number(numbers: &mut HashSet<i128>, number: i128) -> Result<bool, AllocError>
    ensures again { IfOk result (λ again. again ≡ has_number numbers.old number) }
    ensures given { OnOk result (Gives (has_number numbers.old) (has_number numbers.new) (int_eq number)) }
{
    let is_new = numbers.insert(number)?;
    Ok(!is_new)
}

/// Whether an id was given before; afterwards it is given.
fn give_id<'a>(ids: &mut HashSet<&'a [u8]>, id: &'a [u8]) -> Result<bool, AllocError>
    ensures again { IfOk result (λ again. again ≡ has_id ids.old id.now) }
    ensures given { OnOk result (Gives (has_id ids.old) (has_id ids.new) (bytes_eq id.now)) }
{
    let is_new = ids.insert(id)?;
    Ok(!is_new)
}

/// Whether the number of an entry was given before.
#[tactic(auto, using(crate::proofs::Given::some_given, crate::proofs::Given::none_given))]
fn see_number(numbers: &mut HashSet<i128>, entry: &Entry) -> Result<bool, AllocError>
    ensures again { IfOk result (λ again. again ≡ option_map_or (has_number numbers.old) (number_of (pair entry.now)) false) }
    ensures given { OnOk result (Adds (has_number numbers.old) (has_number numbers.new) (λ n. is_numbered n (pair entry.now))) }
{
    match number_of(entry) {
        Some(number) => give_number(numbers, number),
        None => Ok(false),
    }
}

/// Whether the id of an entry was given before.
#[tactic(auto, using(crate::proofs::Given::some_given, crate::proofs::Given::none_given))]
fn see_id<'a>(ids: &mut HashSet<&'a [u8]>, entry: &'a Entry) -> Result<bool, AllocError>
    ensures again { IfOk result (λ again. again ≡ option_map_or (has_id ids.old) (id_of (pair entry.now)) false) }
    ensures given { OnOk result (Adds (has_id ids.old) (has_id ids.new) (λ id. is_named id (pair entry.now))) }
{
    match id_of(entry) {
        Some(id) => give_id(ids, id),
        None => Ok(false),
    }
}

/// The numbers and ids that were given so far.
#[derive(Drop)]
pub(crate) struct Seen<'a> {
    pub(crate) numbers: HashSet<i128>,
    pub(crate) ids: HashSet<&'a [u8]>,
}

// ---- entries and enums

/// A number and its id.
fn numbered(number: Option<i128>, id: Option<String>) -> Option<EnumEntry>
    ensures { option_map plain_entry result ≡ option_map (λ x. record { number = x.0; id = x.1 }) (paired number (option_map string_bytes id)) }
{
    match paired(number, id) {
        Some((number, id)) => Some(EnumEntry { number, id }),
        None => None,
    }
}

/// An entry of an enum, after those whose numbers and ids were given.
fn constant<'a>(reader: &mut Reader, seen: &mut Seen<'a>, entry: &'a Entry) -> Read<EnumEntry>
    ensures read { OnOk result ((before : List Pair) → AreOf seen.old before → Reads (constant before (pair entry.now)) plain_entry reader.old reader.new result) }
    ensures given { OnOk result ((before : List Pair) → AreOf seen.old before → AreOf seen.new (before ++ pair entry.now ∷ [])) }
{
    let line = entry.line();
    let is_number_again = see_number(&mut seen.numbers, entry)?;
    let is_id_again = see_id(&mut seen.ids, entry)?;
    note_if(&mut reader.least, is_number_again, line, KeysAgainst);
    let id_line = id_line(entry.value(), line);
    note_if(&mut reader.least, is_id_again, id_line, KeysAgainst);
    let number = whole(&mut reader.least, line, signed_number(entry.key()));
    let id = entry_id(reader, entry)?;
    Ok(numbered(number, id))
}

/// Each of these entries of an enum.
fn constants(reader: &mut Reader, entries: &[Entry]) -> Read<Vec<EnumEntry>>
    ensures { Reads (each_from (λ i. constant (take i (map pair entries.now))) 0 (map pair entries.now)) (λ v. map plain_entry v.items) reader.old reader.new result }
{
    let mut seen = Seen {
        numbers: HashSet::new(reader.alloc),
        ids: HashSet::new(reader.alloc),
    };
    let mut made = Some(Vec::new(reader.alloc));
    for (number, entry) in entries.iter().enumerate() {
        let next = constant(reader, &mut seen, entry)?;
        made = pushed(made, Ok(next))?;
    }
    Ok(made)
}

/// An enum.
#[tactic(auto, using(crate::proofs::Noted::steps))]
fn enumeration(reader: &mut Reader, row: &Row) -> Read<EnumDesc>
    ensures { Reads (enum (row_of row.now)) plain_enum reader.old reader.new result }
{
    let id = id_text(reader, row.line, row.id)?;
    let has_entries = row.value.entries().is_some();
    note_if(&mut reader.least, !has_entries, row.line, BadValue);
    match both(id, constants(reader, row.entries()))? {
        Some((id, entries)) => Ok(Some(EnumDesc::new(reader.alloc, id, entries)?)),
        None => Ok(None),
    }
}

/// Each of these enums.
pub(crate) fn enumerations(reader: &mut Reader, enums: &[Row]) -> Read<Vec<EnumDesc>>
    ensures { Reads (each enum (map row_of enums.now)) (λ v. map plain_enum v.items) reader.old reader.new result }
{
    let mut made = Some(Vec::new(reader.alloc));
    for row in enums {
        let next = enumeration(reader, row);
        made = pushed(made, next)?;
    }
    Ok(made)
}
