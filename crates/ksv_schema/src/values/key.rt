//! The faults of the keys of a mapping, each by its form in the table of keys.

ghost use Rattle.std.specs.Prelude.{◌≡◌, [], ◌∷◌, codes, map, flat_map};
ghost use Rattle.std.specs.List.{list_any};
ghost use Rattle.std.specs.Str.{bytes_eq};
ghost use Rattle.ksv_yaml_tree.specs.View.{pair};
ghost use Rattle.ksv_schema.specs.Keys.{is_ignored};
ghost use Rattle.ksv_schema.specs.Faults.{noted};
ghost use Rattle.ksv_schema.specs.Rules.{numeral_faults, endian_faults, bit_endian_faults, fits, form_text_faults, form_faults, key_faults, missing};
ghost use Rattle.ksv_schema.specs.Code.{seen_fault};

use crate::keys::forms::{Form, MappingKind, form_in, is_id};
use crate::keys::texts::byte_number;
use crate::values::fault::DescFaultKind::{BadValue, LeftOut, MissingKey, UnknownKey};
use crate::values::fault::{Least, note, note_if};
use ksv_expr_value::Encoding;
use ksv_schema_names::order_named;
use ksv_yaml_tree::keys::{entries_in, has};
use ksv_yaml_tree::{Entry, Numeral};

/// Notes a text that isn't a plain number from 0 to 255.
#[tactic(auto, using(crate::proofs::Noted::steps))]
fn note_numeral(least: &mut Least, line: usize, numeral: Numeral)
    ensures { seen_fault least.new ≡ noted (seen_fault least.old) (numeral_faults line numeral) }
{
    match numeral {
        Numeral::Whole(_) => {}
        Numeral::LeadingZero => note(least, line, LeftOut),
        Numeral::NoNumeral => note(least, line, BadValue),
    }
}

/// Notes a bad `endian`: a text that is no byte order, or a choice by `switch-on`, which is unsupported.
#[tactic(auto, unfolding(crate::specs::Rules::endian_faults))]
fn note_endian(least: &mut Least, entry: &Entry)
    ensures { seen_fault least.new ≡ noted (seen_fault least.old) (endian_faults (pair entry.now)) }
{
    let line = entry.line();
    let value = entry.value();
    match value.text() {
        Some(text) => note_if(least, order_named(text).is_none(), line, BadValue),
        None if has(entries_in(value), b"switch-on") => note(least, line, LeftOut),
        None => note(least, line, BadValue),
    }
}

/// Notes a bad `bit-endian`.
#[tactic(auto, using(crate::proofs::Noted::steps), unfolding(crate::specs::Rules::bit_endian_faults))]
fn note_bit_endian(least: &mut Least, line: usize, text: &[u8])
    ensures { seen_fault least.new ≡ noted (seen_fault least.old) (bit_endian_faults line text.now) }
{
    if text == b"be".as_slice() {
        return;
    }
    if text == b"le".as_slice() {
        note(least, line, LeftOut);
    } else {
        note(least, line, BadValue);
    }
}

/// Whether a text is that of a flag.
fn is_flag(text: &[u8]) -> bool
    ensures { result ≡ list_any (bytes_eq text.now) (codes "true" ∷ codes "false" ∷ []) }
{
    if text == b"true".as_slice() {
        return true;
    }
    text == b"false".as_slice()
}

/// Whether a text is allowed at `repeat`.
fn is_repetition(text: &[u8]) -> bool
    ensures { result ≡ list_any (bytes_eq text.now) (codes "eos" ∷ codes "expr" ∷ codes "until" ∷ []) }
{
    if text == b"eos".as_slice() {
        return true;
    }
    if text == b"expr".as_slice() {
        return true;
    }
    text == b"until".as_slice()
}

/// Whether a text is allowed at a key of this form, as far as the text alone decides.
#[tactic(auto, unfolding(crate::specs::KeyTexts::encoding_named))]
fn fits(form: Form, text: &[u8]) -> bool
    ensures { result ≡ fits form text.now }
{
    match form {
        Form::Id => is_id(text),
        Form::Flag => is_flag(text),
        Form::Repeat => is_repetition(text),
        Form::Coding => Encoding::named(text).is_some(),
        Form::ParameterType => text != b"io".as_slice(),
        _ => true,
    }
}

/// Notes a bad text at a key of this form.
fn note_text(least: &mut Least, line: usize, form: Form, text: &[u8])
    ensures { seen_fault least.new ≡ noted (seen_fault least.old) (form_text_faults line form text.now) }
{
    match form {
        Form::Byte => note_numeral(least, line, byte_number(text)),
        Form::BitEndian => note_bit_endian(least, line, text),
        Form::Coding | Form::ParameterType => note_if(least, !fits(form, text), line, LeftOut),
        _ => note_if(least, !fits(form, text), line, BadValue),
    }
}

/// Notes a bad value at a key, by its form. Whoever reads what is stated at a key notes its faults.
#[tactic(auto, using(crate::proofs::Noted::steps), unfolding(crate::specs::Rules::form_faults))]
fn note_form(least: &mut Least, entry: &Entry, form: Form)
    ensures { seen_fault least.new ≡ noted (seen_fault least.old) (form_faults (pair entry.now) form) }
{
    let line = entry.line();
    let value = entry.value();
    match form {
        Form::Ignored | Form::Stated => {}
        Form::NotHere => note(least, line, LeftOut),
        Form::Mapping => note_if(least, value.entries().is_none(), line, BadValue),
        Form::Listing => note_if(least, value.items().is_none(), line, BadValue),
        Form::Endian => note_endian(least, entry),
        _ => match value.text() {
            Some(text) => note_text(least, line, form, text),
            None => note(least, line, BadValue),
        },
    }
}

/// Whether a key has no meaning in a mapping of fixed keys.
#[tactic(auto, unfolding(crate::specs::Keys::is_ignored))]
pub(crate) fn is_ignored(key: &[u8]) -> bool
    ensures { result ≡ is_ignored key.now }
{
    match key.first() {
        None => false,
        Some(first) => *first == b'-' || key == b"doc".as_slice() || key == b"doc-ref".as_slice(),
    }
}

/// Notes a key that such a mapping may not have, or a bad value at it.
#[tactic(auto, using(crate::proofs::Noted::steps), unfolding(crate::specs::Rules::key_faults))]
fn note_key(least: &mut Least, kind: MappingKind, entry: &Entry)
    ensures { seen_fault least.new ≡ noted (seen_fault least.old) (key_faults kind (pair entry.now)) }
{
    if is_ignored(entry.key()) {
        return;
    }
    match form_in(kind, entry.key()) {
        Some(form) => note_form(least, entry, form),
        None => note(least, entry.line(), UnknownKey),
    }
}

/// Notes the faults of each key of a mapping.
pub(crate) fn note_keys(least: &mut Least, kind: MappingKind, entries: &[Entry])
    ensures { seen_fault least.new ≡ noted (seen_fault least.old) (flat_map (key_faults kind) (map pair entries.now)) }
{
    for entry in entries {
        note_key(least, kind, entry);
    }
}

/// Notes a key that must be in a mapping of this line, if it isn't.
pub(crate) fn note_missing(least: &mut Least, key: &[u8], line: usize, entries: &[Entry])
    ensures { seen_fault least.new ≡ noted (seen_fault least.old) (missing key.now line (map pair entries.now)) }
{
    note_if(least, !has(entries, key), line, MissingKey);
}
