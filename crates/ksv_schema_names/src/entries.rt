//! The entries of enums: numbers with their ids.

ghost use Rattle.std.specs.Prelude.{◌≡◌, map, find, option_and_then};
ghost use Rattle.ksv_yaml_tree.specs.View.{pair, seen_text};
ghost use Rattle.ksv_schema_names.specs.Enums.{number_of, id_of, is_numbered, is_named};

use ksv_yaml_tree::keys::{entries_in, text_at};
use ksv_yaml_tree::{Entry, Numeral, signed_number};

/// The number that the key of an entry is.
#[tactic(auto, unfolding(crate::specs::Enums::number_of))]
pub fn number_of(entry: &Entry) -> Option<i128>
    ensures { result ≡ number_of (pair entry.now) }
{
    match signed_number(entry.key()) {
        Numeral::Whole(number) => Some(number),
        Numeral::LeadingZero => None,
        Numeral::NoNumeral => None,
    }
}

/// The id of an entry: its text, or the text at `id` of its mapping.
#[tactic(auto, unfolding(crate::specs::Enums::id_of))]
pub fn id_of(entry: &Entry) -> Option<&[u8]>
    ensures { seen_text result ≡ id_of (pair entry.now) }
{
    match entry.value().text() {
        Some(text) => Some(text),
        None => text_at(entries_in(entry.value()), b"id"),
    }
}

fn is_numbered(entry: &Entry, number: i128) -> bool
    ensures { result ≡ is_numbered number (pair entry.now) }
{
    match number_of(entry) {
        Some(other) => other == number,
        None => false,
    }
}

fn is_named(entry: &Entry, id: &[u8]) -> bool
    ensures { result ≡ is_named id.now (pair entry.now) }
{
    match id_of(entry) {
        Some(other) => other == id,
        None => false,
    }
}

/// The id of the first entry that has this number.
pub(crate) fn id_in<'a>(entries: &'a [Entry], number: i128) -> Option<&'a [u8]>
    ensures { seen_text result ≡ option_and_then id_of (find (is_numbered number) (map pair entries.now)) }
{
    for entry in entries {
        if is_numbered(entry, number) {
            return id_of(entry);
        }
    }
    None
}

/// The number of the first entry that has this id.
pub(crate) fn number_in(entries: &[Entry], id: &[u8]) -> Option<i128>
    ensures { result ≡ option_and_then number_of (find (is_named id.now) (map pair entries.now)) }
{
    for entry in entries {
        if is_named(entry, id) {
            return number_of(entry);
        }
    }
    None
}
