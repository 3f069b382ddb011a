//! Nodes and entries as the reader makes them, each with its plain tree.

ghost use Rattle.std.specs.Prelude.{◌≡◌, map};
ghost use Rattle.ksv_yaml_tree.specs.Tree.{Tree, Seq};
ghost use Rattle.ksv_yaml_tree.specs.View.{items_of, entries_of, view, pair};

use ksv_yaml_tree::{Entry, Yaml};

/// A text, made for the reader.
pub(crate) fn make_text(line: usize, quoted: bool, text: Vec<u8>) -> Yaml
    ensures { view result ≡ Tree.Text line quoted (text.items) }
{
    Yaml::Text { line, quoted, text }
}

/// A sequence.
pub(crate) fn make_list(line: usize, items: Vec<Yaml>) -> Yaml
    ensures { view result ≡ Seq line (items_of (map view items.items)) }
{
    Yaml::List { line, items }
}

/// A mapping.
pub(crate) fn make_mapping(line: usize, entries: Vec<Entry>) -> Yaml
    ensures { view result ≡ Tree.Map line (entries_of (map pair entries.items)) }
{
    Yaml::Map { line, entries }
}

/// An entry.
pub(crate) fn make_entry(line: usize, key: Vec<u8>, value: Yaml) -> Entry
    ensures { pair result ≡ record { line = line; key = key.items; value = view value } }
{
    Entry { line, key, value }
}
