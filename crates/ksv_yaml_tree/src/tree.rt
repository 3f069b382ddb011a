//! The tree that a text spells, and how it is read.

ghost use Rattle.std.specs.Prelude.{◌≡◌, map};
ghost use Rattle.ksv_yaml_tree.specs.Tree.{Tree, Seq, line_of, text_of, is_quoted, list_of, mapping_of, entry_at};
ghost use Rattle.ksv_yaml_tree.specs.View.{items_of, entries_of, view, pair, seen_text, seen_items, seen_entries, seen_entry};

/// A node of a text, with the line on which it begins, from 1.
#[derive(Drop)]
#[cycle(tree)]
pub enum Yaml {
    /// A plain, quoted or block scalar: its text in UTF-8, and whether it was quoted. A missing value is the empty
    /// plain text, on its entry's line.
    Text {
        line: usize,
        quoted: bool,
        text: Vec<u8>,
    },
    /// A sequence of blocks or a flow sequence.
    List {
        line: usize,
        items: Vec<Yaml>,
    },
    /// A mapping of blocks or a flow mapping: its entries in the order of the text, no two with one key.
    Map {
        line: usize,
        entries: Vec<Entry>,
    },
}

/// An entry of a mapping: its key with the key's line, and its value.
#[derive(Drop)]
#[cycle(tree)]
pub struct Entry {
    pub line: usize,
    pub key: Vec<u8>,
    pub value: Yaml,
}

impl Yaml {
    /// The line on which the node begins.
    pub fn line(&self) -> usize
        ensures { result ≡ line_of (view self.now) }
    {
        match self {
            Yaml::Text { line, .. } => *line,
            Yaml::List { line, .. } => *line,
            Yaml::Map { line, .. } => *line,
        }
    }

    /// The text, if the node is one.
    pub fn text(&self) -> Option<&[u8]>
        ensures { seen_text result ≡ text_of (view self.now) }
    {
        match self {
            Yaml::Text { text, .. } => Some(text.as_slice()),
            Yaml::List { .. } => None,
            Yaml::Map { .. } => None,
        }
    }

    /// Whether the node is a text that was written between quotes.
    pub fn is_quoted(&self) -> bool
        ensures { result ≡ is_quoted (view self.now) }
    {
        match self {
            Yaml::Text { quoted, .. } => *quoted,
            Yaml::List { .. } => false,
            Yaml::Map { .. } => false,
        }
    }

    /// The items, if the node is a sequence.
    pub fn items(&self) -> Option<&[Yaml]>
        ensures { seen_items result ≡ list_of (view self.now) }
    {
        match self {
            Yaml::Text { .. } => None,
            Yaml::List { items, .. } => Some(items.as_slice()),
            Yaml::Map { .. } => None,
        }
    }

    /// The entries in the order of the text, if the node is a mapping.
    pub fn entries(&self) -> Option<&[Entry]>
        ensures { seen_entries result ≡ mapping_of (view self.now) }
    {
        match self {
            Yaml::Text { .. } => None,
            Yaml::List { .. } => None,
            Yaml::Map { entries, .. } => Some(entries.as_slice()),
        }
    }
}

impl Entry {
    /// The key's line.
    pub fn line(&self) -> usize
        ensures { result ≡ (pair self.now).line }
    {
        self.line
    }

    /// The key's text, in UTF-8.
    pub fn key(&self) -> &[u8]
        ensures { result.now ≡ (pair self.now).key }
    {
        self.key.as_slice()
    }

    /// The value of the key.
    pub fn value(&self) -> &Yaml
        ensures { view result.now ≡ (pair self.now).value }
    {
        &self.value
    }
}

/// The entry at a key.
pub fn find<'a>(entries: &'a [Entry], key: &[u8]) -> Option<&'a Entry>
    ensures { seen_entry result ≡ entry_at key.now (map pair entries.now) }
{
    for entry in entries {
        if entry.key() == key {
            return Some(entry);
        }
    }
    None
}
