//! A type or an enum as a row of the table.

ghost use Rattle.std.specs.Prelude.{◌≡◌, map};
ghost use Rattle.ksv_yaml_tree.specs.View.{pair};
ghost use Rattle.ksv_schema_names.specs.Rows.{keys_of};
ghost use Rattle.ksv_schema_names.specs.View.{row_of};

use ksv_yaml_tree::keys::entries_in;
use ksv_yaml_tree::{Entry, Yaml};

/// A type or an enum.
#[derive(Clone, Copy)]
pub struct Row<'a> {
    /// The number of the type that it is in; None for the root.
    pub within: Option<usize>,
    /// The line of its name; for the root, its first line.
    pub line: usize,
    /// Its name; for the root, its own id.
    pub id: &'a [u8],
    /// Its value.
    pub value: &'a Yaml,
}

impl<'a> Row<'a> {
    /// The keys of a type, or the entries of an enum.
    pub fn entries(&self) -> &'a [Entry]
        ensures { map pair result.now ≡ keys_of (row_of self.now) }
    {
        entries_in(self.value)
    }
}
