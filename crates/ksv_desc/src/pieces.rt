//! All pieces of a description.

use crate::enums::EnumDesc;
use crate::names::Names;
use crate::type_desc::TypeDesc;

/// What a description holds.
#[derive(Drop)]
pub struct Pieces {
    /// Its types; the first is the root.
    pub types: Vec<TypeDesc>,
    /// Its enums.
    pub enums: Vec<EnumDesc>,
    /// Its names: those of members, and then those that are only after dots.
    pub names: Names,
    /// How many names are those of members.
    pub known: usize,
}
