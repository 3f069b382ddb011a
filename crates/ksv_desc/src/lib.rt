//! What a description is: its types with their members, its enums and its names, each known by its number.
//!
//! A [`Desc`] has all its references resolved. Which description a tree states is defined by the loader (ksv_schema).
//!
//! A call, in `crates/ksv_paths/src/path_text.rt`:
//!
//! ```
//! Some(text) => desc.number_of(text),
//! None => None,
//! ```
//!
//! Modules:
//!
//! - `content`: what is read at a member
//! - `description`: a whole description, and its readers
//! - `enums`: enums and their entries
//! - `field`: how an attribute or a parse instance is read
//! - `laws`: the law of tables of names
//! - `members`: members of types
//! - `names`: the names of a description, by number
//! - `order`: which byte of an integer comes first
//! - `pieces`: all pieces of a description
//! - `text`: bytes that are a text
//! - `type_desc`: types: their names and members
//! - `valid`: what a value must meet
//!
//! Definitions (`specs/`):
//!
//! - `Code`: the plain data of the code's values, for private contracts
//! - `Description`: what a description is: types with their members, enums, names, and what is asked of them
//! - `Names`: tables of names, and the names after the dots of an expression
//! - `Pieces`: the plain data of the code's pieces of a description
//! - `Resolved`: each number in a description belongs to something in it
//! - `Sequence`: which members are in a `seq`
//! - `Whole`: the plain data of a whole description in the code
//!
//! Lemmas (`proofs/`):
//!
//! - `Dots`: the names after the dots of an expression, form by form
//! - `Firsts`: tables of the places of first elements, made from the last element on
//! - `Numbered`: the entries of an enum by their numbers
//! - `Readers`: what the readers of a description return
//! - `Table`: the table of names as the code holds it
//! - `Tabled`: names that were added to a table are there, each once
//! - `Views`: the plain trees of an expression's forms
#![tactic(auto)]

mod content;
mod description;
mod enums;
mod field;
mod laws;
mod members;
mod names;
mod order;
mod pieces;
mod text;
mod type_desc;
mod valid;

pub use content::{Case, CaseValue, Choice, Content, is_truth};
pub use description::Desc;
pub use enums::{EnumDesc, EnumEntry};
pub use field::{Extent, Field, Repeat, Terminator};
pub use laws::names_are_tabled;
pub use members::{MemberDesc, MemberKind};
pub use names::Names;
pub use order::ByteOrder;
pub use pieces::Pieces;
pub use text::as_text;
pub use type_desc::TypeDesc;
pub use valid::Valid;
