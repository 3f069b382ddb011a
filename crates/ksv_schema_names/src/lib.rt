//! The names of a description: the types, members and enums that its tree declares, which of them an expression may name, and
//! the numbers that names get.
//!
//! A name is looked up in the type where it is used and then in the types around it, the nearest first; the byte
//! order and the encoding in force are found in the same way. A bare name in an expression is a member of the type that the
//! expression is in. Some names of the language are allowed only at certain keys, so a [`Position`] has the key of
//! its expression.
//!
//! A call, in `crates/ksv_schema/src/description.rt`:
//!
//! ```
//! let scopes = Scopes::new(alloc, tree)?;
//! ```
//!
//! Modules:
//!
//! - `built_ins`: the types of the language
//! - `entries`: the numbers and ids of an enum
//! - `faults`: what is wrong with the names of an expression
//! - `laws`: the laws of expressions and tables
//! - `members`: the members of each type
//! - `numbering`: the numbers of an expression's names, set in place
//! - `outwards`: names, byte order and encoding, looked up from a type outwards
//! - `position`: where an expression is, and what is wrong with a name there
//! - `row`: a type or an enum as a row
//! - `rows`: types and enums as rows in the order of the text, each with the type that it is in
//! - `scopes`: `Scopes`, the table of what a tree declares
//!
//! Definitions (`specs/`):
//!
//! - `BuiltIn`: the types of the language
//! - `Code`: the plain data of the code's values, for private contracts
//! - `Enums`: the numbers and ids of enums
//! - `Members`: the members of each type, in the order of the text
//! - `Names`: what is wrong with the names of an expression at its place
//! - `Numbered`: an expression with the numbers of its names
//! - `Placed`: the places of rows, by the type that each is in and its name
//! - `Resolved`: laws: the least fault, and expressions whose names are resolved
//! - `Rows`: types and enums as rows, and the rows that a tree declares
//! - `Table`: what the table of a tree holds
//! - `Types`: lookup of names, byte order and encoding from a type outwards
//! - `View`: the plain data of the code's rows
//!
//! Lemmas (`proofs/`):
//!
//! - `Common`: what many of them name, of definitions and of other crates
//! - `Forms`: the faults of an expression, form by form
//! - `Found`: what is found is there: types, names, members of enums
//! - `Lookup`: lookup of names
//! - `Made`: lists to which a loop adds what it makes of each element
//! - `Noted`: the least fault, part after part
//! - `Numbers`: the numbers of an expression are those of its parts
//! - `Placed`: the table of the places of rows
//! - `Resolving`: in an expression without faults each numbered name leads somewhere
//! - `Weight`: the types in a type are smaller than it
#![tactic(auto)]

mod built_ins;
mod entries;
mod faults;
mod laws;
mod members;
mod numbering;
mod outwards;
mod position;
mod row;
mod rows;
mod scopes;

pub use built_ins::{BuiltIn, built_in, built_in_at};
pub use entries::{id_of, number_of};
pub use faults::{argument_fault, name_fault};
pub use ksv_desc::{ByteOrder, Names};
pub use laws::{faultless_is_resolved, least_is_told};
pub use members::{Member, Role};
pub use numbering::{given_member, number_arguments, number_expr, number_type};
pub use outwards::order_named;
pub use position::{NameFault, Position, Site};
pub use row::Row;
pub use scopes::Scopes;
