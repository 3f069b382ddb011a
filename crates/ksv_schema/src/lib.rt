//! Descriptions: what the tree of a description states, with all names resolved, or the least of its faults.
//!
//! Each form of value has one definition, its reading (`specs/Reading`): the faults there, the names after dots in its
//! expressions, and the value. Three folders hold what is read, from small to large: `keys` (which keys each mapping may
//! have, and what the texts at them mean), `values` (what is read at a key, by the form of its value) and `members` (what is
//! read of members, types and enums). `specs/Outcome` puts them together: [`load`] answers the description, or the least
//! fault.
//!
//! A call, in `crates/ksv/src/description.rt`:
//!
//! ```
//! match load(alloc, &tree) {
//!     Ok(desc) => Ok(desc),
//!     Err(fault) => Err(of_description(fault)),
//! }
//! ```
//!
//! Modules:
//!
//! - `description`: `load`: the table of names, the least fault, and else the description
//! - `keys`: which keys each mapping may have, and what the texts at them mean
//! - `keys/expressions`: expressions and types, from texts
//! - `keys/forms`: the table of keys
//! - `keys/ids`: ids with `::` between them, such as the path of an enum
//! - `keys/laws`: the law that a text is read as what it spells
//! - `keys/texts`: the texts of values
//! - `laws`: the laws of descriptions
//! - `members`: what is read of members, types and enums
//! - `members/check`: faults of a type's keys, and limits
//! - `members/description`: what is read of the whole tree, and the description that is made of it
//! - `members/enumeration`: enums and their entries
//! - `members/member`: members: parameters, attributes, parse instances and value instances
//! - `members/number`: the numbers of names, set when all names are known
//! - `values`: what is read at a key, by the form of its value
//! - `values/fault`: codes, and the least fault so far
//! - `values/key`: faults of a mapping's keys, by the table of keys
//! - `values/reader`: where a mapping is, what is read so far, and how parts are put together
//! - `values/rule`: keys that exclude, need or attend each other: a table, and the loop over it
//! - `values/types`: the type at `type`, a switch over types, or contents
//! - `values/valid`: what a value must meet, at `valid`
//! - `values/value`: expressions, paths of enums, contents
//!
//! Definitions (`specs/`):
//!
//! - `Code`: the plain data of the code's values, for private contracts
//! - `Description`: what is read of a whole tree, and the description that it states
//! - `Expressions`: the expression, or the type with arguments, that a text is
//! - `Faults`: a fault is a line and a code; which comes first; the least of a list
//! - `KeyCode`: the plain data of the code of `keys`, for private contracts
//! - `KeyTexts`: what the texts at keys mean
//! - `Keys`: which keys each mapping may have, and what is at them
//! - `Members`: what is read of a parameter, an attribute or an instance
//! - `Outcome`: a tree without a fault states a description, another is refused for its least fault
//! - `Plain`: the plain data of what is read of enums, for private contracts
//! - `Reading`: readings: faults, names after dots, a value; how they are put together
//! - `Rules`: faults of a mapping's keys, alone and together
//! - `Valid`: what is read at `valid`
//! - `Values`: what is read at a key, by the form of its value
//!
//! Lemmas (`proofs/`):
//!
//! - `Both`: two readings one after the other
//! - `Bytes`: numbers of one byte, and the items of `contents`
//! - `CaseKeys`: the forms of an expression as keys of `cases`
//! - `Common`: what many of them name, of definitions and of other crates
//! - `Each`: a loop that reads each element of a list
//! - `Enums`: enums have no names after dots
//! - `Expressions`: what a text is taken for is what it spells
//! - `FaultlessKeys`: without faults each key has what it must have, and the keys fit together
//! - `Fields`: what is read of a member is good
//! - `Given`: numbers and ids of entries that come twice
//! - `GoodMembers`: without faults each member and type is stated, and its names lead somewhere
//! - `GoodValid`: what is read at `valid` is good
//! - `GoodValues`: what is read at a key is good
//! - `Good`: a good reading: without faults it has a value, of which something holds
//! - `InPlace`: a loop that changes each element of a list in its place
//! - `Items`: the items of `contents`
//! - `Least`: what is noted of a list is its least fault
//! - `Limits`: the first line past a limit
//! - `Made`: a loop that makes something of each element
//! - `Named`: names that are texts; names of members added one after the other
//! - `Noted`: faults noted one after another
//! - `OwnNames`: without faults names of members and ids of types are texts
//! - `Paths`: names with `::` between them
//! - `Spellings`: reading a text gives what the text is taken for
//! - `Texts`: ids are texts
//! - `Theorem`: the least fault and the description are those of the tree
//! - `Whole`: without faults each encoding is known, and each enum has its entries
#![tactic(auto)]

mod description;
mod keys;
mod laws;
mod members;
mod values;

pub use description::load;
pub use keys::laws::texts_are_spelled;
pub use ksv_desc::Desc;
pub use laws::{descriptions_are_resolved, faultless_trees_state, faulty_trees_are_refused};
pub use values::fault::{DescFault, DescFaultKind};
