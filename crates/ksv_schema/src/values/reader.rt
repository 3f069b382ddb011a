//! Where a mapping is, what is read so far, and how parts are put together.

ghost use Rattle.std.specs.Prelude.{◌≡◌, map, Some, IfOk};
ghost use Rattle.ksv_yaml_tree.specs.View.{pair};
ghost use Rattle.ksv_schema_names.specs.Table.{declared};
ghost use Rattle.ksv_schema.specs.Values.{home_of, once, position_at};
ghost use Rattle.ksv_schema.specs.Code.{seen_home, present, paired, both_of, after, kept_if, kept_where, whole_if, items_of, pushed, Pushes};

use crate::values::fault::Least;
use ksv_schema_names::{Names, Position, Role, Scopes, Site};
use ksv_yaml_tree::Entry;
use ksv_yaml_tree::keys::says;
use std::alloc::{AllocError, Global};

/// What is read so far: the names after dots, after those of members, and the least fault.
#[derive(Drop)]
pub(crate) struct Reader {
    /// Where what is read is kept.
    pub alloc: Global,
    /// The names.
    pub names: Names,
    /// The least fault.
    pub least: Least,
}

/// Where a mapping is: in which type, whether in its `seq`, and whether it is of something repeated.
#[derive(Clone, Copy)]
pub(crate) struct Home<'a> {
    pub scopes: &'a Scopes<'a>,
    pub within: usize,
    pub in_sequence: bool,
    pub is_repeated: bool,
}

/// The keys of what is read, and what their values depend on.
#[derive(Clone, Copy)]
pub(crate) struct FieldKeys<'a, 'e> {
    /// Where their mapping is.
    pub home: &'a Home<'a>,
    /// The keys, with their values.
    pub entries: &'e [Entry],
    /// The keys that the type of a case must fit to.
    pub beside: &'e [Entry],
    /// The number of the enum at `enum`.
    pub enumeration: Option<u32>,
}

/// What is read of a part of a tree: nothing where something is missing, which has a fault. Only memory is refused.
pub(crate) type Read<T> = Result<Option<T>, AllocError>;

/// The place of a member's mapping, in the type of this number.
pub(crate) fn home_of<'a>(
    scopes: &'a Scopes<'a>,
    within: usize,
    role: Role,
    entries: &[Entry],
) -> Home<'a>
    ensures { seen_home result ≡ home_of (declared scopes.now) within role (map pair entries.now) }
{
    let is_eos = says(entries, b"repeat", b"eos");
    Home {
        scopes,
        within,
        in_sequence: matches!(role, Role::Attribute),
        is_repeated: is_eos
            | says(entries, b"repeat", b"expr")
            | says(entries, b"repeat", b"until"),
    }
}

/// A home, of what isn't repeated.
pub(crate) fn once<'a>(home: &Home<'a>) -> Home<'a>
    ensures { seen_home result ≡ once (seen_home home.now) }
{
    Home {
        scopes: home.scopes,
        within: home.within,
        in_sequence: home.in_sequence,
        is_repeated: false,
    }
}

/// Where an expression of a mapping is.
pub(crate) fn position_at(home: &Home, site: Site) -> Position
    ensures { result ≡ position_at (seen_home home.now) site }
{
    Position {
        site,
        in_sequence: home.in_sequence,
        is_repeated: home.is_repeated,
    }
}

// ---- parts put together

// A function that holds owned parts while it reads the next one would drop each of them on every early return, and each
// such return is proved by itself. These functions alone drop them, for all types at once.

/// Two parts, if both are there.
pub(crate) fn paired<A: Drop, B: Drop>(one: Option<A>, other: Option<B>) -> Option<(A, B)>
    ensures { result ≡ paired one other }
{
    match one {
        Some(one) => match other {
            Some(other) => Some((one, other)),
            None => None,
        },
        None => None,
    }
}

/// A part at a key that may be absent, where it isn't.
pub(crate) fn present<T: Drop>(part: Read<T>) -> Read<Option<T>>
    ensures { result ≡ present part }
{
    match part {
        Ok(Some(part)) => Ok(Some(Some(part))),
        Ok(None) => Ok(None),
        Err(refused) => Err(refused),
    }
}

/// A part, without the other one.
pub(crate) fn alone<A, B: Drop>(one: A, _other: B) -> A
    ensures { result ≡ one }
{
    one
}

/// A part and the next one, if both are there.
pub(crate) fn both<A: Drop, B: Drop>(one: Option<A>, other: Read<B>) -> Read<(A, B)>
    ensures { result ≡ both_of one other }
{
    match other {
        Ok(other) => Ok(paired(one, other)),
        Err(refused) => Err(refused),
    }
}

/// A part, if the one before it is there too.
pub(crate) fn after<A: Drop, B: Drop>(one: Option<A>, part: Read<B>) -> Read<B>
    ensures { result ≡ after one part }
{
    match both(one, part) {
        Ok(Some((_one, part))) => Ok(Some(part)),
        Ok(None) => Ok(None),
        Err(refused) => Err(refused),
    }
}

/// A part, where memory sufficed for what comes with it.
pub(crate) fn kept<A: Drop>(part: A, done: Result<(), AllocError>) -> Read<A>
    ensures { result ≡ kept_if part done }
{
    match done {
        Ok(()) => Ok(Some(part)),
        Err(refused) => Err(refused),
    }
}

/// What was made, if all of it was.
pub(crate) fn whole<A: Drop>(made: A, all: Result<bool, AllocError>) -> Read<A>
    ensures { result ≡ whole_if made all }
{
    match all {
        Ok(true) => Ok(Some(made)),
        Ok(false) => Ok(None),
        Err(refused) => Err(refused),
    }
}

/// Adds an item, if it is there, and returns whether it is.
pub(crate) fn add<T: Drop>(made: &mut Vec<T>, next: Option<T>) -> Result<bool, AllocError>
    ensures { IfOk result (λ all. kept_where all made.new.items ≡ pushed (Some made.old.items) next) }
{
    match next {
        Some(item) => {
            made.push(item)?;
            Ok(true)
        }
        None => Ok(false),
    }
}

/// A list with one item more, if both are there.
pub(crate) fn pushed<T: Drop>(made: Option<Vec<T>>, next: Read<T>) -> Read<Vec<T>>
    ensures { IfOk result (λ o. Pushes (items_of made) next (items_of o)) }
{
    match both(made, next)? {
        Some((mut made, next)) => {
            made.push(next)?;
            Ok(Some(made))
        }
        None => Ok(None),
    }
}
