//! The members of types, of each type in the order of the text.

ghost use Rattle.std.specs.Prelude.{◌≡◌, ◌++◌, map, OnOk, IfOk, flat_map, option_map, slice_get, filter, length};
ghost use Rattle.std.specs.List.{position_from};
ghost use Rattle.std.specs.Str.{bytes_eq};
ghost use Rattle.ksv_yaml_tree.specs.View.{view, pair, seen_text};
ghost use Rattle.ksv_yaml_tree.specs.Keys.{text_at, entries_in};
ghost use Rattle.ksv_schema_names.specs.Members.{item, items_from, instance, members_at_key, members_of, is_in_params, is_parameter};
ghost use Rattle.ksv_schema_names.specs.View.{member_of, row_of};

use crate::row::Row;
use ksv_yaml_tree::keys::{entries_in, items_in, text_at};
use ksv_yaml_tree::{Entry, Yaml};
use std::alloc::{AllocError, Global};

/// Which key of its type a member is in.
#[derive(Clone, Copy, Debug)]
pub enum Role {
    /// In `params`.
    Parameter,
    /// In `seq`.
    Attribute,
    /// In `instances`.
    Instance,
}

/// A member's name.
#[derive(Drop)]
pub(crate) enum MemberName<'a> {
    /// As the text has it.
    Written(&'a [u8]),
    /// That of an attribute without an id.
    Made(String),
}

/// A parameter, attribute or instance of a type.
#[derive(Drop)]
pub struct Member<'a> {
    /// Which key it is in.
    pub role: Role,
    /// Its first line; for an instance, the line of its name.
    pub line: usize,
    pub(crate) name: MemberName<'a>,
    /// Its value.
    pub value: &'a Yaml,
}

impl<'a> Member<'a> {
    /// Its name: `_unnamedK` for an attribute without an id, and the empty text for a parameter without one.
    pub fn name(&self) -> &[u8]
        ensures { result.now ≡ (member_of self.now).name }
    {
        match &self.name {
            MemberName::Written(name) => name,
            MemberName::Made(name) => name.as_str().as_bytes(),
        }
    }
}

/// The item of this number in `params` or `seq`.
fn item<'a>(
    alloc: Global,
    role: Role,
    number: usize,
    value: &'a Yaml,
) -> Result<Member<'a>, AllocError>
    ensures { IfOk result (λ m. member_of m ≡ item role number (view value.now)) }
{
    let name = match text_at(entries_in(value), b"id") {
        Some(id) => MemberName::Written(id),
        None => match role {
            Role::Attribute => MemberName::Made(format!(in alloc; "_unnamed{number}")?),
            Role::Parameter | Role::Instance => MemberName::Written(&[]),
        },
    };
    Ok(Member {
        role,
        line: value.line(),
        name,
        value,
    })
}

/// Adds the items of `params` or `seq`.
fn add_items<'a>(
    alloc: Global,
    members: &mut Vec<Member<'a>>,
    role: Role,
    items: &'a [Yaml],
) -> Result<(), AllocError>
    ensures { OnOk result (map member_of members.new.items ≡ map member_of members.old.items ++ items_from role 0 (map view items.now)) }
{
    for (number, value) in items.iter().enumerate() {
        members.push(item(alloc, role, number, value)?)?;
    }
    Ok(())
}

/// Adds instances.
fn add_instances<'a>(members: &mut Vec<Member<'a>>, entries: &'a [Entry]) -> Result<(), AllocError>
    ensures { OnOk result (map member_of members.new.items ≡ map member_of members.old.items ++ map instance (map pair entries.now)) }
{
    for entry in entries {
        members.push(Member {
            role: Role::Instance,
            line: entry.line(),
            name: MemberName::Written(entry.key()),
            value: entry.value(),
        })?;
    }
    Ok(())
}

/// Adds the members at one key of a type.
#[tactic(auto, unfolding(crate::specs::Members::members_at_key))]
fn add_at_key<'a>(
    alloc: Global,
    members: &mut Vec<Member<'a>>,
    entry: &'a Entry,
) -> Result<(), AllocError>
    ensures { OnOk result (map member_of members.new.items ≡ map member_of members.old.items ++ members_at_key (pair entry.now)) }
{
    let key = entry.key();
    let value = entry.value();
    if key == b"params".as_slice() {
        return add_items(alloc, members, Role::Parameter, items_in(value));
    }
    if key == b"seq".as_slice() {
        return add_items(alloc, members, Role::Attribute, items_in(value));
    }
    if key == b"instances".as_slice() {
        return add_instances(members, entries_in(value));
    }
    Ok(())
}

/// The members of a type.
#[tactic(auto, unfolding(crate::specs::Members::members_of))]
fn members_of<'a>(alloc: Global, row: &Row<'a>) -> Result<Vec<Member<'a>>, AllocError>
    ensures { IfOk result (λ v. map member_of v.items ≡ members_of (row_of row.now)) }
{
    let mut members = Vec::new(alloc);
    for entry in row.entries() {
        add_at_key(alloc, &mut members, entry)?;
    }
    Ok(members)
}

/// The members of each type.
pub(crate) fn members_of_each<'a>(
    alloc: Global,
    types: &[Row<'a>],
) -> Result<Vec<Vec<Member<'a>>>, AllocError>
    ensures { IfOk result (λ v. map (λ w. map member_of w.items) v.items ≡ map members_of (map row_of types.now)) }
{
    let mut members = Vec::new(alloc);
    for row in types {
        members.push(members_of(alloc, row)?)?;
    }
    Ok(members)
}

/// The members of the type `n`.
pub(crate) fn members_at<'s, 'a>(
    members: &'s [Vec<Member<'a>>],
    n: usize,
) -> Option<&'s [Member<'a>]>
    ensures { option_map (λ m. map member_of m.now) result ≡ slice_get (map (λ v. map member_of v.items) members.now) n }
{
    Some(members.get(n)?.as_slice())
}

/// The place of the first member of this name.
pub(crate) fn first_named(members: &[Member], name: &[u8]) -> Option<usize>
    ensures { result ≡ position_from (λ m. bytes_eq m.name name.now) 0 (map member_of members.now) }
{
    for (place, member) in members.iter().enumerate() {
        if member.name() == name {
            return Some(place);
        }
    }
    None
}

/// Whether a member is in `params`.
fn is_parameter(member: &Member) -> bool
    ensures { result ≡ is_in_params member.now.role }
{
    matches!(member.role, Role::Parameter)
}

/// How many of these members are parameters.
#[tactic(auto, using(crate::proofs::Lookup::parameters_counted))]
pub(crate) fn count_parameters(members: &[Member]) -> usize
    ensures { result ≡ length (filter is_parameter (map member_of members.now)) }
{
    members.iter().filter(|member| is_parameter(member)).count()
}
