//! The table of what a tree declares.

ghost use Rattle.std.specs.Prelude.{◌≡◌, [], map, length, IfOk, IfSome, ◌<◌, ◌^◌, string_bytes};
ghost use Rattle.ksv_yaml_tree.specs.View.{pair, seen_text};
ghost use Rattle.ksv_schema_names.specs.Table.{declared};
ghost use Rattle.ksv_schema_names.specs.Types.{keys_at, type_named, enum_from, order_of, encoding_of};
ghost use Rattle.ksv_schema_names.specs.Members.{members_of, member_named, parameters_within};
ghost use Rattle.ksv_schema_names.specs.Enums.{id_of_number, number_of_id};
ghost use Rattle.ksv_schema_names.specs.View.{row_of, member_of};

use crate::entries::{id_in, number_in};
use crate::members::{Member, count_parameters, first_named, members_at, members_of_each};
use crate::outwards::{Sought, enum_named, keys_at, nearest, order_in, setting, type_named};
use crate::row::Row;
use crate::rows::{Rows, enums_of, types_of};
use ksv_desc::ByteOrder;
use ksv_yaml_tree::{Entry, Yaml};
use std::alloc::{AllocError, Global};
use std::marker::Model;

/// How many types, and how many enums, there is room for.
const LIMIT: usize = 0x1_0000_0000;

/// The place of a type or an enum as its number.
fn numbered(place: Option<usize>) -> Option<u32>
    requires { IfSome place (λ k. k < 2 ^ 32) }
    ensures { result ≡ place }
{
    match place {
        Some(place) => Some(place as u32),
        None => None,
    }
}

/// The types, members and enums that a tree declares, each numbered from 0 in the order of the text.
///
/// It is made once and then only read; no reader takes memory. An unused number gives nothing.
#[derive(Drop)]
pub struct Scopes<'a> {
    tree: &'a Yaml,
    types: Rows<'a>,
    members: Vec<Vec<Member<'a>>>,
    enums: Rows<'a>,
}

impl<'a> Model for Scopes<'a> {
    ghost use Rattle.ksv_yaml_tree.specs.declared.tree.Yaml.{Yaml};
    ghost use Rattle.ksv_yaml_tree.specs.contracts.tree.Yaml as yaml;
    ghost use Rattle.std.specs.Coded.{codes};

    ghost Value = { Yaml };

    ghost coded = { Prim.hlevel (codes, yaml.the_row.coded) };

    ghost use Rattle.ksv_schema_names.specs.Table.{tree_of, IsTable};

    ghost view = { tree_of };

    ghost invariant = { IsTable };
}

impl<'a> Scopes<'a> {
    /// What a tree declares.
    pub fn new(alloc: Global, tree: &'a Yaml) -> Result<Self, AllocError>
        ensures { IfOk result (λ s. s ≡ tree.now) }
    {
        let types = Rows::new(alloc, types_of(alloc, tree)?)?;
        let members = members_of_each(alloc, types.as_slice())?;
        let enums = Rows::new(alloc, enums_of(alloc, types.as_slice())?)?;
        if types.as_slice().len() > LIMIT || enums.as_slice().len() > LIMIT {
            return Err(AllocError);
        }
        Ok(Scopes {
            tree,
            types,
            members,
            enums,
        })
    }

    /// The tree.
    pub fn tree(&self) -> &'a Yaml
        ensures { result.now ≡ self.now }
    {
        self.tree
    }

    /// All types; the first is the root.
    pub fn types(&self) -> &[Row<'a>]
        ensures { map row_of result.now ≡ (declared self.now).types }
    {
        self.types.as_slice()
    }

    /// The enums of all types.
    pub fn enums(&self) -> &[Row<'a>]
        ensures { map row_of result.now ≡ (declared self.now).enums }
    {
        self.enums.as_slice()
    }

    /// The members of each type.
    pub fn members(&self) -> &[Vec<Member<'a>>]
        ensures { map (λ v. map member_of v.items) result.now ≡ map members_of (declared self.now).types }
    {
        self.members.as_slice()
    }

    /// How many parameters the type `n` has.
    #[tactic(auto, unfolding(crate::specs::Members::parameters_within, crate::specs::Members::members_within))]
    pub fn count_of_parameters(&self, n: usize) -> usize
        ensures { result ≡ length (parameters_within (declared self.now).types n) }
    {
        match members_at(&self.members, n) {
            Some(members) => count_parameters(members),
            None => 0,
        }
    }

    /// The place in the type `n` of the first member of this name.
    #[tactic(auto, unfolding(crate::specs::Members::member_named, crate::specs::Members::members_within))]
    pub fn member_named(&self, n: usize, name: &[u8]) -> Option<usize>
        ensures { result ≡ member_named (declared self.now).types n name.now }
    {
        first_named(members_at(&self.members, n)?, name)
    }

    /// The type that a path of names means where it is used in the type `n`.
    pub fn type_named(&self, n: usize, path: &[String]) -> Option<u32>
        ensures { result ≡ type_named (declared self.now).types n (map string_bytes path.now) }
    {
        numbered(type_named(&self.types, n, path))
    }

    /// The enum that a path of names means where it is used in the type `n`.
    pub fn enum_named(&self, n: usize, path: &[String]) -> Option<u32>
        ensures { result ≡ enum_from (declared self.now).types (declared self.now).enums n [] (map string_bytes path.now) }
    {
        numbered(enum_named(&self.types, &self.enums, n, path))
    }

    /// The byte order in force in the type `n`.
    #[tactic(auto, unfolding(crate::specs::Types::order_of))]
    pub fn order_of(&self, n: usize) -> Option<ByteOrder>
        ensures { result ≡ order_of (declared self.now).types n }
    {
        order_in(&self.types, nearest(&self.types, Sought::Order, n)?)
    }

    /// The name of the encoding in force in the type `n`.
    #[tactic(auto, unfolding(crate::specs::Types::encoding_of))]
    pub fn encoding_of(&self, n: usize) -> Option<&'a [u8]>
        ensures { seen_text result ≡ encoding_of (declared self.now).types n }
    {
        let nearest = nearest(&self.types, Sought::Encoding, n)?;
        setting(&self.types, b"encoding", nearest)
    }

    /// The id that a number has in the enum `e`.
    #[tactic(auto, unfolding(crate::specs::Enums::id_of_number))]
    pub fn id_of_number(&self, e: usize, number: i128) -> Option<&'a [u8]>
        ensures { seen_text result ≡ id_of_number (declared self.now).enums e number }
    {
        id_in(keys_at(&self.enums, e), number)
    }

    /// The number that an id has in the enum `e`.
    #[tactic(auto, unfolding(crate::specs::Enums::number_of_id))]
    pub fn number_of_id(&self, e: usize, id: &[u8]) -> Option<i128>
        ensures { result ≡ number_of_id (declared self.now).enums e id.now }
    {
        number_in(keys_at(&self.enums, e), id)
    }
}
