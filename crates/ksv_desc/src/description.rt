//! A whole description.

ghost use Rattle.std.specs.Prelude.{◌≡◌, map, option_map, slice_get};
ghost use Rattle.ksv_desc.specs.Description.{name, type_id, members, fields, enum_id, field_at, member_id, number_of_name};
ghost use Rattle.ksv_desc.specs.Resolved.{IsResolved};
ghost use Rattle.ksv_desc.specs.Pieces.{plain_type, plain_enum, plain_field};
ghost use Rattle.ksv_desc.specs.Whole.{plain_pieces};

use crate::enums::EnumDesc;
use crate::field::Field;
use crate::pieces::Pieces;
use crate::type_desc::TypeDesc;
use std::marker::Model;

/// A description: its types with their members, its enums and the names of all members, each known by its number.
///
/// Every reference is resolved: each number in it belongs to something in the description.
#[derive(Drop)]
pub struct Desc {
    pieces: Pieces,
}

impl Model for Desc {
    ghost use Rattle.ksv_desc.specs.declared.pieces.Pieces.{Pieces};
    ghost use Rattle.ksv_expr_tree.specs.contracts.tree.Expr as expr;
    ghost use Rattle.std.specs.Coded.{codes};

    ghost Value = { Pieces };

    ghost coded = { Prim.hlevel (codes, expr.the_row.coded) };

    ghost use Rattle.ksv_desc.specs.Resolved.{IsResolved};
    ghost use Rattle.ksv_desc.specs.Whole.{plain_pieces};

    ghost view = { λ d. d.pieces };

    ghost invariant = { λ d. IsResolved (plain_pieces d.pieces) };
}

impl Desc {
    /// The description of these pieces.
    pub fn new(pieces: Pieces) -> Self
        requires { IsResolved (plain_pieces pieces) }
        ensures { result ≡ pieces }
    {
        Desc { pieces }
    }

    /// Each reference of the description is resolved. It does nothing: a caller's proof learns its clause.
    pub fn references_are_resolved(&self)
        ensures { IsResolved (plain_pieces self.now) }
    {
        let _ = &self.pieces;
    }

    /// A name; the empty text for a number without one.
    pub fn name(&self, number: u32) -> &str
        ensures { result.now ≡ name (plain_pieces self.now) number }
    {
        self.pieces.names.name(number)
    }

    /// The name of a type (for the root, its own id); the empty text for a number without a type.
    pub fn type_id(&self, number: u32) -> &str
        ensures { result.now ≡ type_id (plain_pieces self.now) number }
    {
        match self.type_desc(number) {
            Some(described) => described.id.as_str(),
            None => "",
        }
    }

    /// The numbers of the names of a type's members, in the order of the text.
    #[tactic(auto, using(crate::proofs::Readers::members_seen))]
    pub fn members(&self, number: u32) -> &[u32]
        ensures { result.now ≡ members (plain_pieces self.now) number }
    {
        match self.type_desc(number) {
            Some(found) => found.names.as_slice(),
            None => &[],
        }
    }

    /// The numbers of the names of those of a type's members that are in its `seq`.
    #[tactic(auto, using(crate::proofs::Readers::members_seen))]
    pub fn fields(&self, number: u32) -> &[u32]
        ensures { result.now ≡ fields (plain_pieces self.now) number }
    {
        match self.type_desc(number) {
            Some(found) => found.fields.as_slice(),
            None => &[],
        }
    }

    /// The name of an enum; the empty text for a number without an enum.
    pub fn enum_id(&self, number: u32) -> &str
        ensures { result.now ≡ enum_id (plain_pieces self.now) number }
    {
        match self.enum_desc(number) {
            Some(found) => found.id.as_str(),
            None => "",
        }
    }

    /// The id that a number has in an enum.
    pub fn member_id(&self, enumeration: u32, number: i128) -> Option<&str>
        ensures { option_map (λ s. s.now) result ≡ member_id (plain_pieces self.now) enumeration number }
    {
        match self.enum_desc(enumeration) {
            Some(found) => found.id_of(number),
            None => None,
        }
    }

    /// The number of a member's name.
    #[tactic(auto, using(crate::proofs::Readers::known), unfolding(crate::specs::Names::number_in))]
    pub fn number_of(&self, text: &str) -> Option<u32>
        ensures { result ≡ number_of_name (plain_pieces self.now) text.now }
    {
        match self.pieces.names.number_of(text) {
            Some(number) => {
                if (number as usize) < self.pieces.known {
                    Some(number)
                } else {
                    None
                }
            }
            None => None,
        }
    }

    /// The type of this number.
    pub fn type_desc(&self, number: u32) -> Option<&TypeDesc>
        ensures { option_map (λ t. plain_type t.now) result ≡ slice_get (plain_pieces self.now).types number }
    {
        self.pieces.types.get(number as usize)
    }

    /// How the attribute or parse instance at a place of a type's members reads.
    #[inline(always)]
    pub fn field(&self, type_number: u32, place: u32) -> Option<&Field>
        ensures { option_map (λ field. plain_field field.now) result ≡ field_at (plain_pieces self.now) type_number place }
    {
        let found = self.type_desc(type_number)?;
        let member = found.members().get(place as usize)?;
        member.kind.field()
    }

    /// Its types, by their numbers.
    pub fn types(&self) -> &[TypeDesc]
        ensures { map plain_type result.now ≡ (plain_pieces self.now).types }
    {
        self.pieces.types.as_slice()
    }

    /// The enum of this number.
    pub fn enum_desc(&self, number: u32) -> Option<&EnumDesc>
        ensures { option_map (λ e. plain_enum e.now) result ≡ slice_get (plain_pieces self.now).enums number }
    {
        self.pieces.enums.get(number as usize)
    }
}
