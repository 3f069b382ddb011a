//! Members of types.

use crate::field::Field;
use crate::valid::Valid;
use ksv_expr_tree::Expr;

/// What a member is.
#[derive(Drop)]
pub enum MemberKind {
    /// A parameter.
    Parameter,
    /// An attribute of a `seq`.
    Attribute(Field),
    /// A parse instance.
    ParseInstance {
        /// Its place.
        place: Expr,
        /// Its stream, if that isn't the object's own.
        stream: Option<Expr>,
        /// What it reads there.
        field: Field,
    },
    /// A value instance.
    ValueInstance {
        /// It is there only if this is true.
        condition: Option<Expr>,
        /// Its value.
        value: Expr,
        /// The number of the enum whose member it is.
        enumeration: Option<u32>,
        /// What its value must meet.
        valid: Option<Valid>,
    },
}

impl MemberKind {
    ghost use Rattle.std.specs.Prelude.{◌≡◌, option_map};
    ghost use Rattle.ksv_desc.specs.Description.{field_in, valid_of};
    ghost use Rattle.ksv_desc.specs.Pieces.{plain_field, plain_valid, plain_kind};

    /// How it reads, if it is one that reads.
    #[inline(always)]
    pub(crate) fn field(&self) -> Option<&Field>
        ensures { option_map (λ field. plain_field field.now) result ≡ field_in (plain_kind self.now) }
    {
        match self {
            MemberKind::Attribute(field) => Some(field),
            MemberKind::ParseInstance { field, .. } => Some(field),
            MemberKind::Parameter => None,
            MemberKind::ValueInstance { .. } => None,
        }
    }

    /// What its value, or each element of it, must meet.
    pub fn valid(&self) -> Option<&Valid>
        ensures { option_map (λ v. plain_valid v.now) result ≡ valid_of (plain_kind self.now) }
    {
        match self {
            MemberKind::Parameter => None,
            MemberKind::Attribute(field) => field.valid.as_ref(),
            MemberKind::ParseInstance { field, .. } => field.valid.as_ref(),
            MemberKind::ValueInstance { valid, .. } => valid.as_ref(),
        }
    }
}

/// A parameter, attribute or instance of a type.
#[derive(Drop)]
pub struct MemberDesc {
    /// The number of its name.
    pub name: u32,
    /// What it is.
    pub kind: MemberKind,
}

impl MemberDesc {
    ghost use Rattle.std.specs.Prelude.{◌≡◌};
    ghost use Rattle.ksv_desc.specs.Sequence.{is_attribute};

    /// Whether it is an attribute of a `seq`.
    pub fn is_attribute(&self) -> bool
        ensures { result ≡ is_attribute self.now }
    {
        match self.kind {
            MemberKind::Parameter => false,
            MemberKind::Attribute(_) => true,
            MemberKind::ParseInstance { .. } => false,
            MemberKind::ValueInstance { .. } => false,
        }
    }
}
