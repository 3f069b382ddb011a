//! What is read at a member.

ghost use Rattle.std.specs.Option.{option_map_or};
ghost use Rattle.std.specs.Prelude.{◌≡◌, option_map};
ghost use Rattle.ksv_desc.specs.Description.{Bytes, content_by, is_truth};
ghost use Rattle.ksv_desc.specs.Pieces.{plain_choice, plain_content};

use crate::order::ByteOrder;
use ksv_expr_tree::{EnumMember, Expr, Literal};
use ksv_expr_value::Encoding;

/// What is read.
#[derive(Drop)]
pub enum Content {
    /// Bytes.
    Bytes,
    /// These bytes and no others.
    Fixed(Vec<u8>),
    /// An integer.
    Number {
        /// Whether it has a sign.
        is_signed: bool,
        /// How many bytes it has: 1, 2, 4 or 8.
        size: u8,
        /// The order of its bytes.
        order: ByteOrder,
        /// The number of the enum whose member it is.
        enumeration: Option<u32>,
    },
    /// Bits of neighbouring bytes: the highest bit of a byte is its first, and the first bit read is the highest of the number.
    Bits {
        /// How many bits: 1 to 64.
        width: u8,
        /// The number of the enum whose member it is. One bit without an enum is a truth value.
        enumeration: Option<u32>,
    },
    /// A text.
    Characters(Encoding),
    /// An object of a type.
    Object {
        /// The type's number.
        type_number: u32,
        /// The arguments for the type's parameters.
        arguments: Vec<Expr>,
    },
}

/// Whether `width` bits are a truth value and no integer: one bit that is no member of an enum.
pub fn is_truth(width: u8, enumeration: Option<u32>) -> bool
    ensures { result ≡ is_truth width enumeration }
{
    match enumeration {
        None => width == 1,
        Some(_) => false,
    }
}

/// What a switch compares with.
#[derive(Drop)]
pub enum CaseValue {
    /// A number, truth value or text.
    Literal(Literal),
    /// The negative of this number, which is at most 2^63.
    Negated(u64),
    /// A member of an enum.
    Member(EnumMember),
}

/// A case of a switch.
#[derive(Drop)]
pub struct Case {
    /// What is compared with; none for `_`, which every value matches.
    pub value: Option<CaseValue>,
    /// What is read where it matches.
    pub content: Content,
}

/// What is read each time, or what a switch chooses.
#[derive(Drop)]
pub enum Choice {
    /// The same content each time.
    Always(Content),
    /// The content of the first case that matches.
    Switch {
        /// What is compared.
        on: Expr,
        /// The cases in the order of the text.
        cases: Vec<Case>,
    },
}

impl Choice {
    /// What was read, by the place of the case that a switch chose. `Some(None)` is bytes, which are read where a switch chose no case;
    /// None is that there is no such case.
    #[inline(always)]
    pub fn content(&self, case: Option<u32>) -> Option<Option<&Content>>
        ensures { option_map (λ content. option_map_or (λ c. plain_content c.now) content Bytes) result ≡ content_by (plain_choice self.now) case }
    {
        match self {
            Choice::Always(content) => Some(Some(content)),
            Choice::Switch { cases, .. } => {
                let Some(place) = case else {
                    return Some(None);
                };
                let found = cases.get(place as usize)?;
                Some(Some(&found.content))
            }
        }
    }
}
