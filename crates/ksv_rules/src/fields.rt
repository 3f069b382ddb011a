//! What a description says of the members of its types.
#![tactic(auto)]

ghost use Rattle.std.specs.Prelude.{◌≡◌, ◌≤◌, map};
ghost use Rattle.ksv_desc.specs.Pieces.{plain_member, plain_field, plain_kind};
ghost use Rattle.ksv_desc.specs.Whole.{plain_pieces};
ghost use Rattle.ksv_nodes.specs.Turning.{Runs};
ghost use Rattle.ksv_rule_meaning.specs.Fields.{member_named, kind_of, field_of, is_parameter, parameters_before};
ghost use Rattle.ksv_rule_meaning.specs.Members.{plain_sought};

use ksv_desc::{Desc, Field, MemberDesc, MemberKind};
use ksv_expr_value::FaultKind;
use ksv_nodes::{Halt, MemberRef, Turn};
use ksv_rule_meaning::{Sought, find_member, members_of};

/// The member of a name of a type.
#[tactic(auto, unfolding(ksv_rule_meaning::specs::Fields::member_named))]
pub(crate) fn member_named<'d>(
    turn: &mut Turn,
    desc: &'d Desc,
    type_number: u32,
    name: u32,
) -> Result<Sought<'d>, Halt>
    ensures { Runs (member_named (plain_pieces desc.now) type_number name) plain_sought turn.old turn.new result }
{
    match find_member(members_of(desc, type_number), name)? {
        Some(sought) => Ok(sought),
        None => turn.raise(FaultKind::NoSuch),
    }
}

/// What the member at a place of a type's members is.
#[tactic(auto, unfolding(ksv_rule_meaning::specs::Fields::kind_of))]
#[inline(always)]
pub(crate) fn kind_of<'d>(
    turn: &mut Turn,
    desc: &'d Desc,
    member: MemberRef,
) -> Result<&'d MemberKind, Halt>
    ensures { Runs (kind_of (plain_pieces desc.now) member) (λ kind. plain_kind kind.now) turn.old turn.new result }
{
    match members_of(desc, member.type_number).get(member.member as usize) {
        Some(found) => Ok(&found.kind),
        None => turn.raise(FaultKind::NoSuch),
    }
}

/// How the attribute or parse instance at a place of a type's members reads.
#[tactic(auto, unfolding(ksv_rule_meaning::specs::Fields::field_of))]
#[inline(always)]
pub(crate) fn field_of<'d>(
    turn: &mut Turn,
    desc: &'d Desc,
    member: MemberRef,
) -> Result<&'d Field, Halt>
    ensures { Runs (field_of (plain_pieces desc.now) member) (λ field. plain_field field.now) turn.old turn.new result }
{
    match desc.field(member.type_number, member.member) {
        Some(field) => Ok(field),
        None => turn.raise(FaultKind::NoSuch),
    }
}

/// Whether it is a parameter.
fn is_parameter(member: &MemberDesc) -> bool
    ensures { result ≡ is_parameter (plain_member member.now) }
{
    match member.kind {
        MemberKind::Parameter => true,
        MemberKind::Attribute(_) => false,
        MemberKind::ParseInstance { .. } => false,
        MemberKind::ValueInstance { .. } => false,
    }
}

/// How many parameters a type has before the member of a place.
#[tactic(auto, using(crate::proofs::Parameters::no_more, crate::proofs::Parameters::none_left, crate::proofs::Parameters::one_more))]
pub(crate) fn parameters_before(members: &[MemberDesc], place: u32) -> usize
    ensures { result ≡ parameters_before place (map plain_member members.now) }
{
    let mut count = 0;
    let mut left = place;
    for member in members {
        if left == 0 {
            return count;
        }
        if is_parameter(member) {
            count += 1;
        }
        left -= 1;
    }
    count
}
