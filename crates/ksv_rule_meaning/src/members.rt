//! The members of a type, as code.
#![tactic(auto)]

ghost use Rattle.std.specs.Prelude.{◌≡◌, ◌≤◌, IfOk, OnErr, None, map, option_map};
ghost use Rattle.ksv_desc.specs.Pieces.{plain_member};
ghost use Rattle.ksv_desc.specs.Whole.{plain_pieces};
ghost use Rattle.ksv_rule_meaning.specs.Fields.{members_of, behind, sought, last_attribute};
ghost use Rattle.ksv_rule_meaning.specs.Members.{plain_sought};

use ksv_desc::{Desc, MemberDesc, MemberKind};
use std::alloc::AllocError;

/// A member that was looked for.
#[derive(Clone, Copy)]
pub struct Sought<'d> {
    /// Its place among the members of its type, from 0.
    pub member: u32,
    /// The name of the attribute of `seq` before it.
    pub before: Option<u32>,
    /// What it is.
    pub kind: &'d MemberKind,
}

/// The members of a type, in written order; a number that no type has is that of none.
#[tactic(auto, unfolding(crate::specs::Fields::members_of))]
#[inline(always)]
pub fn members_of(desc: &Desc, type_number: u32) -> &[MemberDesc]
    ensures { map plain_member result.now ≡ members_of (plain_pieces desc.now) type_number }
{
    match desc.type_desc(type_number) {
        Some(found) => found.members(),
        None => &[],
    }
}

/// The attribute of `seq` that is last, after a member.
fn behind(before: Option<u32>, member: &MemberDesc) -> Option<u32>
    ensures { result ≡ behind before (plain_member member.now) }
{
    match member.kind {
        MemberKind::Attribute(_) => Some(member.name),
        _ => before,
    }
}

/// A place in a list of members or cases, as a head has it. No contract bounds these lists, so a place past 32 bits, which takes
/// a list of hundreds of gigabytes, is refused as memory is.
pub fn number_of(place: usize) -> Result<u32, AllocError>
    ensures same { IfOk result (λ number. number ≡ place) }
    ensures far { OnErr result (4294967296 ≤ place) }
{
    if place > 0xffff_ffff {
        return Err(AllocError);
    }
    Ok(place as u32)
}

/// The first member of a name.
#[tactic(auto, unfolding(crate::specs::Fields::sought))]
pub fn find_member(members: &[MemberDesc], name: u32) -> Result<Option<Sought<'_>>, AllocError>
    ensures { IfOk result (λ found. option_map plain_sought found ≡ sought name 0 None (map plain_member members.now)) }
{
    let mut before = None;
    let mut place = 0;
    for member in members {
        if member.name == name {
            return Ok(Some(Sought {
                member: number_of(place)?,
                before,
                kind: &member.kind,
            }));
        }
        before = behind(before, member);
        place += 1;
    }
    Ok(None)
}

/// The name of the last attribute of `seq`.
pub fn last_attribute(members: &[MemberDesc]) -> Option<u32>
    ensures { result ≡ last_attribute None (map plain_member members.now) }
{
    let mut last = None;
    for member in members {
        last = behind(last, member);
    }
    last
}
