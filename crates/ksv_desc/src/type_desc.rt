//! Types.

ghost use Rattle.std.specs.Prelude.{◌≡◌, map, filter, IfOk};
ghost use Rattle.ksv_desc.specs.Sequence.{is_attribute};

use crate::members::MemberDesc;
use std::alloc::{AllocError, Global};

/// A type: its name (for the root, its own id), and its members in the order of the text.
#[derive(Drop)]
pub struct TypeDesc {
    pub(crate) id: String,
    members: Vec<MemberDesc>,
    pub(crate) names: Vec<u32>,
    pub(crate) fields: Vec<u32>,
    ghost names_are: { names.items ≡ map (λ m. m.name) members.items },
    ghost fields_are: { fields.items ≡ map (λ m. m.name) (filter is_attribute members.items) },
}

/// The numbers of members' names.
fn names_of(alloc: Global, members: &[MemberDesc]) -> Result<Vec<u32>, AllocError>
    ensures { IfOk result (λ v. v.items ≡ map (λ m. m.name) members.now) }
{
    let mut names = Vec::new(alloc);
    for member in members {
        names.push(member.name)?;
    }
    Ok(names)
}

/// The numbers of the names of those in a `seq`.
fn fields_of(alloc: Global, members: &[MemberDesc]) -> Result<Vec<u32>, AllocError>
    ensures { IfOk result (λ v. v.items ≡ map (λ m. m.name) (filter is_attribute members.now)) }
{
    let mut fields = Vec::new(alloc);
    for member in members {
        if member.is_attribute() {
            fields.push(member.name)?;
        }
    }
    Ok(fields)
}

impl TypeDesc {
    /// A type of this name with these members.
    pub fn new(alloc: Global, id: String, members: Vec<MemberDesc>) -> Result<Self, AllocError>
        ensures id { IfOk result (λ t. t.id ≡ id) }
        ensures members { IfOk result (λ t. t.members ≡ members) }
    {
        let names = names_of(alloc, &members)?;
        let fields = fields_of(alloc, &members)?;
        Ok(TypeDesc {
            id,
            members,
            names,
            fields,
        })
    }

    /// Its members.
    pub fn members(&self) -> &[MemberDesc]
        ensures { result.now ≡ self.now.members.items }
    {
        self.members.as_slice()
    }
}
