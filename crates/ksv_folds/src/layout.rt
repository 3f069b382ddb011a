//! How elements are laid out: whether the description says what a list's numbers say.
#![tactic(auto)]

ghost use Rattle.std.specs.Prelude.{◌≡◌, ◌+◌, ◌<◌, true, map, option_map, length, Some};
ghost use Rattle.ksv_desc.specs.Pieces.{plain_content, plain_choice, plain_extent, plain_repeat, plain_field, plain_member};
ghost use Rattle.ksv_desc.specs.Whole.{plain_pieces};
ghost use Rattle.ksv_list_laws.specs.Lists.{content_size, choice_size, repeats};
ghost use Rattle.ksv_folds.specs.Layouts.{IsRead, IsPart, AreParts, IsType, IsSaidBy, IsLast, IsInteger, IsSizer, IsSizedType, AreFields, HasObjects, HasBytes, HasContent, HasLayout};
ghost use Rattle.ksv_folds.specs.Sequence.{says_sizes};

use crate::part::{Format, Part};
use crate::plain_list::PlainList;
use crate::same::{same_number, same_order};
use ksv_desc::{Choice, Content, Desc, Extent, Field, MemberDesc, MemberKind, Repeat};
use ksv_expr_tree::Expr;
use ksv_nodes::List;
use ksv_rule_meaning::{find_member, last_attribute, members_of};

/// How many bytes are read, where it is always as many.
pub(crate) fn content_size(content: &Content) -> Option<usize>
    ensures { result ≡ content_size (plain_content content.now) }
{
    match content {
        Content::Number { size, .. } => Some(*size as usize),
        Content::Fixed(bytes) => Some(bytes.len()),
        _ => None,
    }
}

/// The same, where a switch may choose what is read.
pub(crate) fn choice_size(choice: &Choice) -> Option<usize>
    ensures { result ≡ choice_size (plain_choice choice.now) }
{
    match choice {
        Choice::Always(content) => content_size(content),
        Choice::Switch { .. } => None,
    }
}

/// Whether a field takes always the bytes of its element from one to another.
fn is_read(field: &Field, low: u32, to: u32) -> bool
    ensures { result ≡ true → IsRead (plain_field field.now) low to }
{
    if field.condition.is_some() || to <= low {
        return false;
    }
    let Repeat::Once = field.repeat else {
        return false;
    };
    match choice_size(&field.choice) {
        Some(size) => size == (to - low) as usize,
        None => false,
    }
}

/// Whether the attribute of a name, behind the one of another name, is this field.
fn is_part(members: &[MemberDesc], before: Option<u32>, name: u32, part: Part, low: u32) -> bool
    ensures { result ≡ true → IsPart (map plain_member members.now) before name part low }
{
    let Ok(Some(sought)) = find_member(members, name) else {
        return false;
    };
    let MemberKind::Attribute(field) = sought.kind else {
        return false;
    };
    sought.member == part.member
        && part.name == name
        && same_number(sought.before, before)
        && is_read(field, low, part.to)
}

/// Whether each attribute is the field of its number.
fn are_parts(members: &[MemberDesc], names: &[u32], parts: &[Part]) -> bool
    ensures { result ≡ true → AreParts (map plain_member members.now) names.now parts.now (length parts.now) }
{
    let mut before = None;
    let mut low = 0;
    let mut place = 0;
    for part in parts {
        let Some(name) = names.get(place).copied() else {
            return false;
        };
        if !is_part(members, before, name, *part, low) {
            return false;
        }
        before = Some(name);
        low = part.to;
        place += 1;
    }
    true
}

/// Whether elements are repeated to the end of the stream, or as often as the list's count says.
fn repeats(repeat: &Repeat, count: Option<u32>) -> bool
    ensures { result ≡ repeats (plain_repeat repeat.now) count }
{
    match (repeat, count) {
        (Repeat::Eos, None) => true,
        (Repeat::Expr(_), Some(_)) => true,
        _ => false,
    }
}

/// Whether a field is bytes, as many as a name says.
fn is_said_by(field: &Field, name: u32) -> bool
    ensures { result ≡ true → IsSaidBy (plain_field field.now) name }
{
    if field.condition.is_some() {
        return false;
    }
    let Repeat::Once = field.repeat else {
        return false;
    };
    let Choice::Always(Content::Bytes) = &field.choice else {
        return false;
    };
    match &field.extent {
        Extent::Sized(Expr::Name(said)) => same_number(said.number, Some(name)),
        _ => false,
    }
}

/// Whether the attribute of a name, behind the one of another name, is this last field, whose size that one says.
fn is_last(members: &[MemberDesc], before: u32, name: u32, part: Part) -> bool
    ensures { result ≡ true → IsLast (map plain_member members.now) (Some before) name part before }
{
    let Ok(Some(sought)) = find_member(members, name) else {
        return false;
    };
    let MemberKind::Attribute(field) = sought.kind else {
        return false;
    };
    sought.member == part.member
        && part.name == name
        && same_number(sought.before, Some(before))
        && is_said_by(field, before)
}

/// Whether an integer is written so, and is no member of an enum.
fn is_written(choice: &Choice, format: Format) -> bool
    ensures { result ≡ true → IsInteger (plain_choice choice.now) format }
{
    match choice {
        Choice::Always(
            Content::Number {
                is_signed,
                order,
                enumeration: None,
                ..
            },
        ) => *is_signed == format.is_signed && same_order(*order, format.order),
        _ => false,
    }
}

/// Whether the attribute of a name is an integer that is written so, and may have any value.
fn is_sizer(members: &[MemberDesc], name: u32, format: Format) -> bool
    ensures { result ≡ true → IsSizer (map plain_member members.now) name format }
{
    let Ok(Some(sought)) = find_member(members, name) else {
        return false;
    };
    let MemberKind::Attribute(field) = sought.kind else {
        return false;
    };
    field.valid.is_none() && is_written(&field.choice, format)
}

impl PlainList {
    /// Whether the attributes of a type are the fields, where none says a size.
    fn has_plain_type(&self, desc: &Desc, type_number: u32) -> bool
        ensures { result ≡ true → IsType (plain_pieces desc.now) type_number self.now.size self.now.parts.items }
    {
        let names = desc.fields(type_number);
        let members = members_of(desc, type_number);
        let (Some(name), Some(part)) = (names.last().copied(), self.parts.last().copied()) else {
            return false;
        };
        self.parts.len() == names.len()
            && part.to == self.size
            && same_number(last_attribute(members), Some(name))
            && are_parts(members, names, &self.parts)
    }

    /// Whether they are, where the one before the last says the size of that one.
    fn has_sized_type(&self, desc: &Desc, type_number: u32) -> bool
        ensures { result ≡ true → IsSizedType self.now (plain_pieces desc.now) type_number }
    {
        let names = desc.fields(type_number);
        let members = members_of(desc, type_number);
        let count = self.parts.len();
        if count < 2 || names.len() != count {
            return false;
        }
        let (sizer, name) = (names[count - 2], names[count - 1]);
        if self.parts[count - 2].to != self.size {
            return false;
        }
        if !same_number(last_attribute(members), Some(name)) {
            return false;
        }
        if !is_last(members, sizer, name, self.parts[count - 1]) {
            return false;
        }
        if !is_sizer(members, sizer, self.format) {
            return false;
        }
        are_parts(members, names, &self.parts[..count - 1])
    }

    /// Whether the attributes of a type are the fields.
    fn has_type(&self, desc: &Desc, type_number: u32) -> bool
        ensures { result ≡ true → AreFields (says_sizes self.now) self.now (plain_pieces desc.now) type_number }
    {
        if self.says_sizes() {
            self.has_sized_type(desc, type_number)
        } else {
            self.has_plain_type(desc, type_number)
        }
    }

    /// Whether elements are objects of the list's type, which end with their fields.
    fn has_objects(&self, desc: &Desc, content: &Content, extent: &Extent) -> bool
        ensures { result ≡ true → HasObjects self.now (plain_pieces desc.now) (plain_content content.now) (plain_extent extent.now) }
    {
        match (content, extent) {
            (Content::Object { type_number, .. }, Extent::ByItself) => {
                same_number(self.type_number, Some(*type_number))
                    && self.has_type(desc, *type_number)
            }
            _ => false,
        }
    }

    /// Whether elements have no fields, and take so many bytes.
    fn has_bytes(&self, size: usize) -> bool
        ensures { result ≡ true → HasBytes self.now size }
    {
        self.type_number.is_none() && self.parts.is_empty() && self.size as usize == size
    }

    /// Whether elements are read so.
    fn has_content(&self, desc: &Desc, field: &Field) -> bool
        ensures { result ≡ true → HasContent self.now (plain_pieces desc.now) (plain_field field.now) }
    {
        let Choice::Always(content) = &field.choice else {
            return false;
        };
        match content_size(content) {
            Some(size) => self.has_bytes(size),
            None => self.has_objects(desc, content, &field.extent),
        }
    }

    /// Whether the list is plain, and its elements are laid out so.
    pub(crate) fn has_layout(&self, desc: &Desc, list: &List) -> bool
        ensures { result ≡ true → HasLayout self.now (plain_pieces desc.now) list.now }
    {
        let member = list.origin.member;
        match desc.field(member.type_number, member.member) {
            Some(field) => repeats(&field.repeat, list.count.get())
                && self.has_content(desc, field),
            None => false,
        }
    }
}
