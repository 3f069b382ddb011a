//! Members: parameters, attributes, parse instances and value instances.

ghost use Rattle.std.specs.Prelude.{◌≡◌, None, map, option_map};
ghost use Rattle.std.specs.Option.{option_map_or};
ghost use Rattle.ksv_yaml_tree.specs.View.{pair};
ghost use Rattle.ksv_expr_tree.specs.Tree.{view};
ghost use Rattle.ksv_desc.specs.Description as desc;
ghost use Rattle.ksv_desc.specs.Pieces.{plain_extent, plain_terminator, plain_repeat, plain_valid, plain_field, plain_kind};
ghost use Rattle.ksv_schema_names.specs.Table.{declared};
ghost use Rattle.ksv_schema_names.specs.View.{member_of};
ghost use Rattle.ksv_schema.specs.KeyTexts.{own_type};
ghost use Rattle.ksv_schema.specs.KeyCode.{seen_type_at};
ghost use Rattle.ksv_schema.specs.Faults.{noted};
ghost use Rattle.ksv_schema.specs.Members.{conditioned, parts, repeat_of, repeated, timed, extent, terminator_of, needs, unsupported, field, own_field, attribute, parse_instance, value_instance, placeless, by_kind, member_keys, name_line, is_named_again, member as stated_member};
ghost use Rattle.ksv_schema.specs.Code.{seen_fault, seen_home, seen_keys, Reads};

use crate::DescFaultKind::{BadValue, KeysAgainst, LeftOut, MissingKey};
use crate::keys::forms::{MappingKind, is_id, kind_of};
use crate::keys::texts::{TypeKind, TypeText, byte_at, is_a, own_type};
use crate::members::enumeration::id_line;
use crate::values::fault::{Least, note, note_if};
use crate::values::key::{note_keys, note_missing};
use crate::values::reader::{FieldKeys, Home, Read, Reader, after, alone, both, home_of, once};
use crate::values::rule::{note_at_if, note_together};
use crate::values::types::{choice, is_declared};
use crate::values::valid::own_valid;
use crate::values::value::{needed_expression, own_enum, perhaps_expression};
use ksv_desc::{Choice, Extent, Field, MemberKind, Repeat, Terminator, Valid};
use ksv_expr_tree::Expr;
use ksv_schema_names::{Member, Role, Scopes, Site};
use ksv_yaml_tree::keys::{has, says, text_at};
use ksv_yaml_tree::{Entry, find};

// ---- conditions

/// Whether something of these keys is there, and what its value must meet.
#[tactic(auto, using(crate::proofs::Noted::steps, ksv_desc::proofs::Dots::steps))]
fn conditioned(
    reader: &mut Reader,
    home: &Home,
    entries: &[Entry],
) -> Read<(Option<Expr>, Option<Valid>)>
    ensures { Reads (conditioned (seen_home home.now) (map pair entries.now)) (λ p. (option_map view p.0, option_map plain_valid p.1)) reader.old reader.new result }
{
    let condition = perhaps_expression(reader, home, Site::Condition, find(entries, b"if"))?;
    both(condition, own_valid(reader, home, entries))
}

// ---- attributes and parse instances

/// As often as a count says.
fn counted(count: Option<Expr>) -> Option<Repeat>
    ensures { option_map plain_repeat result ≡ option_map desc.Expr (option_map view count) }
{
    Some(Repeat::Expr(count?))
}

/// Until a condition holds.
fn until(last: Option<Expr>) -> Option<Repeat>
    ensures { option_map plain_repeat result ≡ option_map desc.Until (option_map view last) }
{
    Some(Repeat::Until(last?))
}

/// How often an attribute of these keys is read, with these expressions.
#[tactic(auto, unfolding(crate::specs::Members::repeat_of))]
fn repeat_of(entries: &[Entry], count: Option<Expr>, last: Option<Expr>) -> Option<Repeat>
    ensures { option_map plain_repeat result ≡ repeat_of (map pair entries.now) (option_map view count) (option_map view last) }
{
    if says(entries, b"repeat", b"eos") {
        return alone(Some(Repeat::Eos), (count, last));
    }
    if says(entries, b"repeat", b"expr") {
        return alone(counted(count), last);
    }
    if says(entries, b"repeat", b"until") {
        return alone(until(last), count);
    }
    alone(Some(Repeat::Once), (count, last))
}

/// How often an attribute of these keys is read.
#[tactic(auto, using(crate::proofs::Noted::steps, ksv_desc::proofs::Dots::steps), unfolding(crate::specs::Members::repeated))]
fn repeated(reader: &mut Reader, home: &Home, entries: &[Entry]) -> Read<Repeat>
    ensures { Reads (repeated (seen_home home.now) (map pair entries.now)) plain_repeat reader.old reader.new result }
{
    let count = perhaps_expression(reader, home, Site::Count, find(entries, b"repeat-expr"))?;
    let last = perhaps_expression(reader, home, Site::Until, find(entries, b"repeat-until"));
    match both(count, last)? {
        Some((count, last)) => Ok(repeat_of(entries, count, last)),
        None => Ok(None),
    }
}

/// Whether and how often an attribute of these keys is read, and what it must meet.
#[tactic(auto, using(crate::proofs::Noted::steps, ksv_desc::proofs::Dots::steps))]
fn timed(
    reader: &mut Reader,
    home: &Home,
    entries: &[Entry],
) -> Read<((Option<Expr>, Option<Valid>), Repeat)>
    ensures { Reads (timed (seen_home home.now) (map pair entries.now)) (λ p. ((option_map view p.0.0, option_map plain_valid p.0.1), plain_repeat p.1)) reader.old reader.new result }
{
    let conditions = conditioned(reader, home, entries)?;
    both(conditions, repeated(reader, home, entries))
}

/// Where an attribute of these keys ends.
#[tactic(auto, using(crate::proofs::Noted::steps, ksv_desc::proofs::Dots::steps))]
fn extent(reader: &mut Reader, home: &Home, entries: &[Entry]) -> Read<Extent>
    ensures { Reads (extent (seen_home home.now) (map pair entries.now)) plain_extent reader.old reader.new result }
{
    match perhaps_expression(reader, home, Site::Size, find(entries, b"size"))? {
        Some(Some(size)) => Ok(Some(Extent::Sized(size))),
        Some(None) if says(entries, b"size-eos", b"true") => Ok(Some(Extent::SizeEos)),
        Some(None) => Ok(Some(Extent::ByItself)),
        None => Ok(None),
    }
}

/// The terminator of an attribute of these keys: the byte that is written, or 0 for `strz`.
#[tactic(auto, unfolding(crate::specs::Members::terminator_of))]
fn terminator_of(typed: &Option<TypeText>, entries: &[Entry]) -> Option<Terminator>
    ensures { option_map plain_terminator result ≡ terminator_of (seen_type_at typed.now) (map pair entries.now) }
{
    let written = byte_at(entries, b"terminator");
    let is_unconsumed = says(entries, b"consume", b"false");
    let is_included = says(entries, b"include", b"true");
    let is_optional = says(entries, b"eos-error", b"false");
    let byte = if is_a(TypeKind::Strz, typed) {
        Some(0)
    } else {
        written
    };
    match byte {
        Some(byte) => Some(Terminator {
            byte,
            is_consumed: !is_unconsumed,
            is_included,
            is_required: !is_optional,
        }),
        None => None,
    }
}

/// What these keys state, with the type whose text is at `type`.
#[tactic(auto, using(crate::proofs::Noted::steps, ksv_desc::proofs::Dots::steps), unfolding(crate::specs::Members::parts))]
fn read_parts(reader: &mut Reader, keys: &FieldKeys, typed: Option<TypeText>) -> Read<Field>
    requires { seen_type_at typed ≡ own_type (seen_keys keys.now).entries }
    ensures { Reads (parts (seen_keys keys.now)) plain_field reader.old reader.new result }
{
    let terminator = terminator_of(&typed, keys.entries);
    let timed = timed(reader, keys.home, keys.entries)?;
    let choice = choice(reader, keys, typed);
    let chosen = both(timed, choice)?;
    match both(chosen, extent(reader, keys.home, keys.entries))? {
        Some(read) => {
            let ((((condition, valid), repeat), choice), extent) = read;
            Ok(Some(Field {
                condition,
                repeat,
                choice,
                extent,
                terminator,
                valid,
            }))
        }
        None => Ok(None),
    }
}

// ---- what an attribute or a parse instance needs

/// Notes what an attribute needs but doesn't have.
#[tactic(auto, using(crate::proofs::Noted::steps), unfolding(crate::specs::Members::needs))]
fn note_needs(
    least: &mut Least,
    home: &Home,
    line: usize,
    typed: &Option<TypeText>,
    entries: &[Entry],
)
    ensures { seen_fault least.new ≡ noted (seen_fault least.old) (needs (seen_home home.now) line (seen_type_at typed.now) (map pair entries.now)) }
{
    let is_sized = has(entries, b"size") | says(entries, b"size-eos", b"true");
    let is_bounded = is_sized | has(entries, b"terminator");
    let is_something = has(entries, b"type") | is_bounded | has(entries, b"contents");
    let is_str = is_a(TypeKind::Str, typed);
    let is_text = is_str | is_a(TypeKind::Strz, typed);
    let has_own = text_at(entries, b"encoding").is_some();
    let is_readable = has_own | home.scopes.encoding_of(home.within).is_some();
    note_if(least, !is_something, line, MissingKey);
    note_if(least, is_str & !is_bounded, line, MissingKey);
    note_if(least, is_text & !is_readable, line, MissingKey);
}

/// Notes an unsupported terminator: of a type of the description, or of `strz` another one than 0.
#[tactic(auto, using(crate::proofs::Noted::steps), unfolding(crate::specs::Members::unsupported))]
fn note_unsupported(least: &mut Least, home: &Home, typed: &Option<TypeText>, entries: &[Entry])
    ensures { seen_fault least.new ≡ noted (seen_fault least.old) (unsupported (seen_home home.now) (seen_type_at typed.now) (map pair entries.now)) }
{
    let is_object = match typed {
        Some(text) => is_declared(home, text),
        None => false,
    };
    let has_other = match byte_at(entries, b"terminator") {
        Some(byte) => byte != 0,
        None => false,
    };
    let is_other = is_a(TypeKind::Strz, typed) & has_other;
    let terminator = find(entries, b"terminator");
    note_at_if(least, is_object, terminator, LeftOut);
    note_at_if(least, is_other, terminator, LeftOut);
}

/// What an attribute or a parse instance of these keys reads, with this enum and the type whose text is at `type`.
#[tactic(auto, using(crate::proofs::Noted::steps, ksv_desc::proofs::Dots::steps), unfolding(crate::specs::Members::field))]
fn field(
    reader: &mut Reader,
    home: &Home,
    kind: MappingKind,
    line: usize,
    enumeration: Option<u32>,
    entries: &[Entry],
    typed: Option<TypeText>,
) -> Read<Field>
    requires { seen_type_at typed ≡ own_type (map pair entries.now) }
    ensures { Reads (field (seen_home home.now) kind line enumeration (own_type (map pair entries.now)) (map pair entries.now)) plain_field reader.old reader.new result }
{
    note_together(&mut reader.least, kind, line, &typed, entries);
    note_needs(&mut reader.least, home, line, &typed, entries);
    note_unsupported(&mut reader.least, home, &typed, entries);
    let keys = FieldKeys {
        home,
        entries,
        beside: entries,
        enumeration,
    };
    read_parts(reader, &keys, typed)
}

// ---- members, by their kinds

/// The enum that was read, if it was.
fn enum_in(number: Option<Option<u32>>) -> Option<u32>
    ensures { result ≡ option_map_or (λ e. e) number None }
{
    match number {
        Some(number) => number,
        None => None,
    }
}

/// What an attribute or a parse instance of these keys reads, with its enum.
#[tactic(auto, using(crate::proofs::Noted::steps, ksv_desc::proofs::Dots::steps))]
fn own_field(
    reader: &mut Reader,
    home: &Home,
    kind: MappingKind,
    line: usize,
    entries: &[Entry],
) -> Read<Field>
    ensures { Reads (own_field (seen_home home.now) kind line (map pair entries.now)) plain_field reader.old reader.new result }
{
    let number = own_enum(reader, home, entries)?;
    let typed = own_type(reader.alloc, entries)?;
    let field = field(reader, home, kind, line, enum_in(number), entries, typed);
    after(number, field)
}

/// An attribute.
#[tactic(auto, using(crate::proofs::Noted::steps, ksv_desc::proofs::Dots::steps), unfolding(crate::specs::Members::attribute))]
fn attribute(reader: &mut Reader, home: &Home, line: usize, entries: &[Entry]) -> Read<MemberKind>
    ensures { Reads (attribute (seen_home home.now) line (map pair entries.now)) plain_kind reader.old reader.new result }
{
    match own_field(reader, home, MappingKind::Attribute, line, entries)? {
        Some(field) => Ok(Some(MemberKind::Attribute(field))),
        None => Ok(None),
    }
}

/// A parse instance.
#[tactic(auto, using(crate::proofs::Noted::steps, ksv_desc::proofs::Dots::steps), unfolding(crate::specs::Members::parse_instance))]
fn parse_instance(
    reader: &mut Reader,
    home: &Home,
    line: usize,
    entries: &[Entry],
) -> Read<MemberKind>
    ensures { Reads (parse_instance (seen_home home.now) line (map pair entries.now)) plain_kind reader.old reader.new result }
{
    let place = needed_expression(reader, home, Site::Place, line, find(entries, b"pos"))?;
    let stream = perhaps_expression(reader, home, Site::Stream, find(entries, b"io"));
    let at = both(place, stream)?;
    let field = own_field(reader, home, MappingKind::ParseInstance, line, entries);
    match both(at, field)? {
        Some(read) => {
            let ((place, stream), field) = read;
            Ok(Some(MemberKind::ParseInstance {
                place,
                stream,
                field,
            }))
        }
        None => Ok(None),
    }
}

/// A value instance.
#[tactic(auto, using(crate::proofs::Noted::steps, ksv_desc::proofs::Dots::steps), unfolding(crate::specs::Members::value_instance))]
fn value_instance(
    reader: &mut Reader,
    home: &Home,
    line: usize,
    entries: &[Entry],
) -> Read<MemberKind>
    ensures { Reads (value_instance (seen_home home.now) line (map pair entries.now)) plain_kind reader.old reader.new result }
{
    note_together(&mut reader.least, MappingKind::Value, line, &None, entries);
    let conditions = conditioned(reader, home, entries)?;
    let value = needed_expression(reader, home, Site::Value, line, find(entries, b"value"));
    let computed = both(conditions, value)?;
    match both(computed, own_enum(reader, home, entries))? {
        Some(read) => {
            let (((condition, valid), value), enumeration) = read;
            Ok(Some(MemberKind::ValueInstance {
                condition,
                value,
                enumeration,
                valid,
            }))
        }
        None => Ok(None),
    }
}

/// An instance without a place and a value, which is unsupported.
#[tactic(auto, using(crate::proofs::Noted::steps, crate::proofs::Least::noted_cons, ksv_desc::proofs::Dots::steps), unfolding(crate::specs::Members::placeless))]
fn placeless(
    reader: &mut Reader,
    home: &Home,
    name_line: usize,
    entries: &[Entry],
) -> Read<MemberKind>
    ensures { Reads (placeless (seen_home home.now) name_line (map pair entries.now)) plain_kind reader.old reader.new result }
{
    note(&mut reader.least, name_line, LeftOut);
    drop(perhaps_expression(reader, home, Site::Stream, find(entries, b"io"))?);
    let number = own_enum(reader, home, entries)?;
    let typed = own_type(reader.alloc, entries)?;
    let keys = FieldKeys {
        home,
        entries,
        beside: &[],
        enumeration: enum_in(number),
    };
    drop(read_parts(reader, &keys, typed)?);
    Ok(None)
}

/// A member of this kind, whose name is on this line.
#[tactic(auto, using(crate::proofs::Noted::steps), unfolding(crate::specs::Members::by_kind))]
fn by_kind(
    reader: &mut Reader,
    home: &Home,
    kind: MappingKind,
    name_line: usize,
    line: usize,
    entries: &[Entry],
) -> Read<MemberKind>
    ensures { Reads (by_kind (seen_home home.now) kind name_line line (map pair entries.now)) plain_kind reader.old reader.new result }
{
    match kind {
        MappingKind::Parameter => {
            note_missing(&mut reader.least, b"id", line, entries);
            Ok(Some(MemberKind::Parameter))
        }
        MappingKind::Attribute => attribute(reader, home, line, entries),
        MappingKind::ParseInstance => parse_instance(reader, home, line, entries),
        MappingKind::Value => value_instance(reader, &once(home), line, entries),
        MappingKind::Placeless => placeless(reader, home, name_line, entries),
        _ => Ok(Some(MemberKind::Parameter)),
    }
}

/// A member of these keys.
#[tactic(auto, using(crate::proofs::Noted::steps), unfolding(crate::specs::Members::member_keys))]
fn member_keys<'a>(
    reader: &mut Reader,
    scopes: &'a Scopes<'a>,
    within: usize,
    member: &Member,
    entries: &[Entry],
) -> Read<MemberKind>
    ensures { Reads (member_keys (declared scopes.now) within (member_of member.now) (map pair entries.now)) plain_kind reader.old reader.new result }
{
    let home = home_of(scopes, within, member.role, entries);
    let kind = kind_of(member.role, entries);
    note_keys(&mut reader.least, kind, entries);
    by_kind(
        reader,
        &home,
        kind,
        member.line,
        member.value.line(),
        entries,
    )
}

// ---- members, with their names

/// The line of a member's name.
#[tactic(auto, unfolding(crate::specs::Members::name_line))]
fn name_line(member: &Member) -> usize
    ensures { result ≡ name_line (member_of member.now) }
{
    if matches!(member.role, Role::Instance) {
        return member.line;
    }
    id_line(member.value, member.line)
}

/// Whether an earlier member of the same type has the name of the member of this number.
#[tactic(auto, unfolding(crate::specs::Members::is_named_again))]
fn is_named_again(scopes: &Scopes, within: usize, number: usize, member: &Member) -> bool
    ensures { result ≡ is_named_again (declared scopes.now) within number (member_of member.now) }
{
    let name = member.name();
    let is_first = match scopes.member_named(within, name) {
        Some(first) => first == number,
        None => false,
    };
    !name.is_empty() & !is_first
}

/// The member of this number in its type.
#[tactic(auto, using(crate::proofs::Noted::steps), unfolding(crate::specs::Members::member))]
pub(crate) fn member<'a>(
    reader: &mut Reader,
    scopes: &'a Scopes<'a>,
    within: usize,
    number: usize,
    member: &Member,
) -> Read<MemberKind>
    ensures { Reads (stated_member (declared scopes.now) within number (member_of member.now)) plain_kind reader.old reader.new result }
{
    let is_instance = matches!(member.role, Role::Instance);
    let is_bad = is_instance & !is_id(member.name());
    let is_again = is_named_again(scopes, within, number, member);
    note_if(&mut reader.least, is_bad, member.line, BadValue);
    note_if(&mut reader.least, is_again, name_line(member), KeysAgainst);
    match member.value.entries() {
        Some(entries) => member_keys(reader, scopes, within, member, entries),
        None => {
            note(&mut reader.least, member.line, BadValue);
            Ok(None)
        }
    }
}
