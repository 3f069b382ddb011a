//! The whole description: the names of all members, what is read of each type and enum, and what is put together of it.

ghost use Rattle.std.specs.Prelude.{◌≡◌, true, map, IfOk, IfErr, OnOk, option_map, flat_map, None, Some};
ghost use Rattle.std.specs.List.{list_all};
ghost use Rattle.std.specs.Vec.Iter.{into_iter_items};
ghost use Rattle.ksv_schema_names.specs.Table.{declared};
ghost use Rattle.ksv_schema_names.specs.Members.{members_of};
ghost use Rattle.ksv_schema_names.specs.View.{row_of, member_of as seen_member};
ghost use Rattle.ksv_desc.specs.Names.{distinct_behind};
ghost use Rattle.ksv_desc.specs.Pieces.{plain_kind, plain_member, plain_type, plain_enum};
ghost use Rattle.ksv_desc.specs.Whole.{plain_pieces};
ghost use Rattle.ksv_schema.specs.Faults.{noted};
ghost use Rattle.ksv_schema.specs.Reading.{each_from};
ghost use Rattle.ksv_schema.specs.Members.{member as stated_member};
ghost use Rattle.ksv_schema.specs.Description.{faults_of, members as stated_members, all_members, all_enums, names_in, are_texts, each_of, member_of, type_of, types_of, described, stated_by};
ghost use Rattle.ksv_schema.specs.Code.{plain, seen_fault, kept_where, onto, Reads};
ghost use Rattle.ksv_schema.specs.Plain.{context_of};

use crate::members::check::{line_past, member_past, note_past, note_types, type_past};
use crate::members::enumeration::{enumerations, owned_text};
use crate::members::member::member;
use crate::members::number::{Context, number_kind};
use crate::values::fault::DescFault;
use crate::values::reader::{Read, Reader, add, both, paired, pushed, whole};
use ksv_desc::{EnumDesc, MemberDesc, MemberKind, Pieces, TypeDesc, as_text};
use ksv_schema_names::{Member, Names, Row, Scopes};
use std::alloc::{AllocError, Global};
use std::vec::IntoIter;

// ---- the names of members

/// Adds the names of members, as far as they are texts, and returns whether all are.
fn add_members(names: &mut Names, members: &[Member]) -> Result<bool, AllocError>
    ensures added { IfOk result (λ all. all ≡ true → names.new ≡ distinct_behind names.old (names_in (map seen_member members.now))) }
    ensures texts { IfOk result (λ all. all ≡ are_texts (map seen_member members.now)) }
{
    for member in members {
        match as_text(member.name()) {
            Some(text) => names.add(text)?,
            None => return Ok(false),
        }
    }
    Ok(true)
}

/// Adds the names of the members of each type, as far as they are texts, and returns whether all are.
fn add_all_members<'a>(names: &mut Names, types: &[Vec<Member<'a>>]) -> Result<bool, AllocError>
    ensures added { IfOk result (λ all. all ≡ true → names.new ≡ distinct_behind names.old (flat_map names_in (map (λ v. map seen_member v.items) types.now))) }
    ensures texts { IfOk result (λ all. all ≡ list_all are_texts (map (λ v. map seen_member v.items) types.now)) }
{
    for members in types {
        if !add_members(names, members)? {
            return Ok(false);
        }
    }
    Ok(true)
}

// ---- what is read of members

/// Each of these members of the type of this number.
fn each_member<'a>(
    reader: &mut Reader,
    scopes: &'a Scopes<'a>,
    within: usize,
    members: &[Member],
) -> Read<Vec<MemberKind>>
    ensures { Reads (each_from (stated_member (declared scopes.now) within) 0 (map seen_member members.now)) (λ v. map plain_kind v.items) reader.old reader.new result }
{
    let mut made = Some(Vec::new(reader.alloc));
    for (number, one) in members.iter().enumerate() {
        let next = member(reader, scopes, within, number, one);
        made = pushed(made, next)?;
    }
    Ok(made)
}

/// The members of the type of this number.
#[tactic(auto, using(crate::proofs::Noted::steps), unfolding(crate::specs::Description::members))]
fn members<'a>(
    reader: &mut Reader,
    scopes: &'a Scopes<'a>,
    within: usize,
    members: &[Member],
) -> Read<Vec<MemberKind>>
    ensures { Reads (stated_members (declared scopes.now) within (map seen_member members.now)) (λ v. map plain_kind v.items) reader.old reader.new result }
{
    note_past(&mut reader.least, member_past(members));
    each_member(reader, scopes, within, members)
}

/// The members of each type.
fn all_members<'a>(
    reader: &mut Reader,
    scopes: &'a Scopes<'a>,
    types: &[Vec<Member<'a>>],
) -> Read<Vec<Vec<MemberKind>>>
    ensures { Reads (each_from (stated_members (declared scopes.now)) 0 (map (λ v. map seen_member v.items) types.now)) (λ v. map (λ w. map plain_kind w.items) v.items) reader.old reader.new result }
{
    let mut made = Some(Vec::new(reader.alloc));
    for (within, own) in types.iter().enumerate() {
        let next = members(reader, scopes, within, own);
        made = pushed(made, next)?;
    }
    Ok(made)
}

// ---- members and types, with the numbers of names

/// A member of this kind, with the numbers of names.
#[tactic(auto, unfolding(crate::specs::Description::member_of))]
fn member_of(context: &Context, member: &Member, mut kind: MemberKind) -> Option<MemberDesc>
    ensures { option_map plain_member result ≡ member_of (context_of context.now) (seen_member member.now) (plain_kind kind) }
{
    let name = context.names.number_of(as_text(member.name())?)?;
    number_kind(context, &mut kind);
    Some(MemberDesc { name, kind })
}

/// Adds each of these members, of which the next ones are the kinds, and returns whether all are added.
fn add_kinds(
    made: &mut Vec<MemberDesc>,
    context: &Context,
    members: &[Member],
    kinds: &mut IntoIter<MemberKind>,
) -> Result<bool, AllocError>
    ensures { IfOk result (λ all. kept_where all (map plain_member made.new.items) ≡ onto (map plain_member made.old.items) (each_of (member_of (context_of context.now)) (map seen_member members.now) (map plain_kind (into_iter_items kinds.old)))) }
{
    for member in members {
        let Some(kind) = kinds.next() else {
            return Ok(false);
        };
        if !add(made, member_of(context, member, kind))? {
            return Ok(false);
        }
    }
    Ok(true)
}

/// Each of these members, of which these are the kinds.
fn members_of(
    alloc: Global,
    context: &Context,
    members: &[Member],
    kinds: Vec<MemberKind>,
) -> Read<Vec<MemberDesc>>
    ensures { IfOk result (λ o. option_map (λ v. map plain_member v.items) o ≡ each_of (member_of (context_of context.now)) (map seen_member members.now) (map plain_kind kinds.items)) }
{
    let mut made = Vec::new(alloc);
    let mut rest = kinds.into_iter();
    let all = add_kinds(&mut made, context, members, &mut rest);
    whole(made, all)
}

/// A type with these members, of which these are the kinds.
#[tactic(auto, unfolding(crate::specs::Description::type_of))]
fn type_of(
    alloc: Global,
    context: &Context,
    row: &Row,
    members: &[Member],
    kinds: Vec<MemberKind>,
) -> Read<TypeDesc>
    requires { map seen_member members.now ≡ members_of (row_of row.now) }
    ensures { IfOk result (λ o. option_map plain_type o ≡ type_of (declared context.now.scopes.now) context.now.names.now context.now.within (row_of row.now) (map plain_kind kinds.items)) }
{
    let members = members_of(alloc, context, members, kinds)?;
    match both(members, owned_text(alloc, row.id))? {
        Some((members, id)) => Ok(Some(TypeDesc::new(alloc, id, members)?)),
        None => Ok(None),
    }
}

/// Adds each of these types, of whose members the next ones are the kinds, and returns whether all are added.
fn add_types<'a>(
    alloc: Global,
    made: &mut Vec<TypeDesc>,
    scopes: &'a Scopes<'a>,
    names: &'a Names,
    types: &[Row<'a>],
    members: &[Vec<Member<'a>>],
    kinds: &mut IntoIter<Vec<MemberKind>>,
) -> Result<bool, AllocError>
    requires { map (λ v. map seen_member v.items) members.now ≡ map members_of (map row_of types.now) }
    ensures { IfOk result (λ all. kept_where all (map plain_type made.new.items) ≡ onto (map plain_type made.old.items) (types_of (declared scopes.now) names.now 0 (map row_of types.now) (map (λ w. map plain_kind w.items) (into_iter_items kinds.old)))) }
{
    for (within, row) in types.iter().enumerate() {
        let Some(own) = kinds.next() else {
            return Ok(false);
        };
        let context = Context {
            scopes,
            names,
            within,
        };
        let desc = type_of(alloc, &context, row, &members[within], own)?;
        if !add(made, desc)? {
            return Ok(false);
        }
    }
    Ok(true)
}

/// Each of these types, of whose members these are the kinds.
fn types_of<'a>(
    alloc: Global,
    scopes: &'a Scopes<'a>,
    names: &'a Names,
    types: &[Row<'a>],
    members: &[Vec<Member<'a>>],
    kinds: Vec<Vec<MemberKind>>,
) -> Read<Vec<TypeDesc>>
    requires { map (λ v. map seen_member v.items) members.now ≡ map members_of (map row_of types.now) }
    ensures { IfOk result (λ o. option_map (λ v. map plain_type v.items) o ≡ types_of (declared scopes.now) names.now 0 (map row_of types.now) (map (λ w. map plain_kind w.items) kinds.items)) }
{
    let mut made = Vec::new(alloc);
    let mut rest = kinds.into_iter();
    let all = add_types(alloc, &mut made, scopes, names, types, members, &mut rest);
    whole(made, all)
}

// ---- the whole

/// What is read of all types and enums.
#[derive(Drop)]
pub(crate) struct Whole {
    pub(crate) kinds: Option<Vec<Vec<MemberKind>>>,
    pub(crate) enums: Option<Vec<EnumDesc>>,
}

/// Reads all members and all enums; before them come what is past a limit, and the keys of types.
#[tactic(auto, using(crate::proofs::Noted::steps, crate::proofs::Enums::all_enums_words), unfolding(crate::specs::Description::faults_of, crate::specs::Description::all_members, crate::specs::Description::all_enums))]
fn read_all<'a>(reader: &mut Reader, scopes: &'a Scopes<'a>) -> Result<Whole, AllocError>
    ensures kinds { IfOk result (λ w. option_map (λ v. map (λ w. map plain_kind w.items) v.items) w.kinds ≡ (all_members (declared scopes.now)).value) }
    ensures enums { IfOk result (λ w. option_map (λ v. map plain_enum v.items) w.enums ≡ (all_enums (declared scopes.now)).value) }
    ensures faults { OnOk result (seen_fault reader.new.least ≡ noted (seen_fault reader.old.least) (faults_of (declared scopes.now))) }
    ensures words { OnOk result (reader.new.names ≡ distinct_behind reader.old.names (all_members (declared scopes.now)).words) }
{
    let entry_past = line_past(reader.alloc, scopes.enums())?;
    note_past(&mut reader.least, type_past(scopes.types()));
    note_past(&mut reader.least, entry_past);
    note_types(&mut reader.least, scopes.types());
    let kinds = all_members(reader, scopes, scopes.members())?;
    let enums = enumerations(reader, scopes.enums())?;
    Ok(Whole { kinds, enums })
}

/// The description with these names, of which the first ones are those of members.
#[tactic(auto, unfolding(crate::specs::Description::described))]
fn described<'a>(
    alloc: Global,
    scopes: &'a Scopes<'a>,
    names: Names,
    known: usize,
    whole: Whole,
) -> Read<Pieces>
    requires kinds { option_map (λ v. map (λ w. map plain_kind w.items) v.items) whole.kinds ≡ (all_members (declared scopes.now)).value }
    requires enums { option_map (λ v. map plain_enum v.items) whole.enums ≡ (all_enums (declared scopes.now)).value }
    ensures { IfOk result (λ o. option_map plain_pieces o ≡ described (declared scopes.now) names known) }
{
    let Some((kinds, enums)) = paired(whole.kinds, whole.enums) else {
        return Ok(None);
    };
    let types = types_of(
        alloc,
        scopes,
        &names,
        scopes.types(),
        scopes.members(),
        kinds,
    )?;
    match types {
        Some(types) => Ok(Some(Pieces {
            types,
            enums,
            names,
            known,
        })),
        None => Ok(None),
    }
}

/// The description that a tree states, or its least fault.
#[tactic(auto, unfolding(crate::specs::Description::stated_by, crate::specs::Description::names_of, crate::specs::Description::member_names, ksv_desc::specs::Names::distinct))]
pub(crate) fn read<'a>(
    alloc: Global,
    scopes: &'a Scopes<'a>,
) -> Result<Result<Option<Pieces>, DescFault>, AllocError>
    ensures fault { IfOk result (λ r. IfErr r (λ f. noted None (faults_of (declared scopes.now)) ≡ Some (plain f))) }
    ensures faultless { IfOk result (λ r. OnOk r (noted None (faults_of (declared scopes.now)) ≡ None)) }
    ensures stated { IfOk result (λ r. IfOk r (λ o. option_map plain_pieces o ≡ stated_by (declared scopes.now))) }
{
    let mut reader = Reader {
        alloc,
        names: Names::new(alloc),
        least: None,
    };
    let are_texts = add_all_members(&mut reader.names, scopes.members())?;
    let known = reader.names.len();
    let whole = read_all(&mut reader, scopes)?;
    let Reader { names, least, .. } = reader;
    match least {
        Some(fault) => Ok(Err(fault)),
        None if are_texts => Ok(Ok(described(alloc, scopes, names, known, whole)?)),
        None => Ok(Ok(None)),
    }
}
