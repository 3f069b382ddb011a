//! What is wrong with the names of an expression.

ghost use Rattle.std.specs.Prelude.{◌≡◌, None, map, string_bytes};
ghost use Rattle.ksv_expr_tree.specs.Tree.{view, path_of, member_of, arguments_of};
ghost use Rattle.ksv_schema_names.specs.Table.{declared};
ghost use Rattle.ksv_schema_names.specs.Names.{has_place, is_own_stream_fit, is_stream_fit, special_faults, special_field_faults, is_member, cast_faults, is_call, part_faults, list_faults, name_faults, wrong_if, lesser, least};
ghost use Rattle.ksv_schema_names.specs.Code.{behind_of, faults_at};

use crate::built_ins::built_in_at;
use crate::position::{NameFault, Position, Site};
use crate::scopes::Scopes;
use ksv_expr_tree::{Expr, Member, SpecialName, TypeName};

/// What follows a part of an expression.
#[derive(Clone, Copy)]
enum Behind<'a> {
    /// A dot and this name.
    Dot(&'a str),
    /// Nothing: the part is the whole expression.
    Nothing,
    /// Something else, or what the part is an operand of.
    Other,
}

/// The lesser of what was found before and a fault.
fn lesser(found: Option<NameFault>, fault: NameFault) -> Option<NameFault>
    ensures { result ≡ lesser found fault }
{
    match found {
        None => Some(fault),
        Some(NameFault::Unknown) => found,
        Some(NameFault::LeftOut) => Some(fault),
    }
}

#[tactic(auto, unfolding(crate::specs::Names::least))]
fn note(found: &mut Option<NameFault>, is_wrong: bool, fault: NameFault)
    ensures { found.new ≡ least found.old (wrong_if is_wrong fault) }
{
    if is_wrong {
        *found = lesser(*found, fault);
    }
}

fn has_place(site: Site) -> bool
    ensures { result ≡ has_place site }
{
    use Site::*;
    matches!(site, Condition | Size | Count | Until | Switch)
}

/// Whether `_io` is allowed here.
fn is_own_stream_fit(position: Position, behind: Behind) -> bool
    ensures { result ≡ is_own_stream_fit position (behind_of behind.entry) }
{
    match behind {
        Behind::Dot(name) => {
            let is_size = name == "size";
            let is_place = name == "pos" || name == "eof";
            is_size || position.in_sequence && has_place(position.site) && is_place
        }
        Behind::Nothing => matches!(position.site, Site::Stream),
        Behind::Other => false,
    }
}

/// Whether the stream of another object is allowed here.
fn is_stream_fit(position: Position, behind: Behind) -> bool
    ensures { result ≡ is_stream_fit position (behind_of behind.entry) }
{
    match behind {
        Behind::Dot(name) => name == "size",
        Behind::Nothing => matches!(position.site, Site::Stream),
        Behind::Other => false,
    }
}

/// A name of the language alone.
#[tactic(auto, using(crate::proofs::Noted::steps), unfolding(crate::specs::Names::special_faults))]
fn note_special(
    found: &mut Option<NameFault>,
    position: Position,
    behind: Behind,
    name: SpecialName,
)
    ensures { found.new ≡ least found.old (special_faults position (behind_of behind.entry) name) }
{
    match name {
        SpecialName::Root | SpecialName::Parent => {}
        SpecialName::Io => {
            let fits = is_own_stream_fit(position, behind);
            note(found, !fits, NameFault::LeftOut);
        }
        SpecialName::Index => {
            use Site::*;
            let is_of_element = matches!(
                position.site,
                Size | Until | Switch | Argument | Valid | ValidExpr
            );
            let fits = position.is_repeated & is_of_element;
            note(found, !fits, NameFault::Unknown);
        }
        SpecialName::Element => {
            let fits = matches!(position.site, Site::Until | Site::ValidExpr);
            note(found, !fits, NameFault::Unknown);
        }
    }
}

/// A name of the language after a dot.
#[tactic(auto, using(crate::proofs::Noted::steps), unfolding(crate::specs::Names::special_field_faults))]
fn note_special_field(
    found: &mut Option<NameFault>,
    position: Position,
    behind: Behind,
    name: SpecialName,
)
    ensures { found.new ≡ least found.old (special_field_faults position (behind_of behind.entry) name) }
{
    match name {
        SpecialName::Root | SpecialName::Parent => {}
        SpecialName::Io => {
            let fits = is_stream_fit(position, behind);
            note(found, !fits, NameFault::LeftOut);
        }
        SpecialName::Index | SpecialName::Element => note(found, true, NameFault::Unknown),
    }
}

/// Whether there is a member of an enum.
#[tactic(auto, unfolding(crate::specs::Names::is_member, crate::specs::Names::enum_at))]
fn is_member(scopes: &Scopes, within: usize, member: &Member) -> bool
    ensures { result ≡ is_member (declared scopes.now) within (member_of member.now) }
{
    match scopes.enum_named(within, member.path.as_slice()) {
        Some(enumeration) => scopes
            .number_of_id(enumeration as usize, member.name.as_bytes())
            .is_some(),
        None => false,
    }
}

/// The type of a cast.
#[tactic(auto, unfolding(crate::specs::Names::cast_faults))]
fn note_cast(found: &mut Option<NameFault>, scopes: &Scopes, within: usize, name: &TypeName)
    ensures { found.new ≡ least found.old (cast_faults (declared scopes.now) within (path_of name.now)) }
{
    let path = name.path.as_slice();
    if built_in_at(path).is_some() {
        note(found, true, NameFault::LeftOut);
    } else {
        let is_known = scopes.type_named(within, path).is_some();
        note(found, !is_known, NameFault::Unknown);
    }
}

/// Whether there is a call of a method with this many arguments.
#[tactic(auto, unfolding(crate::specs::Names::is_call))]
fn is_call(method: &str, count: usize) -> bool
    ensures { result ≡ is_call method.now count }
{
    match count {
        1 => method == "to_i" || method == "to_s",
        2 => method == "substring",
        _ => false,
    }
}

/// The faults of a part.
#[cycle(faults)]
fn note_part(
    found: &mut Option<NameFault>,
    scopes: &Scopes,
    within: usize,
    position: Position,
    behind: Behind,
    expr: &Expr,
)
    ensures { found.new ≡ least found.old (faults_at (declared scopes.now) within position (behind_of behind.entry) expr.now) }
{
    match expr {
        Expr::Literal(_) => {}
        Expr::Name(name) => {
            let is_known = scopes.member_named(within, name.text.as_bytes()).is_some();
            note(found, !is_known, NameFault::Unknown);
        }
        Expr::Special(name) => note_special(found, position, behind, *name),
        Expr::Member(member) => {
            let is_known = is_member(scopes, within, member);
            note(found, !is_known, NameFault::Unknown);
        }
        Expr::Unary(_, operand) => {
            note_part(found, scopes, within, position, Behind::Other, operand);
        }
        Expr::Binary(_, left, right) | Expr::Logical(_, left, right) | Expr::Index(left, right) => {
            note_part(found, scopes, within, position, Behind::Other, left);
            note_part(found, scopes, within, position, Behind::Other, right);
        }
        Expr::Choice(condition, yes, no) => {
            note_part(found, scopes, within, position, Behind::Other, condition);
            note_part(found, scopes, within, position, Behind::Other, yes);
            note_part(found, scopes, within, position, Behind::Other, no);
        }
        Expr::Field(object, name) => {
            let dot = Behind::Dot(name.text.as_str());
            note_part(found, scopes, within, position, dot, object);
        }
        Expr::SpecialField(object, name) => {
            note_part(found, scopes, within, position, Behind::Other, object);
            note_special_field(found, position, behind, *name);
        }
        Expr::Call(object, method, arguments) => {
            let is_known = is_call(method.as_str(), arguments.len());
            note(found, !is_known, NameFault::Unknown);
            note_part(found, scopes, within, position, Behind::Other, object);
            note_list(found, scopes, within, position, arguments);
        }
        Expr::Cast(object, name) => {
            note_part(found, scopes, within, position, Behind::Other, object);
            note_cast(found, scopes, within, name);
        }
    }
}

/// The faults of arguments.
#[cycle(faults)]
fn note_list(
    found: &mut Option<NameFault>,
    scopes: &Scopes,
    within: usize,
    position: Position,
    arguments: &[Expr],
)
    ensures { found.new ≡ least found.old (list_faults (declared scopes.now) within position (arguments_of (map view arguments.now))) }
{
    for argument in arguments {
        note_part(found, scopes, within, position, Behind::Other, argument);
    }
}

/// What is wrong with the names of an expression in a type: the least fault, or None.
#[tactic(auto, unfolding(crate::specs::Names::name_faults, crate::specs::Code::faults_at))]
pub fn name_fault(
    scopes: &Scopes,
    within: usize,
    position: Position,
    expr: &Expr,
) -> Option<NameFault>
    ensures { result ≡ least None (name_faults (declared scopes.now) within position (view expr.now)) }
{
    let mut found = None;
    note_part(&mut found, scopes, within, position, Behind::Nothing, expr);
    found
}

/// What is wrong with the names of a type's arguments: the least fault, or None.
pub fn argument_fault(
    scopes: &Scopes,
    within: usize,
    position: Position,
    arguments: &[Expr],
) -> Option<NameFault>
    ensures { result ≡ least None (list_faults (declared scopes.now) within position (arguments_of (map view arguments.now))) }
{
    let mut found = None;
    note_list(&mut found, scopes, within, position, arguments);
    found
}
