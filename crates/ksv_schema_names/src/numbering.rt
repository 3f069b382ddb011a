//! The numbers of the names in an expression, set in place.

ghost use Rattle.std.specs.Prelude.{◌≡◌, map};
ghost use Rattle.ksv_expr_tree.specs.Tree.{view, view_type, name_of, path_of, member_of, arguments_of};
ghost use Rattle.ksv_schema_names.specs.Table.{declared};
ghost use Rattle.ksv_schema_names.specs.Numbered.{numbered, all_numbered, numbered_word, numbered_type, numbered_member, given_member};

use crate::scopes::Scopes;
use ksv_desc::Names;
use ksv_expr_tree::{EnumMember, Expr, Member, Name, TypeName};

/// What the path of an enum's member means, where it is used in the type `within`.
#[tactic(auto, unfolding(crate::specs::Numbered::given_member, crate::specs::Names::enum_at))]
pub fn given_member(scopes: &Scopes, within: usize, member: &Member) -> Option<EnumMember>
    ensures { result ≡ given_member (declared scopes.now) within (member_of member.now) }
{
    let enum_number = scopes.enum_named(within, member.path.as_slice())?;
    let number = scopes.number_of_id(enum_number as usize, member.name.as_bytes())?;
    Some(EnumMember {
        enum_number,
        number,
    })
}

fn number_name(names: &Names, name: &mut Name)
    ensures { name_of name.new ≡ numbered_word names.now (name_of name.old) }
{
    name.number = names.number_of(name.text.as_str());
}

/// Gives the name of a type its number, where it is used in the type `within`.
pub fn number_type(scopes: &Scopes, within: usize, name: &mut TypeName)
    ensures { path_of name.new ≡ numbered_type (declared scopes.now) within (path_of name.old) }
{
    name.number = scopes.type_named(within, name.path.as_slice());
}

fn number_member(scopes: &Scopes, within: usize, member: &mut Member)
    ensures { member_of member.new ≡ numbered_member (declared scopes.now) within (member_of member.old) }
{
    member.given = given_member(scopes, within, member);
}

/// Gives each name of an expression its number, for an expression in the type `within`.
#[cycle(numbers)]
pub fn number_expr(scopes: &Scopes, names: &Names, within: usize, expr: &mut Expr)
    ensures { view expr.new ≡ numbered (declared scopes.now) names.now within (view expr.old) }
{
    match expr {
        Expr::Literal(_) => {}
        Expr::Name(name) => number_name(names, name),
        Expr::Special(_) => {}
        Expr::Member(member) => number_member(scopes, within, member),
        Expr::Unary(_, operand) => number_expr(scopes, names, within, operand),
        Expr::Binary(_, left, right) => {
            number_expr(scopes, names, within, left);
            number_expr(scopes, names, within, right);
        }
        Expr::Logical(_, left, right) => {
            number_expr(scopes, names, within, left);
            number_expr(scopes, names, within, right);
        }
        Expr::Choice(condition, yes, no) => {
            number_expr(scopes, names, within, condition);
            number_expr(scopes, names, within, yes);
            number_expr(scopes, names, within, no);
        }
        Expr::Field(object, name) => {
            number_expr(scopes, names, within, object);
            number_name(names, name);
        }
        Expr::SpecialField(object, _) => number_expr(scopes, names, within, object),
        Expr::Call(object, _method, arguments) => {
            number_expr(scopes, names, within, object);
            number_arguments(scopes, names, within, arguments);
        }
        Expr::Index(list, place) => {
            number_expr(scopes, names, within, list);
            number_expr(scopes, names, within, place);
        }
        Expr::Cast(object, name) => {
            number_expr(scopes, names, within, object);
            number_type(scopes, within, name);
        }
    }
}

/// Gives each name of a type's arguments its number.
#[cycle(numbers)]
pub fn number_arguments(scopes: &Scopes, names: &Names, within: usize, arguments: &mut [Expr])
    ensures { arguments_of (map view arguments.new) ≡ all_numbered (declared scopes.now) names.now within (arguments_of (map view arguments.old)) }
{
    for argument in arguments.iter_mut() {
        number_expr(scopes, names, within, argument);
    }
}
