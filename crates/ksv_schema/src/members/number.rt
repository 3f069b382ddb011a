//! The numbers of names: once all names are known, each name in what was read gets its number.

ghost use Rattle.std.specs.Prelude.{◌≡◌, map, option_map};
ghost use Rattle.ksv_expr_tree.specs.Tree.{view};
ghost use Rattle.ksv_desc.specs.Pieces.{plain_content, plain_case, plain_choice, plain_extent, plain_repeat, plain_valid, plain_field, plain_kind};
ghost use Rattle.ksv_schema.specs.Description.{in_tree, in_content, in_case, in_choice, in_extent, in_repeat, in_valid, in_field, in_kind};
ghost use Rattle.ksv_schema.specs.Plain.{context_of};

use ksv_desc::{Case, Choice, Content, Extent, Field, MemberKind, Repeat, Valid};
use ksv_expr_tree::Expr;
use ksv_schema_names::{Names, Scopes, number_arguments, number_expr};

/// Where names get their numbers: what is declared, the description's names, and the type that they are in.
#[derive(Clone, Copy)]
pub(crate) struct Context<'a> {
    pub(crate) scopes: &'a Scopes<'a>,
    pub(crate) names: &'a Names,
    pub(crate) within: usize,
}

/// Gives the names of an expression their numbers.
fn number_tree(context: &Context, expr: &mut Expr)
    ensures { view expr.new ≡ in_tree (context_of context.now) (view expr.old) }
{
    number_expr(context.scopes, context.names, context.within, expr);
}

/// Gives the names of an optional expression their numbers.
fn number_optional(context: &Context, expr: &mut Option<Expr>)
    ensures { option_map view expr.new ≡ option_map (in_tree (context_of context.now)) (option_map view expr.old) }
{
    match expr {
        Some(expr) => number_tree(context, expr),
        None => {}
    }
}

/// Gives the names of each of these expressions their numbers.
fn number_trees(context: &Context, exprs: &mut [Expr])
    ensures { map view exprs.new ≡ map (in_tree (context_of context.now)) (map view exprs.old) }
{
    for expr in exprs.iter_mut() {
        number_tree(context, expr);
    }
}

// ---- what is read

/// Gives the names of a content their numbers.
fn number_content(context: &Context, content: &mut Content)
    ensures { plain_content content.new ≡ in_content (context_of context.now) (plain_content content.old) }
{
    if let Content::Object { arguments, .. } = content {
        number_arguments(context.scopes, context.names, context.within, arguments);
    }
}

/// Gives the names of a case their numbers.
fn number_case(context: &Context, case: &mut Case)
    ensures { plain_case case.new ≡ in_case (context_of context.now) (plain_case case.old) }
{
    number_content(context, &mut case.content);
}

/// Gives the names of each of these cases their numbers.
fn number_cases(context: &Context, cases: &mut [Case])
    ensures { map plain_case cases.new ≡ map (in_case (context_of context.now)) (map plain_case cases.old) }
{
    for case in cases.iter_mut() {
        number_case(context, case);
    }
}

/// Gives the names of a content or a switch their numbers.
fn number_choice(context: &Context, choice: &mut Choice)
    ensures { plain_choice choice.new ≡ in_choice (context_of context.now) (plain_choice choice.old) }
{
    match choice {
        Choice::Always(content) => number_content(context, content),
        Choice::Switch { on, cases } => {
            number_tree(context, on);
            number_cases(context, cases);
        }
    }
}

// ---- how it is read

/// Gives the names of a size their numbers.
fn number_extent(context: &Context, extent: &mut Extent)
    ensures { plain_extent extent.new ≡ in_extent (context_of context.now) (plain_extent extent.old) }
{
    match extent {
        Extent::Sized(size) => number_tree(context, size),
        Extent::SizeEos => {}
        Extent::ByItself => {}
    }
}

/// Gives the names of a repetition their numbers.
fn number_repeat(context: &Context, repeat: &mut Repeat)
    ensures { plain_repeat repeat.new ≡ in_repeat (context_of context.now) (plain_repeat repeat.old) }
{
    match repeat {
        Repeat::Once => {}
        Repeat::Eos => {}
        Repeat::Expr(count) => number_tree(context, count),
        Repeat::Until(last) => number_tree(context, last),
    }
}

/// Gives the names of what a value must meet their numbers.
fn number_valid(context: &Context, valid: &mut Option<Valid>)
    ensures { option_map plain_valid valid.new ≡ option_map (in_valid (context_of context.now)) (option_map plain_valid valid.old) }
{
    match valid {
        Some(Valid::AnyOf(conditions)) => number_trees(context, conditions),
        Some(Valid::AllOf(conditions)) => number_trees(context, conditions),
        None => {}
    }
}

/// Gives the names of what an attribute or a parse instance reads their numbers.
fn number_field(context: &Context, field: &mut Field)
    ensures { plain_field field.new ≡ in_field (context_of context.now) (plain_field field.old) }
{
    number_optional(context, &mut field.condition);
    number_repeat(context, &mut field.repeat);
    number_choice(context, &mut field.choice);
    number_extent(context, &mut field.extent);
    number_valid(context, &mut field.valid);
}

/// Gives the names in a parse instance their numbers.
fn number_parse_instance(
    context: &Context,
    place: &mut Expr,
    stream: &mut Option<Expr>,
    field: &mut Field,
)
    ensures placed { view place.new ≡ in_tree (context_of context.now) (view place.old) }
    ensures streamed { option_map view stream.new ≡ option_map (in_tree (context_of context.now)) (option_map view stream.old) }
    ensures read { plain_field field.new ≡ in_field (context_of context.now) (plain_field field.old) }
{
    number_tree(context, place);
    number_optional(context, stream);
    number_field(context, field);
}

/// Gives the names in a value instance their numbers.
fn number_value_instance(
    context: &Context,
    condition: &mut Option<Expr>,
    value: &mut Expr,
    valid: &mut Option<Valid>,
)
    ensures conditional { option_map view condition.new ≡ option_map (in_tree (context_of context.now)) (option_map view condition.old) }
    ensures calculated { view value.new ≡ in_tree (context_of context.now) (view value.old) }
    ensures checked { option_map plain_valid valid.new ≡ option_map (in_valid (context_of context.now)) (option_map plain_valid valid.old) }
{
    number_optional(context, condition);
    number_tree(context, value);
    number_valid(context, valid);
}

/// Gives the names of a member their numbers.
pub(crate) fn number_kind(context: &Context, kind: &mut MemberKind)
    ensures { plain_kind kind.new ≡ in_kind (context_of context.now) (plain_kind kind.old) }
{
    match kind {
        MemberKind::Parameter => {}
        MemberKind::Attribute(field) => number_field(context, field),
        MemberKind::ParseInstance {
            place,
            stream,
            field,
        } => number_parse_instance(context, place, stream, field),
        MemberKind::ValueInstance {
            condition,
            value,
            valid,
            ..
        } => number_value_instance(context, condition, value, valid),
    }
}
