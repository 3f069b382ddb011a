//! What a value must meet: conditions in which `_` is that value, read at `valid`.

ghost use Rattle.std.specs.Prelude.{◌≡◌, IfOk, MatchResult, [], ◌∷◌, ◌++◌, map, option_map, option_to_list};
ghost use Rattle.ksv_yaml_tree.specs.View.{pair, view as view_node, seen_entry};
ghost use Rattle.ksv_expr_tree.specs.declared.tree.BinaryOperator.TheVariants.{Equal};
ghost use Rattle.ksv_expr_tree.specs.Tree.{view};
ghost use Rattle.ksv_desc.specs.Description.{AnyOf};
ghost use Rattle.ksv_desc.specs.Pieces.{plain_valid};
ghost use Rattle.ksv_schema.specs.Reading.{made, each, perhaps};
ghost use Rattle.ksv_schema.specs.Valid.{compared, comparison, alternative, alternatives, one_or_some, any_of, bounds, in_order, all_of, has_no_key, any_or_all, conditions, valid, own_valid};
ghost use Rattle.ksv_schema.specs.Code.{seen_home, Reads};

use crate::keys::forms::MappingKind;
use crate::values::fault::DescFaultKind::{BadValue, MissingKey};
use crate::values::fault::{note, note_if};
use crate::values::key::{is_ignored, note_keys};
use crate::values::reader::{Home, Read, Reader, both, present, pushed};
use crate::values::rule::note_together;
use crate::values::value::{expression, expression_in, perhaps_expression};
use ksv_desc::Valid;
use ksv_expr_tree::{BinaryOperator, Expr, SpecialName};
use ksv_schema_names::Site;
use ksv_yaml_tree::{Entry, Yaml, find};
use std::alloc::{AllocError, Global};

// ---- one condition

/// The value, compared with an expression.
#[tactic(auto, using(ksv_desc::proofs::Views::view_binary, ksv_desc::proofs::Views::view_special))]
fn compared(alloc: Global, operator: BinaryOperator, operand: Expr) -> Result<Expr, AllocError>
    ensures { IfOk result (λ e. view e ≡ compared operator (view operand)) }
{
    let operand = Box::new(alloc, operand)?;
    let value = Box::new(alloc, Expr::Special(SpecialName::Element))?;
    Ok(Expr::Binary(operator, value, operand))
}

/// The value, compared with an expression that was read, if it was.
fn compared_with(alloc: Global, operator: BinaryOperator, operand: Option<Expr>) -> Read<Expr>
    ensures { IfOk result (λ o. option_map view o ≡ option_map (compared operator) (option_map view operand)) }
{
    match operand {
        Some(operand) => Ok(Some(compared(alloc, operator, operand)?)),
        None => Ok(None),
    }
}

/// The value, compared with the expression at a key.
#[tactic(auto, using(crate::proofs::Noted::steps, ksv_desc::proofs::Dots::steps))]
fn comparison(
    reader: &mut Reader,
    home: &Home,
    operator: BinaryOperator,
    entry: &Entry,
) -> Read<Expr>
    ensures { Reads (comparison (seen_home home.now) operator (pair entry.now)) view reader.old reader.new result }
{
    let operand = expression(reader, home, Site::Valid, entry)?;
    compared_with(reader.alloc, operator, operand)
}

/// The value, compared with the expression at a key that may be absent.
#[tactic(auto, using(crate::proofs::Noted::steps, ksv_desc::proofs::Dots::steps))]
fn perhaps_comparison(
    reader: &mut Reader,
    home: &Home,
    operator: BinaryOperator,
    at: Option<&Entry>,
) -> Read<Option<Expr>>
    ensures { Reads (perhaps (comparison (seen_home home.now) operator) (seen_entry at.entry)) (λ o. option_map view o) reader.old reader.new result }
{
    match at {
        None => Ok(Some(None)),
        Some(entry) => present(comparison(reader, home, operator, entry)),
    }
}

// ---- one of some conditions

/// The value, equal to an item of `any-of`.
#[tactic(auto, using(crate::proofs::Noted::steps, ksv_desc::proofs::Dots::steps), unfolding(crate::specs::Valid::alternative))]
fn alternative(reader: &mut Reader, home: &Home, node: &Yaml) -> Read<Expr>
    ensures { Reads (alternative (seen_home home.now) (view_node node.now)) view reader.old reader.new result }
{
    let line = node.line();
    let Some(text) = node.text() else {
        note(&mut reader.least, line, BadValue);
        return Ok(None);
    };
    let operand = expression_in(reader, home, Site::Valid, line, text)?;
    compared_with(reader.alloc, BinaryOperator::Equal, operand)
}

/// The value, equal to each of these items of `any-of`.
fn each_alternative(reader: &mut Reader, home: &Home, nodes: &[Yaml]) -> Read<Vec<Expr>>
    ensures { Reads (each (alternative (seen_home home.now)) (map view_node nodes.now)) (λ v. map view v.items) reader.old reader.new result }
{
    let mut made = Some(Vec::new(reader.alloc));
    for node in nodes {
        let read = alternative(reader, home, node);
        made = pushed(made, read)?;
    }
    Ok(made)
}

/// The conditions at `any-of`, a list of one or more expressions.
#[tactic(auto, using(crate::proofs::Noted::steps, ksv_desc::proofs::Dots::steps), unfolding(crate::specs::Valid::alternatives))]
fn alternatives(reader: &mut Reader, home: &Home, entry: &Entry) -> Read<Vec<Expr>>
    ensures { Reads (alternatives (seen_home home.now) (pair entry.now)) (λ v. map view v.items) reader.old reader.new result }
{
    match entry.value().items() {
        None | Some([]) => {
            note(&mut reader.least, entry.line(), BadValue);
            Ok(None)
        }
        Some(nodes) => each_alternative(reader, home, nodes),
    }
}

/// The conditions at `any-of`, which may be absent.
#[tactic(auto, using(crate::proofs::Noted::steps, ksv_desc::proofs::Dots::steps))]
fn perhaps_alternatives(
    reader: &mut Reader,
    home: &Home,
    at: Option<&Entry>,
) -> Read<Option<Vec<Expr>>>
    ensures { Reads (perhaps (alternatives (seen_home home.now)) (seen_entry at.entry)) (λ o. option_map (λ v. map view v.items) o) reader.old reader.new result }
{
    match at {
        None => Ok(Some(None)),
        Some(entry) => present(alternatives(reader, home, entry)),
    }
}

/// A list of one condition.
fn one(alloc: Global, condition: Expr) -> Result<Vec<Expr>, AllocError>
    ensures { IfOk result (λ v. map view v.items ≡ view condition ∷ []) }
{
    let mut conditions = Vec::new(alloc);
    conditions.push(condition)?;
    Ok(conditions)
}

/// The condition of `eq`, or those of `any-of`.
fn one_or_some(
    alloc: Global,
    equal: Option<Expr>,
    alternatives: Option<Vec<Expr>>,
) -> Result<Option<Vec<Expr>>, AllocError>
    ensures { IfOk result (λ o. option_map (λ v. map view v.items) o ≡ one_or_some (option_map view equal, option_map (λ v. map view v.items) alternatives)) }
{
    match equal {
        Some(equal) => Ok(Some(one(alloc, equal)?)),
        None => Ok(alternatives),
    }
}

/// The conditions of which one must be true, where there are such.
#[tactic(auto, using(crate::proofs::Noted::steps, ksv_desc::proofs::Dots::steps))]
fn any_of(reader: &mut Reader, home: &Home, entries: &[Entry]) -> Read<Option<Vec<Expr>>>
    ensures { Reads (any_of (seen_home home.now) (map pair entries.now)) (λ o. option_map (λ v. map view v.items) o) reader.old reader.new result }
{
    let equal = perhaps_comparison(reader, home, BinaryOperator::Equal, find(entries, b"eq"))?;
    let alternatives = perhaps_alternatives(reader, home, find(entries, b"any-of"));
    match both(equal, alternatives)? {
        Some((equal, alternatives)) => { Ok(Some(one_or_some(reader.alloc, equal, alternatives)?)) }
        None => Ok(None),
    }
}

// ---- all of some conditions

/// The conditions of `min` and `max`.
#[tactic(auto, using(crate::proofs::Noted::steps, ksv_desc::proofs::Dots::steps))]
fn bounds(reader: &mut Reader, home: &Home, entries: &[Entry]) -> Read<(Option<Expr>, Option<Expr>)>
    ensures { Reads (bounds (seen_home home.now) (map pair entries.now)) (λ p. (option_map view p.0, option_map view p.1)) reader.old reader.new result }
{
    let at_least = BinaryOperator::GreaterOrEqual;
    let at_most = BinaryOperator::LessOrEqual;
    let least = perhaps_comparison(reader, home, at_least, find(entries, b"min"))?;
    let most = perhaps_comparison(reader, home, at_most, find(entries, b"max"));
    both(least, most)
}

/// These conditions, and one more if there is one.
fn with_one(
    conditions: Result<Vec<Expr>, AllocError>,
    more: Option<Expr>,
) -> Result<Vec<Expr>, AllocError>
    ensures { IfOk result (λ all. MatchResult conditions (λ some. map view all.items ≡ map view some.items ++ option_to_list (option_map view more)) (λ _. ⊥)) }
{
    match more {
        Some(condition) => {
            let mut conditions = conditions?;
            conditions.push(condition)?;
            Ok(conditions)
        }
        None => conditions,
    }
}

/// The conditions that there are, in this order.
fn in_order(
    alloc: Global,
    condition: Option<Expr>,
    least: Option<Expr>,
    most: Option<Expr>,
) -> Result<Vec<Expr>, AllocError>
    ensures { IfOk result (λ v. map view v.items ≡ in_order (option_map view condition, (option_map view least, option_map view most))) }
{
    let conditions = with_one(Ok(Vec::new(alloc)), condition);
    let conditions = with_one(conditions, least);
    with_one(conditions, most)
}

/// The conditions of which each must be true.
#[tactic(auto, using(crate::proofs::Noted::steps, ksv_desc::proofs::Dots::steps))]
fn all_of(reader: &mut Reader, home: &Home, entries: &[Entry]) -> Read<Vec<Expr>>
    ensures { Reads (all_of (seen_home home.now) (map pair entries.now)) (λ v. map view v.items) reader.old reader.new result }
{
    let condition = perhaps_expression(reader, home, Site::ValidExpr, find(entries, b"expr"))?;
    let bounds = bounds(reader, home, entries);
    match both(condition, bounds)? {
        Some((condition, (least, most))) => {
            Ok(Some(in_order(reader.alloc, condition, least, most)?))
        }
        None => Ok(None),
    }
}

// ---- at the key

/// Whether a mapping has no key but ignored ones.
fn has_no_key(entries: &[Entry]) -> bool
    ensures { result ≡ has_no_key (map pair entries.now) }
{
    for entry in entries {
        if !is_ignored(entry.key()) {
            return false;
        }
    }
    true
}

/// One of some conditions, where there are such, or all of others.
fn any_or_all(any: Option<Vec<Expr>>, all: Vec<Expr>) -> Valid
    ensures { plain_valid result ≡ any_or_all (option_map (λ v. map view v.items) any, map view all.items) }
{
    match any {
        Some(any) => Valid::AnyOf(any),
        None => Valid::AllOf(all),
    }
}

/// What a mapping of these keys on this line states.
#[tactic(auto, using(crate::proofs::Noted::steps, ksv_desc::proofs::Dots::steps), unfolding(crate::specs::Valid::conditions))]
fn conditions(reader: &mut Reader, home: &Home, line: usize, entries: &[Entry]) -> Read<Valid>
    ensures { Reads (conditions (seen_home home.now) line (map pair entries.now)) plain_valid reader.old reader.new result }
{
    let least = &mut reader.least;
    note_keys(least, MappingKind::Check, entries);
    note_if(least, has_no_key(entries), line, MissingKey);
    note_together(least, MappingKind::Check, line, &None, entries);
    let any = any_of(reader, home, entries)?;
    match both(any, all_of(reader, home, entries))? {
        Some((any, all)) => Ok(Some(any_or_all(any, all))),
        None => Ok(None),
    }
}

/// The value must be that of the expression at a key.
#[tactic(auto, using(crate::proofs::Noted::steps, ksv_desc::proofs::Dots::steps))]
fn equal(reader: &mut Reader, home: &Home, entry: &Entry) -> Read<Valid>
    ensures { Reads (made (λ e. AnyOf (e ∷ [])) (comparison (seen_home home.now) Equal (pair entry.now))) plain_valid reader.old reader.new result }
{
    match comparison(reader, home, BinaryOperator::Equal, entry)? {
        Some(condition) => Ok(Some(Valid::AnyOf(one(reader.alloc, condition)?))),
        None => Ok(None),
    }
}

/// What a value must meet: a text is that of `eq`.
#[tactic(auto, using(crate::proofs::Noted::steps, ksv_desc::proofs::Dots::steps), unfolding(crate::specs::Valid::valid))]
fn valid(reader: &mut Reader, home: &Home, entry: &Entry) -> Read<Valid>
    ensures { Reads (valid (seen_home home.now) (pair entry.now)) plain_valid reader.old reader.new result }
{
    let value = entry.value();
    match value.entries() {
        Some(entries) => conditions(reader, home, value.line(), entries),
        None => equal(reader, home, entry),
    }
}

/// What a value must meet, at the key `valid`, which may be absent.
#[tactic(auto, using(crate::proofs::Noted::steps, ksv_desc::proofs::Dots::steps))]
pub(crate) fn own_valid(reader: &mut Reader, home: &Home, entries: &[Entry]) -> Read<Option<Valid>>
    ensures { Reads (own_valid (seen_home home.now) (map pair entries.now)) (λ o. option_map plain_valid o) reader.old reader.new result }
{
    match find(entries, b"valid") {
        None => Ok(Some(None)),
        Some(entry) => present(valid(reader, home, entry)),
    }
}
