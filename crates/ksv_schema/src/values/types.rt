//! What an attribute reads: the type at `type`, a switch over types there, or contents.

ghost use Rattle.std.specs.Prelude.{◌≡◌, IfOk, OnOk, codes, map, option_map};
ghost use Rattle.ksv_yaml_tree.specs.View.{pair, seen_entry};
ghost use Rattle.ksv_yaml_tree.specs.Tree.{entry_at};
ghost use Rattle.ksv_expr_tree.specs.Tree.{view, arguments_of, literal_of, path_of};
ghost use Rattle.ksv_desc.specs.Names.{distinct_behind, all_dotted};
ghost use Rattle.ksv_schema_names.specs.Table.{declared};
ghost use Rattle.ksv_schema_names.specs.Types.{type_named};
ghost use Rattle.ksv_desc.specs.Description.{Always};
ghost use Rattle.ksv_schema.specs.KeyTexts.{OfLanguage, OfDescription, type_at, own_type, type_text};
ghost use Rattle.ksv_desc.specs.Pieces.{plain_content, plain_value, plain_case, plain_choice};
ghost use Rattle.ksv_schema.specs.Expressions.{expression_of};
ghost use Rattle.ksv_schema.specs.KeyCode.{seen_type_text, seen_type_at, seen_case_key};
ghost use Rattle.ksv_schema_names.specs.declared.built_ins.BuiltIn.TheVariants.{Bits};
ghost use Rattle.ksv_schema.specs.Faults.{noted};
ghost use Rattle.ksv_schema.specs.Reading.{also, made, each, perhaps, must, mapping, text};
ghost use Rattle.ksv_schema.specs.Values.{content_or_type, arguments, order_at, encoding_at, of_language, counts_differ, of_type, of_case_key, case_value, is_declared, case_against, case, switch, typed, choice};
ghost use Rattle.ksv_schema.specs.Code.{seen_fault, seen_home, seen_keys, Reads};

use crate::keys::expressions::read_expression;
use crate::keys::forms::MappingKind;
use crate::keys::texts::{CaseKey, TypeKind, TypeText, case_key, is_of_kind, type_text};
use crate::values::fault::DescFaultKind::{
    BadValue, LeftOut, MissingKey, NoByteOrder, NoExpression, UnknownName, WrongCount,
};
use crate::values::fault::{Least, note, note_if};
use crate::values::key::note_keys;
use crate::values::reader::{
    FieldKeys, Home, Read, Reader, both, kept, position_at, present, pushed,
};
use crate::values::rule::{key_if, line_of_key, note_against, note_at_if};
use crate::values::value::{needed_expression, note_name, perhaps_contents};
use ksv_desc::{Case, CaseValue, Choice, Content};
use ksv_expr_tree::{Expr, Literal, TypeName};
use ksv_expr_value::Encoding;
use ksv_schema_names::{BuiltIn, ByteOrder, Site, argument_fault, given_member};
use ksv_yaml_tree::keys::{says, text_at};
use ksv_yaml_tree::{Entry, find};
use std::alloc::{AllocError, Global};

// ---- types

/// Whether a type is one that the description declares.
pub(crate) fn is_declared(home: &Home, text: &TypeText) -> bool
    ensures { result ≡ is_declared (seen_home home.now) (seen_type_text text.now) }
{
    match text {
        TypeText::OfDescription(name, _) => home
            .scopes
            .type_named(home.within, name.path.as_slice())
            .is_some(),
        TypeText::OfLanguage(..) | TypeText::Unspelled(_) => false,
    }
}

/// The order of an integer, its own or the one in force; one byte has any.
#[tactic(auto, unfolding(crate::specs::Values::order_at))]
fn order_at(home: &Home, size: u8, stated: Option<ByteOrder>) -> Option<ByteOrder>
    ensures { result ≡ order_at (seen_home home.now) size stated }
{
    match stated {
        Some(order) => Some(order),
        None if size == 1 => Some(ByteOrder::Little),
        None => home.scopes.order_of(home.within),
    }
}

/// The encoding of an attribute of these keys, its own or the one in force.
#[tactic(auto, unfolding(crate::specs::Values::encoding_at, crate::specs::KeyTexts::encoding_named))]
fn encoding_at(home: &Home, entries: &[Entry]) -> Option<Encoding>
    ensures { result ≡ encoding_at (seen_home home.now) (map pair entries.now) }
{
    match text_at(entries, b"encoding") {
        Some(name) => Encoding::named(name),
        None => Encoding::named(home.scopes.encoding_of(home.within)?),
    }
}

/// An integer of `width` bits; those of a byte are read from its highest one on.
#[tactic(auto, using(crate::proofs::Noted::steps, ksv_desc::proofs::Dots::steps))]
fn bits(
    reader: &mut Reader,
    keys: &FieldKeys,
    line: usize,
    width: u8,
    is_little: bool,
) -> Read<Content>
    ensures { Reads (of_language (seen_keys keys.now) line (Bits width is_little)) plain_content reader.old reader.new result }
{
    if is_little {
        note(&mut reader.least, line, LeftOut);
        return Ok(None);
    }
    Ok(Some(Content::Bits {
        width,
        enumeration: keys.enumeration,
    }))
}

/// What a type of the language means.
#[tactic(auto, using(crate::proofs::Noted::steps, ksv_desc::proofs::Dots::steps))]
fn of_language(
    reader: &mut Reader,
    keys: &FieldKeys,
    line: usize,
    built_in: BuiltIn,
) -> Read<Content>
    ensures { Reads (of_language (seen_keys keys.now) line built_in) plain_content reader.old reader.new result }
{
    match built_in {
        BuiltIn::Integer {
            is_signed,
            size,
            order,
        } => match order_at(keys.home, size, order) {
            Some(order) => Ok(Some(Content::Number {
                is_signed,
                size,
                order,
                enumeration: keys.enumeration,
            })),
            None => {
                note(&mut reader.least, line, NoByteOrder);
                Ok(None)
            }
        },
        BuiltIn::Bits { width, is_little } => bits(reader, keys, line, width, is_little),
        BuiltIn::Str | BuiltIn::Strz => match encoding_at(keys.home, keys.entries) {
            Some(encoding) => Ok(Some(Content::Characters(encoding))),
            None => Ok(None),
        },
        BuiltIn::NotHere => {
            note(&mut reader.least, line, LeftOut);
            Ok(None)
        }
    }
}

/// Notes the names in the arguments of a type, and adds those after dots.
#[tactic(auto, unfolding(crate::specs::Values::arguments))]
fn read_arguments(
    reader: &mut Reader,
    home: &Home,
    line: usize,
    given: &[Expr],
) -> Result<(), AllocError>
    ensures faults { seen_fault reader.new.least ≡ noted (seen_fault reader.old.least) (arguments (seen_home home.now) line (arguments_of (map view given.now))).faults }
    ensures words { OnOk result (reader.new.names ≡ distinct_behind reader.old.names (all_dotted (arguments_of (map view given.now)))) }
{
    let position = position_at(home, Site::Argument);
    let found = argument_fault(home.scopes, home.within, position, given);
    note_name(&mut reader.least, line, found);
    reader.names.add_all_dotted(given)
}

/// What a type of the language with these arguments means: it has none.
#[tactic(auto, using(crate::proofs::Noted::steps, ksv_desc::proofs::Dots::steps, ksv_schema_names::proofs::Forms::count_map), unfolding(crate::specs::Values::of_type, crate::specs::Values::arguments))]
fn given_language(
    reader: &mut Reader,
    keys: &FieldKeys,
    line: usize,
    built_in: BuiltIn,
    given: &[Expr],
) -> Read<Content>
    ensures { Reads (of_type (seen_keys keys.now) line (OfLanguage built_in (arguments_of (map view given.now)))) plain_content reader.old reader.new result }
{
    note_if(&mut reader.least, given.len() != 0, line, WrongCount);
    read_arguments(reader, keys.home, line, given)?;
    of_language(reader, keys, line, built_in)
}

/// The number of a type of the description.
fn type_number(home: &Home, name: &TypeName) -> Option<u32>
    ensures { result ≡ type_named (declared home.now.scopes.now).types home.now.within (path_of name.now).path }
{
    home.scopes.type_named(home.within, name.path.as_slice())
}

/// Whether a type has other parameters than this many arguments; an unknown type has a fault of its own.
fn counts_differ(home: &Home, given: usize, number: Option<u32>) -> bool
    ensures { result ≡ counts_differ (seen_home home.now) given number }
{
    match number {
        Some(number) => home.scopes.count_of_parameters(number as usize) != given,
        None => false,
    }
}

/// What a type of the description with these arguments means: it has as many as the type has parameters.
#[tactic(auto, using(crate::proofs::Noted::steps, ksv_desc::proofs::Dots::steps, ksv_schema_names::proofs::Forms::count_map), unfolding(crate::specs::Values::of_type, crate::specs::Values::arguments))]
fn object(
    reader: &mut Reader,
    keys: &FieldKeys,
    line: usize,
    name: &TypeName,
    given: Vec<Expr>,
) -> Read<Content>
    ensures { Reads (of_type (seen_keys keys.now) line (OfDescription (path_of name.now) (arguments_of (map view given.items)))) plain_content reader.old reader.new result }
{
    let number = type_number(keys.home, name);
    let differ = counts_differ(keys.home, given.len(), number);
    note_if(&mut reader.least, differ, line, WrongCount);
    note_if(&mut reader.least, number.is_none(), line, UnknownName);
    let done = read_arguments(reader, keys.home, line, given.as_slice());
    match both(number, kept(given, done))? {
        Some((type_number, arguments)) => Ok(Some(Content::Object {
            type_number,
            arguments,
        })),
        None => Ok(None),
    }
}

/// What the text of a type means among these keys.
#[tactic(auto, using(crate::proofs::Noted::steps, ksv_desc::proofs::Dots::steps), unfolding(crate::specs::Values::of_type))]
fn of_type(reader: &mut Reader, keys: &FieldKeys, line: usize, text: TypeText) -> Read<Content>
    ensures { Reads (of_type (seen_keys keys.now) line (seen_type_text text)) plain_content reader.old reader.new result }
{
    match text {
        TypeText::Unspelled(fault) => {
            note(&mut reader.least, line, NoExpression(fault));
            Ok(None)
        }
        TypeText::OfLanguage(built_in, given) => {
            let given = given.as_slice();
            given_language(reader, keys, line, built_in, given)
        }
        TypeText::OfDescription(name, given) => object(reader, keys, line, &name, given),
    }
}

// ---- switches

/// A copy of a value written in the text.
fn copied(alloc: Global, literal: &Literal) -> Result<Literal, AllocError>
    ensures { IfOk result (λ l. literal_of l ≡ literal_of literal.now) }
{
    match literal {
        Literal::Number(number) => Ok(Literal::Number(*number)),
        Literal::Truth(truth) => Ok(Literal::Truth(*truth)),
        Literal::Text(text) => Ok(Literal::Text(String::from_str(alloc, text.as_str())?)),
    }
}

/// What a key of `cases` is compared with; nothing for `_`.
#[tactic(auto, using(crate::proofs::Noted::steps, ksv_desc::proofs::Dots::steps), unfolding(crate::specs::Values::of_case_key))]
fn of_case_key(
    reader: &mut Reader,
    home: &Home,
    line: usize,
    key: CaseKey,
) -> Read<Option<CaseValue>>
    ensures { Reads (of_case_key (seen_home home.now) line (seen_case_key key.entry)) (λ o. option_map plain_value o) reader.old reader.new result }
{
    match key {
        CaseKey::Constant(literal) => {
            let literal = copied(reader.alloc, literal)?;
            Ok(Some(Some(CaseValue::Literal(literal))))
        }
        CaseKey::Negative(number) => Ok(Some(Some(CaseValue::Negated(number)))),
        CaseKey::OfEnum(member) => match given_member(home.scopes, home.within, member) {
            Some(given) => Ok(Some(Some(CaseValue::Member(given)))),
            None => {
                note(&mut reader.least, line, UnknownName);
                Ok(None)
            }
        },
        CaseKey::Default => Ok(Some(None)),
        CaseKey::NoKey => {
            note(&mut reader.least, line, BadValue);
            Ok(None)
        }
    }
}

/// What the text of a key of `cases` is compared with.
#[tactic(auto, using(crate::proofs::Noted::steps, ksv_desc::proofs::Dots::steps), unfolding(crate::specs::Values::case_value))]
fn case_value(reader: &mut Reader, home: &Home, line: usize, text: &[u8]) -> Read<Option<CaseValue>>
    ensures { Reads (case_value (seen_home home.now) line (expression_of text.now)) (λ o. option_map plain_value o) reader.old reader.new result }
{
    match read_expression(reader.alloc, text)? {
        Ok(expr) => of_case_key(reader, home, line, case_key(&expr)),
        Err(fault) => {
            note(&mut reader.least, line, NoExpression(fault));
            Ok(None)
        }
    }
}

/// Notes what doesn't fit to a type of a case on this line, in an attribute of these keys.
#[tactic(auto, using(crate::proofs::Noted::steps), unfolding(crate::specs::Values::case_against))]
fn note_case_against(
    least: &mut Least,
    home: &Home,
    entries: &[Entry],
    line: usize,
    text: &TypeText,
)
    ensures { seen_fault least.new ≡ noted (seen_fault least.old) (case_against (seen_home home.now) (map pair entries.now) line (seen_type_text text.now)) }
{
    let is_text = is_of_kind(TypeKind::Str, text) | is_of_kind(TypeKind::Strz, text);
    let is_bits = is_of_kind(TypeKind::Bits, text);
    let is_object = is_declared(home, text);
    let case = if is_of_kind(TypeKind::Integer, text) {
        Some(line)
    } else {
        None
    };
    let to_end = key_if(says(entries, b"size-eos", b"true"), entries, b"size-eos");
    let terminator = find(entries, b"terminator");
    note_if(least, is_text, line, LeftOut);
    note_if(least, is_bits, line, LeftOut);
    note_against(least, case, line_of_key(find(entries, b"size")));
    note_against(least, case, line_of_key(to_end));
    note_against(least, case, line_of_key(terminator));
    note_at_if(least, is_object, terminator, LeftOut);
}

/// What the type of a case means; it must fit to the keys beside it.
#[tactic(auto, using(crate::proofs::Noted::steps, ksv_desc::proofs::Dots::steps))]
fn case_content(reader: &mut Reader, keys: &FieldKeys, case: &Entry) -> Read<Content>
    ensures { Reads (text (λ line text. let t = type_text text in also (case_against (seen_keys keys.now).home (seen_keys keys.now).beside line t) (of_type (seen_keys keys.now) line t)) (pair case.now)) plain_content reader.old reader.new result }
{
    let line = case.line();
    match case.value().text() {
        Some(text) => {
            let text = type_text(reader.alloc, text)?;
            note_case_against(&mut reader.least, keys.home, keys.beside, line, &text);
            of_type(reader, keys, line, text)
        }
        None => {
            note(&mut reader.least, line, BadValue);
            Ok(None)
        }
    }
}

/// A case.
#[tactic(auto, using(crate::proofs::Noted::steps, ksv_desc::proofs::Dots::steps), unfolding(crate::specs::Values::case))]
fn read_case(reader: &mut Reader, keys: &FieldKeys, entry: &Entry) -> Read<Case>
    ensures { Reads (case (seen_keys keys.now) (pair entry.now)) plain_case reader.old reader.new result }
{
    let value = case_value(reader, keys.home, entry.line(), entry.key())?;
    let content = case_content(reader, keys, entry);
    match both(value, content)? {
        Some((value, content)) => Ok(Some(Case { value, content })),
        None => Ok(None),
    }
}

/// The cases of a switch.
fn cases(reader: &mut Reader, keys: &FieldKeys, cases: &[Entry]) -> Read<Vec<Case>>
    ensures { Reads (each (case (seen_keys keys.now)) (map pair cases.now)) (λ v. map plain_case v.items) reader.old reader.new result }
{
    let mut made = Some(Vec::new(reader.alloc));
    for case in cases {
        let read = read_case(reader, keys, case);
        made = pushed(made, read)?;
    }
    Ok(made)
}

/// The cases at a key that must be in a mapping of this line.
#[tactic(auto, using(crate::proofs::Noted::steps, ksv_desc::proofs::Dots::steps))]
fn needed_cases(
    reader: &mut Reader,
    keys: &FieldKeys,
    line: usize,
    at: Option<&Entry>,
) -> Read<Vec<Case>>
    ensures { Reads (must line (mapping (each (case (seen_keys keys.now)))) (seen_entry at.entry)) (λ v. map plain_case v.items) reader.old reader.new result }
{
    let Some(entry) = at else {
        note(&mut reader.least, line, MissingKey);
        return Ok(None);
    };
    match entry.value().entries() {
        Some(entries) => cases(reader, keys, entries),
        None => {
            note(&mut reader.least, entry.line(), BadValue);
            Ok(None)
        }
    }
}

/// The switch with these keys, at the `type` of others.
#[tactic(auto, using(crate::proofs::Noted::steps, ksv_desc::proofs::Dots::steps), unfolding(crate::specs::Values::switch))]
fn switch(reader: &mut Reader, keys: &FieldKeys, line: usize, entries: &[Entry]) -> Read<Choice>
    ensures { Reads (switch (seen_keys keys.now) line (map pair entries.now)) plain_choice reader.old reader.new result }
{
    note_keys(&mut reader.least, MappingKind::Switch, entries);
    let at = find(entries, b"switch-on");
    let on = needed_expression(reader, keys.home, Site::Switch, line, at)?;
    let cases = needed_cases(reader, keys, line, find(entries, b"cases"));
    match both(on, cases)? {
        Some((on, cases)) => Ok(Some(Choice::Switch { on, cases })),
        None => Ok(None),
    }
}

// ---- what an attribute reads

/// The type whose text is at `type`.
#[tactic(auto, using(crate::proofs::Noted::steps, ksv_desc::proofs::Dots::steps))]
fn always(
    reader: &mut Reader,
    keys: &FieldKeys,
    entry: &Entry,
    typed: Option<TypeText>,
) -> Read<Choice>
    requires { seen_type_at typed ≡ type_at (pair entry.now) }
    ensures { Reads (made Always (text (λ line text. of_type (seen_keys keys.now) line (type_text text)) (pair entry.now))) plain_choice reader.old reader.new result }
{
    let line = entry.line();
    match typed {
        Some(text) => match of_type(reader, keys, line, text)? {
            Some(content) => Ok(Some(Choice::Always(content))),
            None => Ok(None),
        },
        None => {
            note(&mut reader.least, line, BadValue);
            Ok(None)
        }
    }
}

/// What is at `type`: a text, or a switch.
#[tactic(auto, using(crate::proofs::Noted::steps, ksv_desc::proofs::Dots::steps), unfolding(crate::specs::Values::typed))]
fn typed(
    reader: &mut Reader,
    keys: &FieldKeys,
    entry: &Entry,
    text: Option<TypeText>,
) -> Read<Choice>
    requires { seen_type_at text ≡ type_at (pair entry.now) }
    ensures { Reads (typed (seen_keys keys.now) (pair entry.now)) plain_choice reader.old reader.new result }
{
    let value = entry.value();
    match value.entries() {
        Some(entries) => switch(reader, keys, value.line(), entries),
        None => always(reader, keys, entry, text),
    }
}

/// What is at `type`, which may be absent.
#[tactic(auto, using(crate::proofs::Noted::steps, ksv_desc::proofs::Dots::steps))]
fn perhaps_typed(
    reader: &mut Reader,
    keys: &FieldKeys,
    text: Option<TypeText>,
) -> Read<Option<Choice>>
    requires { seen_type_at text ≡ own_type (seen_keys keys.now).entries }
    ensures { Reads (perhaps (typed (seen_keys keys.now)) (entry_at (codes "type") (seen_keys keys.now).entries)) (λ o. option_map plain_choice o) reader.old reader.new result }
{
    match find(keys.entries, b"type") {
        None => Ok(Some(None)),
        Some(entry) => present(typed(reader, keys, entry, text)),
    }
}

/// What is read: these contents, or what is at `type`, or bytes.
fn content_or_type(contents: Option<Vec<u8>>, choice: Option<Choice>) -> Choice
    ensures { plain_choice result ≡ content_or_type (option_map (λ v. v.items) contents, option_map plain_choice choice) }
{
    match contents {
        Some(bytes) => Choice::Always(Content::Fixed(bytes)),
        None => match choice {
            Some(choice) => choice,
            None => Choice::Always(Content::Bytes),
        },
    }
}

/// What these keys read, with the type whose text is at `type`.
#[tactic(auto, using(crate::proofs::Noted::steps, ksv_desc::proofs::Dots::steps), unfolding(crate::specs::Values::choice))]
pub(crate) fn choice(reader: &mut Reader, keys: &FieldKeys, typed: Option<TypeText>) -> Read<Choice>
    requires { seen_type_at typed ≡ own_type (seen_keys keys.now).entries }
    ensures { Reads (choice (seen_keys keys.now)) plain_choice reader.old reader.new result }
{
    let contents = perhaps_contents(reader, find(keys.entries, b"contents"))?;
    let choice = perhaps_typed(reader, keys, typed);
    match both(contents, choice)? {
        Some((contents, choice)) => Ok(Some(content_or_type(contents, choice))),
        None => Ok(None),
    }
}
