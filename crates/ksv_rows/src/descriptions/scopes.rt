//! What a description declares: its types, members and enums, and the lookup of names from a type outwards.
//!
//! Numbers of types, members, enums and their entries come after the colon of a question. `all` prints how much
//! there is, `type`, `member`, `enum` and `constant` one of these, `within` how many members and parameters a type
//! has, `inherited` the byte order and the encoding there, `says KEY TEXT` the text of a member at a key,
//! `lists KEY` what a type has at a key. `path`, `named`, `id` and `value` look up a type and an enum, a member,
//! the id of a number and the number of an id, `everywhere` a type from all types; `misplaced` counts members that
//! aren't found, and `again` entries that are there twice. `plain` (to 255), `signed`, `written` and `order` read a
//! number or a byte order alone.

use crate::descriptions::question::{Question, question_of};
use crate::descriptions::shown::{add, add_debug, add_unknown, add_word};
use crate::descriptions::trees::add_refusal;
use ksv_expr_syntax::parse_type;
use ksv_schema_names::{Member, Row, Scopes, id_of, number_of, order_named};
use ksv_yaml::read;
use ksv_yaml_tree::keys::{entries_at, entries_in, has, items_at, items_in, says, text_at};
use ksv_yaml_tree::{Entry, Numeral, plain_number, signed_number};
use std::alloc::{AllocError, Global};
use std::collections::HashSet;

/// Adds the answers to questions about what a text declares.
pub(crate) fn add_scopes(
    alloc: Global,
    text: &[u8],
    questions: &str,
    found: &mut String,
) -> Result<(), AllocError> {
    match read(alloc, text) {
        Ok(tree) => {
            let scopes = Scopes::new(alloc, &tree)?;
            add_answers(alloc, &scopes, questions, found)
        }
        Err(fault) => add_refusal(&fault, found),
    }
}

/// Adds the answers to questions about what is declared.
fn add_answers(
    alloc: Global,
    scopes: &Scopes<'_>,
    questions: &str,
    found: &mut String,
) -> Result<(), AllocError> {
    for line in questions.lines() {
        add_answer(alloc, scopes, question_of(line), found)?;
        found.push('\n')?;
    }
    Ok(())
}

/// Adds the answer to a question about one thing that is declared, or about all.
fn add_answer(
    alloc: Global,
    scopes: &Scopes<'_>,
    question: Question<'_>,
    found: &mut String,
) -> Result<(), AllocError> {
    let number = question.number();
    found.push_str(question.verb)?;
    match question.verb {
        "all" => add_all(scopes, found),
        "type" => add_type(scopes, number, found),
        "within" => add_within(scopes, number, found),
        "member" => add_member(scopes, number, found),
        "says" => add_said(scopes, number, question.text, found),
        "enum" => add_enum(scopes, number, found),
        "constant" => add_constant(scopes, number, found),
        "again" => add_again(alloc, scopes, found),
        "misplaced" => add(found, &count_misplaced(scopes)),
        "inherited" => add_inherited(scopes, number, found),
        _ => add_looked_for(alloc, scopes, question, found),
    }
}

/// Adds what a name, a path or a number is found to be.
fn add_looked_for(
    alloc: Global,
    scopes: &Scopes<'_>,
    question: Question<'_>,
    found: &mut String,
) -> Result<(), AllocError> {
    let number = question.number();
    let text = question.text.as_bytes();
    match question.verb {
        "path" => add_path(alloc, scopes, number, text, found),
        "everywhere" => add_everywhere(alloc, scopes, text, found),
        "lists" => add_lists(scopes, number, text, found),
        "named" => add_debug(found, &member_named(scopes, number, text)),
        "id" => {
            let wanted = question.text.parse().unwrap_or(0i128);
            add_word(found, scopes.id_of_number(number, wanted))
        }
        "value" => add_debug(found, &scopes.number_of_id(number, text)),
        "plain" => add_debug(found, &plain_number(255, text)),
        "signed" => add_debug(found, &signed_number(text)),
        "written" => add_debug(found, &written(text)),
        "order" => add_debug(found, &order_named(text)),
        _ => add_unknown(found),
    }
}

/// The number that a text is, if it is one.
fn written(text: &[u8]) -> Option<i128> {
    match signed_number(text) {
        Numeral::Whole(number) => Some(number),
        Numeral::LeadingZero | Numeral::NoNumeral => None,
    }
}

/// How many members the types before this one have.
fn count_before(scopes: &Scopes<'_>, number: usize) -> usize {
    let mut count = 0usize;
    for members in scopes.members().iter().take(number) {
        count = count.saturating_add(members.len());
    }
    count
}

/// The first member of a name in a type, by its number among all members.
fn member_named(scopes: &Scopes<'_>, number: usize, name: &[u8]) -> Option<usize> {
    let place = scopes.member_named(number, name)?;
    Some(count_before(scopes, number).saturating_add(place))
}

/// The member of this number among all members, and its type.
fn member_at<'s, 'a>(scopes: &'s Scopes<'a>, number: usize) -> Option<(usize, &'s Member<'a>)> {
    let mut left = number;
    for (within, members) in scopes.members().iter().enumerate() {
        match members.get(left) {
            Some(member) => return Some((within, member)),
            None => left = left.saturating_sub(members.len()),
        }
    }
    None
}

/// Adds how many types, members and enums there are, and the root's line and how many items it has.
fn add_all(scopes: &Scopes<'_>, found: &mut String) -> Result<(), AllocError> {
    let types = scopes.types().len();
    add(found, &types)?;
    add(found, &count_before(scopes, types))?;
    add(found, &scopes.enums().len())?;
    add(found, &scopes.tree().line())?;
    add(found, &items_in(scopes.tree()).len())
}

/// Adds a type: its name with its line, how many keys it has, and the line of its mapping.
fn add_type(scopes: &Scopes<'_>, number: usize, found: &mut String) -> Result<(), AllocError> {
    match scopes.types().get(number) {
        Some(row) => {
            add_word(found, Some(row.id))?;
            add_debug(found, &Some(row.line))?;
            add(found, &row.entries().len())?;
            add(found, &row.value.line())
        }
        None => {
            add_word(found, None)?;
            add_debug(found, &None::<usize>)?;
            add(found, &0usize)?;
            found.push_str(" nothing")
        }
    }
}

/// Adds how many members and parameters a type has.
fn add_within(scopes: &Scopes<'_>, number: usize, found: &mut String) -> Result<(), AllocError> {
    let count = match scopes.members().get(number) {
        Some(members) => members.len(),
        None => 0,
    };
    add(found, &count)?;
    add(found, &scopes.count_of_parameters(number))
}

/// Adds a member: its type, its place there, its name and line.
fn add_member(scopes: &Scopes<'_>, number: usize, found: &mut String) -> Result<(), AllocError> {
    let Some((within, member)) = member_at(scopes, number) else {
        return found.push_str(" nothing");
    };
    add(found, &within)?;
    add_debug(found, &member.role)?;
    add_word(found, Some(member.name()))?;
    add(found, &member.line)
}

/// Adds whether a member has a key, the text at it, and whether it is this one.
fn add_said(
    scopes: &Scopes<'_>,
    number: usize,
    asked: &str,
    found: &mut String,
) -> Result<(), AllocError> {
    let (key, text) = asked.split_once(' ').unwrap_or((asked, ""));
    let Some((_, member)) = member_at(scopes, number) else {
        return found.push_str(" nothing");
    };
    let entries = entries_in(member.value);
    add(found, &has(entries, key.as_bytes()))?;
    add_word(found, text_at(entries, key.as_bytes()))?;
    add(found, &says(entries, key.as_bytes(), text.as_bytes()))
}

/// Adds how many items, and how many entries, a type has at a key.
fn add_lists(
    scopes: &Scopes<'_>,
    number: usize,
    key: &[u8],
    found: &mut String,
) -> Result<(), AllocError> {
    let keys = match scopes.types().get(number) {
        Some(row) => row.entries(),
        None => &[],
    };
    add(found, &items_at(keys, key).len())?;
    add(found, &entries_at(keys, key).len())
}

/// Adds an enum: its type, its name and line, and how many entries it has, found in two ways.
fn add_enum(scopes: &Scopes<'_>, number: usize, found: &mut String) -> Result<(), AllocError> {
    let Some(it) = scopes.enums().get(number) else {
        return found.push_str(" nothing");
    };
    add(found, &it.within.unwrap_or(0))?;
    add_word(found, Some(it.id))?;
    add(found, &it.line)?;
    add(found, &it.entries().len())?;
    add(found, &entries_in(it.value).len())
}

/// Adds an entry of an enum, by its number among all entries, if the number is one.
fn add_constant(scopes: &Scopes<'_>, number: usize, found: &mut String) -> Result<(), AllocError> {
    let mut left = number;
    for (within, row) in scopes.enums().iter().enumerate() {
        let entries = row.entries();
        match entries.get(left) {
            Some(entry) => {
                add(found, &within)?;
                return add_entry(entry, &entries[..left], found);
            }
            None => left = left.saturating_sub(entries.len()),
        }
    }
    found.push_str(" nothing")
}

/// Adds an entry of an enum: its key and id, its lines, and whether one before has its number and its id.
fn add_entry(entry: &Entry, before: &[Entry], found: &mut String) -> Result<(), AllocError> {
    add_word(found, Some(entry.key()))?;
    add_word(found, id_of(entry))?;
    add(found, &entry.line())?;
    add(found, &entry.value().line())?;
    add(found, &is_number_again(entry, before))?;
    add(found, &is_id_again(entry, before))
}

/// Whether one of these entries has the number of an entry.
fn is_number_again(entry: &Entry, before: &[Entry]) -> bool {
    number_of(entry).is_some()
        && before
            .iter()
            .any(|other| number_of(other) == number_of(entry))
}

/// Whether one of these entries has the id of an entry.
fn is_id_again(entry: &Entry, before: &[Entry]) -> bool {
    id_of(entry).is_some() && before.iter().any(|other| id_of(other) == id_of(entry))
}

/// Whether a number, if there is one, was given before; afterwards it is given.
fn give_number(numbers: &mut HashSet<i128>, number: Option<i128>) -> Result<bool, AllocError> {
    match number {
        Some(number) => Ok(!numbers.insert(number)?),
        None => Ok(false),
    }
}

/// Whether an id, if there is one, was given before; afterwards it is given.
fn give_id<'a>(ids: &mut HashSet<&'a [u8]>, id: Option<&'a [u8]>) -> Result<bool, AllocError> {
    match id {
        Some(id) => Ok(!ids.insert(id)?),
        None => Ok(false),
    }
}

/// How many entries of an enum have a number or an id that one before has.
fn count_again(alloc: Global, row: &Row<'_>) -> Result<usize, AllocError> {
    let mut numbers = HashSet::new(alloc);
    let mut ids = HashSet::new(alloc);
    let mut again = 0usize;
    for entry in row.entries() {
        let is_number_again = give_number(&mut numbers, number_of(entry))?;
        let is_id_again = give_id(&mut ids, id_of(entry))?;
        if is_number_again || is_id_again {
            again = again.saturating_add(1);
        }
    }
    Ok(again)
}

/// Adds how many entries all enums have, and how many of them are there twice.
fn add_again(alloc: Global, scopes: &Scopes<'_>, found: &mut String) -> Result<(), AllocError> {
    let mut count = 0usize;
    let mut again = 0usize;
    for row in scopes.enums() {
        count = count.saturating_add(row.entries().len());
        again = again.saturating_add(count_again(alloc, row)?);
    }
    add(found, &count)?;
    add(found, &again)
}

/// How many members aren't found by their type and name.
fn count_misplaced(scopes: &Scopes<'_>) -> usize {
    let mut misplaced = 0usize;
    for (within, members) in scopes.members().iter().enumerate() {
        for (place, member) in members.iter().enumerate() {
            if scopes.member_named(within, member.name()) != Some(place) {
                misplaced = misplaced.saturating_add(1);
            }
        }
    }
    misplaced
}

/// Adds the byte order and the encoding that are in force in a type.
fn add_inherited(scopes: &Scopes<'_>, number: usize, found: &mut String) -> Result<(), AllocError> {
    add_debug(found, &scopes.order_of(number))?;
    add_word(found, scopes.encoding_of(number))
}

/// Adds the type and the enum that a path `a::b` means where it is used in a type.
fn add_path(
    alloc: Global,
    scopes: &Scopes<'_>,
    number: usize,
    path: &[u8],
    found: &mut String,
) -> Result<(), AllocError> {
    match parse_type(alloc, path) {
        Ok(named) => {
            let path = named.name.path.as_slice();
            add_debug(found, &scopes.type_named(number, path))?;
            add_debug(found, &scopes.enum_named(number, path))
        }
        Err(fault) => add(found, &fault),
    }
}

/// Adds the type that a path means in the first type, and in how many types it means that one.
fn add_everywhere(
    alloc: Global,
    scopes: &Scopes<'_>,
    path: &[u8],
    found: &mut String,
) -> Result<(), AllocError> {
    match parse_type(alloc, path) {
        Ok(named) => {
            let path = named.name.path.as_slice();
            add_debug(found, &scopes.type_named(0, path))?;
            add(found, &count_alike(scopes, path))
        }
        Err(fault) => add(found, &fault),
    }
}

/// In how many types a path means the type that it means in the first.
fn count_alike(scopes: &Scopes<'_>, path: &[String]) -> usize {
    let mut count = 0usize;
    for number in 0..scopes.types().len() {
        if scopes.type_named(number, path) == scopes.type_named(0, path) {
            count = count.saturating_add(1);
        }
    }
    count
}
