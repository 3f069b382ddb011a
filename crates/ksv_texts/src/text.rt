//! The texts of values, names, faults and refusals.
ghost use Rattle.std.specs.Fmt.{signed_decimal};
ghost use Rattle.std.specs.Prelude.{◌≡◌, ◌≤◌, ◌++◌, length, slice_range, codes, decimal, OnOk, IfOk, string_bytes};
ghost use Rattle.ksv_desc.specs.Description.{name};
ghost use Rattle.ksv_desc.specs.Whole.{plain_pieces};
ghost use Rattle.ksv_paths.specs.PathTexts.{path_text, step_text, steps_text};
ghost use Rattle.ksv_texts.specs.Texts.{bytes_text, fault_text, fault_words, member_name, member_text, names_text, place_text, quoted_text, refusal_text, truth_text};

use crate::refusal::Refusal;
use itoa::Buffer as Digits;
use ksv_bytes::{Buffer, Window};
use ksv_desc::Desc;
use ksv_expr_value::{Integer, Path, Place, Step, Text};
use ksv_nodes::NodeFault;
use serde_json::Value as Json;
use std::alloc::{AllocError, Global};

// ---- paths and faults

/// Appends a step, with the slash before it.
fn push_step(text: &mut String, desc: &Desc, step: Step) -> Result<(), AllocError>
    ensures { OnOk result (string_bytes text.new ≡ string_bytes text.old ++ step_text (plain_pieces desc.now) step) }
{
    text.push_str("/")?;
    match step {
        Step::Name(number) => text.push_str(desc.name(number)),
        Step::Index(index) => text.push_str(Digits::new().format(index)),
    }
}

/// Appends the texts of steps.
fn push_steps(text: &mut String, desc: &Desc, steps: &[Step]) -> Result<(), AllocError>
    ensures { OnOk result (string_bytes text.new ≡ string_bytes text.old ++ steps_text (plain_pieces desc.now) steps.now) }
{
    for step in steps {
        push_step(text, desc, *step)?;
    }
    Ok(())
}

/// Appends the text of a path.
fn push_path(text: &mut String, desc: &Desc, path: &Path) -> Result<(), AllocError>
    ensures { OnOk result (string_bytes text.new ≡ string_bytes text.old ++ path_text (plain_pieces desc.now) path.now) }
{
    let steps = path.steps();
    if steps.is_empty() {
        return text.push_str("/");
    }
    push_steps(text, desc, steps)
}

/// Appends a fault: its kind, and the path where it arose.
#[tactic(auto, unfolding(crate::specs::Texts::fault_words))]
fn push_fault(text: &mut String, desc: &Desc, fault: &NodeFault) -> Result<(), AllocError>
    ensures { OnOk result (string_bytes text.new ≡ string_bytes text.old ++ fault_words (plain_pieces desc.now) fault.now) }
{
    text.push_str(fault.name())?;
    text.push_str(" at ")?;
    push_path(text, desc, fault.path())
}

/// The text of a fault: its kind, and the path where it arose.
pub(crate) fn fault_words(
    alloc: Global,
    desc: &Desc,
    fault: &NodeFault,
) -> Result<String, AllocError>
    ensures { IfOk result (λ text. string_bytes text ≡ fault_words (plain_pieces desc.now) fault.now) }
{
    let mut text = String::new(alloc);
    push_fault(&mut text, desc, fault)?;
    Ok(text)
}

/// The reply to a question that a fault prevents, its LF aside.
#[tactic(auto, unfolding(crate::specs::Texts::fault_text))]
pub fn fault_text(alloc: Global, desc: &Desc, fault: &NodeFault) -> Result<String, AllocError>
    ensures { IfOk result (λ text. string_bytes text ≡ fault_text (plain_pieces desc.now) fault.now) }
{
    let mut text = String::from_str(alloc, "fault ")?;
    push_fault(&mut text, desc, fault)?;
    Ok(text)
}

/// The reply to a question that is refused, its LF aside. It takes no memory, and with its LF it fits in 64 bytes.
pub fn refusal_text(refusal: Refusal) -> &'static str
    ensures refusal_text { result.now ≡ refusal_text refusal }
    ensures short { length result.now ≤ 62 }
{
    match refusal {
        Refusal::NotAnInteger => "error: not an integer",
        Refusal::OutOfRange => "error: out of range",
        Refusal::TooLarge => "error: too large",
    }
}

// ---- names

/// Appends a name, with a space before it.
fn push_name(text: &mut String, desc: &Desc, number: u32) -> Result<(), AllocError>
    ensures { OnOk result (string_bytes text.new ≡ string_bytes text.old ++ (codes " " ++ name (plain_pieces desc.now) number)) }
{
    text.push_str(" ")?;
    text.push_str(desc.name(number))
}

/// The names of members.
pub fn names_text(alloc: Global, desc: &Desc, names: &[u32]) -> Result<String, AllocError>
    ensures { IfOk result (λ text. string_bytes text ≡ codes "members" ++ names_text (plain_pieces desc.now) names.now) }
{
    let mut text = String::from_str(alloc, "members")?;
    for number in names {
        push_name(&mut text, desc, *number)?;
    }
    Ok(text)
}

// ---- places

/// Appends a place: the byte that it is in, and after a dot how many bits of that byte are before it, if any are.
#[tactic(auto, unfolding(crate::specs::Texts::place_text))]
pub fn push_place(text: &mut String, place: Place) -> Result<(), AllocError>
    ensures { OnOk result (string_bytes text.new ≡ string_bytes text.old ++ place_text place) }
{
    text.push_str(Digits::new().format(place.byte_in()))?;
    let bit = place.bit_in();
    if bit == 0 {
        return Ok(());
    }
    text.push_str(".")?;
    text.push_str(Digits::new().format(bit))
}

// ---- values

/// An integer in decimal.
pub fn integer_text(alloc: Global, number: Integer) -> Result<String, AllocError>
    ensures { IfOk result (λ text. string_bytes text ≡ signed_decimal number) }
{
    String::from_str(alloc, Digits::new().format(number.get()))
}

/// The text of a truth value.
pub fn truth_text(truth: bool) -> &'static str
    ensures { result.now ≡ truth_text truth }
{
    if truth { "true" } else { "false" }
}

/// A text as JSON quotes it.
#[tactic(auto, unfolding(crate::specs::Texts::quoted_text))]
pub fn quoted_text(alloc: Global, text: &Text) -> Result<String, AllocError>
    ensures { IfOk result (λ quoted. string_bytes quoted ≡ quoted_text text.now) }
{
    Json::String(String::from_str(alloc, text.as_str())?).to_string(alloc)
}

/// The part of a range that is in the file.
pub(crate) fn window(buffer: &Buffer, from: u32, to: u32) -> Window
    ensures ordered { result.from ≤ result.to }
    ensures inside { result.to ≤ length buffer.now }
    ensures same { slice_range buffer.now result.from result.to ≡ slice_range buffer.now from to }
{
    let to = (to as usize).min(buffer.len());
    let from = (from as usize).min(to);
    Window { from, to }
}

/// The current bytes of a range of the file, in hexadecimal.
#[inline(always)]
#[tactic(auto, unfolding(crate::specs::Texts::bytes_text))]
pub fn bytes_text(alloc: Global, buffer: &Buffer, from: u32, to: u32) -> Result<String, AllocError>
    ensures { IfOk result (λ text. string_bytes text ≡ bytes_text buffer.now from to) }
{
    let (front, back) = buffer.parts(window(buffer, from, to));
    let mut text = String::from_str(alloc, "hex ")?;
    text.push_str(hex::encode(alloc, front)?.as_str())?;
    text.push_str(hex::encode(alloc, back)?.as_str())?;
    Ok(text)
}

/// An enum value: the enum's id and its own, or `?` if the number has none.
#[tactic(auto, unfolding(crate::specs::Texts::member_name))]
pub(crate) fn member_name(
    alloc: Global,
    desc: &Desc,
    enumeration: u32,
    number: Integer,
) -> Result<String, AllocError>
    ensures { IfOk result (λ text. string_bytes text ≡ member_name (plain_pieces desc.now) enumeration number) }
{
    let mut text = String::from_str(alloc, desc.enum_id(enumeration))?;
    text.push_str("::")?;
    text.push_str(desc.member_id(enumeration, number.get()).unwrap_or("?"))?;
    Ok(text)
}

/// An enum value with its number.
#[tactic(auto, unfolding(crate::specs::Texts::member_text))]
pub fn member_text(
    alloc: Global,
    desc: &Desc,
    enumeration: u32,
    number: Integer,
) -> Result<String, AllocError>
    ensures { IfOk result (λ text. string_bytes text ≡ member_text (plain_pieces desc.now) enumeration number) }
{
    let mut text = member_name(alloc, desc, enumeration, number)?;
    text.push_str(" (")?;
    text.push_str(Digits::new().format(number.get()))?;
    text.push_str(")")?;
    Ok(text)
}
