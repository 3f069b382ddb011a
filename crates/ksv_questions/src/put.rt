//! `put`: writing an integer over another.
ghost use Rattle.std.specs.Prelude.{◌≡◌, ◌+◌, ◌≤◌, IfOk, IfSome, OnErr, OnOk, length, option_map};
ghost use Rattle.ksv_desc.specs.Whole.{plain_pieces};
ghost use Rattle.ksv_expr_value.specs.Bytes.{content};
ghost use Rattle.ksv_expr_value.specs.Places.{byte_in, byte_of};
ghost use Rattle.ksv_memo_rules.specs.Right.{IsRight};
ghost use Rattle.ksv_questions.specs.Answers.{asks, outcome};
ghost use Rattle.ksv_questions.specs.Code.{IsRightFor, RunsOn, Settles};
ghost use Rattle.ksv_questions.specs.Engines.{HasAsked, HasAskedSome, world};
ghost use Rattle.ksv_questions.specs.Seen.{PutTells, overwrite_of};
ghost use Rattle.ksv_questions.specs.Writing.{among, met_bytes, of_bytes, of_type, over_head, put_question};
ghost use Rattle.ksv_texts.specs.Integers.{number_type};
ghost use Rattle.ksv_texts.specs.Seen.{type_of};

use crate::asking::Untold;
use crate::file::File;
use crate::parts::ask_head;
use crate::question::failure_told;
use crate::told::Told;
use arrayvec::ArrayVec;
use ksv_bytes::{Buffer, Window};
use ksv_desc::Desc;
use ksv_expr_value::{Integer, Parts, Path};
use ksv_memo::Engine;
use ksv_nodes::{Head, Leaf};
use ksv_rule_meaning::{Described, NodeRules};
use ksv_texts::{
    IntegerType, NumberType, Refusal, bits_hold, holds, integer_bytes, number_type, with_bits,
};
use std::alloc::{AllocError, Global};

/// Bytes that are written over others.
#[derive(Drop)]
pub struct Overwrite {
    /// The place of the first, counted from the file's first byte.
    pub at: u32,
    /// The bytes.
    pub bytes: ArrayVec<u8, 9>,
}

/// The bytes to write for an integer of whole bytes over a leaf.
fn of_bytes(kind: IntegerType, leaf: &Leaf, number: Integer) -> Result<Overwrite, Untold>
    requires { kind.size ≤ 8 }
    ensures { Settles (of_bytes (type_of kind) leaf.now number) overwrite_of result }
{
    if !holds(kind, number) {
        return Err(Untold::Refused(Refusal::OutOfRange));
    }
    Ok(Overwrite {
        at: leaf.from.byte(),
        bytes: integer_bytes(kind, number),
    })
}

/// The bytes of the file that the bits of a leaf meet: they are there, and at most nine.
#[tactic(auto, using(crate::proofs::Written::met_length, ksv_expr_value::proofs::Places::bytes_ordered), unfolding(crate::specs::Writing::met_bytes))]
fn met_bytes<'a>(buffer: &'a Buffer, leaf: &Leaf) -> Option<Parts<'a>>
    ensures found { option_map content result ≡ met_bytes buffer.now leaf.now }
    ensures few { IfSome result (λ parts. length (content parts) ≤ 9) }
    ensures met { IfSome result (λ parts. byte_in leaf.now.from + length (content parts) ≡ byte_of leaf.now.to) }
    ensures ordered { IfSome result (λ _. leaf.now.from.bits ≤ leaf.now.to.bits) }
{
    let from = leaf.from.byte_in();
    let to = leaf.to.byte();
    if leaf.to.bits() < leaf.from.bits() {
        return None;
    }
    if buffer.len() < to as usize {
        return None;
    }
    if u64::from(from) + 9 < u64::from(to) {
        return None;
    }
    let (front, back) = buffer.parts(Window {
        from: from as usize,
        to: to as usize,
    });
    Some(Parts { front, back })
}

/// The bytes to write for an integer over the bits of a leaf.
fn over_bits(buffer: &Buffer, leaf: &Leaf, number: Integer) -> Result<Overwrite, Untold>
    ensures { Settles (among leaf.now number (met_bytes buffer.now leaf.now)) overwrite_of result }
{
    let Some(parts) = met_bytes(buffer, leaf) else {
        return Err(Untold::Refused(Refusal::NotAnInteger));
    };
    if !bits_hold(leaf.from, leaf.to, number) {
        return Err(Untold::Refused(Refusal::OutOfRange));
    }
    Ok(Overwrite {
        at: leaf.from.byte_in(),
        bytes: with_bits(parts, leaf.from, leaf.to, number),
    })
}

/// The bytes to write for an integer over a leaf.
#[tactic(auto, unfolding(crate::specs::Writing::of_type))]
fn over_leaf(
    desc: &Desc,
    buffer: &Buffer,
    leaf: &Leaf,
    number: Integer,
) -> Result<Overwrite, Untold>
    ensures { Settles (of_type buffer.now (number_type (plain_pieces desc.now) leaf.now) leaf.now number) overwrite_of result }
{
    match number_type(desc, *leaf) {
        None => Err(Untold::Refused(Refusal::NotAnInteger)),
        Some(NumberType::Bytes(kind)) => of_bytes(kind, leaf, number),
        Some(NumberType::Bits) => over_bits(buffer, leaf, number),
    }
}

/// The bytes to write for an integer, by the head of what is there.
fn over_head(desc: &Desc, buffer: &Buffer, head: Head, number: Integer) -> Result<Overwrite, Untold>
    ensures { Settles (over_head (plain_pieces desc.now) buffer.now head number) overwrite_of result }
{
    match head {
        Head::Leaf(leaf) => over_leaf(desc, buffer, &leaf, number),
        _ => Err(Untold::Refused(Refusal::NotAnInteger)),
    }
}

/// The bytes to write for an integer at a path.
#[tactic(auto, unfolding(crate::specs::Writing::put_question))]
fn put_question<N: NodeRules>(
    file: &File<N>,
    engine: &mut Engine<Described<N>>,
    path: &Path,
    number: Integer,
) -> Result<Overwrite, Untold>
    requires { IsRightFor file.now engine.old }
    ensures { RunsOn file.now (λ d b. put_question d b path.now number) overwrite_of engine.old engine.new result }
{
    let head = ask_head(file, engine, path, path)?;
    over_head(&file.described.desc, file.buffer, head, number)
}

/// The bytes that `put` writes for an integer at a path, or its reply if it writes none. The engine must be right for the
/// current bytes, and keeps what was evaluated.
pub fn overwrite_for<N: NodeRules>(
    alloc: Global,
    engine: &mut Engine<Described<N>>,
    described: &Described<N>,
    buffer: &Buffer,
    path: &Path,
    number: Integer,
) -> Result<Result<Overwrite, Told>, AllocError>
    requires { IsRight (world (plain_pieces described.now.desc) buffer.now) engine.old.kept }
    ensures told { IfOk result (PutTells (plain_pieces described.now.desc) (outcome (plain_pieces described.now.desc) buffer.now (put_question (plain_pieces described.now.desc) buffer.now path.now number))) }

    // Which nodes are kept afterwards, and the turns.
    ensures asked { OnOk result (HasAsked (world (plain_pieces described.now.desc) buffer.now) (asks (plain_pieces described.now.desc) buffer.now (put_question (plain_pieces described.now.desc) buffer.now path.now number)) engine.old engine.new) }
    ensures refused { OnErr result (HasAskedSome (world (plain_pieces described.now.desc) buffer.now) (asks (plain_pieces described.now.desc) buffer.now (put_question (plain_pieces described.now.desc) buffer.now path.now number)) engine.old engine.new) }
{
    let file = File {
        alloc,
        described,
        buffer,
    };
    match put_question(&file, engine, path, number) {
        Ok(overwrite) => Ok(Ok(overwrite)),
        Err(why) => {
            let told = failure_told(alloc, described.desc(), &why);
            drop(why);
            Ok(Err(told?))
        }
    }
}
