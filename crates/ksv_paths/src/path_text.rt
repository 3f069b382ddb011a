//! Which path a text names.
ghost use Rattle.std.specs.Prelude.{◌≡◌, ◌≤◌, ◌<◌, ◌++◌, ◌↔◌, true, IsTrue, List, [], ◌∷◌, length, reverse, Some, None, MatchOption, IfOk, IfSome, IfNone, OnErr, IsSome, position};
ghost use Rattle.std.specs.Char.{is_ascii_digit};
ghost use Rattle.std.specs.List.{list_all, slice_split};
ghost use Rattle.ksv_expr_value.specs.Trail.{element_limit, fits, step_fits};
ghost use Rattle.ksv_desc.specs.Whole.{plain_pieces};
ghost use Rattle.ksv_paths.specs.PathTexts.{decimal_of, index_of, name_of, step_of, steps_of, is_slash, path_of_steps, path_behind, path_named};

use ksv_desc::{Desc, as_text};
use ksv_expr_value::{Path, Step};
use std::alloc::{AllocError, Global};
use std::marker::Model;

/// The most steps of a path.
const STEP_LIMIT: usize = Path::MAX_STEPS;

/// At most 64 steps, which take no memory.
#[derive(Drop)]
struct Steps {
    room: [Step; STEP_LIMIT],
    len: usize,
}

impl Model for Steps {
    ghost use Rattle.std.specs.Prelude.{◌≤◌, List, take};
    ghost use Rattle.ksv_expr_value.specs.declared.step.Step.{Step};

    ghost Value = { List Step };

    ghost view = { λ steps. take steps.len steps.room };

    ghost invariant = { λ steps. steps.len ≤ 64 };
}

impl Steps {
    /// No steps.
    fn new() -> Steps
        ensures { result ≡ [] }
    {
        Steps {
            room: [Step::Index(0); STEP_LIMIT],
            len: 0,
        }
    }

    /// Whether there are 64.
    fn is_full(&self) -> bool
        ensures { IsTrue result ↔ (length self.now ≡ 64) }
    {
        self.as_slice().len() == STEP_LIMIT
    }

    /// One step more.
    fn push(&mut self, step: Step)
        requires { length self.old < 64 }
        ensures { self.new ≡ self.old ++ step ∷ [] }
    {
        self.room[self.len] = step;
        self.len += 1;
    }

    /// The steps, from the first to the last.
    fn as_slice(&self) -> &[Step]
        ensures { result.now ≡ self.now }
    {
        &self.room[..self.len]
    }
}

/// Whether all bytes are decimal digits.
fn are_decimal(text: &[u8]) -> bool
    ensures { result ≡ list_all is_ascii_digit text.now }
{
    text.iter().all(|byte| byte.is_ascii_digit())
}

/// The number that decimal digits write, where it is below 2^64. Zeros may stand before it.
pub fn decimal(text: &[u8]) -> Option<u64>
    ensures { result ≡ decimal_of text.now }
{
    if !are_decimal(text) {
        return None;
    }
    str::from_utf8(text).unwrap().parse().ok()
}

/// The index of an element: digits without a leading zero, of a number below 1,048,576.
fn index(text: &[u8]) -> Option<u32>
    ensures index { result ≡ index_of text.now }
    ensures below { IfSome result (λ index. index < element_limit) }
{
    if text.len() != 1 && !text.is_empty() && text[0] == b'0' {
        return None;
    }
    match decimal(text) {
        Some(value) if value < u64::from(Path::MAX_INDEX) => Some(value as u32),
        _ => None,
    }
}

/// The number of the member's name that a text is.
fn name(desc: &Desc, text: &[u8]) -> Option<u32>
    ensures { result ≡ name_of (plain_pieces desc.now) text.now }
{
    match as_text(text) {
        Some(text) => desc.number_of(text),
        None => None,
    }
}

/// The step that a text names: to a member, or to an element.
fn step_named(desc: &Desc, text: &[u8]) -> Option<Step>
    ensures step { result ≡ step_of (plain_pieces desc.now) text.now }
    ensures in_range { IfSome result (λ step. step_fits step ≡ true) }
{
    match name(desc, text) {
        Some(number) => Some(Step::Name(number)),
        None => Some(Step::Index(index(text)?)),
    }
}

/// Where the first slash is.
fn slash_place(text: &[u8]) -> Option<usize>
    ensures { result ≡ position is_slash text.now }
{
    text.iter().position(|byte| *byte == b'/')
}

/// The text up to the first slash, and what comes after that slash.
fn first_piece(text: &[u8]) -> (&[u8], Option<&[u8]>)
    ensures pieces { MatchOption result.1
        (slice_split is_slash text.now ≡ result.0.now ∷ [])
        (λ rest. slice_split is_slash text.now ≡ result.0.now ∷ slice_split is_slash rest.now) }
    ensures shorter { IfSome result.1 (λ rest. length rest.now < length text.now) }
{
    match slash_place(text) {
        Some(place) => (&text[..place], Some(&text[place + 1..])),
        None => (text, None),
    }
}

/// The steps that the texts between slashes name, where each names one and there are at most 64.
fn read_steps(desc: &Desc, text: &[u8]) -> Option<Steps>
    ensures steps { IfSome result (λ steps. steps_of (plain_pieces desc.now) (slice_split is_slash text.now) ≡ Some steps) }
    ensures few { IfSome result (λ steps. length steps ≤ 64) }
    ensures fits { IfSome result (λ steps. IsTrue (fits (reverse steps))) }
    ensures none { IfNone result (path_of_steps (steps_of (plain_pieces desc.now) (slice_split is_slash text.now)) ≡ None) }
{
    let mut steps = Steps::new();
    let mut rest = Some(text);
    while let Some(pieces) = rest {
        let (piece, behind) = first_piece(pieces);
        let step = step_named(desc, piece)?;
        if steps.is_full() {
            return None;
        }
        steps.push(step);
        rest = behind;
    }
    Some(steps)
}

/// The path after the first slash: none but that slash, or steps between slashes.
fn path_behind(alloc: Global, desc: &Desc, text: &[u8]) -> Result<Option<Path>, AllocError>
    ensures path { IfOk result (λ path. path ≡ path_behind (plain_pieces desc.now) text.now) }
    ensures refused { OnErr result (IsSome (path_behind (plain_pieces desc.now) text.now)) }
{
    if text.is_empty() {
        return Ok(Some(Path::root(alloc)));
    }
    match read_steps(desc, text) {
        Some(steps) => Ok(Some(Path::from_steps(alloc, steps.as_slice())?)),
        None => Ok(None),
    }
}

/// The path that a text names: `/`, or steps each begun by a slash. Memory is refused only where the text names a path.
pub fn path_of(alloc: Global, desc: &Desc, text: &[u8]) -> Result<Option<Path>, AllocError>
    ensures path { IfOk result (λ path. path ≡ path_named (plain_pieces desc.now) text.now) }
    ensures refused { OnErr result (IsSome (path_named (plain_pieces desc.now) text.now)) }
{
    match text {
        [b'/', behind @ ..] => path_behind(alloc, desc, behind),
        _ => Ok(None),
    }
}
