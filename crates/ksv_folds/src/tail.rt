//! Paths of elements and of their fields.

ghost use Rattle.std.specs.Prelude.{◌≡◌, ◌≢◌, ◌++◌, List, MatchOption};
ghost use Rattle.ksv_expr_value.specs.declared.step.Step.{Step};
ghost use Rattle.ksv_folds.specs.Tails.{IsTail, one_step, two_steps, tail_in};

use ksv_expr_value::{Path, Step};

/// What a path is to a list.
#[derive(Clone, Copy)]
pub(crate) enum Tail {
    /// No element, and no member of one.
    Other,
    /// The element of this index.
    Element(u32),
    /// Of this element, the member of this name.
    Member(u32, u32),
}

/// The steps behind those of a list.
fn behind<'a>(path: &'a [Step], list: &[Step]) -> Option<&'a [Step]>
    ensures { MatchOption result ((rest : List Step) → path.now ≢ list.now ++ rest) (λ rest. path.now ≡ list.now ++ rest.now) }
{
    path.strip_prefix(list)
}

/// An element's step.
fn one_step(step: Step) -> Tail
    ensures { result ≡ one_step step }
{
    match step {
        Step::Index(element) => Tail::Element(element),
        Step::Name(_) => Tail::Other,
    }
}

/// An element's step, and that of a member of it.
fn two_steps(first: Step, second: Step) -> Tail
    ensures { result ≡ two_steps first second }
{
    match (first, second) {
        (Step::Index(element), Step::Name(name)) => Tail::Member(element, name),
        _ => Tail::Other,
    }
}

/// What some steps behind a list's are.
fn tail_in(rest: &[Step]) -> Tail
    ensures { result ≡ tail_in rest.now }
{
    match rest {
        [step] => one_step(*step),
        [first, second] => two_steps(*first, *second),
        _ => Tail::Other,
    }
}

/// What a path is to a list's path.
pub(crate) fn tail_of(path: &Path, list: &Path) -> Tail
    ensures { IsTail list.now.upward path.now.upward result }
{
    match behind(path.steps(), list.steps()) {
        Some(rest) => tail_in(rest),
        None => Tail::Other,
    }
}
