//! How an attribute or a parse instance is read.

use crate::content::Choice;
use crate::valid::Valid;
use ksv_expr_tree::Expr;

/// Where something ends.
#[derive(Drop)]
pub enum Extent {
    /// After this many bytes.
    Sized(Expr),
    /// At the end of the stream.
    SizeEos,
    /// Without `size` or `size-eos`: at its terminator, or where its content ends.
    ByItself,
}

/// A byte that ends something.
#[derive(Clone, Copy)]
pub struct Terminator {
    /// The byte.
    pub byte: u8,
    /// Whether what follows begins after it.
    pub is_consumed: bool,
    /// Whether it is a part of the value.
    pub is_included: bool,
    /// Whether it must be there.
    pub is_required: bool,
}

/// How often something is read.
#[derive(Drop)]
pub enum Repeat {
    /// Once, and it is no list.
    Once,
    /// To the end of the stream.
    Eos,
    /// This many times.
    Expr(Expr),
    /// Until this is true of an element.
    Until(Expr),
}

/// What an attribute of a `seq`, or a parse instance, reads.
#[derive(Drop)]
pub struct Field {
    /// It is there only if this is true.
    pub condition: Option<Expr>,
    /// How often it is read.
    pub repeat: Repeat,
    /// What is read.
    pub choice: Choice,
    /// Where it ends.
    pub extent: Extent,
    /// The byte that ends it.
    pub terminator: Option<Terminator>,
    /// What its value, or each element of it, must meet.
    pub valid: Option<Valid>,
}
