//! Where an expression is, and what is wrong with a name in it.

/// The key of an expression.
#[derive(Clone, Copy)]
pub enum Site {
    /// `if`
    Condition,
    /// `size`
    Size,
    /// `repeat-expr`
    Count,
    /// `repeat-until`
    Until,
    /// `switch-on`
    Switch,
    /// An argument of a type.
    Argument,
    /// `pos`
    Place,
    /// `io`
    Stream,
    /// `value`
    Value,
    /// A key of `cases`.
    Case,
    /// `eq`, `any-of`, `min` or `max` of `valid`.
    Valid,
    /// `expr` of `valid`.
    ValidExpr,
}

/// Where an expression is.
#[derive(Clone, Copy)]
pub struct Position {
    /// The key.
    pub site: Site,
    /// Whether the key is one of an attribute of a `seq`.
    pub in_sequence: bool,
    /// Whether the attribute or instance is repeated.
    pub is_repeated: bool,
}

/// What is wrong with a name in an expression.
#[derive(Clone, Copy)]
pub enum NameFault {
    /// Nothing has this name here.
    Unknown,
    /// The name may not be used in this way.
    LeftOut,
}
