//! Expressions as trees: what a text spells, with fields for the numbers that a description gives to its names.

/// An operator in front of its operand.
#[derive(Clone, Copy, PartialEq, Eq, Debug)]
pub enum UnaryOperator {
    /// `-`
    Negate,
    /// `+`
    Plus,
    /// `~`
    Complement,
    /// `not`
    Not,
}

/// An operator between two operands, both of which are always evaluated.
#[derive(Clone, Copy, PartialEq, Eq, Debug)]
pub enum BinaryOperator {
    /// `+`
    Add,
    /// `-`
    Subtract,
    /// `*`
    Multiply,
    /// `/`
    Divide,
    /// `%`
    Remainder,
    /// `<<`
    ShiftLeft,
    /// `>>`
    ShiftRight,
    /// `&`
    BitAnd,
    /// `^`
    BitXor,
    /// `|`
    BitOr,
    /// `==`
    Equal,
    /// `!=`
    NotEqual,
    /// `<`
    Less,
    /// `<=`
    LessOrEqual,
    /// `>`
    Greater,
    /// `>=`
    GreaterOrEqual,
}

/// An operator between two truth values, whose right operand is evaluated only if the left one doesn't decide.
#[derive(Clone, Copy, PartialEq, Eq, Debug)]
pub enum LogicalOperator {
    /// `and`
    And,
    /// `or`
    Or,
}

/// A name to which the language itself gives a meaning.
#[derive(Clone, Copy, PartialEq, Eq, Debug)]
pub enum SpecialName {
    /// `_root`
    Root,
    /// `_parent`
    Parent,
    /// `_io`
    Io,
    /// `_index`
    Index,
    /// `_`, the element just read
    Element,
}

/// A value written in the text.
#[derive(Drop)]
pub enum Literal {
    /// An integer, at most 2^64 - 1.
    Number(u64),
    /// `true` or `false`
    Truth(bool),
    /// A text, its escapes replaced.
    Text(String),
}

/// The name of a type's member, alone or after a `.`.
#[derive(Drop)]
pub struct Name {
    /// The name as it is written.
    pub text: String,
    /// The number that the description gives to this name; None until it is loaded.
    pub number: Option<u32>,
}

/// The name of a type, `a::b`.
#[derive(Drop)]
pub struct TypeName {
    /// The names between the `::`, outermost first; at least one.
    pub path: Vec<String>,
    /// The type's number in the description; None until it is loaded.
    pub number: Option<u32>,
}

/// What a member `a::b::m` means.
#[derive(Clone, Copy, PartialEq, Eq, Debug)]
pub struct EnumMember {
    /// The enum's number in the description.
    pub enum_number: u32,
    /// The member's value, from -2^63 to 2^64 - 1.
    pub number: i128,
}

/// A member of an enum, `a::b::m`.
#[derive(Drop)]
pub struct Member {
    /// The names before the last `::`: those of types, and then the enum's; at least one.
    pub path: Vec<String>,
    /// The name after the last `::`.
    pub name: String,
    /// What it means; None until the description is loaded.
    pub given: Option<EnumMember>,
}

/// An expression.
#[derive(Drop)]
pub enum Expr {
    /// A number, truth value or text.
    Literal(Literal),
    /// A name alone, which is that of a member of the expression's own object.
    Name(Name),
    /// `_root`, `_parent`, `_io`, `_index` or `_` alone.
    Special(SpecialName),
    /// `a::b::m`
    Member(Member),
    /// An operator in front of its operand.
    Unary(UnaryOperator, Box<Expr>),
    /// An operator between its operands.
    Binary(BinaryOperator, Box<Expr>, Box<Expr>),
    /// `and` or `or` between its operands.
    Logical(LogicalOperator, Box<Expr>, Box<Expr>),
    /// `condition ? yes : no`
    Choice(Box<Expr>, Box<Expr>, Box<Expr>),
    /// `object.name`, a member or a method without parentheses.
    Field(Box<Expr>, Name),
    /// `object._root` and the other special names after a `.`.
    SpecialField(Box<Expr>, SpecialName),
    /// `object.name(arguments)`
    Call(Box<Expr>, String, Vec<Expr>),
    /// `list[place]`
    Index(Box<Expr>, Box<Expr>),
    /// `object.as<a::b>`
    Cast(Box<Expr>, TypeName),
}

/// A type with its arguments, `a::b(E, E)`.
#[derive(Drop)]
pub struct TypeRef {
    /// The type's name.
    pub name: TypeName,
    /// The expressions in parentheses; none if there are no parentheses.
    pub arguments: Vec<Expr>,
}
