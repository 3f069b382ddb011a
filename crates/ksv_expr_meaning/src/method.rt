//! The methods of values.

/// What the language itself gives a meaning after a `.`, on values that aren't objects.
#[derive(Clone, Copy)]
pub enum Method {
    /// `first`, of a list
    First,
    /// `last`, of a list
    Last,
    /// `size`, of a list or a stream
    Size,
    /// `length`, of a text or of bytes
    Length,
    /// `reverse`, of a text
    Reverse,
    /// `substring`, of a text
    Substring,
    /// `to_i`, of a text, a member or a truth value
    ToInteger,
    /// `to_s`, of an integer or of bytes
    ToText,
    /// `pos`, of the home's stream
    Place,
    /// `eof`, of the home's stream
    IsAtEnd,
}
