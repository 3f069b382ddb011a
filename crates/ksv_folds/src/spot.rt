//! Which node of a sequence.

/// A node of an element.
#[derive(Clone, Copy)]
pub(crate) enum Spot {
    /// The head of the element of this index.
    ElementHead(u32),
    /// Its end.
    ElementEnd(u32),
    /// The head of a field of the element, by its number.
    FieldHead(u32, u32),
    /// Its end.
    FieldEnd(u32, u32),
    /// The value of the field of the element that says how many bytes its last field takes.
    Value(u32),
}

/// A node that has a number.
#[derive(Clone, Copy)]
pub(crate) enum Numbered {
    /// A node of an element.
    Of(Spot),
    /// The rest of the list from the element of this index on.
    Rest(u32),
    /// The head of an element that isn't there, behind the last one; these are counted from 0.
    MissingHead(u32),
    /// Its end.
    MissingEnd(u32),
}
