//! What is read of a description's members (`specs/Members`), and of its types and enums (`specs/Description`).

pub(crate) mod check;
pub(crate) mod description;
pub(crate) mod enumeration;
pub(crate) mod member;
pub(crate) mod number;
