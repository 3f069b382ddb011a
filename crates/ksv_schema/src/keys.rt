//! The keys of a description: which of them each mapping may have, and what the texts at them mean.
//!
//! The tables of keys are defined in `specs/Keys`, what the texts at them mean in `specs/KeyTexts`, and which expression or
//! type is read from a text in `specs/Expressions`.

pub(crate) mod expressions;
pub(crate) mod forms;
pub(crate) mod ids;
pub(crate) mod laws;
pub(crate) mod texts;
