//! Small sets of rules for the engine: rows that sum and name other rows, a chain of links, and sums of a file's bytes, which can be kept by numbers.

pub(crate) mod chain;
pub(crate) mod hashed;
pub(crate) mod link;
pub(crate) mod row;
pub(crate) mod rows;
pub(crate) mod sum_folds;
pub(crate) mod sum_list;
pub(crate) mod sums;
