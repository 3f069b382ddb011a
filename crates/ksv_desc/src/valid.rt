//! What a value must meet.

use ksv_expr_tree::Expr;

/// What a value must meet, once it is made: conditions in which `_` is that value.
#[derive(Drop)]
pub enum Valid {
    /// One of these is true. They are tried in this order.
    AnyOf(Vec<Expr>),
    /// Each of these is true. They are tried in this order.
    AllOf(Vec<Expr>),
}
