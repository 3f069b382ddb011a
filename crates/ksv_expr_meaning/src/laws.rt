//! Laws of evaluation, each a contract of a function that does nothing.

ghost use Rattle.ksv_expr_meaning.specs.Integers.{DivisionIsFloored, BitsAreTold};
ghost use Rattle.ksv_expr_meaning.specs.Evaluation.{TruthIsMet, IsBounded, MeaningIsDirect};

/// If the replies are the answers of a map, an evaluation asks for what its expression wants there, one want after
/// the other, and ends with the expression's value.
pub fn truth_is_met()
    ensures { TruthIsMet }
{}

/// With as many replies as an expression can want, true or not, its evaluation ends.
pub fn is_bounded()
    ensures { IsBounded }
{}

/// The value of an expression over a map from wants to answers follows from the values of its parts, form by form.
pub fn meaning_is_direct()
    ensures { MeaningIsDirect }
{}

/// A dividend is its floored quotient times the divisor plus a remainder between 0 and the divisor.
pub fn division_is_floored()
    ensures { DivisionIsFloored }
{}

/// Each bit of `~x`, `x & y`, `x | y` and `x ^ y` follows from the same bit of the operands, in two's complement of any
/// width.
pub fn bits_are_told()
    ensures { BitsAreTold }
{}
