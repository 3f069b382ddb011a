//! Laws of all expressions and tables.

ghost use Rattle.ksv_schema_names.specs.Resolved.{FaultlessIsResolved, FaultlessAreResolved, LeastIsTold};

/// If nothing is wrong with an expression or with a type's arguments, each of its names leads somewhere once it has its
/// number. The table of names must have the names of all members and those after the expression's dots.
pub fn faultless_is_resolved()
    ensures expression { FaultlessIsResolved }
    ensures arguments { FaultlessAreResolved }
{}

/// The least of an expression's faults is None exactly if there are none, and an unknown name if one of them is.
pub fn least_is_told()
    ensures { LeastIsTold }
{}
