//! Laws of paths, each a contract of a function that does nothing.

ghost use Rattle.ksv_expr_value.specs.Exact.{EqualPathsAreSame};
ghost use Rattle.ksv_expr_value.specs.Numbers.{ArePathsNumbered};

/// Paths that `==` finds equal are the same path.
pub fn equal_paths_are_same()
    ensures { EqualPathsAreSame }
{}

/// Each path has a number of its own, and there are finitely many.
pub fn paths_are_numbered()
    ensures { ArePathsNumbered }
{}
