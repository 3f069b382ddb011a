//! One step of a path.
ghost use Rattle.std.specs.Prelude.{◌≡◌};

/// A step from an object to one of its members, or from a list to one of its elements.
#[derive(Clone, Copy, PartialEq, Eq, Hash, Debug)]
pub enum Step {
    /// The member of this name, by the number that the description gives to the name.
    Name(u32),
    /// The element of this index, counted from 0.
    Index(u32),
}

impl Default for Step {
    ghost use Rattle.ksv_expr_value.specs.declared.step.Step.TheVariants.{Name};

    ghost is_default = { λ step. step ≡ Name 0 };

    /// The member of the first name: what fills room that holds no step.
    fn default() -> Step {
        Step::Name(0)
    }
}
