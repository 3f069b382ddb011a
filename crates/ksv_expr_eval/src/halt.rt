//! Why an evaluation stops before its end.

use ksv_expr_value::Fault;
use std::alloc::AllocError;

/// Why an evaluation stops before its end. `N` is what is needed where a want has no answer yet.
#[derive(Drop)]
pub enum Halt<N> {
    /// A want has no answer before this is known.
    Need(N),
    /// A fault.
    Fault(Fault),
    /// Memory was refused.
    Memory,
}

impl<N> From<AllocError> for Halt<N> {
    ghost use Rattle.std.specs.Prelude.{◌≡◌};
    ghost use Rattle.ksv_expr_eval.specs.declared.halt.Halt.TheVariants.{Memory};

    ghost from_gives = { λ _ e. e ≡ Memory };

    fn from(_e: AllocError) -> Halt<N> {
        Halt::Memory
    }
}
